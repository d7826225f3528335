//! Which rule a network breaks.
ghost use Rattle.std.specs.Prelude.{◌≡◌};
ghost use Rattle.net_rules.specs.declared.error.RuleError.TheVariants.{NoMemory as no_memory};

use std::error::Error;
use std::fmt;
use tis_base::NoMemory;

/// The first rule that a network breaks, with the number of a line, counted from 1, or of a process,
/// counted from 0.
#[derive(Clone, Copy, Debug, PartialEq, Eq, Hash)]
pub enum RuleError {
    /// A read of a name that is no input or channel, or a write of one that is no output or channel.
    Unknown { line: usize },
    /// A name that an earlier input, output or channel has, or, of a process, that an earlier process has.
    Repeated { line: usize },
    /// A position that an earlier line of the same side has.
    SamePlace { line: usize },
    /// A read of a name that an earlier statement of another process reads.
    ReadTwice { line: usize },
    /// A write of a name that an earlier statement of another process writes.
    WrittenTwice { line: usize },
    /// A statement in a `count` that changes its variable.
    CounterChanged { line: usize },
    /// An input or a channel that no process reads.
    Unread { line: usize },
    /// A channel or an output that no process writes.
    Unwritten { line: usize },
    /// A read of a channel whose writer doesn't stand earlier.
    ReadBeforeWritten { line: usize },
    /// A process whose body doesn't surely read.
    NoSureRead { process: u32 },
    /// A `while` whose block doesn't surely read.
    LoopWithoutRead { line: usize },
    /// A process that reads what was spread, and something else.
    JoinAfterSplit { process: u32 },
    /// Memory ran out.
    NoMemory,
}

impl From<NoMemory> for RuleError {
    ghost from_gives = { λ _ e. e ≡ no_memory };

    fn from(_error: NoMemory) -> Self {
        RuleError::NoMemory
    }
}

impl fmt::Display for RuleError {
    fn fmt<W: fmt::Write>(&self, f: &mut fmt::Formatter<W>) -> fmt::Result {
        match self {
            RuleError::Unknown { line } => write!(f, "line {line} has an unknown name"),
            RuleError::Repeated { line } => write!(f, "line {line} repeats a name"),
            RuleError::SamePlace { line } => write!(f, "line {line} has a taken position"),
            RuleError::ReadTwice { line } => write!(
                f,
                "line {line} reads a name of another reader"
            ),
            RuleError::WrittenTwice { line } => {
                write!(f, "line {line} writes a name of another writer")
            }
            RuleError::CounterChanged { line } => write!(f, "line {line} changes a counter"),
            RuleError::Unread { line } => write!(f, "what line {line} declares isn't read"),
            RuleError::Unwritten { line } => write!(f, "what line {line} declares isn't written"),
            RuleError::ReadBeforeWritten { line } => {
                write!(f, "line {line} reads before it is written")
            }
            RuleError::NoSureRead { process } => write!(f, "process {process} may never read"),
            RuleError::LoopWithoutRead { line } => write!(f, "line {line} may loop without a read"),
            RuleError::JoinAfterSplit { process } => {
                write!(f, "process {process} joins what was split")
            }
            RuleError::NoMemory => f.write_str("no memory"),
        }
    }
}

impl Error for RuleError {}
