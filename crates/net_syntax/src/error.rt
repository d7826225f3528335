//! Why a text is no network.
ghost use Rattle.std.specs.Prelude.{◌≡◌};
ghost use Rattle.net_syntax.specs.declared.error.NetError.TheVariants.{NoMemory as no_memory};

use std::alloc::{AllocError, AllocFailed};
use std::error::Error;
use std::fmt;
use tis_base::NoMemory;

/// Why a text was not read as a network, with the number of a line, counted from 1.
#[derive(Clone, Copy, Debug, PartialEq, Eq, Hash)]
pub enum NetError {
    /// The line is wrong, or the first or the second line is missing.
    BadLine { line: usize },
    /// The line opens a block inside of sixteen others.
    TooDeep { line: usize },
    /// `end` or `else` stands where nothing is open that it could belong to.
    StrayEnd { line: usize },
    /// The text ends, and what this line opened is still open.
    Unclosed { line: usize },
    /// Memory ran out.
    NoMemory,
}

impl fmt::Display for NetError {
    fn fmt<W: fmt::Write>(&self, f: &mut fmt::Formatter<W>) -> fmt::Result {
        match self {
            NetError::BadLine { line } => write!(f, "line {line} is wrong or missing"),
            NetError::TooDeep { line } => write!(f, "line {line} opens too deep a block"),
            NetError::StrayEnd { line } => write!(f, "line {line} belongs to nothing"),
            NetError::Unclosed { line } => write!(f, "what line {line} opens has no end"),
            NetError::NoMemory => f.write_str("no memory"),
        }
    }
}

impl Error for NetError {}

impl From<NoMemory> for NetError {
    ghost from_gives = { λ _ e. e ≡ no_memory };

    fn from(_: NoMemory) -> Self {
        NetError::NoMemory
    }
}

impl From<AllocError> for NetError {
    ghost from_gives = { λ _ e. e ≡ no_memory };

    fn from(_: AllocError) -> Self {
        NetError::NoMemory
    }
}

impl<T: Drop> From<AllocFailed<T>> for NetError {
    ghost from_gives = { λ _ e. e ≡ no_memory };

    fn from(_: AllocFailed<T>) -> Self {
        NetError::NoMemory
    }
}
