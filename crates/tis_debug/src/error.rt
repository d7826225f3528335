//! Why a call of a session or the text of a script is refused.
use std::alloc::AllocFailed;

/// Why a call of a session is refused. It leaves the session as it is.
#[derive(Clone, Copy, Debug, PartialEq, Eq, Hash)]
pub enum DebugError {
    /// More cycles are to be taken back than were kept; so many were.
    NoHistory { kept: u64 },
    /// The tile isn't a compute tile with a program.
    NoSuchNode { tile: u8 },
    /// The program has no instruction with this number, counted from 0.
    NoSuchLine { instruction: u8 },
}

/// Why a text is no script. Lines are counted from 1, and the first wrong one is named.
#[derive(Clone, Copy, Debug, PartialEq, Eq, Hash)]
pub enum ScriptError {
    /// The line is no command.
    Bad { line: usize },
    /// Memory ran out.
    NoMemory,
}

impl<T: Drop> From<AllocFailed<T>> for ScriptError {
    ghost use Rattle.std.specs.Prelude.{◌≡◌};
    ghost use Rattle.tis_debug.specs.declared.error.ScriptError.TheVariants as cause;

    ghost from_gives = { λ _ result. result ≡ cause.NoMemory };

    fn from(_: AllocFailed<T>) -> Self {
        ScriptError::NoMemory
    }
}
