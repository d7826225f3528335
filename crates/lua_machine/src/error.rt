//! Why a call of a chunk's function gives no value.
use std::alloc::AllocError;
use std::error::Error;
use std::fmt;
use tis_base::NoMemory;

/// A fault, with the line that is named.
#[derive(Clone, Copy, Debug, PartialEq, Eq)]
pub enum LuaError {
    /// An operand, an argument, a bound or a key of a wrong kind, a wrong number of arguments of a library's
    /// function, or an index of what is no table.
    TypeFault { line: usize },
    /// A call of no known function.
    UnknownName { line: usize },
    /// A quotient that isn't whole and isn't the argument of `math.floor`, or a divisor 0 of `/` or `%`.
    Inexact { line: usize },
    /// A number past 2^53 either way, a draw whose first number is above its last, or a step 0 of a `for`.
    OutOfRange { line: usize },
    /// A text of more than 1,024 bytes.
    LongString { line: usize },
    /// A call that would be the hundred and first open one.
    TooDeepCalls { line: usize },
    /// Unit 500,001 would be paid.
    Budget,
    /// Memory ran out.
    NoMemory,
}

impl fmt::Display for LuaError {
    fn fmt<W: fmt::Write>(&self, f: &mut fmt::Formatter<W>) -> fmt::Result {
        match self {
            LuaError::TypeFault { line } => write!(
                f,
                "wrong kind or number of values on line {line}"
            ),
            LuaError::UnknownName { line } => write!(f, "no such function on line {line}"),
            LuaError::Inexact { line } => write!(f, "no exact quotient on line {line}"),
            LuaError::OutOfRange { line } => write!(f, "number out of range on line {line}"),
            LuaError::LongString { line } => write!(f, "text too long on line {line}"),
            LuaError::TooDeepCalls { line } => write!(f, "too many open calls on line {line}"),
            LuaError::Budget => f.write_str("budget spent"),
            LuaError::NoMemory => f.write_str("no memory"),
        }
    }
}

impl Error for LuaError {}

impl From<NoMemory> for LuaError {
    ghost use Rattle.std.specs.Prelude.{◌≡◌};
    ghost use Rattle.lua_machine.specs.declared.error.LuaError.TheVariants as e;

    ghost from_gives = { λ _ given. given ≡ e.NoMemory };

    fn from(_: NoMemory) -> Self {
        LuaError::NoMemory
    }
}

impl From<AllocError> for LuaError {
    ghost use Rattle.std.specs.Prelude.{◌≡◌};
    ghost use Rattle.lua_machine.specs.declared.error.LuaError.TheVariants as e;

    ghost from_gives = { λ _ given. given ≡ e.NoMemory };

    fn from(_: AllocError) -> Self {
        LuaError::NoMemory
    }
}
