//! Why a text is no program.
use std::alloc::AllocFailed;
use tis_base::NoMemory;

/// Why a text is no program. Lines are counted from 1.
#[derive(Clone, Copy, Debug, PartialEq, Eq, Hash)]
pub enum AsmError {
    /// More than fifteen lines, blank ones at the end aside.
    TooManyLines,
    /// The line isn't a label, a mark and an instruction.
    BadLine { line: usize },
    /// The line has more than 80 bytes.
    LongLine { line: usize },
    /// The label of the line stands on a line above.
    RepeatedLabel { line: usize },
    /// The line jumps to a label that no line has.
    UnknownLabel { line: usize },
    /// Memory ran out.
    NoMemory,
}

impl From<NoMemory> for AsmError {
    ghost use Rattle.std.specs.Prelude.{◌≡◌};
    ghost use Rattle.tis_asm.specs.declared.error.AsmError.TheVariants as cause;

    ghost from_gives = { λ _ result. result ≡ cause.NoMemory };

    fn from(_: NoMemory) -> Self {
        AsmError::NoMemory
    }
}

impl<T: Drop> From<AllocFailed<T>> for AsmError {
    ghost use Rattle.std.specs.Prelude.{◌≡◌};
    ghost use Rattle.tis_asm.specs.declared.error.AsmError.TheVariants as cause;

    ghost from_gives = { λ _ result. result ≡ cause.NoMemory };

    fn from(_: AllocFailed<T>) -> Self {
        AsmError::NoMemory
    }
}
