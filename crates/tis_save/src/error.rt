//! Why a text is no save.
use std::alloc::AllocFailed;
use tis_asm::AsmError;
use tis_base::NoMemory;

/// Why a text is no save of some tiles. Lines are counted from 1.
#[derive(Clone, Copy, Debug, PartialEq, Eq, Hash)]
pub enum SaveError {
    /// The line begins with `@`, but not with `@` and a number of one to three digits alone.
    BadHead { line: usize },
    /// No compute tile has the number of this head.
    UnknownBlock { line: usize },
    /// A head above has the same number.
    RepeatedBlock { line: usize },
    /// The line isn't blank, and no head stands above it.
    StrayCode { line: usize },
    /// The code of the block with this number is no program. Its lines are counted from the one below
    /// its head.
    Asm { block: u8, error: AsmError },
    /// Memory ran out.
    NoMemory,
}

impl From<NoMemory> for SaveError {
    ghost use Rattle.std.specs.Prelude.{◌≡◌};
    ghost use Rattle.tis_save.specs.declared.error.SaveError.TheVariants as cause;

    ghost from_gives = { λ _ result. result ≡ cause.NoMemory };

    fn from(_: NoMemory) -> Self {
        SaveError::NoMemory
    }
}

impl<T: Drop> From<AllocFailed<T>> for SaveError {
    ghost use Rattle.std.specs.Prelude.{◌≡◌};
    ghost use Rattle.tis_save.specs.declared.error.SaveError.TheVariants as cause;

    ghost from_gives = { λ _ result. result ≡ cause.NoMemory };

    fn from(_: AllocFailed<T>) -> Self {
        SaveError::NoMemory
    }
}
