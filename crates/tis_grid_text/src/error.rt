//! Why a text is refused.
use std::alloc::AllocFailed;
use tis_base::NoMemory;

/// Why a text is no grid. Lines are counted from 1, and the first wrong one is named.
#[derive(Clone, Copy, Debug, PartialEq, Eq, Hash)]
pub enum GridTextError {
    /// The line isn't what stands there in a grid text; where a line is missing, the number is the one
    /// after the last line.
    BadLine { line: usize },
    /// The line is an input, an output or an image at a position that an earlier one on its side has.
    SamePlace { line: usize },
    /// Memory ran out.
    NoMemory,
}

impl From<NoMemory> for GridTextError {
    ghost use Rattle.std.specs.Prelude.{◌≡◌};
    ghost use Rattle.tis_grid_text.specs.declared.error.GridTextError.TheVariants as cause;

    ghost from_gives = { λ _ result. result ≡ cause.NoMemory };

    fn from(_: NoMemory) -> Self {
        GridTextError::NoMemory
    }
}

impl<T: Drop> From<AllocFailed<T>> for GridTextError {
    ghost use Rattle.std.specs.Prelude.{◌≡◌};
    ghost use Rattle.tis_grid_text.specs.declared.error.GridTextError.TheVariants as cause;

    ghost from_gives = { λ _ result. result ≡ cause.NoMemory };

    fn from(_: AllocFailed<T>) -> Self {
        GridTextError::NoMemory
    }
}

/// Why a text has no events. Lines are counted from 1, and the first wrong one is named.
#[derive(Clone, Copy, Debug, PartialEq, Eq, Hash)]
pub enum EventsError {
    /// The line names no event.
    Bad { line: usize },
    /// Memory ran out.
    NoMemory,
}

impl<T: Drop> From<AllocFailed<T>> for EventsError {
    ghost use Rattle.std.specs.Prelude.{◌≡◌};
    ghost use Rattle.tis_grid_text.specs.declared.error.EventsError.TheVariants as cause;

    ghost from_gives = { λ _ result. result ≡ cause.NoMemory };

    fn from(_: AllocFailed<T>) -> Self {
        EventsError::NoMemory
    }
}
