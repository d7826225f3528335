//! Why a chunk gives no puzzle.
ghost use Rattle.std.specs.Prelude.{◌≡◌};
ghost use Rattle.tis_puzzle.specs.LuaPuzzle.{called};

use lua_machine::LuaError;
use std::alloc::AllocFailed;
use tis_base::NoMemory;

/// A function that a specification has to define.
#[derive(Clone, Copy, Debug, PartialEq, Eq)]
pub enum Wanted {
    /// `get_name`, which isn't called.
    Name,
    /// `get_description`, which isn't called.
    Description,
    /// `get_streams`, which gives the inputs and the outputs.
    Streams,
    /// `get_layout`, which gives the tiles.
    Layout,
}

impl Wanted {
    /// Its name in the chunk.
    pub fn function(self) -> &'static [u8]
        ensures { result.now ≡ called self }
    {
        match self {
            Wanted::Name => b"get_name",
            Wanted::Description => b"get_description",
            Wanted::Streams => b"get_streams",
            Wanted::Layout => b"get_layout",
        }
    }
}

/// Why a specification has no puzzle. Entries and values are counted from 1, and the first wrong one is named.
#[derive(Clone, Copy, Debug, PartialEq, Eq)]
pub enum PuzzleError {
    /// The function, the first such one, isn't defined.
    NoFunction { name: Wanted },
    /// The call of the function is a fault, or runs out of units. The error is never `NoMemory`.
    Lua { name: Wanted, error: LuaError },
    /// The entry is no stream and no image; 0 where there is no list of entries.
    BadStreams { index: usize },
    /// The entry is at a position that an earlier one on its side has.
    SamePlace { index: usize },
    /// The value is no kind of tile; 0 where there is no list of twelve values.
    BadLayout { index: usize },
    /// Memory ran out.
    NoMemory,
}

impl From<NoMemory> for PuzzleError {
    ghost use Rattle.std.specs.Prelude.{◌≡◌};
    ghost use Rattle.tis_puzzle.specs.declared.error.PuzzleError.TheVariants as cause;

    ghost from_gives = { λ _ result. result ≡ cause.NoMemory };

    fn from(_: NoMemory) -> Self {
        PuzzleError::NoMemory
    }
}

impl<T: Drop> From<AllocFailed<T>> for PuzzleError {
    ghost use Rattle.std.specs.Prelude.{◌≡◌};
    ghost use Rattle.tis_puzzle.specs.declared.error.PuzzleError.TheVariants as cause;

    ghost from_gives = { λ _ result. result ≡ cause.NoMemory };

    fn from(_: AllocFailed<T>) -> Self {
        PuzzleError::NoMemory
    }
}
