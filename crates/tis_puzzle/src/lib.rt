//! Puzzles of specifications in Lua.
//!
//! A specification is a chunk of Lua whose function `get_streams` gives a list of entries, and `get_layout` a list of
//! tiles. [`puzzle`] calls them with a seed, and gives the puzzle that they make, or says why there is none. The layers above rely on this:
//! the answer is what `LuaPuzzle` of `specs/LuaPuzzle.antt` says of the chunk and the seed, unless memory ran out. Refused is a function that is
//! missing, a call that fails, or a list that isn't what it has to be, whichever comes first.
//!
//! ```text
//! let chunk = parse(alloc, text)?;
//! let puzzle = puzzle(alloc, &chunk, seed)?;
//! ```
//!
//! Below it [`read_streams`] makes the ports of the first list, and [`read_layout`] the tiles of the second: each answer is what
//! `ports_of` of `specs/Entries.antt` and `layout_of` of `specs/Layout.antt` say, and the first wrong entry or value is the one that is refused.
//! `laws` says that each chunk has one answer with each seed, and that a grid can be made of what is given.
//!
//! A list is gone over once, an image's twice, and each of its values is held in two bytes. A list that is too long is
//! refused once it was copied. Each of the two functions is called once, and pays up to 500,000 units.
#![tactic(auto)]

mod calling;
mod entries;
mod error;
pub mod laws;
mod layout;

pub use calling::puzzle;
pub use entries::read_streams;
pub use error::{PuzzleError, Wanted};
pub use layout::read_layout;

#[cfg(test)]
mod tests;
