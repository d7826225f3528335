//! Saves: the programs of all tiles as one text.
//!
//! # What it is for
//!
//! A save has a block for each compute tile: a line `@` with the number of the tile among the compute tiles,
//! and then its code. [`read_save`] reads a save as players and other tools write it, with its blocks in any
//! order and code in any layout. [`write_save`] writes the canonical save of programs, in which only tiles with
//! instructions have a block, in reading order.
//!
//! # What the crates above use
//!
//! `read_save` gives exactly the programs that a text gives on some tiles, or refuses it for its first fault:
//! the first line that can't be one, and then the code of the first block that is no program. What is read of
//! a text is said by a grammar of its own (`specs/Reading.antt`), in which nothing is taken
//! from how saves are written. [`saves_read_back`] joins the two: the canonical save of programs whose jumps
//! stay inside is read as these programs. What a save gives are programs of its tiles, whose jumps stay
//! inside ([`saves_are_sound`]).
//!
//! # An example
//!
//! ```text
//! let programs = read_save(alloc, b"@1\nmov up down # in\n", tiles)?;
//! let bytes = write_save(alloc, &programs)?;        // @1, MOV UP, DOWN, an empty line
//! ```
//!
//! # What the calls cost
//!
//! `read_save` goes over the lines twice: once to test them, with a flag for each number that a head may have,
//! and once to read the blocks. Both take time that grows with the text and not faster. It holds the first
//! fifteen lines of one block at a time, and no more programs than there are tiles. Writing takes time that grows
//! with the text, and a copy of each block besides it.
//!
//! # What it doesn't do
//!
//! `write_save` doesn't test whether the programs are sound. It writes others too, with labels that no line has.
#![tactic(auto)]

mod block;
mod error;
mod head;
mod heads;
mod laws;
mod read;
mod write;

pub use error::SaveError;
pub use laws::{saves_are_sound, saves_read_back};
pub use read::read_save;
pub use write::write_save;

#[cfg(test)]
mod tests;
