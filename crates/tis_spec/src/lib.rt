//! Specifications: what a save is run over.
//!
//! A specification is a text of one of two kinds. A grid text, whose first line that isn't blank is `grid 1`, says a puzzle as it
//! is. Any other text is a chunk of Lua, whose functions are called and give a puzzle that may differ from seed to seed.
//! [`read_spec`] gives the puzzle of a text and a seed. The layers above rely on this: what it answers is what the text gives
//! with the seed (`Specifies` of `specs/Specification.antt`), the puzzle or why there is none, unless memory ran out
//! ([`SpecError`]); and what is given is a puzzle of which a grid can be made.
//!
//! ```text
//! let puzzle = read_spec(alloc, b"grid 1\ntiles CCCC CCCC CCCC\ninput 1 5 7\noutput 1 5 7\n", 0)?;
//! ```
//!
//! `laws` says that each text gives one such answer with each seed, and that a text which is read as a grid gives that grid with
//! every seed.
//!
//! A grid text is read once, behind a look at its first line. A chunk is read once and then two of its functions are called, each with
//! as many units as one call may pay. Nothing is kept from one call to the next.
#![tactic(auto)]

mod error;
pub mod laws;
mod reading;

pub use error::SpecError;
pub use reading::read_spec;
