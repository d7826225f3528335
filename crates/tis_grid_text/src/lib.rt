//! The texts of grids and of orders of events.
//!
//! # What it is for
//!
//! [`read_events`] reads an order of events, one a line, and [`read_grid`] reads a puzzle: the tiles, what
//! comes in at their top and what is wanted at their bottom. [`is_grid_text`] tells whether a text is that of a grid at all, by its
//! first line.
//!
//! # What the layers above use
//!
//! Each call answers what the definition of its text says over the list of lines that aren't blank: what the
//! text means, or the number of its first wrong line and what is wrong with it.
//!
//! # An example
//!
//! ```text
//! let puzzle = read_grid(alloc, b"grid 1\ntiles CCCC CCCC CCCC\ninput 1 5 7\noutput 1 5 7\n")?;
//! let events = read_events(alloc, b"in 1\nmeet 1 down\n")?;
//! ```
//!
//! # What it costs
//!
//! A text is read once from left to right.
//!
//! # What it doesn't do
//!
//! It doesn't say whether an event can happen: one that names a tile that no grid has is read like any other.
#![tactic(auto)]

mod error;
mod events;
mod grid;
mod laws;

pub use error::{EventsError, GridTextError};
pub use events::read_events;
pub use grid::{is_grid_text, read_grid};
pub use laws::{grids_are_puzzles, grids_have_heads};

#[cfg(test)]
mod tests;
