//! Reports: what a command that runs a grid says of its end.
//!
//! # What it is for
//!
//! A report is one text: a line that says how the run ended, and the outputs of the grid by ascending position. An
//! output that keeps its values is a line `out P` with them; one that draws is a line `image P` and the picture,
//! eighteen lines of thirty digits. [`ended_report`] is that of a run to rest or to its limit,
//! [`replayed_report`] and [`not_enabled_report`] are those of an order that was handed in. [`push_outputs`],
//! [`push_stream`], [`push_value`] and [`push_count`] write the parts that other reports share.
//!
//! # What the crates above use
//!
//! Each call gives exactly the text of `specs/Reports.antt` for the puzzle and the state that it is handed.
//! Nothing there knows of commands.
//!
//! # An example
//!
//! ```text
//! let text = replayed_report(alloc, 2, &puzzle, &state)?;      // events 2, and then out 1 5 -7
//! ```
//!
//! # What the calls cost
//!
//! Each goes over the values of an output once, and takes the memory of the text.
//!
//! # What it doesn't do
//!
//! It doesn't put the report anywhere, and doesn't test that the state is one of a grid of this puzzle: an output of
//! the puzzle that the state doesn't have is left out.
#![tactic(auto)]

mod count;
mod image;
mod outputs;
mod report;
mod stream;

pub use count::push_count;
pub use outputs::push_outputs;
pub use report::{ended_report, not_enabled_report, replayed_report};
pub use stream::{push_stream, push_value};

#[cfg(test)]
mod tests;
