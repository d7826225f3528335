//! Networks that are one column, and the programs that carry them.
//!
//! # What it is for
//!
//! [`compile`] reads a text as a network of the form that is taken so far: one input at the top of a column,
//! one output at its bottom, and processes between them, each of which reads one name and writes another.
//! It makes the programs of its tiles.
//!
//! # What the crates above use
//!
//! `compile` refuses exactly the texts that aren't of the form (`specs/Form.antt`). The programs that it gives are
//! those of `compiled`, each of them is sound, and they carry the network: on every grid of
//! a puzzle that fits, whatever the order of its events, the outputs are prefixes of the network's Kahn streams,
//! no order is longer than a stated bound, and where no event can happen the outputs are those streams whole
//! (`specs/Carries.antt`).
//!
//! # An example
//!
//! ```text
//! let programs = compile(alloc, text)?;
//! let save = write_save(alloc, &programs)?;
//! ```
//!
//! # What it costs
//!
//! A text is read and checked in the time that `net_syntax` and `net_rules` take, and is written once to be compared.
//!
//! # What it doesn't do
//!
//! It takes no other networks than columns, and doesn't say why a text isn't taken.
#![tactic(auto)]

mod compiling;
mod emitting;
mod error;
mod form;
mod laws;

pub use compiling::compile;
pub use emitting::emit;
pub use error::FormError;
pub use form::is_column;
pub use laws::{nets_are_one, read_networks_are_small, steps_are_bounded};
