//! One compute node of the TIS-100, step by step.
//!
//! The layer above uses one promise: each call of [`Node`] is its entry in the table of a node that
//! `tis_asm` defines (`specs/Node.antt`), for every program and every state of a node of it. A node can
//! do a local step, take a value from a port that it wants one from, or give the value that it offers to
//! a port; the calls that ask come in front of the calls that do, and [`Node::intent`] asks all at once.
//!
//! ```text
//! let program = assemble(alloc, b"MOV UP, DOWN")?;
//! let mut node = Node::fresh();
//! if node.wants(&program, Dir::Up) {
//!     node.take(&program, Dir::Up, Value::clamp(5));
//! }
//! assert_eq!(node.offers(Dir::Down), Some(Value::clamp(5)));
//! ```
//!
//! Each call asks that the program is sound (each jump goes to one of its instructions) and that the node
//! is one of the program (`fits` is the test); each that changes the node keeps it one. No call takes
//! memory or refuses anything. Each takes a time that doesn't grow with the program: it looks at the one
//! instruction at `pc`.
//!
//! [`Decoded`] is a program that was read through once: beside each instruction that needs no port, or that reads from one
//! or writes to one that is named, it has a row of numbers, from which a step is computed with few branches. [`Node::advance`], [`Node::intent_by`] and
//! [`Node::waits_for`] take it, and give what the table says of the program.
#![tactic(auto)]

mod advancing;
mod decoded;
mod doing;
mod intending;
mod node;
mod ports;
mod row;

pub use decoded::Decoded;
pub use node::{Intent, Mode, Node, Toward};

#[cfg(test)]
mod tests;
