//! The bodies of processes with numbers in place of names.
//!
//! # What it is for
//!
//! [`NumberedBlock`] is statements in order, and [`NumberedStatement`] what a process does next, where a name is a
//! number. So what runs a process looks no name up.
//!
//! # What the crates above use
//!
//! Contracts see a body as the plain tree that `net_tree` has for names too, over numbers: `numbered_block` of
//! `specs/View.antt`. A push puts a statement behind the others, and `at` and `line` give it again.
//!
//! # An example
//!
//! ```text
//! let mut body = NumberedBlock::new(alloc);
//! body.push(NumberedStatement::Move(0, 2), 5)?;
//! let first = body.at(0);      // NumberedStatement::Move(0, 2)
//! let line = body.line(0);     // 5
//! ```
//!
//! # What the calls cost
//!
//! A push takes memory now and then. The other calls take none, and the same time each.
//!
//! # What it doesn't do
//!
//! It doesn't say which number a name has (`net_rules` does), and runs nothing.
#![tactic(auto)]

mod tree;

pub use tree::{NumberedBlock, NumberedStatement};

#[cfg(test)]
mod tests;
