//! The tree of a network of processes, and its canonical text.
//!
//! # What it is for
//!
//! - [`Net`] is a network: its tiles, its inputs and outputs ([`PortLine`]), its channels ([`ChannelLine`])
//!   and its processes ([`ProcessText`]), each with the number of its line.
//! - [`Block`] is statements in order, and [`Statement`] what a process does next. A statement may hold
//!   blocks.
//! - [`Name`] is a name of at most sixteen bytes, and [`Path`] the tiles that a pinned link passes.
//! - [`write_net`] gives the canonical text.
//!
//! # What the crates above use
//!
//! Contracts see the tree as plain data: `net_view` of `specs/View.antt`, in which a name is its
//! bytes, a block is its statements one after the other, and a line is a number. What `write_net` gives
//! is `net_text` of it, unless memory ran out, and `Block::copy` gives the same block again.
//!
//! # An example
//!
//! ```text
//! let mut body = Block::new(alloc);
//! body.push(Statement::Set(Var::X, Value::clamp(7)), 5)?;
//! let first = body.at(0);      // Statement::Set(Var::X, 7)
//! let line = body.line(0);     // 5
//! ```
//!
//! # What the calls cost
//!
//! A text and a copy take time and memory as the tree is large. A push takes memory now and then. The other
//! calls take none, and the same time each, those of names as they are long. Nothing bounds how deep blocks
//! stand in one another; a text that is read has at most sixteen.
//!
//! # What it doesn't do
//!
//! It reads no text (`net_syntax` does) and doesn't say whether a network can run.
#![tactic(auto)]

mod name;
mod path;
mod tree;
mod write;

pub use name::Name;
pub use path::Path;
pub use tree::{Block, ChannelLine, Net, PortLine, ProcessText, Statement, Test, Var};
pub use write::write_net;
