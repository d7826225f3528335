//! The text of networks: processes that pass values to each other through channels.
//!
//! `read_net` gives the network that a text is, with the line of each declaration and statement, or
//! the first refusal. What it gives is `net_of` of the text, and no more is said of want of memory
//! than that it may be answered. The grammar over the lines of a text stands apart from the reader
//! in `specs/Grammar.antt`: which lines are a block, which are a network, and what the first line is
//! with which no network goes on. `networks_are_read` is the law that each network of the grammar is
//! the one that is read, and `read_networks_are_derived` that no other is. By
//! `texts_are_answered` every answer, each refusal too, is what the grammar says of the lines. By
//! `written_networks_are_read` the canonical text of a network that was read gives it again, with other line
//! numbers.
//!
//! ```text
//! let net = read_net(alloc, b"net 1\ntiles CCCC CCCC CCCC\nprocess p\nmove a o\nend\n")?;
//! let body = &net.processes[0].body;
//! let first = body.at(0);    // Statement::Move(a, o)
//! let line = body.line(0);   // 4
//! ```
//!
//! The tree is that of `net_tree`, whose types and `write_net` are given out again. Contracts see it as plain
//! data (`net_view`).
//!
//! A text is read in one pass. Time and memory grow with its length and not faster, and at most
//! sixteen open statements are kept.
//!
//! It doesn't say whether a network can run: which names there are, who reads and who writes them.
#![tactic(auto)]

mod error;
mod form;
mod keyword;
mod laws;
mod links;
mod operands;
mod read;
mod reader;
mod rows;
mod unread;

pub use error::NetError;
pub use laws::{
    networks_are_read, read_networks_are_derived, texts_are_answered, written_networks_are_read,
};
pub use net_tree::{
    Block, ChannelLine, Name, Net, Path, PortLine, ProcessText, Statement, Test, Var, write_net,
};
pub use read::read_net;

#[cfg(test)]
mod tests;
