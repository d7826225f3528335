//! The grammar of the part of Lua that specifications are written in.
//!
//! `specs/Grammar.antt` is the grammar as a relation: which tokens are a form, and the tree that it gives.
//! `specs/Nesting.antt` says what is open in each form. `specs/Table.antt` is the table of a parser that one token
//! decides, and [`row`] and [`operand_row`] are its rows, computed: what becomes of a [`Symbol`] before a token.
//! The layer above relies on this: a row is exactly that of the table. That the table reads the grammar is
//! shown there.
//!
//! ```text
//! match row(Symbol::Expression, 0, Kind::Nil, 1) {
//!     Row::Begins(behind) => ..,      // an operand begins here, and these symbols come behind it
//!     _ => ..,
//! }
//! ```
//!
//! A row takes no memory and no look at anything but the symbol and the token. Nothing here reads a text or makes a tree.
#![tactic(auto)]

mod expressions;
mod statements;
mod symbol;
mod table;
mod targets;

pub use expressions::operand_row;
pub use symbol::{Action, Body, Mark, Row, Symbol};
pub use table::row;
