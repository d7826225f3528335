//! The part of Lua that specifications are written in, from text to tree.
//!
//! [`parse`] gives the tree of a text ([`Chunk`], [`Item`], [`LuaStatement`], [`Expr`]), or says what is
//! wrong with it and on which line: `Syntax` names a token that can't come where it stands, or the last
//! line where more had to come, and `TooDeep` a token that would open one construct more than 64.
//! The layer above, which evaluates the tree, relies on this: the tree is `tree_of` of the bytes, and what `tree_of`
//! gives is what the grammar says, which knows nothing of reading. `laws` has it whole: a text is read exactly
//! where it is a chunk of the grammar that isn't nested too deep, and then with the one tree that the grammar
//! gives; `Syntax` names the first token with which no chunk goes on, and `TooDeep` the first that opens
//! one construct too many (`specs/Language.antt`).
//!
//! ```text
//! let chunk = parse(alloc, b"function f() return math.floor(7 / 2) end")?;
//! if chunk.defines(b"f") { .. chunk.items() .. }
//! ```
//!
//! A text is read once, from left to right, without recursion: a stack of grammar symbols says what may
//! come next, and stacks of parts hold what was read. Each token costs a bounded number of steps but for
//! the symbols that it ends, and each of these was put there by a token before. No part is copied. At most 64
//! constructs are open at once, so that a tree can be walked and dropped by recursion.
//!
//! The tree is of `lua_tree`, which a layer that doesn't read texts can stand on alone; the tokens are of `lua_tokens`, the
//! grammar and the table of `lua_grammar`. Nothing here evaluates anything or looks names up, and one fault alone is named, the first.
#![tactic(auto)]

mod building;
mod error;
mod expression_actions;
pub mod laws;
mod parsing;
mod parts;
mod reading;
mod stack;
mod statement_actions;

pub use error::LuaSyntax;
pub use lua_tree::{
    Arm, BinaryOp, Chunk, Entry, Expr, Item, LuaBlock, LuaStatement, Text, UnaryOp,
};
pub use parsing::parse;

#[cfg(test)]
mod tests;
