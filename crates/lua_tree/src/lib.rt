//! The tree of a chunk of Lua, of the part that specifications are written in.
//!
//! [`Chunk`] has the [`Item`]s of a text, [`LuaStatement`] and [`Expr`] are its statements and expressions,
//! and [`Text`] is the bytes of a name or a string. The layers above rely on this: contracts see a `Chunk` as
//! the list of its items and a `Text` as the list of its bytes, and `specs/Plain.antt` gives each tree as plain
//! data, so that a contract needn't look into the boxes of a tree. Who reads a text makes the tree, who
//! evaluates it looks at it; nothing here knows of either.
//!
//! ```text
//! for item in chunk.items() { .. }       // in the order of the text
//! if chunk.defines(b"get_streams") { .. }
//! ```
//!
//! A look-up of a function goes over the items. Parentheses and comments aren't kept, and where a part stands is
//! kept only as the line on which an error in it is reported.
#![tactic(auto)]

mod chunk;
mod text;
mod tree;

pub use chunk::Chunk;
pub use text::Text;
pub use tree::{Arm, BinaryOp, Entry, Expr, Item, LuaBlock, LuaStatement, UnaryOp};
