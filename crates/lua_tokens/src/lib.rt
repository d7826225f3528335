//! The tokens of a text in Lua.
//!
//! [`piece`] gives the piece at the front of a text: a token, or a space or a comment that parts tokens. The layer
//! above relies on this: the piece is the one of `specs/Tokens.antt`, which says what a word, a numeral, a string, a
//! comment and a sign are, and it is at least one byte and no more than the text has. `tokens` there are the tokens of
//! a whole text, each with its line, and with the end of the text as the last. What begins no token, an open string or
//! comment too, is a token of the kind `Bad`.
//!
//! ```text
//! let first = piece(alloc, b"x = 1")?;    // a name, of one byte
//! let rest = &bytes[first.len..];
//! ```
//!
//! A piece takes time that grows with its length, and memory only for the bytes of a name or a string. It doesn't
//! say what may stand behind what.
#![tactic(auto)]

mod cutting;
mod kind;
mod pieces;
mod strings;
mod words;

pub use cutting::piece;
pub use kind::{Kind, Role};
pub use pieces::{Piece, Token};
pub use words::byte;
