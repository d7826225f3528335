//! The pieces that a text is cut into, and tokens.
use crate::kind::Kind;
use lua_tree::Text;

/// A token, or what stands between tokens: its kind, the bytes of a name or a string, and how many
/// bytes it takes.
#[derive(Drop)]
pub struct Piece {
    pub kind: Kind,
    pub text: Text,
    pub len: usize,
}

/// A token: its kind, the line on which it begins, and the bytes of a name or a string.
#[derive(Drop)]
pub struct Token {
    pub kind: Kind,
    pub line: usize,
    pub text: Text,
}
