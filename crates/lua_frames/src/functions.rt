//! Functions of the chunk.
use lua_tree::{LuaBlock, Text};

/// A function of the chunk.
#[derive(Clone, Copy)]
pub struct Function<'a> {
    pub params: &'a [Text],
    pub body: &'a LuaBlock,
}
