//! The parts of the tree that were read and wait for what they are parts of.
use crate::stack::Stack;
use lua_tree::{Arm, Entry, Expr, Item, LuaStatement, Text};
use sqlite_items::Items;

/// The parts that were read, and how many constructs are open.
#[derive(Drop)]
pub struct Building {
    pub items: Items<Item>,
    pub params: Items<Text>,
    pub texts: Stack<Text>,
    pub exprs: Stack<Expr>,
    pub lists: Stack<Items<Expr>>,
    pub entries: Stack<Items<Entry>>,
    pub blocks: Stack<Items<LuaStatement>>,
    pub arms: Stack<Items<Arm>>,
    pub opened: usize,
}
