//! Taking and adding the newest parts.
ghost use Rattle.std.specs.Prelude.{◌≡◌, [], OnOk};
ghost use Rattle.lua_syntax.specs.Stacks.{top};
ghost use Rattle.lua_syntax.specs.Building as spec;

use crate::building::Building;
use crate::stack::Stack;
use lua_tree::{Arm, Entry, Expr, LuaBlock, LuaStatement, Text};
use sqlite_items::Items;
use std::alloc::Global;
use tis_base::NoMemory;

/// Puts one more at the end of the list on top.
pub fn push_at_end<T: Drop>(
    alloc: Global,
    lists: &mut Stack<Items<T>>,
    item: T,
) -> Result<(), NoMemory>
    ensures { OnOk result (lists.new ≡ spec.at_end item lists.old) }
{
    let mut list = lists.pop_or(Items::new(alloc));
    list.push(item)?;
    lists.push(list)
}

impl Building {
    pub fn new(alloc: Global) -> Building
        ensures { result ≡ spec.nothing_read }
    {
        Building {
            items: Items::new(alloc),
            params: Items::new(alloc),
            texts: Stack::new(alloc),
            exprs: Stack::new(alloc),
            lists: Stack::new(alloc),
            entries: Stack::new(alloc),
            blocks: Stack::new(alloc),
            arms: Stack::new(alloc),
            opened: 0,
        }
    }

    /// The newest text.
    pub fn text(&mut self, alloc: Global) -> Text
        ensures text { result ≡ spec.text self.old }
        ensures rest { self.new ≡ spec.less_text self.old }
    {
        self.texts.pop_or(Text::new(alloc))
    }

    /// The newest expression.
    pub fn expression(&mut self) -> Expr
        ensures expression { result ≡ spec.expression self.old }
        ensures rest { self.new ≡ spec.less_expression self.old }
    {
        self.exprs.pop_or(Expr::Nil)
    }

    /// The newest list of arguments.
    pub fn list(&mut self, alloc: Global) -> Items<Expr>
        ensures list { result ≡ top [] self.old.lists }
        ensures rest { self.new ≡ spec.less_list self.old }
    {
        self.lists.pop_or(Items::new(alloc))
    }

    /// The newest block.
    pub fn block(&mut self, alloc: Global) -> LuaBlock
        ensures block { result ≡ spec.block self.old }
        ensures rest { self.new ≡ spec.less_block self.old }
    {
        LuaBlock {
            statements: self.blocks.pop_or(Items::new(alloc)),
        }
    }

    /// The newest arms.
    pub fn arms(&mut self, alloc: Global) -> Items<Arm>
        ensures arms { result ≡ top [] self.old.arms }
        ensures rest { self.new ≡ spec.less_arms self.old }
    {
        self.arms.pop_or(Items::new(alloc))
    }

    pub fn add_expression(&mut self, new: Expr) -> Result<(), NoMemory>
        ensures { OnOk result (self.new ≡ spec.with_expression new self.old) }
    {
        self.exprs.push(new)
    }

    pub fn add_statement(&mut self, alloc: Global, new: LuaStatement) -> Result<(), NoMemory>
        ensures { OnOk result (self.new ≡ spec.with_statement new self.old) }
    {
        push_at_end(alloc, &mut self.blocks, new)
    }

    pub fn add_entry(&mut self, alloc: Global, new: Entry) -> Result<(), NoMemory>
        ensures { OnOk result (self.new ≡ spec.with_entry new self.old) }
    {
        push_at_end(alloc, &mut self.entries, new)
    }
}
