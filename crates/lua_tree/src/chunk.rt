//! A chunk: the definitions of a text.
ghost use Rattle.std.specs.Prelude.{◌≡◌, length};
ghost use Rattle.lua_tree.specs.Defines.{defines, names_function};

use crate::tree::Item;
use sqlite_items::Items;
use std::marker::Model;

/// The items of a text, in order.
#[derive(Drop)]
pub struct Chunk {
    items: Items<Item>,
}

impl Model for Chunk {
    ghost use Rattle.std.specs.Prelude.{List};
    ghost use Rattle.std.specs.Coded.{codes};
    ghost use Rattle.lua_tree.specs.declared.tree.Item.{Item};
    ghost use Rattle.lua_tree.specs.contracts.tree.Expr as expression;
    ghost use Rattle.lua_tree.specs.contracts.tree.LuaStatement as statement;

    ghost Value = { List Item };

    ghost coded = { Prim.hlevel (codes, expression.the_row.coded, statement.the_row.coded) };

    ghost view = { λ c. c.items };
}

impl Chunk {
    pub fn new(items: Items<Item>) -> Chunk
        ensures { result ≡ items }
    {
        Chunk { items }
    }

    /// The items, in order.
    pub fn items(&self) -> &[Item]
        ensures { result.now ≡ self.now }
    {
        self.items.as_slice()
    }

    /// Whether there is a function of this name.
    pub fn defines(&self, name: &[u8]) -> bool
        ensures { result ≡ defines name.now self.now }
    {
        defines_in(self.items.as_slice(), name)
    }
}

fn names_function(item: &Item, name: &[u8]) -> bool
    ensures { result ≡ names_function name.now item.now }
{
    match item {
        Item::Function { name: called, .. } => called.bytes() == name,
        Item::Assign { .. } => false,
    }
}

fn defines_in(items: &[Item], name: &[u8]) -> bool
    ensures { result ≡ defines name.now items.now }
{
    let mut at = 0;
    while at < items.len() {
        if names_function(&items[at], name) {
            return true;
        }
        at += 1;
    }
    false
}
