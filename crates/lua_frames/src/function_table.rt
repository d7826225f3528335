//! The functions of a chunk, each found by its name.
ghost use Rattle.std.specs.Prelude.{◌≡◌, ℕ, List, IfOk, OnOk};
ghost use Rattle.std.specs.Option.{option_map, option_or};
ghost use Rattle.lua_machine.specs.Functions.{function_of};
ghost use Rattle.lua_machine.specs.Tree.{item_of, items_of};
ghost use Rattle.lua_frames.specs.FunctionTables.{AreOf, under};
ghost use Rattle.lua_frames.specs.Parts.{function_in, named};

use crate::functions::Function;
use indexmap::IndexMap;
use lua_tree::Item;
use std::alloc::Global;
use std::marker::Model;
use tis_base::NoMemory;

/// The items of a chunk, with their functions by name: of those of one name the last.
#[derive(Drop)]
pub struct FunctionTable<'a> {
    items: &'a [Item],
    by_name: IndexMap<&'a [u8], Function<'a>>,
}

impl<'a> Model for FunctionTable<'a> {
    ghost use Rattle.std.specs.Prelude.{List};
    ghost use Rattle.std.specs.Coded.{codes};
    ghost use Rattle.lua_tree.specs.declared.tree.Item.{Item};
    ghost use Rattle.lua_tree.specs.contracts.tree.Expr as expression;
    ghost use Rattle.lua_tree.specs.contracts.tree.LuaStatement as statement;
    ghost use Rattle.lua_machine.specs.Tree.{items_of};
    ghost use Rattle.lua_frames.specs.FunctionTables.{AreOf};

    ghost Value = { List Item };

    ghost coded = { Prim.hlevel (codes, expression.the_row.coded, statement.the_row.coded) };

    ghost view = { λ t. t.items.now };

    ghost invariant = { λ t. AreOf (items_of t.items.now) t.by_name.entries };
}

// A function stands in place of the one of its name before it; an assignment changes nothing.
fn add<'a>(by_name: &mut IndexMap<&'a [u8], Function<'a>>, item: &'a Item) -> Result<(), NoMemory>
    ensures { OnOk result ((name : List ℕ) → under by_name.new.entries name ≡ option_or (named name (item_of item.now)) (under by_name.old.entries name)) }
{
    if let Item::Function { name, params, body } = item {
        let function = Function {
            params: params.as_slice(),
            body,
        };
        by_name.insert(name.bytes(), function)?;
    }
    Ok(())
}

// The functions of items by their names.
fn gather<'a>(
    alloc: Global,
    items: &'a [Item],
) -> Result<IndexMap<&'a [u8], Function<'a>>, NoMemory>
    ensures { IfOk result (λ by_name. AreOf (items_of items.now) by_name.entries) }
{
    let mut by_name = IndexMap::new(alloc);
    let mut left = items;
    while let Some((item, others)) = left.split_first() {
        add(&mut by_name, item)?;
        left = others;
    }
    Ok(by_name)
}

impl<'a> FunctionTable<'a> {
    /// The functions of items.
    pub fn new(alloc: Global, items: &'a [Item]) -> Result<FunctionTable<'a>, NoMemory>
        ensures { IfOk result (λ table. table ≡ items.now) }
    {
        let by_name = gather(alloc, items)?;
        Ok(FunctionTable { items, by_name })
    }

    /// The items, in order.
    pub fn items(&self) -> &'a [Item]
        ensures { result.now ≡ self.now }
    {
        self.items
    }

    /// The function of a name: the last definition.
    pub fn find(&self, name: &[u8]) -> Option<Function<'a>>
        ensures { option_map function_in result ≡ function_of (items_of self.now) name.now }
    {
        match self.by_name.get(name) {
            Some(function) => Some(*function),
            None => None,
        }
    }
}
