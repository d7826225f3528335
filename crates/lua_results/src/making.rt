//! Plain values of held ones.
ghost use Rattle.std.specs.Prelude.{◌≡◌, ◌<◌, ◌^◌, ◌-◌, ◌+◌, pos};
ghost use Rattle.std.specs.List.{All};
ghost use Rattle.lua_machine.specs.Answer.{each, plain_of};
ghost use Rattle.lua_machine.specs.Tables.{at_key, plain_list, row};
ghost use Rattle.lua_machine.specs.Value.{Number};
ghost use Rattle.lua_store.specs.Rows.{AreHeld, tables_of};
ghost use Rattle.lua_store.specs.Values.{AreApart, IsHeld, Texts, meant};
ghost use Rattle.lua_results.specs.Results.{Makes, MakesAll, Pays};

use lua_machine::LuaError;
use lua_plain::{Plain, Plains};
use lua_store::{HeldTexts, Key, LuaTables, SmallValue};
use lua_tree::Text;
use std::alloc::Global;

// So many tables may lie one inside the other.
const LEVELS: u8 = 4;

// Pays a unit, where one is left.
fn pay(units: &mut u64) -> Result<(), LuaError>
    ensures { Pays result units.old units.new }
{
    if *units == 0 {
        return Err(LuaError::Budget);
    }
    *units -= 1;
    Ok(())
}

// The value of a table behind the numbers up to one.
fn value_behind(tables: &LuaTables, at: usize, before: u64) -> SmallValue
    requires { before < 2 ^ 63 - 1 }
    ensures held { (texts : Texts) → All (AreHeld texts) tables.now → IsHeld texts result }
    ensures value { (texts : Texts) → AreApart texts → meant texts result ≡ at_key (row (tables_of texts tables.now) at) (Number (pos (before + 1))) }
{
    tables.value_at(at, Key::Number(before as i64 + 1))
}

// A value made plain, where so many tables may still lie one inside the other.
#[cycle(making)]
fn make(
    alloc: Global,
    tables: &LuaTables,
    texts: &HeldTexts,
    value: SmallValue,
    levels: u8,
    units: &mut u64,
) -> Result<Plain, LuaError>
    requires apart { AreApart texts.now }
    requires value { IsHeld texts.now value }
    requires held { All (AreHeld texts.now) tables.now }
    ensures { Makes result units.old units.new (plain_of levels (tables_of texts.now tables.now) (meant texts.now value)) }
{
    pay(units)?;
    match value {
        SmallValue::Nil => Ok(Plain::Nil),
        SmallValue::Truth(truth) => Ok(Plain::Truth(truth)),
        SmallValue::Number(number) => Ok(Plain::Number(number.get())),
        SmallValue::Text(at) => Ok(Plain::Text(Text::from_slice(alloc, texts.bytes(at))?)),
        SmallValue::Table(at) => {
            if levels == 0 {
                return Ok(Plain::Deep);
            }
            match make_all(alloc, tables, texts, at, levels - 1, units) {
                Ok(list) => Ok(Plain::List(list)),
                Err(why) => Err(why),
            }
        }
    }
}

// The values of a table made plain, at 1, 2 and so on, before the first key that isn't there.
#[cycle(making)]
fn make_all(
    alloc: Global,
    tables: &LuaTables,
    texts: &HeldTexts,
    at: usize,
    levels: u8,
    units: &mut u64,
) -> Result<Plains, LuaError>
    requires apart { AreApart texts.now }
    requires held { All (AreHeld texts.now) tables.now }
    ensures { MakesAll result units.old units.new (each (plain_of levels (tables_of texts.now tables.now)) (plain_list (row (tables_of texts.now tables.now) at))) }
{
    let border = tables.border_at(at);
    let mut list = Plains::new(alloc);
    for before in 0..border {
        let value = value_behind(tables, at, before);
        list.push(make(alloc, tables, texts, value, levels, units)?)?;
    }
    Ok(list)
}

/// A value made plain, with a unit paid for each value that is. `Budget` is answered where more units are wanted than are
/// left, and `NoMemory` where memory runs out.
pub fn make_plain(
    alloc: Global,
    tables: &LuaTables,
    texts: &HeldTexts,
    value: SmallValue,
    units: &mut u64,
) -> Result<Plain, LuaError>
    requires apart { AreApart texts.now }
    requires value { IsHeld texts.now value }
    requires held { All (AreHeld texts.now) tables.now }
    ensures { Makes result units.old units.new (plain_of 4 (tables_of texts.now tables.now) (meant texts.now value)) }
{
    make(alloc, tables, texts, value, LEVELS, units)
}
