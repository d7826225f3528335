//! What the functions of `table` make of parts.
ghost use Rattle.std.specs.Prelude.{◌≡◌, ◌<◌, ◌^◌, [], ◌∷◌, map, pos};
ghost use Rattle.std.specs.List.{All};
ghost use Rattle.lua_machine.specs.Library.{Insert, Remove, inserted, removed, table_result};
ghost use Rattle.lua_machine.specs.State.{State};
ghost use Rattle.lua_machine.specs.Value.{Number};
ghost use Rattle.lua_store.specs.Rows.{AreHeld, tables_of};
ghost use Rattle.lua_store.specs.Values.{AreApart, IsHeld, IsHeldKey, Texts, meant, meant_key};
ghost use Rattle.lua_operations.specs.Functions.{table_in};
ghost use Rattle.lua_operations.specs.Results.{Makes};

use crate::functions::TableFunction;
use lua_machine::LuaError;
use lua_store::{Key, LuaTables, SmallValue};

// A number as a key.
fn number_key(number: u64) -> Key
    requires { number < 2 ^ 63 }
    ensures key { (texts : Texts) → meant_key texts result ≡ Number (pos number) }
    ensures held { (texts : Texts) → IsHeldKey texts result }
{
    Key::Number(number as i64)
}

// Puts a value behind the border of a table. There is no memory for one past 2^63.
fn insert_at(tables: &mut LuaTables, at: usize, value: SmallValue) -> Result<SmallValue, LuaError>
    ensures made { (texts : Texts) (state : State) → AreApart texts → Makes texts result (record state { tables = tables_of texts tables.new }) (inserted at (meant texts value) (record state { tables = tables_of texts tables.old })) }
    ensures held { (texts : Texts) → IsHeld texts value → All (AreHeld texts) tables.old → All (AreHeld texts) tables.new }
{
    let behind = tables.border_at(at) + 1;
    if behind >= 9_223_372_036_854_775_808 {
        return Err(LuaError::NoMemory);
    }
    tables.put(at, number_key(behind), value)?;
    Ok(SmallValue::Nil)
}

// Takes the value at the border of a table, nil where there is none.
fn remove_at(tables: &mut LuaTables, at: usize) -> Result<SmallValue, LuaError>
    ensures made { (texts : Texts) (state : State) → AreApart texts → All (AreHeld texts) tables.old → Makes texts result (record state { tables = tables_of texts tables.new }) (removed at (record state { tables = tables_of texts tables.old })) }
    ensures held { (texts : Texts) → All (AreHeld texts) tables.old → All (AreHeld texts) tables.new }
{
    let last = tables.border_at(at);
    if last == 0 {
        return Ok(SmallValue::Nil);
    }
    let value = tables.value_at(at, number_key(last));
    tables.put(at, number_key(last), SmallValue::Nil)?;
    Ok(value)
}

// Puts a value behind the border of a value, which has to be a table.
fn insert_into(
    tables: &mut LuaTables,
    line: usize,
    table: SmallValue,
    value: SmallValue,
) -> Result<SmallValue, LuaError>
    ensures made { (texts : Texts) (state : State) → AreApart texts → Makes texts result (record state { tables = tables_of texts tables.new }) (table_result Insert line (meant texts table ∷ meant texts value ∷ []) (record state { tables = tables_of texts tables.old })) }
    ensures held { (texts : Texts) → IsHeld texts value → All (AreHeld texts) tables.old → All (AreHeld texts) tables.new }
{
    match table {
        SmallValue::Table(at) => insert_at(tables, at, value),
        _ => Err(LuaError::TypeFault { line }),
    }
}

// Takes the value at the border of a value, which has to be a table.
fn remove_from(
    tables: &mut LuaTables,
    line: usize,
    table: SmallValue,
) -> Result<SmallValue, LuaError>
    ensures made { (texts : Texts) (state : State) → AreApart texts → All (AreHeld texts) tables.old → Makes texts result (record state { tables = tables_of texts tables.new }) (table_result Remove line (meant texts table ∷ []) (record state { tables = tables_of texts tables.old })) }
    ensures held { (texts : Texts) → All (AreHeld texts) tables.old → All (AreHeld texts) tables.new }
{
    match table {
        SmallValue::Table(at) => remove_at(tables, at),
        _ => Err(LuaError::TypeFault { line }),
    }
}

// `table.insert` of two parts.
fn insert(
    tables: &mut LuaTables,
    line: usize,
    values: &[SmallValue],
) -> Result<SmallValue, LuaError>
    ensures made { (texts : Texts) (state : State) → AreApart texts → Makes texts result (record state { tables = tables_of texts tables.new }) (table_result Insert line (map (meant texts) values.now) (record state { tables = tables_of texts tables.old })) }
    ensures held { (texts : Texts) → All (IsHeld texts) values.now → All (AreHeld texts) tables.old → All (AreHeld texts) tables.new }
{
    match values {
        [table, value] => insert_into(tables, line, *table, *value),
        _ => Err(LuaError::TypeFault { line }),
    }
}

// `table.remove` of one part.
fn remove(
    tables: &mut LuaTables,
    line: usize,
    values: &[SmallValue],
) -> Result<SmallValue, LuaError>
    ensures made { (texts : Texts) (state : State) → AreApart texts → All (AreHeld texts) tables.old → Makes texts result (record state { tables = tables_of texts tables.new }) (table_result Remove line (map (meant texts) values.now) (record state { tables = tables_of texts tables.old })) }
    ensures held { (texts : Texts) → All (AreHeld texts) tables.old → All (AreHeld texts) tables.new }
{
    match values {
        [table] => remove_from(tables, line, *table),
        _ => Err(LuaError::TypeFault { line }),
    }
}

/// What a function of `table` makes of parts.
pub fn table_of_parts(
    tables: &mut LuaTables,
    function: TableFunction,
    line: usize,
    values: &[SmallValue],
) -> Result<SmallValue, LuaError>
    ensures made { (texts : Texts) (state : State) → AreApart texts → All (AreHeld texts) tables.old → Makes texts result (record state { tables = tables_of texts tables.new }) (table_result (table_in function) line (map (meant texts) values.now) (record state { tables = tables_of texts tables.old })) }
    ensures held { (texts : Texts) → All (IsHeld texts) values.now → All (AreHeld texts) tables.old → All (AreHeld texts) tables.new }
{
    match function {
        TableFunction::Insert => insert(tables, line, values),
        TableFunction::Remove => remove(tables, line, values),
    }
}
