//! What operators make of parts.
ghost use Rattle.std.specs.Prelude.{◌≡◌, ◌<◌, [], ◌∷◌, get_or, length, map, not, IsTrue};
ghost use Rattle.lua_machine.specs.State.{State};
ghost use Rattle.lua_machine.specs.Yields.{binary_result, floor_result, indexed, unary_result, with_member};
ghost use Rattle.lua_store.specs.Rows.{AreHeld, tables_of};
ghost use Rattle.lua_store.specs.Values.{AreApart, IsHeld, Texts, meant};
ghost use Rattle.std.specs.List.{All};
ghost use Rattle.lua_operations.specs.Results.{Comes};
ghost use Rattle.lua_operations.specs.Operations.{IsMade, is_join};

use crate::operators::{binary_value, floor_value, joined_bytes, unary_value};
use lua_machine::LuaError;
use lua_store::{HeldTexts, LuaTables, SmallValue};
use lua_tree::{BinaryOp, UnaryOp};
use std::alloc::Global;

/// What an operator makes of its one part.
pub fn unary_of_parts(
    texts: &HeldTexts,
    tables: &LuaTables,
    op: UnaryOp,
    line: usize,
    values: &[SmallValue],
) -> Result<SmallValue, LuaError>
    requires { All (IsHeld texts.now) values.now }
    ensures { (state : State) → state.tables ≡ tables_of texts.now tables.now → Comes texts.now result (unary_result op line (map (meant texts.now) values.now) state).outcome }
{
    match values {
        [a] => unary_value(texts, tables, op, line, *a),
        _ => Err(LuaError::TypeFault { line }),
    }
}

/// The floor of a quotient of two parts.
pub fn floor_of_parts(line: usize, values: &[SmallValue]) -> Result<SmallValue, LuaError>
    ensures { (texts : Texts) (state : State) → Comes texts result (floor_result line (map (meant texts) values.now) state).outcome }
{
    match values {
        [a, b] => floor_value(line, *a, *b),
        _ => Err(LuaError::TypeFault { line }),
    }
}

/// What a binary operator but `and`, `or` and `..` makes of two parts.
pub fn binary_of_parts(
    texts: &HeldTexts,
    op: BinaryOp,
    line: usize,
    values: &[SmallValue],
) -> Result<SmallValue, LuaError>
    requires held { All (IsHeld texts.now) values.now }
    requires apart { AreApart texts.now }
    ensures { IsTrue (not (is_join op)) → (state : State) → Comes texts.now result (binary_result op line (map (meant texts.now) values.now) state).outcome }
{
    match values {
        [a, b] => binary_value(texts, op, line, *a, *b),
        _ => Err(LuaError::TypeFault { line }),
    }
}

/// The bytes of two parts that join.
pub fn joined_of_parts(
    texts: &HeldTexts,
    alloc: Global,
    line: usize,
    values: &[SmallValue],
) -> Result<Vec<u8>, LuaError>
    requires { All (IsHeld texts.now) values.now }
    ensures { (state : State) → IsMade result (binary_result BinaryOp.Join line (map (meant texts.now) values.now) state).outcome }
{
    match values {
        [a, b] => joined_bytes(texts, alloc, line, *a, *b),
        _ => Err(LuaError::TypeFault { line }),
    }
}

/// Whether it is the operator `..`.
pub fn is_join(op: BinaryOp) -> bool
    ensures { result ≡ is_join op }
{
    match op {
        BinaryOp::Join => true,
        _ => false,
    }
}

// The value at a key of a table.
fn index_value(
    tables: &LuaTables,
    line: usize,
    table: SmallValue,
    key: SmallValue,
) -> Result<SmallValue, LuaError>
    ensures { (texts : Texts) (state : State) → AreApart texts → All (AreHeld texts) tables.now → IsHeld texts key → state.tables ≡ tables_of texts tables.now → Comes texts result (indexed line (meant texts table ∷ meant texts key ∷ []) state).outcome }
{
    match table {
        SmallValue::Table(at) => match key.as_key() {
            Some(key) => Ok(tables.value_at(at, key)),
            None => Err(LuaError::TypeFault { line }),
        },
        _ => Err(LuaError::TypeFault { line }),
    }
}

/// The value at a key of a table, which both are parts.
pub fn index_of_parts(
    tables: &LuaTables,
    line: usize,
    values: &[SmallValue],
) -> Result<SmallValue, LuaError>
    ensures { (texts : Texts) (state : State) → AreApart texts → All (AreHeld texts) tables.now → All (IsHeld texts) values.now → state.tables ≡ tables_of texts tables.now → Comes texts result (indexed line (map (meant texts) values.now) state).outcome }
{
    match values {
        [table, key] => index_value(tables, line, *table, *key),
        _ => Err(LuaError::TypeFault { line }),
    }
}

/// The member at a place among the texts of a table that is the one part.
pub fn select_of_parts(
    tables: &LuaTables,
    line: usize,
    name: usize,
    values: &[SmallValue],
) -> Result<SmallValue, LuaError>
    ensures { (texts : Texts) (state : State) → AreApart texts → All (AreHeld texts) tables.now → All (IsHeld texts) values.now → name < length texts → state.tables ≡ tables_of texts tables.now → Comes texts result (indexed line (with_member (get_or texts name []) (map (meant texts) values.now)) state).outcome }
{
    match values {
        [table] => index_value(tables, line, *table, SmallValue::Text(name)),
        [table, key] => index_value(tables, line, *table, *key),
        _ => Err(LuaError::TypeFault { line }),
    }
}
