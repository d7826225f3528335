//! How expressions are taken that have no parts, call nothing and have no fault.
ghost use Rattle.lua_machine.specs.Tree.{node_of};
ghost use Rattle.lua_state.specs.Held.{store_of};
ghost use Rattle.lua_frames.specs.Simple.{Pushes, Puts, Takes, simple_value};

use crate::expressions::numeral;
use crate::units::Units;
use lua_machine::LuaError;
use lua_state::LuaState;
use lua_tree::Expr;
use std::alloc::Global;
use tis_base::NoMemory;

// Puts the value of an expression that is a numeral, a name, nil or a truth value.
#[inline(always)]
fn push_simple(state: &mut LuaState, alloc: Global, expr: &Expr) -> Result<bool, NoMemory>
    ensures { Pushes result (simple_value (node_of expr.now) (store_of state.old).state) (store_of state.old) (store_of state.new) }
{
    match expr {
        Expr::Number { value } => {
            let number = numeral(*value)?;
            state.push_number(number)?;
            Ok(true)
        }
        Expr::Name { name } => {
            state.push_variable(alloc, name.bytes())?;
            Ok(true)
        }
        Expr::Nil => {
            state.push_nil()?;
            Ok(true)
        }
        Expr::True => {
            state.push_truth(true)?;
            Ok(true)
        }
        Expr::False => {
            state.push_truth(false)?;
            Ok(true)
        }
        _ => Ok(false),
    }
}

// Puts it, and pays its unit.
#[inline(always)]
fn put_simple(
    state: &mut LuaState,
    units: &mut Units,
    alloc: Global,
    expr: &Expr,
) -> Result<bool, LuaError>
    ensures { Puts result (simple_value (node_of expr.now) (store_of state.old).state) (store_of state.old) units.old (store_of state.new) units.new }
{
    match push_simple(state, alloc, expr) {
        Ok(true) => match units.pay() {
            Ok(()) => Ok(true),
            Err(why) => Err(why),
        },
        Ok(false) => Ok(false),
        Err(_) => Err(LuaError::NoMemory),
    }
}

/// Takes the turns of such an expression; of any other none.
#[inline(always)]
pub(crate) fn take_simple(
    state: &mut LuaState,
    units: &mut Units,
    alloc: Global,
    expr: &Expr,
) -> Result<bool, LuaError>
    ensures { Takes result (node_of expr.now) (store_of state.old) units.old (store_of state.new) units.new }
{
    put_simple(state, units, alloc, expr)
}
