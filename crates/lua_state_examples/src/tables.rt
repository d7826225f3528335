use crate::samples::{is_number, push};
use lua_machine::LuaError;
use lua_operations::{MathFunction, TableFunction};
use lua_state::LuaState;
use lua_tree::UnaryOp;
use std::alloc::Global;
use std::test::Fail;

/// Whether `#` of a table is this number.
fn has_length(
    state: &mut LuaState,
    alloc: Global,
    at: usize,
    length: u8,
) -> Result<bool, LuaError> {
    state.push_table(at)?;
    state.unary(1, UnaryOp::Length, 1)?;
    is_number(state, alloc, length)
}

/// Puts a number at a key of a table.
fn put(state: &mut LuaState, at: usize, key: u8, number: u8) -> Result<(), LuaError> {
    push(state, key)?;
    push(state, number)?;
    state.store_keyed(at, 2, 1)
}

/// `t[2] = 20`, and then `t[1] = 10`, so that both count.
fn two_keys(state: &mut LuaState, alloc: Global, at: usize) -> Result<bool, LuaError> {
    put(state, at, 2, 20)?;
    put(state, at, 1, 10)?;
    has_length(state, alloc, at, 2)
}

/// `table.remove(t)` gives 20.
fn removed(state: &mut LuaState, alloc: Global, at: usize) -> Result<bool, LuaError> {
    state.push_table(at)?;
    state.table(1, TableFunction::Remove, 1)?;
    is_number(state, alloc, 20)
}

fn greater_of_3_and_8(state: &mut LuaState, alloc: Global) -> Result<bool, LuaError> {
    push(state, 3)?;
    push(state, 8)?;
    state.math(2, MathFunction::Max, 1)?;
    is_number(state, alloc, 8)
}

fn all_hold(state: &mut LuaState, alloc: Global) -> Result<bool, LuaError> {
    let at = state.add_table(alloc)?;
    let two = two_keys(state, alloc, at)?;
    let last = removed(state, alloc, at)?;
    let one = has_length(state, alloc, at, 1)?;
    let greater = greater_of_3_and_8(state, alloc)?;
    Ok(two & last & one & greater)
}

fn in_a_new_state(alloc: Global) -> Result<bool, LuaError> {
    let mut state = LuaState::new(alloc, 7)?;
    all_hold(&mut state, alloc)
}

#[test]
fn the_length_follows_what_is_stored(rt: HostRuntime) -> Result<(), Fail> {
    assert!(rt; in_a_new_state(rt.alloc())?);
    Ok(())
}
