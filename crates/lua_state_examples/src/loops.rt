use crate::samples::{is_number, push};
use lua_machine::LuaError;
use lua_state::LuaState;
use std::alloc::Global;
use std::test::Fail;

/// Whether `i` is this number in the turn that is open.
fn turn_has(state: &mut LuaState, alloc: Global, number: u8) -> Result<bool, LuaError> {
    state.push_variable(alloc, b"i")?;
    is_number(state, alloc, number)
}

/// `for i = 1, 2`, opened.
fn open(state: &mut LuaState) -> Result<(), LuaError> {
    push(state, 1)?;
    push(state, 2)?;
    state.open_loop(2, 1)
}

/// Two turns come, with 1 and with 2, and no third one.
fn two_turns(state: &mut LuaState, alloc: Global) -> Result<bool, LuaError> {
    open(state)?;
    let first = state.begin_turn(alloc, b"i")?;
    let one = turn_has(state, alloc, 1)?;
    let second = state.next_turn(alloc, b"i")?;
    let two = turn_has(state, alloc, 2)?;
    let third = state.next_turn(alloc, b"i")?;
    Ok(first & one & second & two & !third)
}

fn in_a_new_state(alloc: Global) -> Result<bool, LuaError> {
    let mut state = LuaState::new(alloc, 7)?;
    two_turns(&mut state, alloc)
}

#[test]
fn a_for_from_1_to_2_has_two_turns(rt: HostRuntime) -> Result<(), Fail> {
    assert!(rt; in_a_new_state(rt.alloc())?);
    Ok(())
}
