use lua_machine::LuaError;
use lua_numbers::LuaNumber;
use lua_state::LuaState;
use lua_tree::BinaryOp;
use std::alloc::Global;

/// Puts a number.
pub(crate) fn push(state: &mut LuaState, number: u8) -> Result<(), LuaError> {
    state.push_number(LuaNumber::small(number))?;
    Ok(())
}

/// Takes the newest value, and tells whether it is this number.
pub(crate) fn is_number(state: &mut LuaState, alloc: Global, number: u8) -> Result<bool, LuaError> {
    push(state, number)?;
    state.binary(alloc, 2, BinaryOp::Equal, 1)?;
    Ok(state.take_truth())
}
