//! The machine.
ghost use Rattle.std.specs.Prelude.{◌≡◌, [], IfOk};
ghost use Rattle.lua_machine.specs.State.{fresh};
ghost use Rattle.lua_frames.specs.Machines.{state_in, waiting};

use crate::control::Control;
use crate::frame::Frame;
use crate::units::Units;
use lua_machine::LuaError;
use lua_state::LuaState;
use std::alloc::Global;
use tis_base::NoMemory;

/// A configuration but for where it is, and room for what is done where it stands.
#[derive(Drop)]
pub struct Machine<'a> {
    pub frames: Vec<Frame<'a>>,
    pub state: LuaState,
    pub calls: usize,
    pub units: Units,
    /// Frames of what waits inside of a part or a statement that is done where it stands, innermost first.
    pub pending: Vec<Frame<'a>>,
    /// Where it waits.
    pub at: Control<'a>,
    /// Why it was stopped.
    pub fault: LuaError,
}

impl<'a> Machine<'a> {
    /// A machine that has done nothing yet, with a generator by the seed.
    pub fn new(alloc: Global, seed: u64) -> Result<Machine<'a>, NoMemory>
        ensures frames { IfOk result (λ m. waiting m ≡ []) }
        ensures state { IfOk result (λ m. state_in m ≡ fresh seed) }
        ensures calls { IfOk result (λ m. m.calls ≡ 0) }
        ensures units { IfOk result (λ m. m.units ≡ 0) }
    {
        let state = LuaState::new(alloc, seed)?;
        Ok(Machine {
            frames: Vec::new(alloc),
            state,
            calls: 0,
            units: Units::new(),
            pending: Vec::new(alloc),
            at: Control::Goes,
            fault: LuaError::NoMemory,
        })
    }
}
