//! How a call begins.
ghost use Rattle.std.specs.Prelude.{◌≡◌, pos, [], IfOk, OnOk};
ghost use Rattle.lua_machine.specs.Value.{Number};
ghost use Rattle.lua_machine.specs.State.{assigned};
ghost use Rattle.lua_state.specs.Held.{IsSound, state_of, store_of};
ghost use Rattle.lua_state.specs.Store.{in_state, starting, with_first};

use crate::globals::Globals;
use crate::held::HeldState;
use crate::locals::Locals;
use crate::stack::Stack;
use lua_numbers::LuaNumber;
use lua_store::{HeldTexts, LuaTables};
use rand_pcg::Pcg32;
use std::alloc::Global;
use tis_base::NoMemory;

impl HeldState {
    // Gives a name a number.
    fn set_number(&mut self, alloc: Global, name: &[u8], number: u8) -> Result<(), NoMemory>
        requires { IsSound self.old }
        ensures assigned { OnOk result (store_of self.new ≡ in_state (assigned name.now (Number (pos number)) (state_of self.old)) (store_of self.old)) }
        ensures sound { IsSound self.new }
    {
        self.push_number(LuaNumber::small(number))?;
        self.assign(alloc, name)?;
        Ok(())
    }

    // Nothing but a generator.
    fn empty(alloc: Global, seed: u64) -> HeldState
        ensures empty { store_of result ≡ record (starting seed) { state = record (starting seed).state { globals = [] } } }
        ensures sound { IsSound result }
    {
        HeldState {
            texts: HeldTexts::new(alloc),
            values: Stack::new(alloc),
            locals: Locals::new(alloc),
            globals: Globals::new(alloc),
            tables: LuaTables::new(alloc),
            loops: Stack::new(alloc),
            generator: Pcg32::new(seed, 1),
        }
    }

    // The first globals.
    fn set_first(&mut self, alloc: Global) -> Result<(), NoMemory>
        requires sound { IsSound self.old }
        ensures set { OnOk result (store_of self.new ≡ in_state (with_first (state_of self.old)) (store_of self.old)) }
        ensures sound { IsSound self.new }
    {
        self.set_number(alloc, b"STREAM_INPUT", 0)?;
        self.set_number(alloc, b"STREAM_OUTPUT", 1)?;
        self.set_number(alloc, b"STREAM_IMAGE", 2)?;
        self.set_number(alloc, b"TILE_COMPUTE", 0)?;
        self.set_number(alloc, b"TILE_MEMORY", 1)?;
        self.set_number(alloc, b"TILE_DAMAGED", 2)?;
        Ok(())
    }

    /// The state in which a call begins.
    pub(crate) fn new(alloc: Global, seed: u64) -> Result<HeldState, NoMemory>
        ensures starting { IfOk result (λ h. store_of h ≡ starting seed) }
        ensures sound { IfOk result (λ h. IsSound h) }
    {
        let mut state = HeldState::empty(alloc, seed);
        state.set_first(alloc)?;
        Ok(state)
    }
}
