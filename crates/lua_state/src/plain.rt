//! The value that a call gives.
ghost use Rattle.std.specs.Prelude.{◌≡◌, OnOk};
ghost use Rattle.lua_machine.specs.Answer.{plain_of};
ghost use Rattle.lua_results.specs.Results.{Makes};
ghost use Rattle.lua_state.specs.Held.{IsSound, state_of, store_of};
ghost use Rattle.lua_state.specs.Store.{newest, popped, pushed};

use crate::held::HeldState;
use lua_machine::LuaError;
use lua_plain::Plain;
use lua_results::make_plain;
use lua_store::SmallValue;
use std::alloc::Global;
use tis_base::NoMemory;

impl HeldState {
    /// Puts nil where no value waits.
    pub(crate) fn have_value(&mut self) -> Result<(), NoMemory>
        requires { IsSound self.old }
        ensures some { OnOk result (store_of self.new ≡ pushed (newest (store_of self.old).values) (popped (store_of self.old))) }
        ensures sound { IsSound self.new }
    {
        if self.values.len() == 0 {
            self.values.push(SmallValue::Nil)?;
        }
        Ok(())
    }

    /// Takes the newest value, and makes it plain.
    pub(crate) fn take_plain(&mut self, alloc: Global, units: &mut u64) -> Result<Plain, LuaError>
        requires { IsSound self.old }
        ensures made { Makes result units.old units.new (plain_of 4 (state_of self.old).tables (newest (store_of self.old).values)) }
        ensures sound { IsSound self.new }
    {
        let value = self.take();
        make_plain(alloc, &self.tables, &self.texts, value, units)
    }
}
