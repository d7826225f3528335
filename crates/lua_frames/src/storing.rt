//! How entries are stored.
ghost use Rattle.std.specs.Prelude.{◌≡◌, ◌+◌, pos};
ghost use Rattle.lua_machine.specs.Turn.{filled, keyed, value_in};
ghost use Rattle.lua_machine.specs.Value.{Number, Text};
ghost use Rattle.lua_state.specs.Store.{parts, without};
ghost use Rattle.lua_frames.specs.Machines.{frames_with, state_in, store_in};
ghost use Rattle.lua_frames.specs.Parts.{entries_in};
ghost use Rattle.lua_frames.specs.Turns.{Turns};
ghost use Rattle.lua_frames.specs.Ways.{beside_way, way_in};

use crate::control::Control;
use crate::machine::Machine;
use crate::ways::{Way, take_back};
use lua_machine::LuaError;
use lua_tree::Entry;
use std::alloc::Global;

impl<'a> Machine<'a> {
    // The value of an entry without a key is there.
    #[inline(never)]
    pub(crate) fn next_entry(
        &mut self,
        way: Way,
        at: usize,
        next: usize,
        others: &'a [Entry],
    ) -> Result<Control<'a>, LuaError>
        ensures { Turns result self.new (filled at (next + 1) (Number (pos next)) (value_in (way_in way (store_in self.old))) (entries_in others.now) (frames_with self.old (beside_way way (store_in self.old))) self.old.calls (state_in self.old) self.old.units) }
    {
        match next.checked_add(1) {
            Some(after) => {
                take_back(&mut self.state, way)?;
                self.state.store_next(at, next)?;
                self.fill(at, after, others)
            }
            None => Err(LuaError::NoMemory),
        }
    }

    // The value of an entry with a name is there.
    #[inline(never)]
    pub(crate) fn named_entry(
        &mut self,
        alloc: Global,
        way: Way,
        at: usize,
        next: usize,
        name: &'a [u8],
        others: &'a [Entry],
    ) -> Result<Control<'a>, LuaError>
        ensures { Turns result self.new (filled at next (Text name.now) (value_in (way_in way (store_in self.old))) (entries_in others.now) (frames_with self.old (beside_way way (store_in self.old))) self.old.calls (state_in self.old) self.old.units) }
    {
        take_back(&mut self.state, way)?;
        self.state.store_named(alloc, at, name)?;
        self.fill(at, next, others)
    }

    // The key and the value of an entry are there.
    pub(crate) fn keyed_entry(
        &mut self,
        at: usize,
        next: usize,
        others: &'a [Entry],
        count: usize,
        line: usize,
    ) -> Result<Control<'a>, LuaError>
        ensures { Turns result self.new (keyed at next (entries_in others.now) line (parts count (store_in self.old)) (frames_with self.old (without count (store_in self.old))) self.old.calls (state_in self.old) self.old.units) }
    {
        match self.state.store_keyed(at, count, line) {
            Ok(()) => self.fill(at, next, others),
            Err(why) => Err(why),
        }
    }
}
