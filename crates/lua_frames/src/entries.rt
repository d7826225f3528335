//! How the entries of a constructor are begun.
ghost use Rattle.std.specs.Prelude.{◌≡◌};
ghost use Rattle.lua_machine.specs.Tree.{entry, entry_node_of};
ghost use Rattle.lua_machine.specs.Turn.{filling};
ghost use Rattle.lua_frames.specs.Machines.{waiting, state_in};
ghost use Rattle.lua_frames.specs.Parts.{entries_in};
ghost use Rattle.lua_frames.specs.Turns.{Turns};

use crate::control::Control;
use crate::frame::{Frame, Making, push_frame};
use crate::machine::Machine;
use crate::parts::Parts;
use lua_machine::LuaError;
use lua_tree::Entry;

impl<'a> Machine<'a> {
    // Begins an entry.
    fn begin_entry(
        &mut self,
        at: usize,
        next: usize,
        item: &'a Entry,
        others: &'a [Entry],
    ) -> Result<Control<'a>, LuaError>
        ensures { Turns result self.new (filling at next (entry (entry_node_of item.now) (entries_in others.now)) (waiting self.old) self.old.calls (state_in self.old) self.old.units) }
    {
        match item {
            Entry::Value { value } => {
                push_frame(&mut self.frames, Frame::NextEntry(at, next, others))?;
                Ok(Control::Evaluate(value))
            }
            Entry::Named { name, value } => {
                push_frame(
                    &mut self.frames,
                    Frame::NamedEntry(at, next, name.bytes(), others),
                )?;
                Ok(Control::Evaluate(value))
            }
            Entry::Keyed { key, value, line } => {
                let making = Making::Stores(at, next, others, *line);
                push_frame(&mut self.frames, Frame::Part(making, 0, Parts::One(value)))?;
                Ok(Control::Evaluate(key))
            }
        }
    }

    /// Begins the entries that are left of the table in a row; the next one without a key has this number.
    pub(crate) fn fill(
        &mut self,
        at: usize,
        next: usize,
        entries: &'a [Entry],
    ) -> Result<Control<'a>, LuaError>
        ensures { Turns result self.new (filling at next (entries_in entries.now) (waiting self.old) self.old.calls (state_in self.old) self.old.units) }
    {
        match entries.split_first() {
            Some((first, others)) => self.begin_entry(at, next, first, others),
            None => {
                self.state.push_table(at)?;
                Ok(Control::Returns)
            }
        }
    }
}
