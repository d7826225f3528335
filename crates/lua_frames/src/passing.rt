//! How turns that were taken where they stand end.
ghost use Rattle.std.specs.Prelude.{◌≡◌, OnOk, IfOk};
ghost use Rattle.lua_machine.specs.Tree.{node_of};
ghost use Rattle.lua_machine.specs.Turn.{running};
ghost use Rattle.lua_frames.specs.Frames.{making_of};
ghost use Rattle.lua_frames.specs.Machines.{state_in, waiting};
ghost use Rattle.lua_frames.specs.Parts.{block_in, nodes_in};
ghost use Rattle.lua_frames.specs.Standing.{IsPut};
ghost use Rattle.lua_frames.specs.Turns.{Comes};
ghost use Rattle.lua_frames.specs.Values.{Leads, Passes};

use crate::control::Control;
use crate::frame::{Making, push_frame};
use crate::machine::Machine;
use crate::outcome::Outcome;
use crate::parts::Parts;
use crate::valued::Valued;
use lua_machine::LuaError;
use lua_tree::{Expr, LuaStatement};
use std::alloc::Global;
use tis_base::NoMemory;

impl<'a> Machine<'a> {
    /// The frames that are pending wait above the others from now on.
    #[inline(never)]
    pub(crate) fn put_pending(&mut self) -> Result<(), NoMemory>
        ensures { OnOk result (IsPut self.old self.new) }
    {
        'pending: while let Some(frame) = self.pending.pop() {
            push_frame(&mut self.frames, frame)?;
        }
        Ok(())
    }

    // The same of a part behind so many values.
    #[inline(always)]
    fn pass_part(
        &mut self,
        alloc: Global,
        making: Making<'a>,
        count: usize,
        part: &'a Expr,
        others: Parts<'a>,
    ) -> Result<Option<Control<'a>>, LuaError>
        ensures { Passes result (making_of making.entry) count (node_of part.now) (nodes_in others.entry) self.old self.new }
    {
        self.pending.clear();
        match self.part_value(alloc, 16, making, count, part, others) {
            Valued::Given => Ok(None),
            Valued::Waits => match self.put_pending() {
                Ok(()) => Ok(Some(self.at)),
                Err(_) => Err(LuaError::NoMemory),
            },
            Valued::Stopped => Err(self.fault),
        }
    }

    /// Evaluates a part behind so many values. Where its value isn't there, a frame waits for it.
    #[inline(always)]
    pub(crate) fn take_part(
        &mut self,
        alloc: Global,
        making: Making<'a>,
        count: usize,
        part: &'a Expr,
        others: Parts<'a>,
    ) -> Result<Option<Control<'a>>, LuaError>
        ensures passes { Passes result (making_of making.entry) count (node_of part.now) (nodes_in others.entry) self.old self.new }
        ensures leads { Leads result (making_of making.entry) count (node_of part.now) (nodes_in others.entry) self.old self.new }
    {
        self.pass_part(alloc, making, count, part, others)
    }

    /// Executes statements, up to the first that waits.
    #[inline(always)]
    pub(crate) fn run_here(
        &mut self,
        alloc: Global,
        statements: &'a [LuaStatement],
    ) -> Result<Control<'a>, LuaError>
        ensures { Comes result self.new (running (block_in statements.now) (waiting self.old) self.old.calls (state_in self.old) self.old.units) }
    {
        self.pending.clear();
        match self.do_all(alloc, 8, statements) {
            Outcome::Goes => Ok(Control::Goes),
            Outcome::Breaks => Ok(Control::Breaks),
            Outcome::Returns => Ok(Control::Returns),
            Outcome::Waits => match self.put_pending() {
                Ok(()) => Ok(self.at),
                Err(_) => Err(LuaError::NoMemory),
            },
            Outcome::Stopped => Err(self.fault),
        }
    }
}
