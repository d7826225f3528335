//! How frames go on with a way out of a statement.
ghost use Rattle.std.specs.Prelude.{◌≡◌, [], OnOk};
ghost use Rattle.lua_machine.specs.Tree.{block_of, node_of};
ghost use Rattle.lua_machine.specs.Turn.{back, back_by, cut_to, others_by, repeat_by, value_in, while_by};
ghost use Rattle.lua_machine.specs.Yields.{returned};
ghost use Rattle.lua_state.specs.Held.{store_of};
ghost use Rattle.lua_state.specs.Stacks.{below, top};
ghost use Rattle.lua_state.specs.Store.{pushed};
ghost use Rattle.lua_frames.specs.Machines.{frames_with, state_in, store_in};
ghost use Rattle.lua_frames.specs.Parts.{block_in};
ghost use Rattle.lua_frames.specs.Turns.{Comes, Turns};
ghost use Rattle.lua_frames.specs.Ways.{beside_way, way_in};

use crate::control::Control;
use crate::frame::{Frame, push_frame};
use crate::machine::Machine;
use lua_machine::LuaError;
use lua_state::LuaState;
use lua_tree::{Expr, LuaBlock, LuaStatement};
use std::alloc::Global;
use tis_base::NoMemory;

/// A way out of a statement, or of a function with the newest value.
#[derive(Clone, Copy)]
pub enum Way {
    Goes,
    Breaks,
    Returns,
}

/// What comes back is the newest value from now on; it is nil where none does.
#[inline(always)]
pub fn take_back(state: &mut LuaState, way: Way) -> Result<(), NoMemory>
    ensures { OnOk result (store_of state.new ≡ pushed (value_in (way_in way (store_of state.old))) (beside_way way (store_of state.old))) }
{
    match way {
        Way::Goes => state.push_nil(),
        Way::Breaks => state.push_nil(),
        Way::Returns => state.have_value(),
    }
}

impl<'a> Machine<'a> {
    // A statement ended, and these are behind it.
    #[tactic(auto, using(crate::proofs::Reaching::at_once))]
    pub(crate) fn others(
        &mut self,
        alloc: Global,
        way: Way,
        others: &'a [LuaStatement],
    ) -> Result<Control<'a>, LuaError>
        ensures { Comes result self.new (others_by (way_in way (store_in self.old)) (block_in others.now) (frames_with self.old (beside_way way (store_in self.old))) self.old.calls (state_in self.old) self.old.units) }
    {
        match way {
            Way::Goes => self.run_here(alloc, others),
            Way::Breaks => Ok(Control::Breaks),
            Way::Returns => Ok(Control::Returns),
        }
    }

    // A block ended, which had so many locals around it.
    pub(crate) fn inner(&mut self, way: Way, outer: usize) -> Result<Control<'a>, LuaError>
        ensures { Turns result self.new (back_by (way_in way (store_in self.old)) (cut_to outer (state_in self.old)) (frames_with self.old (beside_way way (store_in self.old))) self.old.calls self.old.units) }
    {
        self.state.cut_to(outer);
        match way {
            Way::Goes => Ok(Control::Goes),
            Way::Breaks => Ok(Control::Breaks),
            Way::Returns => Ok(Control::Returns),
        }
    }

    // The body of a `while` ended.
    #[inline(never)]
    pub(crate) fn while_body(
        &mut self,
        way: Way,
        outer: usize,
        test: &'a Expr,
        body: &'a LuaBlock,
    ) -> Result<Control<'a>, LuaError>
        ensures { Turns result self.new (while_by (way_in way (store_in self.old)) outer (node_of test.now) (block_of body.now) (frames_with self.old (beside_way way (store_in self.old))) self.old.calls (state_in self.old) self.old.units) }
    {
        self.state.cut_to(outer);
        match way {
            Way::Goes => {
                push_frame(&mut self.frames, Frame::WhileTest(test, body))?;
                Ok(Control::Evaluate(test))
            }
            Way::Breaks => Ok(Control::Goes),
            Way::Returns => Ok(Control::Returns),
        }
    }

    // The body of a `repeat` ended; its test sees its locals.
    #[inline(never)]
    pub(crate) fn repeat_body(
        &mut self,
        way: Way,
        outer: usize,
        body: &'a LuaBlock,
        test: &'a Expr,
    ) -> Result<Control<'a>, LuaError>
        ensures { Turns result self.new (repeat_by (way_in way (store_in self.old)) outer (block_of body.now) (node_of test.now) (frames_with self.old (beside_way way (store_in self.old))) self.old.calls (state_in self.old) self.old.units) }
    {
        match way {
            Way::Goes => {
                push_frame(&mut self.frames, Frame::RepeatTest(outer, body, test))?;
                Ok(Control::Evaluate(test))
            }
            Way::Breaks => {
                self.state.cut_to(outer);
                Ok(Control::Goes)
            }
            Way::Returns => {
                self.state.cut_to(outer);
                Ok(Control::Returns)
            }
        }
    }

    // A function ended, whose caller had so many calls open.
    pub(crate) fn caller(
        &mut self,
        alloc: Global,
        way: Way,
        outer: usize,
    ) -> Result<Control<'a>, LuaError>
        ensures { Turns result self.new (back (returned (way_in way (store_in self.old)) (record (state_in self.old) { locals = top [] (store_in self.old).callers })) (frames_with self.old (record (beside_way way (store_in self.old)) { callers = below (store_in self.old).callers })) outer self.old.units) }
    {
        self.state.leave(alloc);
        self.calls = outer;
        match way {
            Way::Goes | Way::Breaks => {
                self.state.push_nil()?;
                Ok(Control::Returns)
            }
            Way::Returns => Ok(Control::Returns),
        }
    }
}
