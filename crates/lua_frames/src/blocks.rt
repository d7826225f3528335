//! How blocks are begun.
ghost use Rattle.std.specs.Prelude.{◌≡◌, ◌∷◌, length};
ghost use Rattle.lua_machine.specs.Machine.{Inner};
ghost use Rattle.lua_machine.specs.Tree.{node_of, block_of};
ghost use Rattle.lua_machine.specs.Turn.{choosing, repeating, running};
ghost use Rattle.lua_frames.specs.Machines.{waiting, state_in};
ghost use Rattle.lua_frames.specs.Parts.{arms_in, block_in};
ghost use Rattle.lua_frames.specs.Turns.{Comes, Turns};

use crate::control::Control;
use crate::frame::{Frame, push_frame};
use crate::machine::Machine;
use lua_machine::LuaError;
use lua_tree::{Arm, Expr, LuaBlock, LuaStatement};
use std::alloc::Global;

impl<'a> Machine<'a> {
    /// Begins statements.
    pub(crate) fn run_all(
        &mut self,
        statements: &'a [LuaStatement],
    ) -> Result<Control<'a>, LuaError>
        ensures { Turns result self.new (running (block_in statements.now) (waiting self.old) self.old.calls (state_in self.old) self.old.units) }
    {
        match statements.split_first() {
            Some((first, others)) => {
                push_frame(&mut self.frames, Frame::Others(others))?;
                Ok(Control::Execute(first))
            }
            None => Ok(Control::Goes),
        }
    }

    /// Begins the statements of a block.
    pub(crate) fn run(&mut self, body: &'a LuaBlock) -> Result<Control<'a>, LuaError>
        ensures { Turns result self.new (running (block_of body.now) (waiting self.old) self.old.calls (state_in self.old) self.old.units) }
    {
        self.run_all(body.statements.as_slice())
    }

    /// Begins a block whose locals end with it.
    #[tactic(auto, using(crate::proofs::Reaching::at_once))]
    pub(crate) fn run_inner(
        &mut self,
        alloc: Global,
        body: &'a LuaBlock,
    ) -> Result<Control<'a>, LuaError>
        ensures { Comes result self.new (running (block_of body.now) (Inner (length (state_in self.old).locals) ∷ waiting self.old) self.old.calls (state_in self.old) self.old.units) }
    {
        push_frame(&mut self.frames, Frame::Inner(self.state.locals()))?;
        self.run_here(alloc, body.statements.as_slice())
    }

    /// Begins a choice.
    #[tactic(auto, using(crate::proofs::Reaching::at_once))]
    pub(crate) fn choose(
        &mut self,
        alloc: Global,
        arms: &'a [Arm],
        otherwise: &'a Option<LuaBlock>,
    ) -> Result<Control<'a>, LuaError>
        ensures { Comes result self.new (choosing (arms_in arms.now otherwise.now) (waiting self.old) self.old.calls (state_in self.old) self.old.units) }
    {
        match arms.split_first() {
            Some((arm, others)) => {
                push_frame(
                    &mut self.frames,
                    Frame::ArmTest(&arm.body, others, otherwise),
                )?;
                Ok(Control::Evaluate(&arm.test))
            }
            None => match otherwise {
                Some(body) => self.run_inner(alloc, body),
                None => Ok(Control::Goes),
            },
        }
    }

    /// Begins a turn of a `repeat`, and pays it.
    #[tactic(auto, using(crate::proofs::Reaching::at_once))]
    pub(crate) fn repeat(
        &mut self,
        alloc: Global,
        body: &'a LuaBlock,
        test: &'a Expr,
    ) -> Result<Control<'a>, LuaError>
        ensures { Comes result self.new (repeating (block_of body.now) (node_of test.now) (waiting self.old) self.old.calls (state_in self.old) self.old.units) }
    {
        self.units.pay()?;
        push_frame(
            &mut self.frames,
            Frame::RepeatBody(self.state.locals(), body, test),
        )?;
        self.run_here(alloc, body.statements.as_slice())
    }
}
