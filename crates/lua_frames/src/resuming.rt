//! How frames go on with a value that comes back to them.
ghost use Rattle.std.specs.Prelude.{◌≡◌, ◌∷◌, ◌++◌, []};
ghost use Rattle.lua_machine.specs.Operators.{decides};
ghost use Rattle.lua_machine.specs.State.{assigned, declared};
ghost use Rattle.lua_machine.specs.Tree.{block_of, node_of};
ghost use Rattle.lua_machine.specs.Turn.{arm_if, begun, decided_if, left, until_if, value_in, while_if};
ghost use Rattle.lua_machine.specs.Value.{is_true};
ghost use Rattle.lua_machine.specs.Yields.{Returns, goes};
ghost use Rattle.lua_state.specs.Store.{parts, without};
ghost use Rattle.lua_frames.specs.Frames.{making_of};
ghost use Rattle.lua_frames.specs.Machines.{frames_with, state_in, store_in};
ghost use Rattle.lua_frames.specs.Parts.{arms_in, nodes_in};
ghost use Rattle.lua_frames.specs.Turns.{Comes, Turns};
ghost use Rattle.lua_frames.specs.Ways.{beside_way, way_in};

use crate::control::Control;
use crate::frame::{Frame, Making, push_frame};
use crate::machine::Machine;
use crate::parts::Parts;
use crate::ways::{Way, take_back};
use lua_machine::LuaError;
use lua_tree::{Arm, BinaryOp, Expr, LuaBlock};
use std::alloc::Global;

impl<'a> Machine<'a> {
    // The value of a part is there, behind those of so many before it.
    #[tactic(auto, using(crate::proofs::Parted::one_part_more, crate::proofs::Parted::without_one_more))]
    #[inline(always)]
    pub(crate) fn part(
        &mut self,
        alloc: Global,
        way: Way,
        making: Making<'a>,
        count: usize,
        others: Parts<'a>,
    ) -> Result<Control<'a>, LuaError>
        ensures { Comes result self.new (begun (making_of making.entry) (parts count (beside_way way (store_in self.old)) ++ value_in (way_in way (store_in self.old)) ∷ []) (nodes_in others.entry) (frames_with self.old (without count (beside_way way (store_in self.old)))) self.old.calls (state_in self.old) self.old.units) }
    {
        match count.checked_add(1) {
            Some(more) => {
                take_back(&mut self.state, way)?;
                self.go_on(alloc, making, more, others)
            }
            None => Err(LuaError::NoMemory),
        }
    }

    // The left side of `and` or `or` is there.
    pub(crate) fn left_side(
        &mut self,
        way: Way,
        op: BinaryOp,
        right: &'a Expr,
    ) -> Result<Control<'a>, LuaError>
        ensures { Turns result self.new (decided_if (decides op (value_in (way_in way (store_in self.old)))) (node_of right.now) (value_in (way_in way (store_in self.old))) (frames_with self.old (beside_way way (store_in self.old))) self.old.calls (state_in self.old) self.old.units) }
    {
        take_back(&mut self.state, way)?;
        if self.state.decides(op) {
            Ok(Control::Returns)
        } else {
            self.state.pop();
            Ok(Control::Evaluate(right))
        }
    }

    // The value of a local is there.
    pub(crate) fn declares(
        &mut self,
        alloc: Global,
        way: Way,
        name: &'a [u8],
    ) -> Result<Control<'a>, LuaError>
        ensures { Turns result self.new (left (goes (declared name.now (value_in (way_in way (store_in self.old))) (state_in self.old))) (frames_with self.old (beside_way way (store_in self.old))) self.old.calls self.old.units) }
    {
        take_back(&mut self.state, way)?;
        self.state.declare(alloc, name)?;
        Ok(Control::Goes)
    }

    // The value of an assignment is there.
    pub(crate) fn assigns(
        &mut self,
        alloc: Global,
        way: Way,
        name: &'a [u8],
    ) -> Result<Control<'a>, LuaError>
        ensures { Turns result self.new (left (goes (assigned name.now (value_in (way_in way (store_in self.old))) (state_in self.old))) (frames_with self.old (beside_way way (store_in self.old))) self.old.calls self.old.units) }
    {
        take_back(&mut self.state, way)?;
        self.state.assign(alloc, name)?;
        Ok(Control::Goes)
    }

    // The value of a call that stands alone is there.
    pub(crate) fn drops(&mut self, way: Way) -> Result<Control<'a>, LuaError>
        ensures { Turns result self.new (left (goes (state_in self.old)) (frames_with self.old (beside_way way (store_in self.old))) self.old.calls self.old.units) }
    {
        take_back(&mut self.state, way)?;
        self.state.pop();
        Ok(Control::Goes)
    }

    // The value of a `return` is there.
    pub(crate) fn returns_it(&mut self, way: Way) -> Result<Control<'a>, LuaError>
        ensures { Turns result self.new (left (record { way = Returns (value_in (way_in way (store_in self.old))); state = state_in self.old }) (frames_with self.old (beside_way way (store_in self.old))) self.old.calls self.old.units) }
    {
        take_back(&mut self.state, way)?;
        Ok(Control::Returns)
    }

    // The test of an arm is there.
    #[tactic(auto, using(crate::proofs::Reaching::at_once))]
    pub(crate) fn arm_test(
        &mut self,
        alloc: Global,
        way: Way,
        body: &'a LuaBlock,
        others: &'a [Arm],
        otherwise: &'a Option<LuaBlock>,
    ) -> Result<Control<'a>, LuaError>
        ensures { Comes result self.new (arm_if (is_true (value_in (way_in way (store_in self.old)))) (block_of body.now) (arms_in others.now otherwise.now) (frames_with self.old (beside_way way (store_in self.old))) self.old.calls (state_in self.old) self.old.units) }
    {
        take_back(&mut self.state, way)?;
        if self.state.take_truth() {
            self.run_inner(alloc, body)
        } else {
            self.choose(alloc, others, otherwise)
        }
    }

    // The test of a `while` is there.
    #[tactic(auto, using(crate::proofs::Reaching::at_once))]
    #[inline(never)]
    pub(crate) fn while_test(
        &mut self,
        alloc: Global,
        way: Way,
        test: &'a Expr,
        body: &'a LuaBlock,
    ) -> Result<Control<'a>, LuaError>
        ensures { Comes result self.new (while_if (is_true (value_in (way_in way (store_in self.old)))) (node_of test.now) (block_of body.now) (frames_with self.old (beside_way way (store_in self.old))) self.old.calls (state_in self.old) self.old.units) }
    {
        take_back(&mut self.state, way)?;
        if self.state.take_truth() {
            self.units.pay()?;
            push_frame(
                &mut self.frames,
                Frame::WhileBody(self.state.locals(), test, body),
            )?;
            self.run_here(alloc, body.statements.as_slice())
        } else {
            Ok(Control::Goes)
        }
    }

    // The test of a `repeat` is there.
    #[tactic(auto, using(crate::proofs::Reaching::at_once))]
    #[inline(never)]
    pub(crate) fn repeat_test(
        &mut self,
        alloc: Global,
        way: Way,
        outer: usize,
        body: &'a LuaBlock,
        test: &'a Expr,
    ) -> Result<Control<'a>, LuaError>
        ensures { Comes result self.new (until_if (is_true (value_in (way_in way (store_in self.old)))) outer (block_of body.now) (node_of test.now) (frames_with self.old (beside_way way (store_in self.old))) self.old.calls (state_in self.old) self.old.units) }
    {
        take_back(&mut self.state, way)?;
        let ends = self.state.take_truth();
        self.state.cut_to(outer);
        if ends {
            Ok(Control::Goes)
        } else {
            self.repeat(alloc, body, test)
        }
    }
}
