//! Turns of a machine.
ghost use Rattle.std.specs.Prelude.{◌≡◌, ◌∷◌, [], reverse, MatchOption};
ghost use Rattle.lua_machine.specs.Machine.{Turned};
ghost use Rattle.lua_frames.specs.declared.machine.Machine.{Machine};
ghost use Rattle.lua_machine.specs.Tree as t;
ghost use Rattle.lua_machine.specs.Tree.{items_of, node_of};
ghost use Rattle.lua_machine.specs.Turn.{back_at, resumed, statement_begun, turn};
ghost use Rattle.lua_frames.specs.Frames.{around, frame_of, frames_of, waits_in};
ghost use Rattle.lua_frames.specs.Machines.{frames_with, machine_of, state_in, store_in, waiting};
ghost use Rattle.lua_frames.specs.Parts.{function_in};
ghost use Rattle.lua_frames.specs.Steps.{Arrives};
ghost use Rattle.lua_frames.specs.Turns.{Comes, Turns};
ghost use Rattle.lua_frames.specs.Ways.{beside_way, way_in};

use crate::control::Control;
use crate::frame::{Frame, push_frame};
use crate::function_table::FunctionTable;
use crate::functions::Function;
use crate::machine::Machine;
use crate::ways::Way;
use lua_machine::LuaError;
use lua_tree::Expr;
use std::alloc::Global;

/// What comes after a turn: where the machine is, or the way in which all of it ended.
#[derive(Clone, Copy)]
pub enum Step<'a> {
    Next(Control<'a>),
    Ended(Way),
}

// Takes the innermost frame.
#[inline(always)]
fn pop_frame<'a>(frames: &mut Vec<Frame<'a>>) -> Option<Frame<'a>>
    ensures { MatchOption result (frames.old.items ≡ []) (λ frame. reverse frames.old.items ≡ frame ∷ reverse frames.new.items) }
{
    frames.pop()
}

// A turn that came to a place of the machine.
#[inline(always)]
fn next<'a>(control: Result<Control<'a>, LuaError>) -> Result<Step<'a>, LuaError>
    ensures { (now : Machine) (wanted : Turned) → Comes control.entry now wanted → Arrives result now wanted }
{
    match control {
        Ok(control) => Ok(Step::Next(control)),
        Err(why) => Err(why),
    }
}

impl<'a> Machine<'a> {
    // Goes on with a frame that was the innermost one.
    #[inline(always)]
    #[tactic(auto, using(crate::proofs::Reaching::at_once))]
    fn resume(
        &mut self,
        alloc: Global,
        main: Function<'a>,
        frame: Frame<'a>,
        way: Way,
    ) -> Result<Control<'a>, LuaError>
        ensures { Comes result self.new (resumed (function_in main.entry) (frame_of frame.entry (waits_in (beside_way way (store_in self.old)))) (way_in way (store_in self.old)) (frames_of (reverse self.old.frames.items) (around frame.entry (waits_in (beside_way way (store_in self.old))))) self.old.calls (state_in self.old) self.old.units) }
    {
        match frame {
            Frame::Part(making, count, others) => self.part(alloc, way, making, count, others),
            Frame::LeftSide(op, right) => self.left_side(way, op, right),
            Frame::NextEntry(at, next, others) => self.next_entry(way, at, next, others),
            Frame::NamedEntry(at, next, name, others) => {
                self.named_entry(alloc, way, at, next, name, others)
            }
            Frame::Declares(name) => self.declares(alloc, way, name),
            Frame::Assigns(name) => self.assigns(alloc, way, name),
            Frame::Drops => self.drops(way),
            Frame::ReturnsIt => self.returns_it(way),
            Frame::ArmTest(body, others, otherwise) => {
                self.arm_test(alloc, way, body, others, otherwise)
            }
            Frame::WhileTest(test, body) => self.while_test(alloc, way, test, body),
            Frame::RepeatTest(outer, body, test) => self.repeat_test(alloc, way, outer, body, test),
            Frame::Others(others) => self.others(alloc, way, others),
            Frame::Inner(outer) => self.inner(way, outer),
            Frame::WhileBody(outer, test, body) => self.while_body(way, outer, test, body),
            Frame::RepeatBody(outer, body, test) => self.repeat_body(way, outer, body, test),
            Frame::ForBody(outer, name, body) => self.for_body(alloc, way, outer, name, body),
            Frame::Caller(calls) => self.caller(alloc, way, calls),
            Frame::Items(items) => self.assign_items(alloc, main, items),
        }
    }

    // Goes on with the innermost frame, or ends where none waits.
    #[inline(always)]
    fn back(&mut self, alloc: Global, main: Function<'a>, way: Way) -> Result<Step<'a>, LuaError>
        ensures { Arrives result self.new (back_at (function_in main.entry) (frames_with self.old (beside_way way (store_in self.old))) (way_in way (store_in self.old)) self.old.calls (state_in self.old) self.old.units) }
    {
        match pop_frame(&mut self.frames) {
            Some(frame) => next(self.resume(alloc, main, frame, way)),
            None => Ok(Step::Ended(way)),
        }
    }

    // Begins an assignment of the chunk: its unit is paid, and its value is evaluated.
    fn assign(&mut self, name: &'a [u8], value: &'a Expr) -> Result<Control<'a>, LuaError>
        ensures { Turns result self.new (statement_begun (t.Assign name.now (node_of value.now)) (waiting self.old) self.old.calls (state_in self.old) self.old.units) }
    {
        self.units.pay()?;
        push_frame(&mut self.frames, Frame::Assigns(name))?;
        Ok(Control::Evaluate(value))
    }

    /// A turn in a call of a function of the chunk.
    #[tactic(auto, using(crate::proofs::Reaching::at_once))]
    #[inline(always)]
    pub fn turn(
        &mut self,
        alloc: Global,
        functions: &FunctionTable<'a>,
        main: Function<'a>,
        control: Control<'a>,
    ) -> Result<Step<'a>, LuaError>
        ensures { Arrives result self.new (turn (items_of functions.now) (function_in main.entry) (machine_of control.entry self.old)) }
    {
        match control {
            Control::Evaluate(expr) => next(self.evaluate(alloc, functions, expr)),
            Control::Execute(statement) => next(self.execute(alloc, statement)),
            Control::Assign(name, value) => next(self.assign(name, value)),
            Control::Goes => self.back(alloc, main, Way::Goes),
            Control::Breaks => self.back(alloc, main, Way::Breaks),
            Control::Returns => self.back(alloc, main, Way::Returns),
        }
    }
}
