//! How statements are begun.
ghost use Rattle.std.specs.Prelude.{◌≡◌, ◌+◌, ◌++◌, ◌∷◌, [], ℕ};
ghost use Rattle.lua_frames.specs.Frames.{making_of};
ghost use Rattle.std.specs.Option.{option_map};
ghost use Rattle.lua_machine.specs.Machine as machine;
ghost use Rattle.lua_machine.specs.State.{declared};
ghost use Rattle.lua_machine.specs.Tree as t;
ghost use Rattle.lua_machine.specs.Tree.{block_of, node_of, statement_of};
ghost use Rattle.lua_machine.specs.Turn.{begun, evaluating, left, statement_begun};
ghost use Rattle.lua_machine.specs.Value.{Nil};
ghost use Rattle.lua_machine.specs.Yields.{bounds_parts, goes};
ghost use Rattle.lua_frames.specs.Machines.{frames_with, state_in, store_in, waiting};
ghost use Rattle.lua_frames.specs.Turns.{Comes, Turns};

use crate::control::Control;
use crate::frame::{Frame, Making, push_frame};
use crate::machine::Machine;
use crate::parts::Parts;
use lua_machine::LuaError;
use lua_tree::{Expr, LuaBlock, LuaStatement};
use std::alloc::Global;

impl<'a> Machine<'a> {
    // Begins the declaration of a local, whose unit is paid.
    fn local(
        &mut self,
        alloc: Global,
        name: &'a [u8],
        value: &'a Option<Expr>,
        cost: u64,
    ) -> Result<Control<'a>, LuaError>
        requires { self.old.units ≡ cost + 1 }
        ensures { Turns result self.new (statement_begun (t.Local name.now (option_map node_of value.now)) (waiting self.old) self.old.calls (state_in self.old) cost) }
    {
        match value {
            Some(of) => {
                push_frame(&mut self.frames, Frame::Declares(name))?;
                Ok(Control::Evaluate(of))
            }
            None => {
                self.state.declare_nil(alloc, name)?;
                Ok(Control::Goes)
            }
        }
    }

    // Begins a `return`, whose unit is paid.
    fn give_back(&mut self, value: &'a Option<Expr>, cost: u64) -> Result<Control<'a>, LuaError>
        requires { self.old.units ≡ cost + 1 }
        ensures { Turns result self.new (statement_begun (t.Return (option_map node_of value.now)) (waiting self.old) self.old.calls (state_in self.old) cost) }
    {
        match value {
            Some(of) => {
                push_frame(&mut self.frames, Frame::ReturnsIt)?;
                Ok(Control::Evaluate(of))
            }
            None => {
                self.state.push_nil()?;
                Ok(Control::Returns)
            }
        }
    }

    // Begins the bounds of a `for`.
    fn bounds(
        &mut self,
        alloc: Global,
        making: Making<'a>,
        first: &'a Expr,
        last: &'a Expr,
        step: &'a Option<Expr>,
    ) -> Result<Control<'a>, LuaError>
        ensures { Comes result self.new (begun (making_of making.entry) [] (bounds_parts (node_of first.now) (node_of last.now) (option_map node_of step.now)) (waiting self.old) self.old.calls (state_in self.old) self.old.units) }
    {
        match step {
            Some(by) => self.begin(alloc, making, first, Parts::Two(last, by)),
            None => self.begin(alloc, making, first, Parts::One(last)),
        }
    }

    // Begins a statement that evaluates or goes into blocks; its unit is paid.
    #[tactic(auto, using(crate::proofs::Reaching::at_once))]
    fn begin_others(
        &mut self,
        alloc: Global,
        statement: &'a LuaStatement,
        cost: u64,
    ) -> Result<Control<'a>, LuaError>
        requires { self.old.units ≡ cost + 1 }
        ensures { Comes result self.new (statement_begun (statement_of statement.now) (waiting self.old) self.old.calls (state_in self.old) cost) }
    {
        match statement {
            LuaStatement::Local { name, value } => self.local(alloc, name.bytes(), value, cost),
            LuaStatement::Assign { name, value } => {
                push_frame(&mut self.frames, Frame::Assigns(name.bytes()))?;
                Ok(Control::Evaluate(value))
            }
            LuaStatement::SetIndex {
                table,
                key,
                value,
                line,
            } => self.begin(alloc, Making::Puts(*line), table, Parts::Two(key, value)),
            LuaStatement::SetMember {
                table,
                name,
                value,
                line,
            } => self.begin(
                alloc,
                Making::PutsMember(name.bytes(), *line),
                table,
                Parts::One(value),
            ),
            LuaStatement::Call { call } => {
                push_frame(&mut self.frames, Frame::Drops)?;
                Ok(Control::Evaluate(call))
            }
            LuaStatement::If { arms, otherwise } => self.choose(alloc, arms.as_slice(), otherwise),
            LuaStatement::While { test, body } => {
                push_frame(&mut self.frames, Frame::WhileTest(test, body))?;
                Ok(Control::Evaluate(test))
            }
            LuaStatement::Repeat { body, test } => self.repeat(alloc, body, test),
            LuaStatement::For {
                name,
                first,
                last,
                step,
                body,
                line,
            } => self.bounds(
                alloc,
                Making::Loops(name.bytes(), body, *line),
                first,
                last,
                step,
            ),
            LuaStatement::Do { body } => self.run_inner(alloc, body),
            LuaStatement::Break => Ok(Control::Breaks),
            LuaStatement::Return { value } => self.give_back(value, cost),
        }
    }

    /// Begins a statement: its unit is paid, and its first part is evaluated.
    #[tactic(auto, using(crate::proofs::Reaching::at_once))]
    pub fn execute(
        &mut self,
        alloc: Global,
        statement: &'a LuaStatement,
    ) -> Result<Control<'a>, LuaError>
        ensures { Comes result self.new (statement_begun (statement_of statement.now) (waiting self.old) self.old.calls (state_in self.old) self.old.units) }
    {
        let cost = self.units.spent();
        self.units.pay()?;
        self.begin_others(alloc, statement, cost)
    }
}
