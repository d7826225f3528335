//! How statements are executed where they stand, without a turn and without a frame.
ghost use Rattle.std.specs.Prelude.{◌≡◌, ◌∷◌, length, Some, map};
ghost use Rattle.lua_machine.specs.Machine as machine;
ghost use Rattle.lua_machine.specs.Tree as t;
ghost use Rattle.lua_machine.specs.Tree.{block_of, node_of, statement_of};
ghost use Rattle.lua_frames.specs.Executing.{Executes, LeavesUnder, ValueFor, block, choice, execution, inner_block};
ghost use Rattle.lua_frames.specs.Frames.{Waits, making_of};
ghost use Rattle.lua_frames.specs.Parts.{arms_in, block_in};
ghost use Rattle.lua_frames.specs.declared.machine.Machine.{Machine};
ghost use Rattle.lua_frames.specs.Standing.{Start, TakesThree, WaitsInside};

use crate::control::Control;
use crate::frame::{Frame, Making, push_frame};
use crate::machine::Machine;
use crate::outcome::Outcome;
use crate::parts::Parts;
use crate::valued::Valued;
use lua_machine::LuaError;
use lua_tree::{Arm, Expr, LuaBlock, LuaStatement};
use std::alloc::Global;

impl<'a> Machine<'a> {
    // A frame waits under what waits inside of a statement.
    #[inline(never)]
    pub(crate) fn wait_beneath(&mut self, frame: Frame<'a>) -> Outcome
        ensures { (from : Start) (base : Waits) (before : Machine) → WaitsInside from base before self.old → LeavesUnder result from base frame.entry before self.new }
    {
        match push_frame(&mut self.pending, frame) {
            Ok(()) => Outcome::Waits,
            Err(_) => {
                self.fault = LuaError::NoMemory;
                Outcome::Stopped
            }
        }
    }

    // A statement that isn't executed where it stands.
    #[inline(always)]
    fn wait_there(&mut self, statement: &'a LuaStatement) -> Outcome
        ensures { Executes result (execution (statement_of statement.now) self.old) self.old self.new }
    {
        self.at = Control::Execute(statement);
        Outcome::Waits
    }

    // Pays a statement, and evaluates its value, for which a frame waits.
    #[inline(always)]
    fn paid_value(&mut self, alloc: Global, frame: Frame<'a>, of: &'a Expr) -> Valued
        ensures { ValueFor result frame.entry (node_of of.now) self.old self.new }
    {
        match self.units.pay() {
            Ok(()) => match self.value(alloc, 16, of) {
                Valued::Given => Valued::Given,
                Valued::Waits => self.wait_under(frame),
                Valued::Stopped => Valued::Stopped,
            },
            Err(why) => {
                self.fault = why;
                Valued::Stopped
            }
        }
    }

    // Declares a local.
    fn do_local(&mut self, alloc: Global, name: &'a [u8], of: &'a Expr) -> Outcome
        ensures { Executes result (execution (t.Local name.now (Some (node_of of.now))) self.old) self.old self.new }
    {
        match self.paid_value(alloc, Frame::Declares(name), of) {
            Valued::Given => match self.state.declare(alloc, name) {
                Ok(()) => Outcome::Goes,
                Err(_) => {
                    self.fault = LuaError::NoMemory;
                    Outcome::Stopped
                }
            },
            Valued::Waits => Outcome::Waits,
            Valued::Stopped => Outcome::Stopped,
        }
    }

    // Gives a variable another value.
    fn do_assign(&mut self, alloc: Global, name: &'a [u8], of: &'a Expr) -> Outcome
        ensures { Executes result (execution (t.Assign name.now (node_of of.now)) self.old) self.old self.new }
    {
        match self.paid_value(alloc, Frame::Assigns(name), of) {
            Valued::Given => match self.state.assign(alloc, name) {
                Ok(()) => Outcome::Goes,
                Err(_) => {
                    self.fault = LuaError::NoMemory;
                    Outcome::Stopped
                }
            },
            Valued::Waits => Outcome::Waits,
            Valued::Stopped => Outcome::Stopped,
        }
    }

    // Leaves a function with a value.
    fn do_return(&mut self, alloc: Global, of: &'a Expr) -> Outcome
        ensures { Executes result (execution (t.Return (Some (node_of of.now))) self.old) self.old self.new }
    {
        match self.paid_value(alloc, Frame::ReturnsIt, of) {
            Valued::Given => Outcome::Returns,
            Valued::Waits => Outcome::Waits,
            Valued::Stopped => Outcome::Stopped,
        }
    }

    // Pays a statement, and evaluates its three parts.
    #[inline(always)]
    fn three(
        &mut self,
        alloc: Global,
        making: Making<'a>,
        first: &'a Expr,
        second: &'a Expr,
        third: &'a Expr,
    ) -> Valued
        ensures { TakesThree result (making_of making.entry) (node_of first.now) (node_of second.now) (node_of third.now) self.old self.new }
    {
        match self.units.pay() {
            Ok(()) => match self.part_value(
                alloc,
                16,
                making,
                0,
                first,
                Parts::Two(second, third),
            ) {
                Valued::Given => match self.part_value(
                    alloc,
                    16,
                    making,
                    1,
                    second,
                    Parts::One(third),
                ) {
                    Valued::Given => self.part_value(alloc, 16, making, 2, third, Parts::Done),
                    Valued::Waits => Valued::Waits,
                    Valued::Stopped => Valued::Stopped,
                },
                Valued::Waits => Valued::Waits,
                Valued::Stopped => Valued::Stopped,
            },
            Err(why) => {
                self.fault = why;
                Valued::Stopped
            }
        }
    }

    // Stores a value at a key of a table.
    fn do_put(
        &mut self,
        alloc: Global,
        table: &'a Expr,
        key: &'a Expr,
        value: &'a Expr,
        line: usize,
    ) -> Outcome
        ensures { Executes result (execution (t.SetIndex (node_of table.now) (node_of key.now) (node_of value.now) line) self.old) self.old self.new }
    {
        match self.three(alloc, Making::Puts(line), table, key, value) {
            Valued::Given => match self.state.puts(3, line) {
                Ok(()) => Outcome::Goes,
                Err(why) => {
                    self.fault = why;
                    Outcome::Stopped
                }
            },
            Valued::Waits => Outcome::Waits,
            Valued::Stopped => Outcome::Stopped,
        }
    }

    // Executes a block whose locals end with it.
    #[cycle(statements)]
    #[inline(always)]
    fn do_inner(&mut self, alloc: Global, depth: u32, body: &'a LuaBlock) -> Outcome
        ensures { Executes result (inner_block (block_of body.now) self.old) self.old self.new }
    {
        let outer = self.state.locals();
        match self.do_all(alloc, depth, body.statements.as_slice()) {
            Outcome::Goes => {
                self.state.cut_to(outer);
                Outcome::Goes
            }
            Outcome::Breaks => {
                self.state.cut_to(outer);
                Outcome::Breaks
            }
            Outcome::Returns => {
                self.state.cut_to(outer);
                Outcome::Returns
            }
            Outcome::Waits => self.wait_beneath(Frame::Inner(outer)),
            Outcome::Stopped => Outcome::Stopped,
        }
    }

    // Executes what a choice chooses.
    #[cycle(statements)]
    fn do_choice(
        &mut self,
        alloc: Global,
        depth: u32,
        arms: &'a [Arm],
        otherwise: &'a Option<LuaBlock>,
    ) -> Outcome
        ensures { Executes result (choice (arms_in arms.now otherwise.now) self.old) self.old self.new }
    {
        let mut left = arms;
        'arms: while let Some((arm, others)) = left.split_first() {
            match self.value(alloc, 16, &arm.test) {
                Valued::Given => {
                    if self.state.take_truth() {
                        return self.do_inner(alloc, depth, &arm.body);
                    }
                    left = others;
                }
                Valued::Waits => {
                    return self.wait_beneath(Frame::ArmTest(&arm.body, others, otherwise));
                }
                Valued::Stopped => return Outcome::Stopped,
            }
        }
        match otherwise {
            Some(body) => self.do_inner(alloc, depth, body),
            None => Outcome::Goes,
        }
    }

    // Pays a choice, and executes what it chooses.
    #[cycle(statements)]
    #[inline(always)]
    fn do_if(
        &mut self,
        alloc: Global,
        depth: u32,
        arms: &'a [Arm],
        otherwise: &'a Option<LuaBlock>,
    ) -> Outcome
        ensures { Executes result (execution (t.If (arms_in arms.now otherwise.now)) self.old) self.old self.new }
    {
        match self.units.pay() {
            Ok(()) => self.do_choice(alloc, depth, arms, otherwise),
            Err(why) => {
                self.fault = why;
                Outcome::Stopped
            }
        }
    }

    // Executes a statement, with the choices in it so deep; what lies deeper, loops or calls a function, is left to turns.
    #[cycle(statements)]
    #[inline(always)]
    fn do_statement(&mut self, alloc: Global, depth: u32, statement: &'a LuaStatement) -> Outcome
        ensures { Executes result (execution (statement_of statement.now) self.old) self.old self.new }
    {
        match statement {
            LuaStatement::Local {
                name,
                value: Some(of),
            } => self.do_local(alloc, name.bytes(), of),
            LuaStatement::Assign { name, value } => self.do_assign(alloc, name.bytes(), value),
            LuaStatement::SetIndex {
                table,
                key,
                value,
                line,
            } => self.do_put(alloc, table, key, value, *line),
            LuaStatement::Return { value: Some(of) } => self.do_return(alloc, of),
            LuaStatement::If { arms, otherwise } => {
                if depth == 0 {
                    self.wait_there(statement)
                } else {
                    self.do_if(alloc, depth - 1, arms.as_slice(), otherwise)
                }
            }
            _ => self.wait_there(statement),
        }
    }

    /// Executes statements one after the other, up to a way out of them.
    #[cycle(statements)]
    #[inline(never)]
    pub(crate) fn do_all(
        &mut self,
        alloc: Global,
        depth: u32,
        statements: &'a [LuaStatement],
    ) -> Outcome
        ensures { Executes result (block (block_in statements.now) self.old) self.old self.new }
    {
        let mut left = statements;
        'statements: while let Some((first, others)) = left.split_first() {
            match self.do_statement(alloc, depth, first) {
                Outcome::Goes => left = others,
                Outcome::Breaks => return Outcome::Breaks,
                Outcome::Returns => return Outcome::Returns,
                Outcome::Waits => return self.wait_beneath(Frame::Others(others)),
                Outcome::Stopped => return Outcome::Stopped,
            }
        }
        Outcome::Goes
    }
}
