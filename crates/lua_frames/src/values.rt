//! How expressions are evaluated where they stand, without a turn and without a frame.
ghost use Rattle.std.specs.Prelude.{◌≡◌, ◌∷◌, List, ℕ, false};
ghost use Rattle.lua_machine.specs.Machine as machine;
ghost use Rattle.lua_machine.specs.Operators.{is_logical};
ghost use Rattle.lua_machine.specs.Tree as t;
ghost use Rattle.lua_machine.specs.Tree.{node_of};
ghost use Rattle.lua_frames.specs.Frames.{Waits, around, frame_of, making_of};
ghost use Rattle.lua_frames.specs.Parts.{nodes_in};
ghost use Rattle.lua_frames.specs.declared.machine.Machine.{Machine};
ghost use Rattle.lua_frames.specs.Standing.{Evaluates, PartEvaluates, Start, TakesOne, TakesTwo, WaitsInside, WaitsUnder, evaluation};

use crate::control::Control;
use crate::expressions::is_logical;
use crate::frame::{Frame, Making, push_frame};
use crate::machine::Machine;
use crate::parts::Parts;
use crate::simple::take_simple;
use crate::valued::Valued;
use lua_machine::LuaError;
use lua_tree::{BinaryOp, Expr, UnaryOp};
use std::alloc::Global;

impl<'a> Machine<'a> {
    // A frame waits under what waits inside.
    #[inline(never)]
    pub(crate) fn wait_under(&mut self, frame: Frame<'a>) -> Valued
        ensures { (from : Start) (base : Waits) (before : Machine) → WaitsInside from base before self.old → WaitsUnder result from base frame.entry before self.new }
    {
        match push_frame(&mut self.pending, frame) {
            Ok(()) => Valued::Waits,
            Err(_) => {
                self.fault = LuaError::NoMemory;
                Valued::Stopped
            }
        }
    }

    // An expression that isn't evaluated where it stands.
    #[inline(always)]
    fn wait_at(&mut self, expr: &'a Expr) -> Valued
        ensures { Evaluates result (evaluation (node_of expr.now) self.old) self.old self.new }
    {
        self.at = Control::Evaluate(expr);
        Valued::Waits
    }

    // Evaluates a part behind so many values.
    #[cycle(values)]
    #[inline(always)]
    pub(crate) fn part_value(
        &mut self,
        alloc: Global,
        depth: u32,
        making: Making<'a>,
        count: usize,
        part: &'a Expr,
        others: Parts<'a>,
    ) -> Valued
        ensures { PartEvaluates result (making_of making.entry) count (node_of part.now) (nodes_in others.entry) self.old self.new }
    {
        match self.value(alloc, depth, part) {
            Valued::Given => Valued::Given,
            Valued::Waits => self.wait_under(Frame::Part(making, count, others)),
            Valued::Stopped => Valued::Stopped,
        }
    }

    // Pays an operation, and evaluates its one part.
    #[cycle(values)]
    #[inline(always)]
    fn one(&mut self, alloc: Global, depth: u32, making: Making<'a>, part: &'a Expr) -> Valued
        ensures { TakesOne result (making_of making.entry) (node_of part.now) self.old self.new }
    {
        match self.units.pay() {
            Ok(()) => self.part_value(alloc, depth, making, 0, part, Parts::Done),
            Err(why) => {
                self.fault = why;
                Valued::Stopped
            }
        }
    }

    // Pays an operation, and evaluates both its parts.
    #[cycle(values)]
    #[inline(always)]
    fn two(
        &mut self,
        alloc: Global,
        depth: u32,
        making: Making<'a>,
        left: &'a Expr,
        right: &'a Expr,
    ) -> Valued
        ensures { TakesTwo result (making_of making.entry) (node_of left.now) (node_of right.now) self.old self.new }
    {
        match self.units.pay() {
            Ok(()) => match self.part_value(alloc, depth, making, 0, left, Parts::One(right)) {
                Valued::Given => self.part_value(alloc, depth, making, 1, right, Parts::Done),
                Valued::Waits => Valued::Waits,
                Valued::Stopped => Valued::Stopped,
            },
            Err(why) => {
                self.fault = why;
                Valued::Stopped
            }
        }
    }

    // Evaluates an operator that isn't `and` or `or`.
    #[cycle(values)]
    #[inline(always)]
    fn binary_value(
        &mut self,
        alloc: Global,
        depth: u32,
        op: BinaryOp,
        left: &'a Expr,
        right: &'a Expr,
        line: usize,
    ) -> Valued
        requires { is_logical op ≡ false }
        ensures { Evaluates result (evaluation (t.Binary op (node_of left.now) (node_of right.now) line) self.old) self.old self.new }
    {
        match self.two(alloc, depth, Making::Binary(op, line), left, right) {
            Valued::Given => match self.state.binary(alloc, 2, op, line) {
                Ok(()) => Valued::Given,
                Err(why) => {
                    self.fault = why;
                    Valued::Stopped
                }
            },
            Valued::Waits => Valued::Waits,
            Valued::Stopped => Valued::Stopped,
        }
    }

    // Evaluates an index.
    #[cycle(values)]
    #[inline(always)]
    fn index_value(
        &mut self,
        alloc: Global,
        depth: u32,
        table: &'a Expr,
        key: &'a Expr,
        line: usize,
    ) -> Valued
        ensures { Evaluates result (evaluation (t.Index (node_of table.now) (node_of key.now) line) self.old) self.old self.new }
    {
        match self.two(alloc, depth, Making::Indexes(line), table, key) {
            Valued::Given => match self.state.index(2, line) {
                Ok(()) => Valued::Given,
                Err(why) => {
                    self.fault = why;
                    Valued::Stopped
                }
            },
            Valued::Waits => Valued::Waits,
            Valued::Stopped => Valued::Stopped,
        }
    }

    // Evaluates an operator with one part.
    #[cycle(values)]
    #[inline(always)]
    fn unary_value(
        &mut self,
        alloc: Global,
        depth: u32,
        op: UnaryOp,
        of: &'a Expr,
        line: usize,
    ) -> Valued
        ensures { Evaluates result (evaluation (t.Unary op (node_of of.now) line) self.old) self.old self.new }
    {
        match self.one(alloc, depth, Making::Unary(op, line), of) {
            Valued::Given => match self.state.unary(1, op, line) {
                Ok(()) => Valued::Given,
                Err(why) => {
                    self.fault = why;
                    Valued::Stopped
                }
            },
            Valued::Waits => Valued::Waits,
            Valued::Stopped => Valued::Stopped,
        }
    }

    // Evaluates an operation, with the operations in it so deep; what lies deeper, or calls a function of the chunk or of `table`, is left to turns.
    #[cycle(values)]
    #[inline(never)]
    fn operation(&mut self, alloc: Global, depth: u32, expr: &'a Expr) -> Valued
        ensures { Evaluates result (evaluation (node_of expr.now) self.old) self.old self.new }
    {
        if depth == 0 {
            return self.wait_at(expr);
        }
        match expr {
            Expr::Binary {
                op,
                left,
                right,
                line,
            } => {
                if is_logical(*op) {
                    self.wait_at(expr)
                } else {
                    self.binary_value(alloc, depth - 1, *op, left.get(), right.get(), *line)
                }
            }
            Expr::Index { table, key, line } => {
                self.index_value(alloc, depth - 1, table.get(), key.get(), *line)
            }
            Expr::Unary { op, of, line } => {
                self.unary_value(alloc, depth - 1, *op, of.get(), *line)
            }
            Expr::MathCall { name, args, line } => {
                self.call_value(alloc, depth - 1, name.bytes(), args.as_slice(), *line)
            }
            _ => self.wait_at(expr),
        }
    }

    /// Evaluates an expression. What is simple takes no call.
    #[cycle(values)]
    #[inline(always)]
    pub(crate) fn value(&mut self, alloc: Global, depth: u32, expr: &'a Expr) -> Valued
        ensures { Evaluates result (evaluation (node_of expr.now) self.old) self.old self.new }
    {
        match take_simple(&mut self.state, &mut self.units, alloc, expr) {
            Ok(true) => Valued::Given,
            Ok(false) => self.operation(alloc, depth, expr),
            Err(why) => {
                self.fault = why;
                Valued::Stopped
            }
        }
    }
}
