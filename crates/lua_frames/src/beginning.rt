//! How parts and calls are begun.
ghost use Rattle.std.specs.Prelude.{◌≡◌, [], nat_lt, map};
ghost use Rattle.lua_machine.specs.Tree.{node_of, nodes, ◌and◌};
ghost use Rattle.lua_machine.specs.Machine as machine;
ghost use Rattle.lua_machine.specs.Turn.{begun, entering};
ghost use Rattle.lua_machine.specs.Yields.{most_calls};
ghost use Rattle.lua_state.specs.Store.{parts, without};
ghost use Rattle.lua_frames.specs.Frames.{making_of};
ghost use Rattle.lua_frames.specs.Machines.{frames_with, state_in, store_in, waiting};
ghost use Rattle.lua_frames.specs.Parts.{function_in, nodes_in};
ghost use Rattle.lua_operations.specs.Functions.{math_in, table_in};
ghost use Rattle.lua_frames.specs.Turns.{Comes};

use crate::control::Control;
use crate::frame::{Frame, Making, push_frame};
use crate::functions::Function;
use crate::machine::Machine;
use crate::parts::Parts;
use lua_machine::LuaError;
use lua_operations::{MathFunction, TableFunction};
use lua_tree::Expr;
use std::alloc::Global;

impl<'a> Machine<'a> {
    /// Begins parts, of which there is one at least.
    pub(crate) fn begin(
        &mut self,
        alloc: Global,
        making: Making<'a>,
        first: &'a Expr,
        others: Parts<'a>,
    ) -> Result<Control<'a>, LuaError>
        ensures { Comes result self.new (begun (making_of making.entry) [] (node_of first.now and nodes_in others.entry) (waiting self.old) self.old.calls (state_in self.old) self.old.units) }
    {
        match self.take_part(alloc, making, 0, first, others) {
            Ok(None) => self.go_on(alloc, making, 1, others),
            Ok(Some(control)) => Ok(control),
            Err(why) => Err(why),
        }
    }

    /// Enters a function with the newest so many values, where one more call may be open.
    #[tactic(auto, using(crate::proofs::Reaching::at_once))]
    pub(crate) fn enter(
        &mut self,
        alloc: Global,
        function: Function<'a>,
        count: usize,
        line: usize,
    ) -> Result<Control<'a>, LuaError>
        ensures { Comes result self.new (entering (nat_lt self.old.calls most_calls) (function_in function.entry) line (parts count (store_in self.old)) (frames_with self.old (without count (store_in self.old))) self.old.calls (state_in self.old) self.old.units) }
    {
        if self.calls < 100 {
            push_frame(&mut self.frames, Frame::Caller(self.calls))?;
            self.state.enter(alloc, function.params, count)?;
            self.calls += 1;
            self.run_here(alloc, function.body.statements.as_slice())
        } else {
            Err(LuaError::TooDeepCalls { line })
        }
    }

    /// Begins a call of a function of the chunk.
    #[tactic(auto, using(crate::proofs::Reaching::at_once))]
    pub(crate) fn begin_call(
        &mut self,
        alloc: Global,
        function: Function<'a>,
        args: &'a [Expr],
        line: usize,
    ) -> Result<Control<'a>, LuaError>
        ensures { Comes result self.new (begun (machine.Calls (function_in function.entry) line) [] (nodes (map node_of args.now)) (waiting self.old) self.old.calls (state_in self.old) self.old.units) }
    {
        match args.split_first() {
            Some((first, others)) => {
                self.begin(
                    alloc,
                    Making::Calls(function, line),
                    first,
                    Parts::Several(others),
                )
            }
            None => self.enter(alloc, function, 0, line),
        }
    }

    /// Begins a call of a function of `math`.
    #[tactic(auto, using(crate::proofs::Reaching::at_once))]
    pub(crate) fn begin_math(
        &mut self,
        alloc: Global,
        function: MathFunction,
        args: &'a [Expr],
        line: usize,
    ) -> Result<Control<'a>, LuaError>
        ensures { Comes result self.new (begun (machine.Math (math_in function) line) [] (nodes (map node_of args.now)) (waiting self.old) self.old.calls (state_in self.old) self.old.units) }
    {
        match args.split_first() {
            Some((first, others)) => {
                self.begin(
                    alloc,
                    Making::Math(function, line),
                    first,
                    Parts::Several(others),
                )
            }
            None => Err(LuaError::TypeFault { line }),
        }
    }

    /// Begins a call of a function of `table`.
    #[tactic(auto, using(crate::proofs::Reaching::at_once))]
    pub(crate) fn begin_table(
        &mut self,
        alloc: Global,
        function: TableFunction,
        args: &'a [Expr],
        line: usize,
    ) -> Result<Control<'a>, LuaError>
        ensures { Comes result self.new (begun (machine.Tables (table_in function) line) [] (nodes (map node_of args.now)) (waiting self.old) self.old.calls (state_in self.old) self.old.units) }
    {
        match args.split_first() {
            Some((first, others)) => {
                self.begin(
                    alloc,
                    Making::Tables(function, line),
                    first,
                    Parts::Several(others),
                )
            }
            None => Err(LuaError::TypeFault { line }),
        }
    }
}
