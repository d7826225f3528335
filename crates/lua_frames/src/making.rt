//! What becomes of the values of parts.
ghost use Rattle.std.specs.Prelude.{◌≡◌, ◌+◌, IfOk, map};
ghost use Rattle.lua_machine.specs.Tree.{node_of, nodes, none, ◌and◌};
ghost use Rattle.lua_machine.specs.Library.{math_result, table_result};
ghost use Rattle.lua_machine.specs.Turn.{back, begun, left, made};
ghost use Rattle.lua_machine.specs.Yields.{binary_result, floor_result, indexed, put, put_member, unary_result, with_member};
ghost use Rattle.lua_state.specs.Store.{parts, without};
ghost use Rattle.lua_frames.specs.Frames.{making_of};
ghost use Rattle.lua_frames.specs.Machines.{frames_with, state_in, store_in};
ghost use Rattle.lua_frames.specs.Parts.{nodes_in};
ghost use Rattle.lua_operations.specs.Functions.{math_in, table_in};
ghost use Rattle.lua_frames.specs.Turns.{Comes, Turns};

use crate::control::Control;
use crate::frame::Making;
use crate::machine::Machine;
use crate::parts::Parts;
use lua_machine::LuaError;
use lua_operations::{MathFunction, TableFunction};
use lua_tree::{BinaryOp, Expr, UnaryOp};
use std::alloc::Global;
use tis_base::NoMemory;

// One more.
#[inline(always)]
fn one_more(count: usize) -> Result<usize, NoMemory>
    ensures { IfOk result (λ n. n ≡ count + 1) }
{
    match count.checked_add(1) {
        Some(more) => Ok(more),
        None => Err(NoMemory),
    }
}

impl<'a> Machine<'a> {
    // An index, whose parts are there.
    pub(crate) fn indexes(&mut self, count: usize, line: usize) -> Result<Control<'a>, LuaError>
        ensures { Turns result self.new (back (indexed line (parts count (store_in self.old)) (state_in self.old)) (frames_with self.old (without count (store_in self.old))) self.old.calls self.old.units) }
    {
        self.state.index(count, line)?;
        Ok(Control::Returns)
    }

    // A member, whose part is there.
    pub(crate) fn selects(
        &mut self,
        alloc: Global,
        count: usize,
        name: &'a [u8],
        line: usize,
    ) -> Result<Control<'a>, LuaError>
        ensures { Turns result self.new (back (indexed line (with_member name.now (parts count (store_in self.old))) (state_in self.old)) (frames_with self.old (without count (store_in self.old))) self.old.calls self.old.units) }
    {
        self.state.select(alloc, count, name, line)?;
        Ok(Control::Returns)
    }

    // An operator with one part, which is there.
    pub(crate) fn unary(
        &mut self,
        count: usize,
        op: UnaryOp,
        line: usize,
    ) -> Result<Control<'a>, LuaError>
        ensures { Turns result self.new (back (unary_result op line (parts count (store_in self.old)) (state_in self.old)) (frames_with self.old (without count (store_in self.old))) self.old.calls self.old.units) }
    {
        self.state.unary(count, op, line)?;
        Ok(Control::Returns)
    }

    // An operator with two parts, which are there.
    pub(crate) fn binary(
        &mut self,
        alloc: Global,
        count: usize,
        op: BinaryOp,
        line: usize,
    ) -> Result<Control<'a>, LuaError>
        ensures { Turns result self.new (back (binary_result op line (parts count (store_in self.old)) (state_in self.old)) (frames_with self.old (without count (store_in self.old))) self.old.calls self.old.units) }
    {
        match self.state.binary(alloc, count, op, line) {
            Ok(()) => Ok(Control::Returns),
            Err(why) => Err(why),
        }
    }

    // The floor of a quotient, whose parts are there.
    pub(crate) fn floors(&mut self, count: usize, line: usize) -> Result<Control<'a>, LuaError>
        ensures { Turns result self.new (back (floor_result line (parts count (store_in self.old)) (state_in self.old)) (frames_with self.old (without count (store_in self.old))) self.old.calls self.old.units) }
    {
        self.state.floors(count, line)?;
        Ok(Control::Returns)
    }

    // A value goes to a key of a table.
    pub(crate) fn puts(&mut self, count: usize, line: usize) -> Result<Control<'a>, LuaError>
        ensures { Turns result self.new (left (put line (parts count (store_in self.old)) (state_in self.old)) (frames_with self.old (without count (store_in self.old))) self.old.calls self.old.units) }
    {
        self.state.puts(count, line)?;
        Ok(Control::Goes)
    }

    // A value goes to a member of a table.
    pub(crate) fn puts_member(
        &mut self,
        alloc: Global,
        count: usize,
        name: &'a [u8],
        line: usize,
    ) -> Result<Control<'a>, LuaError>
        ensures { Turns result self.new (left (put_member line name.now (parts count (store_in self.old)) (state_in self.old)) (frames_with self.old (without count (store_in self.old))) self.old.calls self.old.units) }
    {
        self.state.puts_member(alloc, count, name, line)?;
        Ok(Control::Goes)
    }

    // A function of `math`, whose arguments are there.
    fn math_made(
        &mut self,
        count: usize,
        function: MathFunction,
        line: usize,
    ) -> Result<Control<'a>, LuaError>
        ensures { Turns result self.new (back (math_result (math_in function) line (parts count (store_in self.old)) (state_in self.old)) (frames_with self.old (without count (store_in self.old))) self.old.calls self.old.units) }
    {
        match self.state.math(count, function, line) {
            Ok(()) => Ok(Control::Returns),
            Err(why) => Err(why),
        }
    }

    // A function of `table`, whose arguments are there.
    fn table_made(
        &mut self,
        count: usize,
        function: TableFunction,
        line: usize,
    ) -> Result<Control<'a>, LuaError>
        ensures { Turns result self.new (back (table_result (table_in function) line (parts count (store_in self.old)) (state_in self.old)) (frames_with self.old (without count (store_in self.old))) self.old.calls self.old.units) }
    {
        match self.state.table(count, function, line) {
            Ok(()) => Ok(Control::Returns),
            Err(why) => Err(why),
        }
    }

    // The values of all parts are there.
    #[tactic(auto, using(crate::proofs::Reaching::at_once))]
    #[inline(never)]
    pub(crate) fn make(
        &mut self,
        alloc: Global,
        making: Making<'a>,
        count: usize,
    ) -> Result<Control<'a>, LuaError>
        ensures { Comes result self.new (made (making_of making.entry) (parts count (store_in self.old)) (frames_with self.old (without count (store_in self.old))) self.old.calls (state_in self.old) self.old.units) }
    {
        match making {
            Making::Indexes(line) => self.indexes(count, line),
            Making::Selects(name, line) => self.selects(alloc, count, name, line),
            Making::Unary(op, line) => self.unary(count, op, line),
            Making::Binary(op, line) => self.binary(alloc, count, op, line),
            Making::Calls(function, line) => self.enter(alloc, function, count, line),
            Making::Math(function, line) => self.math_made(count, function, line),
            Making::Floors(line) => self.floors(count, line),
            Making::Tables(function, line) => self.table_made(count, function, line),
            Making::Stores(at, next, others, line) => {
                self.keyed_entry(at, next, others, count, line)
            }
            Making::Puts(line) => self.puts(count, line),
            Making::PutsMember(name, line) => self.puts_member(alloc, count, name, line),
            Making::Loops(name, body, line) => self.loops(alloc, count, name, body, line),
        }
    }

    // The parts that are left of several, one after the other.
    #[tactic(auto, using(crate::proofs::Reaching::at_once))]
    fn go_on_with_several(
        &mut self,
        alloc: Global,
        making: Making<'a>,
        start: usize,
        all: &'a [Expr],
    ) -> Result<Control<'a>, LuaError>
        ensures { Comes result self.new (begun (making_of making.entry) (parts start (store_in self.old)) (nodes (map node_of all.now)) (frames_with self.old (without start (store_in self.old))) self.old.calls (state_in self.old) self.old.units) }
    {
        let mut left = all;
        let mut count = start;
        'parts: while let Some((next, others)) = left.split_first() {
            let more = one_more(count)?;
            match self.take_part(alloc, making, count, next, Parts::Several(others)) {
                Ok(None) => count = more,
                Ok(Some(control)) => return Ok(control),
                Err(why) => return Err(why),
            }
            left = others;
        }
        self.make(alloc, making, count)
    }

    // The last part, where so many values are there.
    #[tactic(auto, using(crate::proofs::Reaching::at_once))]
    fn go_on_with_last(
        &mut self,
        alloc: Global,
        making: Making<'a>,
        count: usize,
        last: &'a Expr,
    ) -> Result<Control<'a>, LuaError>
        ensures { Comes result self.new (begun (making_of making.entry) (parts count (store_in self.old)) (node_of last.now and none) (frames_with self.old (without count (store_in self.old))) self.old.calls (state_in self.old) self.old.units) }
    {
        let more = one_more(count)?;
        match self.take_part(alloc, making, count, last, Parts::Done) {
            Ok(None) => self.make(alloc, making, more),
            Ok(Some(control)) => Ok(control),
            Err(why) => Err(why),
        }
    }

    // The last two parts, where so many values are there.
    #[tactic(auto, using(crate::proofs::Reaching::at_once))]
    fn go_on_with_two(
        &mut self,
        alloc: Global,
        making: Making<'a>,
        count: usize,
        next: &'a Expr,
        last: &'a Expr,
    ) -> Result<Control<'a>, LuaError>
        ensures { Comes result self.new (begun (making_of making.entry) (parts count (store_in self.old)) (node_of next.now and node_of last.now and none) (frames_with self.old (without count (store_in self.old))) self.old.calls (state_in self.old) self.old.units) }
    {
        let more = one_more(count)?;
        match self.take_part(alloc, making, count, next, Parts::One(last)) {
            Ok(None) => self.go_on_with_last(alloc, making, more, last),
            Ok(Some(control)) => Ok(control),
            Err(why) => Err(why),
        }
    }

    /// The parts that are left, where the newest so many values are those of the parts before.
    #[inline(always)]
    pub(crate) fn go_on(
        &mut self,
        alloc: Global,
        making: Making<'a>,
        count: usize,
        others: Parts<'a>,
    ) -> Result<Control<'a>, LuaError>
        ensures { Comes result self.new (begun (making_of making.entry) (parts count (store_in self.old)) (nodes_in others.entry) (frames_with self.old (without count (store_in self.old))) self.old.calls (state_in self.old) self.old.units) }
    {
        match others {
            Parts::Done => self.make(alloc, making, count),
            Parts::One(last) => self.go_on_with_last(alloc, making, count, last),
            Parts::Two(next, last) => self.go_on_with_two(alloc, making, count, next, last),
            Parts::Several(all) => self.go_on_with_several(alloc, making, count, all),
        }
    }
}
