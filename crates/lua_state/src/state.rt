//! The state of an evaluation, as callers see it.
ghost use Rattle.std.specs.Prelude.{◌≡◌, [], ◌∷◌, ◌++◌, length, pos, IfOk, OnOk};
ghost use Rattle.lua_machine.specs.Value.{Nil, Number, Table, Truth, is_true};
ghost use Rattle.lua_machine.specs.Value as lua;
ghost use Rattle.lua_machine.specs.Library.{math_result, table_result};
ghost use Rattle.lua_machine.specs.Operators.{decides, text};
ghost use Rattle.lua_machine.specs.State.{assigned, declared, value_of};
ghost use Rattle.lua_machine.specs.Tables.{no_keys};
ghost use Rattle.lua_machine.specs.Answer.{plain_of};
ghost use Rattle.lua_machine.specs.Turn.{cut_to};
ghost use Rattle.lua_results.specs.Results.{Makes};
ghost use Rattle.lua_machine.specs.Yields.{binary_result, bounds_of, comes, floor_result, indexed, next_turn, put, put_member, unary_result, with_member};
ghost use Rattle.lua_operations.specs.Functions.{math_in, table_in};
ghost use Rattle.lua_state.specs.Calls.{called, left};
ghost use Rattle.lua_state.specs.Held.{state_of, store_of};
ghost use Rattle.lua_state.specs.Loops.{closed, newest_bounds, turning, with_opened};
ghost use Rattle.lua_state.specs.Store.{Answers, ended, in_state, newest, parts, popped, pushed, starting, storing, with_done, with_ended, with_entry, with_made, without};

use crate::held::HeldState;
use lua_machine::LuaError;
use lua_numbers::LuaNumber;
use lua_operations::{MathFunction, TableFunction};
use lua_plain::Plain;
use lua_tree::{BinaryOp, Text, UnaryOp};
use std::alloc::Global;
use std::marker::Model;
use tis_base::NoMemory;

/// The variables, the tables and the random generator of an evaluation, and the values that wait.
#[derive(Drop)]
pub struct LuaState {
    held: HeldState,
}

impl Model for LuaState {
    ghost use Rattle.lua_state.specs.Held.{IsSound};
    ghost use Rattle.lua_state.specs.declared.held.HeldState.{HeldState};

    ghost Value = { HeldState };

    ghost view = { λ s. s.held };

    ghost invariant = { λ s. IsSound s.held };
}

impl LuaState {
    /// The state in which a call begins: the first globals, no tables, and a generator by the seed.
    pub fn new(alloc: Global, seed: u64) -> Result<LuaState, NoMemory>
        ensures { IfOk result (λ s. store_of s ≡ starting seed) }
    {
        let held = HeldState::new(alloc, seed)?;
        Ok(LuaState { held })
    }

    /// Puts nil.
    pub fn push_nil(&mut self) -> Result<(), NoMemory>
        ensures { OnOk result (store_of self.new ≡ pushed Nil (store_of self.old)) }
    {
        self.held.push_nil()
    }

    /// Puts a truth value.
    pub fn push_truth(&mut self, truth: bool) -> Result<(), NoMemory>
        ensures { OnOk result (store_of self.new ≡ pushed (Truth truth) (store_of self.old)) }
    {
        self.held.push_truth(truth)
    }

    /// Puts a number.
    pub fn push_number(&mut self, number: LuaNumber) -> Result<(), NoMemory>
        ensures { OnOk result (store_of self.new ≡ pushed (Number number) (store_of self.old)) }
    {
        self.held.push_number(number)
    }

    /// Puts the table in a row.
    pub fn push_table(&mut self, at: usize) -> Result<(), NoMemory>
        ensures { OnOk result (store_of self.new ≡ pushed (Table at) (store_of self.old)) }
    {
        self.held.push_table(at)
    }

    /// Puts a text. One of more than 1,024 bytes is refused.
    pub fn push_text(&mut self, alloc: Global, line: usize, bytes: &[u8]) -> Result<(), LuaError>
        ensures { Answers result (store_of self.new) (with_made (text line bytes.now) (state_of self.old) (store_of self.old)) }
    {
        self.held.push_text(alloc, line, bytes)
    }

    /// Puts the value of a name: of the innermost local, or else of the global, or else nil.
    pub fn push_variable(&mut self, alloc: Global, name: &[u8]) -> Result<(), NoMemory>
        ensures { OnOk result (store_of self.new ≡ pushed (value_of name.now (state_of self.old)) (store_of self.old)) }
    {
        self.held.push_variable(alloc, name)
    }

    /// Takes the newest value, where there is one.
    pub fn pop(&mut self)
        ensures { store_of self.new ≡ popped (store_of self.old) }
    {
        self.held.pop();
    }

    /// Puts nil where no value waits.
    pub fn have_value(&mut self) -> Result<(), NoMemory>
        ensures { OnOk result (store_of self.new ≡ pushed (newest (store_of self.old).values) (popped (store_of self.old))) }
    {
        self.held.have_value()
    }

    /// Takes the newest value, and makes it plain. A unit is paid for each value that is made plain; `Budget` is answered where
    /// more are wanted than are left.
    pub fn take_plain(&mut self, alloc: Global, units: &mut u64) -> Result<Plain, LuaError>
        ensures { Makes result units.old units.new (plain_of 4 (state_of self.old).tables (newest (store_of self.old).values)) }
    {
        self.held.take_plain(alloc, units)
    }

    /// Takes the newest value, and tells whether it counts as true.
    pub fn take_truth(&mut self) -> bool
        ensures truth { result ≡ is_true (newest (store_of self.old).values) }
        ensures popped { store_of self.new ≡ popped (store_of self.old) }
    {
        self.held.take_truth()
    }

    /// Whether the newest value counts as true. It stays.
    pub fn is_true(&self) -> bool
        ensures { result ≡ is_true (newest (store_of self.now).values) }
    {
        self.held.is_true()
    }

    /// Whether the newest value, as the left side of `and` or `or`, decides. It stays.
    pub fn decides(&self, op: BinaryOp) -> bool
        ensures { result ≡ decides op (newest (store_of self.now).values) }
    {
        self.held.decides(op)
    }

    /// How many locals there are.
    pub fn locals(&self) -> usize
        ensures { result ≡ length (state_of self.now).locals }
    {
        self.held.locals()
    }

    /// A new local without a value.
    pub fn declare_nil(&mut self, alloc: Global, name: &[u8]) -> Result<(), NoMemory>
        ensures { OnOk result (store_of self.new ≡ in_state (declared name.now Nil (state_of self.old)) (store_of self.old)) }
    {
        self.held.declare_nil(alloc, name)
    }

    /// A new local with the newest value, which is taken.
    pub fn declare(&mut self, alloc: Global, name: &[u8]) -> Result<(), NoMemory>
        ensures { OnOk result (store_of self.new ≡ in_state (declared name.now (newest (store_of self.old).values) (state_of self.old)) (popped (store_of self.old))) }
    {
        self.held.declare(alloc, name)
    }

    /// Gives a name the newest value, which is taken: to the innermost local, or else to the global.
    pub fn assign(&mut self, alloc: Global, name: &[u8]) -> Result<(), NoMemory>
        ensures { OnOk result (store_of self.new ≡ in_state (assigned name.now (newest (store_of self.old).values) (state_of self.old)) (popped (store_of self.old))) }
    {
        self.held.assign(alloc, name)
    }

    /// Leaves so many locals, the outer ones.
    pub fn cut_to(&mut self, outer: usize)
        ensures { store_of self.new ≡ in_state (cut_to outer (state_of self.old)) (store_of self.old) }
    {
        self.held.cut_to(outer);
    }

    /// A new table without keys, and the number of its row.
    pub fn add_table(&mut self, alloc: Global) -> Result<usize, NoMemory>
        ensures place { IfOk result (λ at. at ≡ length (state_of self.old).tables) }
        ensures added { OnOk result (store_of self.new ≡ in_state (record (state_of self.old) { tables = (state_of self.old).tables ++ no_keys ∷ [] }) (store_of self.old)) }
    {
        self.held.add_table(alloc)
    }

    /// What `not`, `-` or `#` makes of the newest so many values, which have to be one.
    pub fn unary(&mut self, count: usize, op: UnaryOp, line: usize) -> Result<(), LuaError>
        ensures { Answers result (store_of self.new) (with_done (unary_result op line (parts count (store_of self.old)) (state_of self.old)) (without count (store_of self.old))) }
    {
        self.held.unary(count, op, line)
    }

    /// What a binary operator but `and` and `or` makes of the newest so many values, which have to be two.
    pub fn binary(
        &mut self,
        alloc: Global,
        count: usize,
        op: BinaryOp,
        line: usize,
    ) -> Result<(), LuaError>
        ensures { Answers result (store_of self.new) (with_done (binary_result op line (parts count (store_of self.old)) (state_of self.old)) (without count (store_of self.old))) }
    {
        self.held.binary(alloc, count, op, line)
    }

    /// The floor of the quotient of the newest so many values, which have to be two.
    pub fn floors(&mut self, count: usize, line: usize) -> Result<(), LuaError>
        ensures { Answers result (store_of self.new) (with_done (floor_result line (parts count (store_of self.old)) (state_of self.old)) (without count (store_of self.old))) }
    {
        self.held.floors(count, line)
    }

    /// What a function of `math` makes of the newest so many values.
    pub fn math(
        &mut self,
        count: usize,
        function: MathFunction,
        line: usize,
    ) -> Result<(), LuaError>
        ensures { Answers result (store_of self.new) (with_done (math_result (math_in function) line (parts count (store_of self.old)) (state_of self.old)) (without count (store_of self.old))) }
    {
        self.held.math(count, function, line)
    }

    /// What a function of `table` makes of the newest so many values.
    pub fn table(
        &mut self,
        count: usize,
        function: TableFunction,
        line: usize,
    ) -> Result<(), LuaError>
        ensures { Answers result (store_of self.new) (with_done (table_result (table_in function) line (parts count (store_of self.old)) (state_of self.old)) (without count (store_of self.old))) }
    {
        self.held.table(count, function, line)
    }

    /// The value at a key of a table; the newest so many values have to be both.
    pub fn index(&mut self, count: usize, line: usize) -> Result<(), LuaError>
        ensures { Answers result (store_of self.new) (with_done (indexed line (parts count (store_of self.old)) (state_of self.old)) (without count (store_of self.old))) }
    {
        self.held.index(count, line)
    }

    /// Stores a value at a key of a table; the newest so many values have to be the three.
    pub fn puts(&mut self, count: usize, line: usize) -> Result<(), LuaError>
        ensures { Answers result (store_of self.new) (with_ended (ended (put line (parts count (store_of self.old)) (state_of self.old))) (without count (store_of self.old))) }
    {
        self.held.puts(count, line)
    }

    /// Stores the newest value, which is taken, under a name in a table.
    pub fn store_named(&mut self, alloc: Global, at: usize, name: &[u8]) -> Result<(), NoMemory>
        ensures { OnOk result (store_of self.new ≡ storing at (lua.Text name.now) (newest (store_of self.old).values) (popped (store_of self.old))) }
    {
        self.held.store_named(alloc, at, name)
    }

    /// Stores the newest value, which is taken, at a number in a table.
    pub fn store_next(&mut self, at: usize, next: usize) -> Result<(), NoMemory>
        ensures { OnOk result (store_of self.new ≡ storing at (Number (pos next)) (newest (store_of self.old).values) (popped (store_of self.old))) }
    {
        self.held.store_next(at, next)
    }

    /// Stores a value at a key in a table; the newest so many values have to be both.
    pub fn store_keyed(&mut self, at: usize, count: usize, line: usize) -> Result<(), LuaError>
        ensures { Answers result (store_of self.new) (with_entry at line (parts count (store_of self.old)) (without count (store_of self.old))) }
    {
        self.held.store_keyed(at, count, line)
    }

    /// The member of a name of the table that is the newest value; the newest so many have to be one.
    pub fn select(
        &mut self,
        alloc: Global,
        count: usize,
        name: &[u8],
        line: usize,
    ) -> Result<(), LuaError>
        ensures { Answers result (store_of self.new) (with_done (indexed line (with_member name.now (parts count (store_of self.old))) (state_of self.old)) (without count (store_of self.old))) }
    {
        self.held.select(alloc, count, name, line)
    }

    /// Opens a loop that counts; the newest so many values have to be its bounds.
    pub fn open_loop(&mut self, count: usize, line: usize) -> Result<(), LuaError>
        ensures { Answers result (store_of self.new) (with_opened (bounds_of line (parts count (store_of self.old))) (without count (store_of self.old))) }
    {
        self.held.open_loop(count, line)
    }

    /// The first turn of the innermost loop, where it comes: its number is a new local. Where none comes the loop is left.
    pub fn begin_turn(&mut self, alloc: Global, name: &[u8]) -> Result<bool, NoMemory>
        ensures comes { IfOk result (λ b. b ≡ comes (newest_bounds (store_of self.old).loops)) }
        ensures turned { OnOk result (store_of self.new ≡ turning name.now (newest_bounds (store_of self.old).loops) (closed (store_of self.old))) }
    {
        self.held.begin_turn(alloc, name)
    }

    /// The next turn of the innermost loop, where it comes: its number is a new local. Where none comes the loop is left.
    pub fn next_turn(&mut self, alloc: Global, name: &[u8]) -> Result<bool, NoMemory>
        ensures comes { IfOk result (λ b. b ≡ comes (next_turn (newest_bounds (store_of self.old).loops))) }
        ensures turned { OnOk result (store_of self.new ≡ turning name.now (next_turn (newest_bounds (store_of self.old).loops)) (closed (store_of self.old))) }
    {
        self.held.next_turn(alloc, name)
    }

    /// Leaves the innermost loop.
    pub fn close_loop(&mut self)
        ensures { store_of self.new ≡ closed (store_of self.old) }
    {
        self.held.close_loop();
    }

    /// Enters a function with the newest so many values as its arguments; a missing one is nil.
    pub fn enter(&mut self, alloc: Global, params: &[Text], count: usize) -> Result<(), NoMemory>
        ensures { OnOk result (store_of self.new ≡ called params.now count (store_of self.old)) }
    {
        self.held.enter(alloc, params, count)?;
        Ok(())
    }

    /// Leaves a function: the locals of its caller are as they were.
    pub fn leave(&mut self, alloc: Global)
        ensures { store_of self.new ≡ left (store_of self.old) }
    {
        self.held.leave();
    }

    /// Stores a value under a name in a table; the newest so many values have to be both.
    pub fn puts_member(
        &mut self,
        alloc: Global,
        count: usize,
        name: &[u8],
        line: usize,
    ) -> Result<(), LuaError>
        ensures { Answers result (store_of self.new) (with_ended (ended (put_member line name.now (parts count (store_of self.old)) (state_of self.old))) (without count (store_of self.old))) }
    {
        self.held.puts_member(alloc, count, name, line)
    }
}
