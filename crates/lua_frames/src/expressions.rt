//! How expressions are begun.
ghost use Rattle.std.specs.Prelude.{◌≡◌, ◌+◌, ◌++◌, ◌∷◌, [], ℕ, length, IfOk, Some, map};
ghost use Rattle.lua_machine.specs.Tables.{no_keys};
ghost use Rattle.lua_machine.specs.Operators.{is_logical, text};
ghost use Rattle.lua_machine.specs.Tree.{items_of, node_of, nodes, numeral, entry_nodes, entry_node_of};
ghost use Rattle.lua_machine.specs.Turn.{back, call_begun, expression_begun, filling, math_begun, math_by, binary_begun, table_begun};
ghost use Rattle.lua_machine.specs.Functions.{function_of};
ghost use Rattle.lua_machine.specs.Library.{math_of, table_of};
ghost use Rattle.lua_machine.specs.Yields.{answered};
ghost use Rattle.lua_machine.specs.State.{gives, value_of};
ghost use Rattle.lua_machine.specs.Value.{Nil, Number, Truth};
ghost use Rattle.std.specs.Option.{option_map};
ghost use Rattle.lua_frames.specs.Machines.{state_in, waiting};
ghost use Rattle.lua_frames.specs.Parts.{entries_in};
ghost use Rattle.lua_operations.specs.Functions.{math_in};
ghost use Rattle.lua_frames.specs.Quotients.{quotient_in};
ghost use Rattle.lua_frames.specs.Turns.{Comes, Turns};

use crate::control::Control;
use crate::frame::{Frame, Making, push_frame};
use crate::function_table::FunctionTable;
use crate::machine::Machine;
use crate::parts::Parts;
use crate::quotient::floored;
use lua_machine::LuaError;
use lua_numbers::LuaNumber;
use lua_operations::{MathFunction, math_function, table_function};
use lua_tree::{BinaryOp, Entry, Expr};
use std::alloc::Global;
use tis_base::NoMemory;

// A number that isn't past 2^53 either way.
fn taken(value: i64) -> Result<LuaNumber, NoMemory>
    ensures { IfOk result (λ n. n ≡ value) }
{
    match LuaNumber::new(value) {
        Some(number) => Ok(number),
        None => Err(NoMemory),
    }
}

// A numeral; one past 2^53 either way is the number at that end.
pub(crate) fn numeral(value: i64) -> Result<LuaNumber, NoMemory>
    ensures { IfOk result (λ n. n ≡ numeral value) }
{
    let low = 9_007_199_254_740_992_i64.min(value);
    taken((-9_007_199_254_740_992_i64).max(low))
}

pub(crate) fn is_logical(op: BinaryOp) -> bool
    ensures { result ≡ is_logical op }
{
    match op {
        BinaryOp::And | BinaryOp::Or => true,
        _ => false,
    }
}

impl<'a> Machine<'a> {
    // Back with a text, unless it is too long.
    fn string(&mut self, alloc: Global, line: usize, bytes: &[u8]) -> Result<Control<'a>, LuaError>
        ensures { Turns result self.new (back (answered (text line bytes.now) (state_in self.old)) (waiting self.old) self.old.calls self.old.units) }
    {
        self.state.push_text(alloc, line, bytes)?;
        Ok(Control::Returns)
    }

    // Back with nil.
    fn nil(&mut self) -> Result<Control<'a>, LuaError>
        ensures { Turns result self.new (back (gives Nil (state_in self.old)) (waiting self.old) self.old.calls self.old.units) }
    {
        self.state.push_nil()?;
        Ok(Control::Returns)
    }

    // Back with a truth value.
    fn truth(&mut self, truth: bool) -> Result<Control<'a>, LuaError>
        ensures { Turns result self.new (back (gives (Truth truth) (state_in self.old)) (waiting self.old) self.old.calls self.old.units) }
    {
        self.state.push_truth(truth)?;
        Ok(Control::Returns)
    }

    // Back with a numeral.
    fn number(&mut self, value: i64) -> Result<Control<'a>, LuaError>
        ensures { Turns result self.new (back (gives (Number (numeral value)) (state_in self.old)) (waiting self.old) self.old.calls self.old.units) }
    {
        let number = numeral(value)?;
        self.state.push_number(number)?;
        Ok(Control::Returns)
    }

    // Back with the value of a name.
    fn variable(&mut self, alloc: Global, name: &[u8]) -> Result<Control<'a>, LuaError>
        ensures { Turns result self.new (back (gives (value_of name.now (state_in self.old)) (state_in self.old)) (waiting self.old) self.old.calls self.old.units) }
    {
        self.state.push_variable(alloc, name)?;
        Ok(Control::Returns)
    }

    // Begins a call of a function of the chunk, whose unit is paid.
    #[tactic(auto, using(crate::proofs::Reaching::at_once))]
    fn call(
        &mut self,
        alloc: Global,
        functions: &FunctionTable<'a>,
        name: &[u8],
        args: &'a [Expr],
        line: usize,
        cost: u64,
    ) -> Result<Control<'a>, LuaError>
        requires { self.old.units ≡ cost + 1 }
        ensures { Comes result self.new (call_begun (function_of (items_of functions.now) name.now) (nodes (map node_of args.now)) line (waiting self.old) self.old.calls (state_in self.old) cost) }
    {
        match functions.find(name) {
            Some(function) => self.begin_call(alloc, function, args, line),
            None => Err(LuaError::UnknownName { line }),
        }
    }

    // Begins a call of a function of `math`, whose unit is paid; a quotient under `math.floor` pays one more.
    fn math(
        &mut self,
        alloc: Global,
        function: MathFunction,
        args: &'a [Expr],
        line: usize,
        cost: u64,
    ) -> Result<Control<'a>, LuaError>
        requires { self.old.units ≡ cost + 1 }
        ensures { Comes result self.new (math_begun (Some (math_in function)) (nodes (map node_of args.now)) line (waiting self.old) self.old.calls (state_in self.old) cost) }
    {
        match floored(function, args) {
            Some(of) => {
                self.units.pay()?;
                self.begin(
                    alloc,
                    Making::Floors(of.line),
                    of.left,
                    Parts::One(of.right),
                )
            }
            None => self.begin_math(alloc, function, args, line),
        }
    }

    // Begins a call of `math`, whose unit is paid.
    #[tactic(auto, using(crate::proofs::Reaching::at_once))]
    fn math_call(
        &mut self,
        alloc: Global,
        name: &[u8],
        args: &'a [Expr],
        line: usize,
        cost: u64,
    ) -> Result<Control<'a>, LuaError>
        requires { self.old.units ≡ cost + 1 }
        ensures { Comes result self.new (math_begun (math_of name.now) (nodes (map node_of args.now)) line (waiting self.old) self.old.calls (state_in self.old) cost) }
    {
        match math_function(name) {
            Some(function) => self.math(alloc, function, args, line, cost),
            None => Err(LuaError::UnknownName { line }),
        }
    }

    // Begins a call of `table`, whose unit is paid.
    #[tactic(auto, using(crate::proofs::Reaching::at_once))]
    fn table_call(
        &mut self,
        alloc: Global,
        name: &[u8],
        args: &'a [Expr],
        line: usize,
        cost: u64,
    ) -> Result<Control<'a>, LuaError>
        requires { self.old.units ≡ cost + 1 }
        ensures { Comes result self.new (table_begun (table_of name.now) (nodes (map node_of args.now)) line (waiting self.old) self.old.calls (state_in self.old) cost) }
    {
        match table_function(name) {
            Some(function) => self.begin_table(alloc, function, args, line),
            None => Err(LuaError::UnknownName { line }),
        }
    }

    // Begins a binary operator, whose unit is paid.
    #[tactic(auto, using(crate::proofs::Reaching::at_once))]
    fn operator(
        &mut self,
        alloc: Global,
        op: BinaryOp,
        left: &'a Expr,
        right: &'a Expr,
        line: usize,
        cost: u64,
    ) -> Result<Control<'a>, LuaError>
        requires { self.old.units ≡ cost + 1 }
        ensures { Comes result self.new (binary_begun (is_logical op) op (node_of left.now) (node_of right.now) line (waiting self.old) self.old.calls (state_in self.old) cost) }
    {
        if is_logical(op) {
            push_frame(&mut self.frames, Frame::LeftSide(op, right))?;
            Ok(Control::Evaluate(left))
        } else {
            self.begin(alloc, Making::Binary(op, line), left, Parts::One(right))
        }
    }

    // Begins a table.
    fn construct(&mut self, alloc: Global, entries: &'a [Entry]) -> Result<Control<'a>, LuaError>
        ensures { Turns result self.new (filling (length (state_in self.old).tables) 1 (entries_in entries.now) (waiting self.old) self.old.calls (record (state_in self.old) { tables = (state_in self.old).tables ++ no_keys ∷ [] }) self.old.units) }
    {
        let at = self.state.add_table(alloc)?;
        self.fill(at, 1, entries)
    }

    // Begins what calls a function, or has parts of its own; its unit is paid.
    #[tactic(auto, using(crate::proofs::Reaching::at_once))]
    fn begin_parts(
        &mut self,
        alloc: Global,
        functions: &FunctionTable<'a>,
        expr: &'a Expr,
        cost: u64,
    ) -> Result<Control<'a>, LuaError>
        requires { self.old.units ≡ cost + 1 }
        ensures { Comes result self.new (expression_begun (items_of functions.now) (node_of expr.now) (waiting self.old) self.old.calls (state_in self.old) cost) }
    {
        match expr {
            Expr::Nil => self.nil(),
            Expr::True => self.truth(true),
            Expr::False => self.truth(false),
            Expr::Number { value } => self.number(*value),
            Expr::Str { text, line } => self.string(alloc, *line, text.bytes()),
            Expr::Name { name } => self.variable(alloc, name.bytes()),
            Expr::Index { table, key, line } => {
                self.begin(
                    alloc,
                    Making::Indexes(*line),
                    table.get(),
                    Parts::One(key.get()),
                )
            }
            Expr::Member { table, name, line } => self.begin(
                alloc,
                Making::Selects(name.bytes(), *line),
                table.get(),
                Parts::Done,
            ),
            Expr::Call { name, args, line } => {
                self.call(alloc, functions, name.bytes(), args.as_slice(), *line, cost)
            }
            Expr::MathCall { name, args, line } => {
                self.math_call(alloc, name.bytes(), args.as_slice(), *line, cost)
            }
            Expr::TableCall { name, args, line } => {
                self.table_call(alloc, name.bytes(), args.as_slice(), *line, cost)
            }
            Expr::Construct { entries } => self.construct(alloc, entries.as_slice()),
            Expr::Unary { op, of, line } => {
                self.begin(alloc, Making::Unary(*op, *line), of.get(), Parts::Done)
            }
            Expr::Binary {
                op,
                left,
                right,
                line,
            } => self.operator(alloc, *op, left.get(), right.get(), *line, cost),
        }
    }

    /// Begins an expression: its unit is paid, and its first part is evaluated.
    #[tactic(auto, using(crate::proofs::Reaching::at_once))]
    pub fn evaluate(
        &mut self,
        alloc: Global,
        functions: &FunctionTable<'a>,
        expr: &'a Expr,
    ) -> Result<Control<'a>, LuaError>
        ensures { Comes result self.new (expression_begun (items_of functions.now) (node_of expr.now) (waiting self.old) self.old.calls (state_in self.old) self.old.units) }
    {
        let cost = self.units.spent();
        self.units.pay()?;
        self.begin_parts(alloc, functions, expr, cost)
    }
}
