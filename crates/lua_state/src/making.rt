//! What is made of the newest values.
ghost use Rattle.std.specs.Prelude.{◌≡◌, ◌<◌, [], get_or, length, not, IfOk, IsTrue, OnOk};
ghost use Rattle.lua_machine.specs.Library.{math_result, table_result};
ghost use Rattle.lua_machine.specs.Value.{LuaValue, Text};
ghost use Rattle.lua_machine.specs.State.{Done};
ghost use Rattle.lua_machine.specs.Yields.{binary_result, floor_result, indexed, unary_result, with_member};
ghost use Rattle.lua_operations.specs.Functions.{math_in, table_in};
ghost use Rattle.lua_operations.specs.Operations.{is_join};
ghost use Rattle.lua_operations.specs.Results.{Comes};
ghost use Rattle.lua_store.specs.Values.{IsHeld, meant};
ghost use Rattle.lua_state.specs.Held.{IsSound, state_of, store_of};
ghost use Rattle.lua_state.specs.Store.{Answers, parts, pushed, with_done, without};

use crate::held::HeldState;
use lua_machine::LuaError;
use lua_operations::{
    MathFunction, TableFunction, binary_of_parts, floor_of_parts, index_of_parts, is_join,
    joined_of_parts, math_of_parts, select_of_parts, table_of_parts, unary_of_parts,
};
use lua_store::SmallValue;
use lua_tree::{BinaryOp, UnaryOp};
use std::alloc::Global;
use tis_base::NoMemory;

impl HeldState {
    // Puts a value in place of the newest so many.
    fn replace(&mut self, count: usize, value: SmallValue) -> Result<(), NoMemory>
        requires sound { IsSound self.old }
        requires held { IsHeld self.old.texts value }
        ensures put { OnOk result (store_of self.new ≡ pushed (meant self.old.texts value) (without count (store_of self.old))) }
        ensures sound { IsSound self.new }
    {
        self.values.drop_top(count);
        self.values.push(value)?;
        Ok(())
    }

    // Puts what was made in place of the newest so many values, unless it was refused.
    fn finish(&mut self, count: usize, value: Result<SmallValue, LuaError>) -> Result<(), LuaError>
        requires sound { IsSound self.old }
        requires held { IfOk value (λ v. IsHeld self.old.texts v) }
        ensures made { (done : Done LuaValue) → Comes self.old.texts value done.outcome → done.state ≡ state_of self.old → Answers result (store_of self.new) (with_done done (without count (store_of self.old))) }
        ensures sound { IsSound self.new }
    {
        match value {
            Ok(value) => {
                self.replace(count, value)?;
                Ok(())
            }
            Err(why) => Err(why),
        }
    }

    pub(crate) fn unary(&mut self, count: usize, op: UnaryOp, line: usize) -> Result<(), LuaError>
        requires { IsSound self.old }
        ensures made { Answers result (store_of self.new) (with_done (unary_result op line (parts count (store_of self.old)) (state_of self.old)) (without count (store_of self.old))) }
        ensures sound { IsSound self.new }
    {
        let values = self.values.top(count);
        let value = unary_of_parts(&self.texts, &self.tables, op, line, values);
        self.finish(count, value)
    }

    pub(crate) fn floors(&mut self, count: usize, line: usize) -> Result<(), LuaError>
        requires { IsSound self.old }
        ensures made { Answers result (store_of self.new) (with_done (floor_result line (parts count (store_of self.old)) (state_of self.old)) (without count (store_of self.old))) }
        ensures sound { IsSound self.new }
    {
        let value = floor_of_parts(line, self.values.top(count));
        self.finish(count, value)
    }

    // Puts a text in place of the newest so many values.
    fn replace_by_text(&mut self, alloc: Global, count: usize, bytes: &[u8]) -> Result<(), NoMemory>
        requires { IsSound self.old }
        ensures put { OnOk result (store_of self.new ≡ pushed (Text bytes.now) (without count (store_of self.old))) }
        ensures sound { IsSound self.new }
    {
        let at = self.hold(alloc, bytes)?;
        self.replace(count, SmallValue::Text(at))?;
        Ok(())
    }

    fn join(&mut self, alloc: Global, count: usize, line: usize) -> Result<(), LuaError>
        requires { IsSound self.old }
        ensures made { Answers result (store_of self.new) (with_done (binary_result BinaryOp.Join line (parts count (store_of self.old)) (state_of self.old)) (without count (store_of self.old))) }
        ensures sound { IsSound self.new }
    {
        let values = self.values.top(count);
        match joined_of_parts(&self.texts, alloc, line, values) {
            Ok(bytes) => {
                self.replace_by_text(alloc, count, bytes.as_slice())?;
                Ok(())
            }
            Err(why) => Err(why),
        }
    }

    fn operate(&mut self, count: usize, op: BinaryOp, line: usize) -> Result<(), LuaError>
        requires sound { IsSound self.old }
        requires other { IsTrue (not (is_join op)) }
        ensures made { Answers result (store_of self.new) (with_done (binary_result op line (parts count (store_of self.old)) (state_of self.old)) (without count (store_of self.old))) }
        ensures sound { IsSound self.new }
    {
        let values = self.values.top(count);
        let value = binary_of_parts(&self.texts, op, line, values);
        self.finish(count, value)
    }

    pub(crate) fn binary(
        &mut self,
        alloc: Global,
        count: usize,
        op: BinaryOp,
        line: usize,
    ) -> Result<(), LuaError>
        requires { IsSound self.old }
        ensures made { Answers result (store_of self.new) (with_done (binary_result op line (parts count (store_of self.old)) (state_of self.old)) (without count (store_of self.old))) }
        ensures sound { IsSound self.new }
    {
        if is_join(op) {
            self.join(alloc, count, line)
        } else {
            self.operate(count, op, line)
        }
    }

    pub(crate) fn index(&mut self, count: usize, line: usize) -> Result<(), LuaError>
        requires { IsSound self.old }
        ensures made { Answers result (store_of self.new) (with_done (indexed line (parts count (store_of self.old)) (state_of self.old)) (without count (store_of self.old))) }
        ensures sound { IsSound self.new }
    {
        let values = self.values.top(count);
        let value = index_of_parts(&self.tables, line, values);
        self.finish(count, value)
    }

    // The member at a place among the texts.
    fn select_at(&mut self, count: usize, name: usize, line: usize) -> Result<(), LuaError>
        requires sound { IsSound self.old }
        requires inside { name < length self.old.texts }
        ensures made { Answers result (store_of self.new) (with_done (indexed line (with_member (get_or self.old.texts name []) (parts count (store_of self.old))) (state_of self.old)) (without count (store_of self.old))) }
        ensures sound { IsSound self.new }
    {
        let values = self.values.top(count);
        let value = select_of_parts(&self.tables, line, name, values);
        self.finish(count, value)
    }

    pub(crate) fn select(
        &mut self,
        alloc: Global,
        count: usize,
        name: &[u8],
        line: usize,
    ) -> Result<(), LuaError>
        requires { IsSound self.old }
        ensures made { Answers result (store_of self.new) (with_done (indexed line (with_member name.now (parts count (store_of self.old))) (state_of self.old)) (without count (store_of self.old))) }
        ensures sound { IsSound self.new }
    {
        let at = self.hold(alloc, name)?;
        self.select_at(count, at, line)
    }

    pub(crate) fn math(
        &mut self,
        count: usize,
        function: MathFunction,
        line: usize,
    ) -> Result<(), LuaError>
        requires { IsSound self.old }
        ensures made { Answers result (store_of self.new) (with_done (math_result (math_in function) line (parts count (store_of self.old)) (state_of self.old)) (without count (store_of self.old))) }
        ensures sound { IsSound self.new }
    {
        let values = self.values.top(count);
        match math_of_parts(&mut self.generator, function, line, values) {
            Ok(value) => {
                self.replace(count, value)?;
                Ok(())
            }
            Err(why) => Err(why),
        }
    }

    pub(crate) fn table(
        &mut self,
        count: usize,
        function: TableFunction,
        line: usize,
    ) -> Result<(), LuaError>
        requires { IsSound self.old }
        ensures made { Answers result (store_of self.new) (with_done (table_result (table_in function) line (parts count (store_of self.old)) (state_of self.old)) (without count (store_of self.old))) }
        ensures sound { IsSound self.new }
    {
        let values = self.values.top(count);
        match table_of_parts(&mut self.tables, function, line, values) {
            Ok(value) => {
                self.replace(count, value)?;
                Ok(())
            }
            Err(why) => Err(why),
        }
    }
}
