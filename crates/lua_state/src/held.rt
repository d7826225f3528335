//! What an evaluation holds.
ghost use Rattle.std.specs.Prelude.{◌≡◌, ◌<◌, [], ◌∷◌, ◌++◌, length, get_or, IfOk, OnOk};
ghost use Rattle.lua_machine.specs.Value.{Nil, Truth, Number, Text, Table};
ghost use Rattle.lua_machine.specs.Operators.{text};
ghost use Rattle.lua_machine.specs.Tables.{no_keys};
ghost use Rattle.lua_state.specs.Held.{IsSound, state_of, store_of};
ghost use Rattle.lua_state.specs.Store.{Answers, in_state, popped, pushed, with_made};

use crate::bounds::LoopBounds;
use crate::globals::Globals;
use crate::locals::Locals;
use crate::stack::Stack;
use lua_machine::LuaError;
use lua_numbers::LuaNumber;
use lua_store::laws::texts_may_grow;
use lua_store::{HeldTexts, LuaTables, SmallValue};
use rand_pcg::Pcg32;
use std::alloc::Global;
use tis_base::NoMemory;

/// Small values with the texts and the tables that they name, and where they stand.
#[derive(Drop)]
pub(crate) struct HeldState {
    pub(crate) texts: HeldTexts,
    pub(crate) values: Stack<SmallValue>,
    pub(crate) locals: Locals,
    pub(crate) globals: Globals,
    pub(crate) tables: LuaTables,
    pub(crate) loops: Stack<LoopBounds>,
    pub(crate) generator: Pcg32,
}

impl HeldState {
    // The place of a text, which is held from then on.
    #[inline(always)]
    pub(crate) fn hold(&mut self, alloc: Global, bytes: &[u8]) -> Result<usize, NoMemory>
        requires { IsSound self.old }
        ensures place { IfOk result (λ at. (at < length self.new.texts) × (get_or self.new.texts at [] ≡ bytes.now)) }
        ensures same { OnOk result (store_of self.new ≡ store_of self.old) }
        ensures sound { IsSound self.new }
    {
        texts_may_grow();
        let at = self.texts.hold(alloc, bytes)?;
        Ok(at)
    }

    pub(crate) fn push_nil(&mut self) -> Result<(), NoMemory>
        requires { IsSound self.old }
        ensures pushed { OnOk result (store_of self.new ≡ pushed Nil (store_of self.old)) }
        ensures sound { IsSound self.new }
    {
        self.values.push(SmallValue::Nil)
    }

    pub(crate) fn push_truth(&mut self, truth: bool) -> Result<(), NoMemory>
        requires { IsSound self.old }
        ensures pushed { OnOk result (store_of self.new ≡ pushed (Truth truth) (store_of self.old)) }
        ensures sound { IsSound self.new }
    {
        self.values.push(SmallValue::Truth(truth))
    }

    pub(crate) fn push_number(&mut self, number: LuaNumber) -> Result<(), NoMemory>
        requires { IsSound self.old }
        ensures pushed { OnOk result (store_of self.new ≡ pushed (Number number) (store_of self.old)) }
        ensures sound { IsSound self.new }
    {
        self.values.push(SmallValue::Number(number))
    }

    // Puts a table, whether it is there or not.
    pub(crate) fn push_table(&mut self, at: usize) -> Result<(), NoMemory>
        requires { IsSound self.old }
        ensures pushed { OnOk result (store_of self.new ≡ pushed (Table at) (store_of self.old)) }
        ensures sound { IsSound self.new }
    {
        self.values.push(SmallValue::Table(at))
    }

    // Puts a text of any length.
    pub(crate) fn push_bytes(&mut self, alloc: Global, bytes: &[u8]) -> Result<(), NoMemory>
        requires { IsSound self.old }
        ensures pushed { OnOk result (store_of self.new ≡ pushed (Text bytes.now) (store_of self.old)) }
        ensures sound { IsSound self.new }
    {
        let at = self.hold(alloc, bytes)?;
        self.values.push(SmallValue::Text(at))?;
        Ok(())
    }

    pub(crate) fn pop(&mut self)
        requires { IsSound self.old }
        ensures popped { store_of self.new ≡ popped (store_of self.old) }
        ensures sound { IsSound self.new }
    {
        self.values.pop_or(SmallValue::Nil);
    }

    /// A new table without keys, and the number of its row.
    pub(crate) fn add_table(&mut self, alloc: Global) -> Result<usize, NoMemory>
        requires { IsSound self.old }
        ensures place { IfOk result (λ at. at ≡ length (store_of self.old).state.tables) }
        ensures added { OnOk result (store_of self.new ≡ in_state (record (state_of self.old) { tables = (state_of self.old).tables ++ no_keys ∷ [] }) (store_of self.old)) }
        ensures sound { IsSound self.new }
    {
        let at = self.tables.add(alloc)?;
        Ok(at)
    }

    /// Puts a text, unless it is too long.
    pub(crate) fn push_text(
        &mut self,
        alloc: Global,
        line: usize,
        bytes: &[u8],
    ) -> Result<(), LuaError>
        requires { IsSound self.old }
        ensures made { Answers result (store_of self.new) (with_made (text line bytes.now) (state_of self.old) (store_of self.old)) }
        ensures sound { IsSound self.new }
    {
        if bytes.len() > 1024 {
            return Err(LuaError::LongString { line });
        }
        self.push_bytes(alloc, bytes)?;
        Ok(())
    }

    /// How many locals there are.
    pub(crate) fn locals(&self) -> usize
        ensures { result ≡ length (state_of self.now).locals }
    {
        self.locals.len()
    }
}
