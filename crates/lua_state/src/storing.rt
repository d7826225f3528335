//! Values that go into tables.
ghost use Rattle.std.specs.Prelude.{◌≡◌, ◌<◌, ◌^◌, [], ◌∷◌, get_or, length, map, pos, OnOk};
ghost use Rattle.std.specs.List.{All};
ghost use Rattle.lua_machine.specs.Value.{Number, Table, Text};
ghost use Rattle.lua_machine.specs.State.{State};
ghost use Rattle.lua_machine.specs.Yields.{put, put_member};
ghost use Rattle.lua_store.specs.Rows.{AreHeld, tables_of};
ghost use Rattle.lua_store.specs.Values.{AreApart, IsHeld, IsHeldKey, Texts, meant, meant_key};
ghost use Rattle.lua_state.specs.Held.{IsSound, state_of, store_of};
ghost use Rattle.lua_state.specs.Store.{Answers, ended, newest, parts, popped, storing, with_ended, without};

use crate::held::HeldState;
use lua_machine::LuaError;
use lua_store::{Key, LuaTables, SmallValue};
use std::alloc::Global;
use tis_base::NoMemory;

// Puts a value at a key of a table.
fn put_value(
    tables: &mut LuaTables,
    line: usize,
    table: SmallValue,
    key: SmallValue,
    value: SmallValue,
) -> Result<(), LuaError>
    ensures put { (texts : Texts) (state : State) → AreApart texts → IsHeld texts key → state.tables ≡ tables_of texts tables.old → Answers result (record state { tables = tables_of texts tables.new }) (ended (put line (meant texts table ∷ meant texts key ∷ meant texts value ∷ []) state)) }
    ensures held { (texts : Texts) → All (AreHeld texts) tables.old → IsHeld texts key → IsHeld texts value → All (AreHeld texts) tables.new }
{
    match table {
        SmallValue::Table(at) => match key.as_key() {
            Some(key) => {
                tables.put(at, key, value)?;
                Ok(())
            }
            None => Err(LuaError::TypeFault { line }),
        },
        _ => Err(LuaError::TypeFault { line }),
    }
}

// The same of parts.
fn put_of_parts(tables: &mut LuaTables, line: usize, values: &[SmallValue]) -> Result<(), LuaError>
    ensures put { (texts : Texts) (state : State) → AreApart texts → All (IsHeld texts) values.now → state.tables ≡ tables_of texts tables.old → Answers result (record state { tables = tables_of texts tables.new }) (ended (put line (map (meant texts) values.now) state)) }
    ensures held { (texts : Texts) → All (AreHeld texts) tables.old → All (IsHeld texts) values.now → All (AreHeld texts) tables.new }
{
    match values {
        [table, key, value] => put_value(tables, line, *table, *key, *value),
        _ => Err(LuaError::TypeFault { line }),
    }
}

// Puts a value at a member of a table, whose name is at a place among the texts.
fn put_member_of_parts(
    tables: &mut LuaTables,
    line: usize,
    name: usize,
    values: &[SmallValue],
) -> Result<(), LuaError>
    ensures put { (texts : Texts) (state : State) → AreApart texts → All (IsHeld texts) values.now → name < length texts → state.tables ≡ tables_of texts tables.old → Answers result (record state { tables = tables_of texts tables.new }) (ended (put_member line (get_or texts name []) (map (meant texts) values.now) state)) }
    ensures held { (texts : Texts) → All (AreHeld texts) tables.old → All (IsHeld texts) values.now → name < length texts → All (AreHeld texts) tables.new }
{
    match values {
        [table, value] => put_value(tables, line, *table, SmallValue::Text(name), *value),
        _ => Err(LuaError::TypeFault { line }),
    }
}

// Puts an entry with a key into a table.
fn put_entry_of_parts(
    tables: &mut LuaTables,
    at: usize,
    line: usize,
    values: &[SmallValue],
) -> Result<(), LuaError>
    ensures put { (texts : Texts) (state : State) → AreApart texts → All (IsHeld texts) values.now → state.tables ≡ tables_of texts tables.old → Answers result (record state { tables = tables_of texts tables.new }) (ended (put line (Table at ∷ map (meant texts) values.now) state)) }
    ensures held { (texts : Texts) → All (AreHeld texts) tables.old → All (IsHeld texts) values.now → All (AreHeld texts) tables.new }
{
    match values {
        [key, value] => put_value(tables, line, SmallValue::Table(at), *key, *value),
        _ => Err(LuaError::TypeFault { line }),
    }
}

// A number as a key.
fn number_key(number: usize) -> Key
    requires { number < 2 ^ 63 }
    ensures key { (texts : Texts) → meant_key texts result ≡ Number (pos number) }
    ensures held { (texts : Texts) → IsHeldKey texts result }
{
    Key::Number(number as i64)
}

impl HeldState {
    // Puts a value at a key of a table.
    fn put_at(&mut self, at: usize, key: Key, value: SmallValue) -> Result<(), NoMemory>
        requires sound { IsSound self.old }
        requires key { IsHeldKey self.old.texts key }
        requires value { IsHeld self.old.texts value }
        ensures stored { OnOk result (store_of self.new ≡ storing at (meant_key self.old.texts key) (meant self.old.texts value) (store_of self.old)) }
        ensures sound { IsSound self.new }
    {
        self.tables.put(at, key, value)?;
        Ok(())
    }

    /// Stores the newest value, which is taken, under a name in a table.
    pub(crate) fn store_named(
        &mut self,
        alloc: Global,
        at: usize,
        name: &[u8],
    ) -> Result<(), NoMemory>
        requires { IsSound self.old }
        ensures stored { OnOk result (store_of self.new ≡ storing at (Text name.now) (newest (store_of self.old).values) (popped (store_of self.old))) }
        ensures sound { IsSound self.new }
    {
        let place = self.hold(alloc, name)?;
        let value = self.take();
        self.put_at(at, Key::Text(place), value)?;
        Ok(())
    }

    /// Stores the newest value, which is taken, at a number in a table.
    pub(crate) fn store_next(&mut self, at: usize, next: usize) -> Result<(), NoMemory>
        requires { IsSound self.old }
        ensures stored { OnOk result (store_of self.new ≡ storing at (Number (pos next)) (newest (store_of self.old).values) (popped (store_of self.old))) }
        ensures sound { IsSound self.new }
    {
        if next >= 9_223_372_036_854_775_808 {
            return Err(NoMemory);
        }
        let value = self.take();
        self.put_at(at, number_key(next), value)?;
        Ok(())
    }

    /// Puts the newest but two and the newest but one as table and key, and the newest value there.
    pub(crate) fn puts(&mut self, count: usize, line: usize) -> Result<(), LuaError>
        requires { IsSound self.old }
        ensures put { Answers result (store_of self.new) (with_ended (ended (put line (parts count (store_of self.old)) (state_of self.old))) (without count (store_of self.old))) }
        ensures sound { IsSound self.new }
    {
        let values = self.values.top(count);
        match put_of_parts(&mut self.tables, line, values) {
            Ok(()) => {
                self.values.drop_top(count);
                Ok(())
            }
            Err(why) => Err(why),
        }
    }

    /// Stores the newest value at the key before it in a table.
    pub(crate) fn store_keyed(
        &mut self,
        at: usize,
        count: usize,
        line: usize,
    ) -> Result<(), LuaError>
        requires { IsSound self.old }
        ensures put { Answers result (store_of self.new) (with_ended (ended (put line (Table at ∷ parts count (store_of self.old)) (state_of self.old))) (without count (store_of self.old))) }
        ensures sound { IsSound self.new }
    {
        let values = self.values.top(count);
        match put_entry_of_parts(&mut self.tables, at, line, values) {
            Ok(()) => {
                self.values.drop_top(count);
                Ok(())
            }
            Err(why) => Err(why),
        }
    }

    // The same of a member, whose name is at a place among the texts.
    fn puts_at(&mut self, count: usize, name: usize, line: usize) -> Result<(), LuaError>
        requires sound { IsSound self.old }
        requires inside { name < length self.old.texts }
        ensures put { Answers result (store_of self.new) (with_ended (ended (put_member line (get_or self.old.texts name []) (parts count (store_of self.old)) (state_of self.old))) (without count (store_of self.old))) }
        ensures sound { IsSound self.new }
    {
        let values = self.values.top(count);
        match put_member_of_parts(&mut self.tables, line, name, values) {
            Ok(()) => {
                self.values.drop_top(count);
                Ok(())
            }
            Err(why) => Err(why),
        }
    }

    /// Puts the newest value at a member of the table before it.
    pub(crate) fn puts_member(
        &mut self,
        alloc: Global,
        count: usize,
        name: &[u8],
        line: usize,
    ) -> Result<(), LuaError>
        requires { IsSound self.old }
        ensures put { Answers result (store_of self.new) (with_ended (ended (put_member line name.now (parts count (store_of self.old)) (state_of self.old))) (without count (store_of self.old))) }
        ensures sound { IsSound self.new }
    {
        let at = self.hold(alloc, name)?;
        self.puts_at(count, at, line)
    }
}
