//! The tables of an evaluation.
ghost use Rattle.std.specs.Prelude.{◌≡◌, ◌<◌, ◌^◌, ◌++◌, ◌∷◌, [], length, IfOk, OnOk, OnErr};
ghost use Rattle.std.specs.List.{All};
ghost use Rattle.lua_machine.specs.Tables.{at_key, border, no_keys, row, stored};
ghost use Rattle.lua_store.specs.Rows.{AreHeld, tables_of};
ghost use Rattle.lua_store.specs.Values.{AreApart, IsHeld, IsHeldKey, Texts, meant, meant_key};

use crate::row::Row;
use crate::value::{Key, SmallValue};
use std::alloc::Global;
use std::marker::Model;
use tis_base::NoMemory;

/// Tables, each named by the number of its row.
#[derive(Drop)]
pub struct LuaTables {
    rows: Vec<Row>,
}

impl Model for LuaTables {
    ghost use Rattle.std.specs.Prelude.{List};
    ghost use Rattle.lua_store.specs.Rows.{Cells};

    ghost Value = { List Cells };

    ghost view = { λ t. t.rows.items };
}

impl LuaTables {
    /// No tables. It takes no memory.
    pub fn new(alloc: Global) -> LuaTables
        ensures empty { result ≡ [] }
        ensures held { (texts : Texts) → All (AreHeld texts) result }
    {
        LuaTables {
            rows: Vec::new(alloc),
        }
    }

    /// A new table without keys, and the number of its row.
    pub fn add(&mut self, alloc: Global) -> Result<usize, NoMemory>
        ensures place { IfOk result (λ at. at ≡ length self.old) }
        ensures added { OnOk result ((texts : Texts) → tables_of texts self.new ≡ tables_of texts self.old ++ no_keys ∷ []) }
        ensures held { OnOk result ((texts : Texts) → All (AreHeld texts) self.old → All (AreHeld texts) self.new) }
        ensures unchanged { OnErr result (self.new ≡ self.old) }
    {
        let at = self.rows.len();
        self.rows.push(Row::new(alloc))?;
        Ok(at)
    }

    /// The value at a key of a table, nil where there is none.
    pub fn get(&self, at: usize, key: Key) -> SmallValue
        requires { at < length self.now }
        ensures held { (texts : Texts) → All (AreHeld texts) self.now → IsHeld texts result }
        ensures value { (texts : Texts) → AreApart texts → IsHeldKey texts key → meant texts result ≡ at_key (row (tables_of texts self.now) at) (meant_key texts key) }
    {
        let table = &self.rows[at];
        table.get(key)
    }

    /// Puts a value at a key of a table. Nil takes the key out.
    pub fn set(&mut self, at: usize, key: Key, value: SmallValue) -> Result<(), NoMemory>
        requires { at < length self.old }
        ensures stored { OnOk result ((texts : Texts) → AreApart texts → IsHeldKey texts key → tables_of texts self.new ≡ stored (tables_of texts self.old) at (meant_key texts key) (meant texts value)) }
        ensures held { OnOk result ((texts : Texts) → All (AreHeld texts) self.old → IsHeldKey texts key → IsHeld texts value → All (AreHeld texts) self.new) }
        ensures unchanged { OnErr result (self.new ≡ self.old) }
    {
        let table = &mut self.rows[at];
        table.set(key, value)?;
        Ok(())
    }

    /// The greatest n such that the keys 1 to n of a table are all there.
    pub fn border(&self, at: usize) -> u64
        requires { at < length self.now }
        ensures within { result < 2 ^ 63 }
        ensures exact { (texts : Texts) → result ≡ border (row (tables_of texts self.now) at) }
    {
        let table = &self.rows[at];
        table.border()
    }

    /// The value at a key of a table; nil where there is no such table.
    pub fn value_at(&self, at: usize, key: Key) -> SmallValue
        ensures held { (texts : Texts) → All (AreHeld texts) self.now → IsHeld texts result }
        ensures value { (texts : Texts) → AreApart texts → IsHeldKey texts key → meant texts result ≡ at_key (row (tables_of texts self.now) at) (meant_key texts key) }
    {
        if at < self.rows.len() {
            self.get(at, key)
        } else {
            SmallValue::Nil
        }
    }

    /// Puts a value at a key of a table, where there is such a table.
    pub fn put(&mut self, at: usize, key: Key, value: SmallValue) -> Result<(), NoMemory>
        ensures stored { OnOk result ((texts : Texts) → AreApart texts → IsHeldKey texts key → tables_of texts self.new ≡ stored (tables_of texts self.old) at (meant_key texts key) (meant texts value)) }
        ensures held { OnOk result ((texts : Texts) → All (AreHeld texts) self.old → IsHeldKey texts key → IsHeld texts value → All (AreHeld texts) self.new) }
        ensures unchanged { OnErr result (self.new ≡ self.old) }
    {
        if at < self.rows.len() {
            self.set(at, key, value)?;
        }
        Ok(())
    }

    /// The greatest n such that the keys 1 to n of a table are all there; 0 where there is no such table.
    pub fn border_at(&self, at: usize) -> u64
        ensures exact { (texts : Texts) → result ≡ border (row (tables_of texts self.now) at) }
        ensures within { result < 2 ^ 63 }
    {
        if at < self.rows.len() {
            self.border(at)
        } else {
            0
        }
    }
}
