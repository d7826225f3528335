//! A table: its keys with their values.
ghost use Rattle.std.specs.Prelude.{◌≡◌, ℕ, ◌+◌, ◌<◌, ◌≤◌, ◌^◌, true, false, OnOk, OnErr, if◌then◌else◌};
ghost use Rattle.lua_machine.specs.Tables.{at_key, border, no_keys, place_of, with_key};
ghost use Rattle.lua_store.specs.Rows.{AreHeld, Entries, IsBorder, IsPutAt, at_held, held_in, is_free, is_nothing, row_of};
ghost use Rattle.lua_store.specs.Values.{AreApart, IsHeld, IsHeldKey, Texts, meant, meant_key, same_key};

use crate::value::{Key, SmallValue};
use indexmap::IndexMap;
use std::alloc::Global;
use std::marker::Model;
use tis_base::NoMemory;

/// A table. A key that has nil isn't there.
#[derive(Drop)]
pub struct Row {
    values: IndexMap<Key, SmallValue>,
    last: u64,
    border: u64,
}

impl Model for Row {
    ghost use Rattle.std.specs.Prelude.{◌<◌, ◌^◌};
    ghost use Rattle.lua_store.specs.Rows.{Cells, IsBorder};

    ghost Value = { Cells };

    ghost view = { λ r. record { entries = r.values.entries; last = r.last } };

    ghost invariant = { λ r. (r.last < 2 ^ 63) × IsBorder r.values.entries r.last r.border };
}

impl Row {
    /// A table without keys. It takes no memory.
    pub fn new(alloc: Global) -> Row
        ensures held { (texts : Texts) → AreHeld texts result }
        ensures empty { (texts : Texts) → row_of texts result ≡ no_keys }
    {
        Row {
            values: IndexMap::new(alloc),
            last: 0,
            border: 0,
        }
    }

    /// The value at a key, nil where there is none.
    pub fn get(&self, key: Key) -> SmallValue
        ensures found { result ≡ at_held self.now key }
        ensures held { (texts : Texts) → AreHeld texts self.now → IsHeld texts result }
        ensures value { (texts : Texts) → AreApart texts → IsHeldKey texts key → meant texts result ≡ at_key (row_of texts self.now) (meant_key texts key) }
    {
        found(&self.values, key)
    }

    /// Puts a value at a key. Nil takes the key out.
    pub fn set(&mut self, key: Key, value: SmallValue) -> Result<(), NoMemory>
        ensures stored { OnOk result ((texts : Texts) → AreApart texts → IsHeldKey texts key → row_of texts self.new ≡ with_key (row_of texts self.old) (meant_key texts key) (meant texts value)) }
        ensures held { OnOk result ((texts : Texts) → AreHeld texts self.old → IsHeldKey texts key → IsHeld texts value → AreHeld texts self.new) }
        ensures unchanged { OnErr result (self.new ≡ self.old) }
    {
        let none = is_nothing(&value);
        put(&mut self.values, key, value)?;
        let at = place(key);
        self.last = self.last.max(at);
        self.border = border_behind(&self.values, self.border, self.last, at, none);
        Ok(())
    }

    /// The greatest n such that the keys 1 to n are all there.
    pub fn border(&self) -> u64
        ensures within { result < 2 ^ 63 }
        ensures exact { (texts : Texts) → result ≡ border (row_of texts self.now) }
    {
        self.border
    }
}

// How far up a key is among the numbers.
fn place(key: Key) -> u64
    ensures exact { (texts : Texts) → result ≡ place_of (meant_key texts key) }
    ensures within { result < 2 ^ 63 }
{
    match key {
        Key::Number(number) => number.max(0).unsigned_abs(),
        Key::Truth(_) | Key::Text(_) => 0,
    }
}

// The value at a key of a map, nil where there is none.
fn found(values: &IndexMap<Key, SmallValue>, key: Key) -> SmallValue
    ensures { result ≡ held_in values.now.entries key }
{
    match values.get(&key) {
        Some(value) => *value,
        None => SmallValue::Nil,
    }
}

// Puts a value at a key of a map.
fn put(values: &mut IndexMap<Key, SmallValue>, key: Key, value: SmallValue) -> Result<(), NoMemory>
    ensures put { OnOk result ((other : Key) → held_in values.new.entries other ≡ (if same_key key other then value else held_in values.old.entries other)) }
    ensures unchanged { OnErr result (values.new.entries ≡ values.old.entries) }
{
    match value {
        SmallValue::Nil => {
            values.swap_remove(&key);
            Ok(())
        }
        _ => {
            values.insert(key, value)?;
            Ok(())
        }
    }
}

// Whether nothing is at a number.
fn is_missing(values: &IndexMap<Key, SmallValue>, number: u64) -> bool
    requires { number < 2 ^ 63 }
    ensures { result ≡ is_free values.now.entries number }
{
    matches!(found(values, Key::Number(number as i64)), SmallValue::Nil)
}

// The first number from one on behind which nothing is, or the last one.
fn raised(values: &IndexMap<Key, SmallValue>, from: u64, last: u64) -> u64
    requires least { from ≤ last }
    requires within { last < 2 ^ 63 }
    ensures low { from ≤ result }
    ensures high { result ≤ last }
    ensures there { (k : ℕ) → from ≤ k → k < result → is_free values.now.entries (k + 1) ≡ false }
    ensures ends { result < last → is_free values.now.entries (result + 1) ≡ true }
{
    for n in from..last {
        if is_missing(values, n + 1) {
            return n;
        }
    }
    last
}

fn is_nothing(value: &SmallValue) -> bool
    ensures { result ≡ is_nothing value.now }
{
    matches!(value, SmallValue::Nil)
}

// Where the border is once nothing is at a place.
fn lowered(border: u64, at: u64) -> u64
    ensures within { 0 < at → at ≤ border → result + 1 ≡ at }
    ensures past { border < at → result ≡ border }
    ensures none { at ≡ 0 → result ≡ border }
{
    if 0 < at && at <= border {
        at - 1
    } else {
        border
    }
}

// Where the border is once a value, or nothing, was put at a place. It goes up only over keys that are there.
fn border_behind(
    values: &IndexMap<Key, SmallValue>,
    border: u64,
    last: u64,
    at: u64,
    none: bool,
) -> u64
    requires within { last < 2 ^ 63 }
    requires least { border ≤ last }
    requires place { at ≤ last }
    ensures { (old : Entries) (before : ℕ) → before ≤ last → IsBorder old before border → IsPutAt at none old values.now.entries → IsBorder values.now.entries last result }
{
    if none {
        lowered(border, at)
    } else if at == border + 1 {
        raised(values, at, last)
    } else {
        border
    }
}
