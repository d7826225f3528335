//! A list of values that grows at its end.
ghost use Rattle.std.specs.Prelude.{◌≡◌, ◌<◌, ◌≤◌, ◌+◌, ◌-◌, All, [], ◌∷◌, ◌++◌, length, take, slice_get, OnOk, OnErr, IsOk, Some, IsTrue, ◌↔◌, Contains, pos};
ghost use Rattle.tis_base.specs.Saturation.{IsValue};

use crate::memory::NoMemory;
use crate::value::Value;
use std::alloc::Global;
use std::marker::Model;

/// A list of values, first to last, and how many more fit without taking memory.
#[derive(Debug, Drop)]
pub struct Values {
    values: Vec<Value>,
    spare: usize,
}

impl Model for Values {
    ghost use Rattle.std.specs.Prelude.{◌+◌, ◌≤◌, All, vec_len, vec_capacity};
    ghost use Rattle.tis_base.specs.Saturation.{IsValue};
    ghost use Rattle.tis_base.specs.Values.{Values};

    ghost Value = { Values };

    ghost view = { λ v. record { items = v.values.items; spare = v.spare } };

    ghost invariant = { λ v. All IsValue v.values.items
        × (vec_len v.values + v.spare ≤ vec_capacity v.values) };
}

impl Values {
    /// The empty list. It takes no memory.
    pub fn new(alloc: Global) -> Values
        ensures { result ≡ record { items = []; spare = 0 } }
    {
        Values {
            values: Vec::new(alloc),
            spare: 0,
        }
    }

    /// One more value at the end. It uses up at most one of the spare places. Want of memory leaves
    /// the list as it was.
    pub fn push(&mut self, value: Value) -> Result<(), NoMemory>
        ensures ok { OnOk result (self.new.items ≡ self.old.items ++ value ∷ []) }
        ensures spare { self.old.spare ≤ self.new.spare + 1 }
        ensures spared { 0 < self.old.spare → IsOk result }
        ensures err { OnErr result (self.new ≡ self.old) }
    {
        // The call tells the proof that this is a value.
        value.get();
        self.values.push(value)?;
        self.spare = self.values.capacity() - self.values.len();
        Ok(())
    }

    /// Makes room for so many more values. Want of memory leaves the list as it was.
    pub fn reserve(&mut self, count: usize) -> Result<(), NoMemory>
        ensures ok { OnOk result (count ≤ self.new.spare) }
        ensures items { self.new.items ≡ self.old.items }
        ensures spare { self.old.spare ≤ self.new.spare }
        ensures spared { count ≤ self.old.spare → IsOk result }
        ensures err { OnErr result (self.new ≡ self.old) }
    {
        self.values.reserve(count)?;
        self.spare = self.values.capacity() - self.values.len();
        Ok(())
    }

    /// How many more values can be pushed without taking memory.
    pub fn spare(&self) -> usize
        ensures { result ≡ self.now.spare }
    {
        self.spare
    }

    /// One more value at the end, in a spare place. It takes no memory.
    pub fn push_spared(&mut self, value: Value)
        requires { 0 < self.old.spare }
        ensures items { self.new.items ≡ self.old.items ++ value ∷ [] }
        ensures spare { self.new.spare + 1 ≡ self.old.spare }
    {
        value.get();
        self.values.push(value).unwrap();
        self.spare -= 1;
    }

    /// Leaves the first so many values alone. The places of the others are spare.
    pub fn cut(&mut self, len: usize)
        requires { len ≤ length self.old.items }
        ensures items { self.new.items ≡ take len self.old.items }
        ensures spare { self.new.spare ≡ self.old.spare + (length self.old.items - len) }
    {
        self.spare += self.values.len() - len;
        self.values.truncate(len);
    }

    /// How many values the list has.
    pub fn len(&self) -> usize
        ensures len { result ≡ length self.now.items }
        ensures held { All IsValue self.now.items }
    {
        self.values.len()
    }

    /// Whether the list has no value.
    pub fn is_empty(&self) -> bool
        ensures { IsTrue result ↔ (self.now.items ≡ []) }
    {
        self.values.is_empty()
    }

    /// The value at an index from 0 on.
    pub fn at(&self, index: usize) -> Value
        requires { index < length self.now.items }
        ensures value { slice_get self.now.items index ≡ Some result }
        ensures held { All IsValue self.now.items }
    {
        self.values[index]
    }

    /// Whether the list has this number.
    pub(crate) fn has(&self, number: u64) -> bool
        ensures { IsTrue result ↔ Contains self.now.items (pos number) }
    {
        self.values.iter().any(|value| value.is(number))
    }
}
