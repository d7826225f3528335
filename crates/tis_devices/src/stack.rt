//! The stack memory node.
ghost use Rattle.std.specs.Prelude.{◌≡◌, ◌<◌, ◌≤◌, ◌↔◌, [], ◌∷◌, ◌++◌, length, slice_get, Some, IsTrue};
ghost use Rattle.tis_base.specs.Saturation.{IsValue};
ghost use Rattle.tis_devices.specs.Stack.{ROOM, newest, without_newest};

use arrayvec::ArrayVec;
use std::marker::Model;
use tis_base::Value;

// How many values a stack holds at most.
const MOST: usize = 15;

/// A stack memory node (T30): at most fifteen values, of which the newest is popped first. Contracts see
/// the list of its values, oldest first.
#[derive(Debug, Drop)]
pub struct Stack {
    values: ArrayVec<Value, MOST>,
}

impl Model for Stack {
    ghost use Rattle.std.specs.Prelude.{List, ℤ, All};
    ghost use Rattle.tis_base.specs.Saturation.{IsValue};

    ghost Value = { List ℤ };

    ghost view = { λ s. s.values.items };

    ghost invariant = { λ s. All IsValue s.values.items };
}

impl Stack {
    /// The stack without a value.
    pub fn new() -> Stack
        ensures { result ≡ [] }
    {
        Stack {
            values: ArrayVec::new(),
        }
    }

    /// A stack with the same values. It takes no memory.
    pub fn copy(&self) -> Stack
        ensures { result ≡ self.now }
    {
        let mut values = ArrayVec::new();
        values.try_extend_from_slice(&self.values).unwrap();
        Stack { values }
    }

    /// Whether fifteen values are there.
    pub fn is_full(&self) -> bool
        ensures full { IsTrue result ↔ (length self.now ≡ ROOM) }
        ensures room { length self.now ≤ ROOM }
    {
        self.values.is_full()
    }

    /// Whether no value is there.
    pub fn is_empty(&self) -> bool
        ensures { IsTrue result ↔ (length self.now ≡ 0) }
    {
        self.values.is_empty()
    }

    /// One more value, which is then the newest.
    pub fn push(&mut self, value: Value)
        requires { length self.old < ROOM }
        ensures { self.new ≡ self.old ++ value ∷ [] }
    {
        self.values.push(value);
    }

    /// Takes the newest value away.
    pub fn pop(&mut self) -> Value
        requires { 0 < length self.old }
        ensures value { result ≡ newest self.old }
        ensures others { self.new ≡ without_newest self.old }
    {
        match self.values.pop() {
            Some(value) => value,
            None => unreachable!(),
        }
    }

    /// How many values there are.
    pub fn len(&self) -> u8
        ensures len { result ≡ length self.now }
        ensures room { length self.now ≤ ROOM }
    {
        self.values.len() as u8
    }

    /// The value at an index, counted from 0 for the oldest.
    pub fn at(&self, index: u8) -> Value
        requires { index < length self.now }
        ensures value { slice_get self.now index ≡ Some result }
        ensures held { IsValue result }
    {
        self.values[index as usize]
    }
}
