//! Variables by their names.
ghost use Rattle.std.specs.Prelude.{◌≡◌, ◌<◌, ◌-◌, [], drop, get_or, length, map, OnOk};
ghost use Rattle.lua_machine.specs.Value.{Nil, is_true};
ghost use Rattle.lua_machine.specs.Operators.{decides};
ghost use Rattle.lua_machine.specs.State.{assigned, declared, value_of};
ghost use Rattle.lua_machine.specs.Turn.{cut_to};
ghost use Rattle.lua_store.specs.Values.{IsHeld, Texts, meant};
ghost use Rattle.lua_state.specs.Held.{IsSound, state_of, store_of};
ghost use Rattle.lua_state.specs.Store.{in_state, newest, popped, pushed};

use crate::held::HeldState;
use crate::variables::Variable;
use lua_operations::is_true;
use lua_store::SmallValue;
use lua_tree::BinaryOp;
use std::alloc::Global;
use tis_base::NoMemory;

// Whether the first part counts as true.
fn truth_of_parts(values: &[SmallValue]) -> bool
    ensures { (texts : Texts) → result ≡ is_true (newest (map (meant texts) values.now)) }
{
    match values {
        [] => false,
        [value, ..] => is_true(*value),
    }
}

impl HeldState {
    // The value of the name at a place among the texts.
    fn value_at(&self, at: usize) -> SmallValue
        requires sound { IsSound self.now }
        requires inside { at < length self.now.texts }
        ensures value { meant self.now.texts result ≡ value_of (get_or self.now.texts at []) (state_of self.now) }
        ensures held { IsHeld self.now.texts result }
    {
        match self.locals.value(at) {
            Some(value) => value,
            None => match self.globals.value(at) {
                Some(value) => value,
                None => SmallValue::Nil,
            },
        }
    }

    /// Puts the value of a name.
    pub(crate) fn push_variable(&mut self, alloc: Global, name: &[u8]) -> Result<(), NoMemory>
        requires { IsSound self.old }
        ensures pushed { OnOk result (store_of self.new ≡ pushed (value_of name.now (state_of self.old)) (store_of self.old)) }
        ensures sound { IsSound self.new }
    {
        let at = self.hold(alloc, name)?;
        let value = self.value_at(at);
        self.values.push(value)?;
        Ok(())
    }

    // A new local, whose name is at a place among the texts.
    pub(crate) fn declare_at(&mut self, at: usize, value: SmallValue) -> Result<(), NoMemory>
        requires sound { IsSound self.old }
        requires inside { at < length self.old.texts }
        requires held { IsHeld self.old.texts value }
        ensures declared { OnOk result (store_of self.new ≡ in_state (declared (get_or self.old.texts at []) (meant self.old.texts value) (state_of self.old)) (store_of self.old)) }
        ensures sound { IsSound self.new }
    {
        self.locals.push(Variable { name: at, value })
    }

    /// A new local without a value.
    pub(crate) fn declare_nil(&mut self, alloc: Global, name: &[u8]) -> Result<(), NoMemory>
        requires { IsSound self.old }
        ensures declared { OnOk result (store_of self.new ≡ in_state (declared name.now Nil (state_of self.old)) (store_of self.old)) }
        ensures sound { IsSound self.new }
    {
        let at = self.hold(alloc, name)?;
        self.declare_at(at, SmallValue::Nil)?;
        Ok(())
    }

    // Takes the newest value, nil where there is none.
    pub(crate) fn take(&mut self) -> SmallValue
        requires { IsSound self.old }
        ensures texts { self.new.texts ≡ self.old.texts }
        ensures value { meant self.new.texts result ≡ newest (store_of self.old).values }
        ensures held { IsHeld self.new.texts result }
        ensures popped { store_of self.new ≡ popped (store_of self.old) }
        ensures sound { IsSound self.new }
    {
        self.values.pop_or(SmallValue::Nil)
    }

    /// A new local with the newest value, which is taken.
    pub(crate) fn declare(&mut self, alloc: Global, name: &[u8]) -> Result<(), NoMemory>
        requires { IsSound self.old }
        ensures declared { OnOk result (store_of self.new ≡ in_state (declared name.now (newest (store_of self.old).values) (state_of self.old)) (popped (store_of self.old))) }
        ensures sound { IsSound self.new }
    {
        let at = self.hold(alloc, name)?;
        let value = self.take();
        self.declare_at(at, value)?;
        Ok(())
    }

    // Gives the name at a place among the texts another value.
    fn assign_at(&mut self, at: usize, value: SmallValue) -> Result<(), NoMemory>
        requires sound { IsSound self.old }
        requires inside { at < length self.old.texts }
        requires held { IsHeld self.old.texts value }
        ensures assigned { OnOk result (store_of self.new ≡ in_state (assigned (get_or self.old.texts at []) (meant self.old.texts value) (state_of self.old)) (store_of self.old)) }
        ensures sound { IsSound self.new }
    {
        if self.locals.assign(at, &value) {
            return Ok(());
        }
        self.globals.assign(at, value)?;
        Ok(())
    }

    /// Gives a name the newest value, which is taken.
    pub(crate) fn assign(&mut self, alloc: Global, name: &[u8]) -> Result<(), NoMemory>
        requires { IsSound self.old }
        ensures assigned { OnOk result (store_of self.new ≡ in_state (assigned name.now (newest (store_of self.old).values) (state_of self.old)) (popped (store_of self.old))) }
        ensures sound { IsSound self.new }
    {
        let at = self.hold(alloc, name)?;
        let value = self.take();
        self.assign_at(at, value)?;
        Ok(())
    }

    /// Leaves so many locals.
    pub(crate) fn cut_to(&mut self, outer: usize)
        requires { IsSound self.old }
        ensures cut { store_of self.new ≡ in_state (cut_to outer (state_of self.old)) (store_of self.old) }
        ensures sound { IsSound self.new }
    {
        self.locals.cut_to(outer);
    }

    /// Takes the newest value, and tells whether it counts as true.
    pub(crate) fn take_truth(&mut self) -> bool
        requires { IsSound self.old }
        ensures truth { result ≡ is_true (newest (store_of self.old).values) }
        ensures popped { store_of self.new ≡ popped (store_of self.old) }
        ensures sound { IsSound self.new }
    {
        let value = self.take();
        is_true(value)
    }

    /// Whether the newest value counts as true. It stays.
    pub(crate) fn is_true(&self) -> bool
        ensures { result ≡ is_true (newest (store_of self.now).values) }
    {
        truth_of_parts(self.values.top(1))
    }

    /// Whether the newest value, as the left side of `and` or `or`, decides. It stays.
    pub(crate) fn decides(&self, op: BinaryOp) -> bool
        ensures { result ≡ decides op (newest (store_of self.now).values) }
    {
        match op {
            BinaryOp::And => !self.is_true(),
            BinaryOp::Or => self.is_true(),
            _ => false,
        }
    }
}
