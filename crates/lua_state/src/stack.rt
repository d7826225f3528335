//! A stack, which contracts see as a list whose first element is the top.
ghost use Rattle.std.specs.Prelude.{◌≡◌, ◌-◌, [], ◌∷◌, ◌<◌, ◌≤◌, get_or, set, length, drop, take, reverse, OnErr, OnOk, MatchOption};
ghost use Rattle.lua_state.specs.Stacks.{top, below};

use std::alloc::Global;
use std::marker::Model;
use tis_base::NoMemory;

#[derive(Drop)]
pub struct Stack<T> {
    pub(crate) items: Vec<T>,
}

impl<T> Model for Stack<T> {
    ghost use Rattle.std.specs.Prelude.{List, reverse};
    ghost use Rattle.std.specs.Coded.{coded_list};

    ghost Value = { List T };

    ghost coded = { coded_list T.code };

    ghost view = { λ s. reverse s.items.items };
}

impl<T> Stack<T> {
    pub fn new(alloc: Global) -> Stack<T>
        ensures { result ≡ [] }
    {
        Stack {
            items: Vec::new(alloc),
        }
    }

    /// The items at the top, so many, the lowest first.
    pub fn top(&self, count: usize) -> &[T]
        ensures { result.now ≡ reverse (take count self.now) }
    {
        let left = self.len().saturating_sub(count);
        from(self.items.as_slice(), left)
    }

    /// The item at a place, where the bottom has place 1.
    #[inline(always)]
    pub fn at(&self, place: usize) -> &T
        requires some { 0 < place }
        requires inside { place ≤ length self.now }
        ensures { (other : T) → result.now ≡ get_or self.now (length self.now - place) other }
    {
        &self.items[place - 1]
    }

    /// How many items there are.
    pub fn len(&self) -> usize
        ensures { result ≡ length self.now }
    {
        self.items.len()
    }

    /// Takes the top.
    pub fn pop(&mut self) -> Option<T>
        ensures { MatchOption result ((self.old ≡ []) × (self.new ≡ [])) (λ item. self.old ≡ item ∷ self.new) }
    {
        self.items.pop()
    }
}

impl<T: Drop> Stack<T> {
    pub fn push(&mut self, item: T) -> Result<(), NoMemory>
        ensures pushed { OnOk result (self.new ≡ item ∷ self.old) }
        ensures unchanged { OnErr result (self.new ≡ self.old) }
    {
        self.items.push(item)?;
        Ok(())
    }

    /// Puts an item at a place, where the bottom has place 1.
    pub fn set(&mut self, place: usize, item: T)
        requires some { 0 < place }
        requires inside { place ≤ length self.old }
        ensures { self.new ≡ set self.old (length self.old - place) item }
    {
        self.items[place - 1] = item;
    }

    /// Leaves so many items, those at the bottom.
    pub fn cut_to(&mut self, count: usize)
        ensures { self.new ≡ drop (length self.old - count) self.old }
    {
        self.items.truncate(count);
    }

    /// Takes so many items from the top.
    pub fn drop_top(&mut self, count: usize)
        ensures { self.new ≡ drop count self.old }
    {
        let left = self.len().saturating_sub(count);
        self.items.truncate(left);
    }

    /// Takes the top, or what is given where the stack is empty.
    pub fn pop_or(&mut self, otherwise: T) -> T
        ensures item { result ≡ top otherwise self.old }
        ensures rest { self.new ≡ below self.old }
    {
        match self.pop() {
            Some(item) => item,
            None => otherwise,
        }
    }
}

// The items from a place on.
fn from<T>(items: &[T], at: usize) -> &[T]
    requires { at ≤ length items.now }
    ensures { result.now ≡ drop at items.now }
{
    &items[at..]
}
