//! Variables that stand one above the other, found by their names without a walk.
ghost use Rattle.std.specs.Prelude.{◌≡◌, ◌-◌, ◌<◌, ◌≤◌, [], ◌∷◌, ◌++◌, drop, get_or, length, set, OnErr, OnOk};
ghost use Rattle.std.specs.Option.{is_some};
ghost use Rattle.lua_state.specs.Bindings.{names, place_of};
ghost use Rattle.lua_state.specs.Locals.{above, lowest};
ghost use Rattle.lua_state.specs.Stacks.{below};
ghost use Rattle.lua_state.specs.Variables.{value_under, with_value};
ghost use Rattle.lua_state.specs.declared.variables.Variable.{Variable};

use crate::by_name::{entry, reach};
use crate::stack::Stack;
use crate::variables::Variable;
use lua_store::SmallValue;
use std::alloc::Global;
use std::marker::Model;
use tis_base::NoMemory;

/// A variable, and the place of the one that it shadows: of the next outer one of its name.
#[derive(Clone, Copy, Debug)]
pub struct Binding {
    pub variable: Variable,
    pub shadowed: usize,
}

/// Variables, the innermost at the top, and a table by name of the place of the innermost of each. The outermost variable has
/// place 1, and 0 stands for none.
#[derive(Drop)]
pub(crate) struct Bindings {
    stack: Stack<Binding>,
    innermost: Vec<usize>,
}

impl Model for Bindings {
    ghost use Rattle.std.specs.Prelude.{List};
    ghost use Rattle.lua_state.specs.declared.variables.Variable.{Variable};

    ghost Value = { List Variable };

    ghost use Rattle.lua_state.specs.Bindings.{ArePlaced, variables_in};

    ghost view = { λ b. variables_in b.stack };

    ghost invariant = { λ b. ArePlaced b.stack b.innermost.items };
}

impl Bindings {
    pub(crate) fn new(alloc: Global) -> Bindings
        ensures { result ≡ [] }
    {
        Bindings {
            stack: Stack::new(alloc),
            innermost: Vec::new(alloc),
        }
    }

    /// How many variables there are.
    pub(crate) fn len(&self) -> usize
        ensures { result ≡ length self.now }
    {
        self.stack.len()
    }

    // The place of the innermost of a name.
    #[inline(always)]
    fn place(&self, name: usize) -> usize
        ensures { result ≡ place_of name (names self.now) }
    {
        entry(self.innermost.as_slice(), name)
    }

    /// The value of the innermost of a name, if it stands above the lowest so many.
    #[inline(always)]
    pub(crate) fn value_above(&self, count: usize, name: usize) -> Option<SmallValue>
        ensures { result ≡ value_under name (above count self.now) }
    {
        let place = self.place(name);
        if place > count {
            Some(self.stack.at(place).variable.value)
        } else {
            None
        }
    }

    // Gives the variable at a place another value.
    fn set(&mut self, place: usize, name: usize, value: &SmallValue)
        requires some { 0 < place }
        requires inside { place ≤ length self.old }
        requires named { (other : Variable) → (get_or self.old (length self.old - place) other).name ≡ name }
        ensures { self.new ≡ set self.old (length self.old - place) (record { name = name; value = value.now }) }
    {
        let shadowed = self.stack.at(place).shadowed;
        let variable = Variable {
            name,
            value: *value,
        };
        self.stack.set(place, Binding { variable, shadowed });
    }

    /// Gives the innermost of a name another value, if it stands above the lowest so many, and tells whether it does.
    pub(crate) fn assign_above(&mut self, count: usize, name: usize, value: &SmallValue) -> bool
        ensures found { result ≡ is_some (value_under name (above count self.old)) }
        ensures assigned { self.new ≡ with_value name value.now (above count self.old) ++ lowest count self.old }
    {
        let place = self.place(name);
        if place > count {
            self.set(place, name, value);
            true
        } else {
            false
        }
    }

    /// One more variable, the innermost.
    pub(crate) fn push(&mut self, variable: Variable) -> Result<(), NoMemory>
        ensures pushed { OnOk result (self.new ≡ variable ∷ self.old) }
        ensures unchanged { OnErr result (self.new ≡ self.old) }
    {
        let name = variable.name;
        reach(&mut self.innermost, name)?;
        let shadowed = self.innermost[name];
        self.stack.push(Binding { variable, shadowed })?;
        self.innermost[name] = self.stack.len();
        Ok(())
    }

    // The innermost variable goes, and the one that it shadows is there again.
    fn pop(&mut self)
        ensures { self.new ≡ below self.old }
    {
        if let Some(binding) = self.stack.pop() {
            self.innermost[binding.variable.name] = binding.shadowed;
        }
    }

    /// Leaves the lowest so many.
    pub(crate) fn cut_to(&mut self, count: usize)
        ensures { self.new ≡ drop (length self.old - count) self.old }
    {
        while self.len() > count {
            self.pop();
        }
    }
}
