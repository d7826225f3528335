//! The locals of all calls that are open.
ghost use Rattle.std.specs.Prelude.{◌≡◌, ◌-◌, [], ◌∷◌, drop, length, OnErr, OnOk};
ghost use Rattle.std.specs.Option.{is_some};
ghost use Rattle.lua_state.specs.Stacks.{below, top};
ghost use Rattle.lua_state.specs.Variables.{value_under, with_value};

use crate::bindings::Bindings;
use crate::stack::Stack;
use crate::variables::Variable;
use lua_store::SmallValue;
use std::alloc::Global;
use std::marker::Model;
use tis_base::NoMemory;

/// The locals of the running function above those of the calls around it.
#[derive(Drop)]
pub(crate) struct Locals {
    all: Bindings,
    // how many are of the calls around
    base: usize,
    // the same of each call around
    bases: Stack<usize>,
}

impl Model for Locals {
    ghost use Rattle.std.specs.Prelude.{◌∷◌, length};
    ghost use Rattle.lua_state.specs.Locals.{AreBases, Scopes, above, lowest, of_calls};

    ghost Value = { Scopes };

    ghost view = { λ l. record { running = above l.base l.all; around = of_calls l.bases (lowest l.base l.all) } };

    ghost invariant = { λ l. AreBases (l.base ∷ l.bases) (length l.all) };
}

impl Locals {
    pub(crate) fn new(alloc: Global) -> Locals
        ensures { result ≡ record { running = []; around = [] } }
    {
        Locals {
            all: Bindings::new(alloc),
            base: 0,
            bases: Stack::new(alloc),
        }
    }

    /// How many locals the running function has.
    pub(crate) fn len(&self) -> usize
        ensures { result ≡ length self.now.running }
    {
        self.all.len() - self.base
    }

    /// The value of the innermost local of a name, where there is one.
    #[inline(always)]
    pub(crate) fn value(&self, name: usize) -> Option<SmallValue>
        ensures { result ≡ value_under name self.now.running }
    {
        self.all.value_above(self.base, name)
    }

    /// Gives the innermost local of a name another value, and tells whether there is one.
    pub(crate) fn assign(&mut self, name: usize, value: &SmallValue) -> bool
        ensures found { result ≡ is_some (value_under name self.old.running) }
        ensures assigned { self.new ≡ record self.old { running = with_value name value.now self.old.running } }
    {
        self.all.assign_above(self.base, name, value)
    }

    /// One more local.
    pub(crate) fn push(&mut self, variable: Variable) -> Result<(), NoMemory>
        ensures pushed { OnOk result (self.new ≡ record self.old { running = variable ∷ self.old.running }) }
        ensures unchanged { OnErr result (self.new ≡ self.old) }
    {
        self.all.push(variable)
    }

    /// Leaves so many locals of the running function, the outer ones.
    pub(crate) fn cut_to(&mut self, outer: usize)
        ensures { self.new ≡ record self.old { running = drop (length self.old.running - outer) self.old.running } }
    {
        if outer < self.all.len() - self.base {
            self.all.cut_to(self.base + outer);
        }
    }

    /// A function is entered: it has no locals yet.
    pub(crate) fn enter(&mut self) -> Result<(), NoMemory>
        ensures entered { OnOk result (self.new ≡ record { running = []; around = self.old.running ∷ self.old.around }) }
        ensures unchanged { OnErr result (self.new ≡ self.old) }
    {
        self.bases.push(self.base)?;
        self.base = self.all.len();
        Ok(())
    }

    /// A function is left: the locals of its caller are those of the running function.
    pub(crate) fn leave(&mut self)
        ensures { self.new ≡ record { running = top [] self.old.around; around = below self.old.around } }
    {
        self.all.cut_to(self.base);
        self.base = self.bases.pop_or(0);
    }
}
