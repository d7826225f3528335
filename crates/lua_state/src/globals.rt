//! The globals, found by their names without a walk.
ghost use Rattle.std.specs.Prelude.{◌≡◌, [], OnErr, OnOk};
ghost use Rattle.lua_state.specs.Variables.{value_under, with_global};

use crate::by_name::{entry, reach};
use crate::variables::Variable;
use lua_store::SmallValue;
use std::alloc::Global;
use std::marker::Model;
use tis_base::NoMemory;

/// Variables in the order in which they came, and a table by name of the place of each. The first variable has place 1, and 0
/// stands for none.
#[derive(Drop)]
pub(crate) struct Globals {
    variables: Vec<Variable>,
    places: Vec<usize>,
}

impl Model for Globals {
    ghost use Rattle.std.specs.Prelude.{List};
    ghost use Rattle.lua_state.specs.Globals.{IsTableOf};
    ghost use Rattle.lua_state.specs.declared.variables.Variable.{Variable};

    ghost Value = { List Variable };

    ghost view = { λ g. g.variables.items };

    ghost invariant = { λ g. IsTableOf g.variables.items g.places.items };
}

impl Globals {
    pub(crate) fn new(alloc: Global) -> Globals
        ensures { result ≡ [] }
    {
        Globals {
            variables: Vec::new(alloc),
            places: Vec::new(alloc),
        }
    }

    /// The value of the variable of a name, where there is one.
    #[inline(always)]
    pub(crate) fn value(&self, name: usize) -> Option<SmallValue>
        ensures { result ≡ value_under name self.now }
    {
        let place = entry(self.places.as_slice(), name);
        if place > 0 {
            Some(self.variables[place - 1].value)
        } else {
            None
        }
    }

    /// Gives the variable of a name another value, or adds one.
    pub(crate) fn assign(&mut self, name: usize, value: SmallValue) -> Result<(), NoMemory>
        ensures assigned { OnOk result (self.new ≡ with_global name value self.old) }
        ensures unchanged { OnErr result (self.new ≡ self.old) }
    {
        let place = entry(self.places.as_slice(), name);
        if place > 0 {
            self.variables[place - 1] = Variable { name, value };
            return Ok(());
        }
        reach(&mut self.places, name)?;
        self.variables.push(Variable { name, value })?;
        self.places[name] = self.variables.len();
        Ok(())
    }
}
