//! Numbers under names.
ghost use Rattle.std.specs.Prelude.{◌≡◌, ℕ, List, [], IfOk, OnOk, Some, if◌then◌else◌};
ghost use Rattle.std.specs.Str.{bytes_eq};
ghost use Rattle.net_rules.specs.Tables.{value_of};

use indexmap::IndexMap;
use net_tree::Name;
use std::alloc::Global;
use std::marker::Model;
use tis_base::NoMemory;

/// A number for each of some names.
#[derive(Drop)]
pub(crate) struct NameTable<'n> {
    numbers: IndexMap<&'n [u8], u32>,
}

impl<'n> Model for NameTable<'n> {
    ghost use Rattle.std.specs.Prelude.{map};
    ghost use Rattle.net_rules.specs.Tables.{Table};

    ghost Value = { Table };

    ghost view = { λ t. map (λ e. (e.0.now, e.1)) t.numbers.entries };
}

impl<'n> NameTable<'n> {
    /// No names. It takes no memory.
    pub(crate) fn new(alloc: Global) -> NameTable<'n>
        ensures { result ≡ [] }
    {
        NameTable {
            numbers: IndexMap::new(alloc),
        }
    }

    /// The number of a name, where there is one.
    pub(crate) fn get(&self, name: &Name) -> Option<u32>
        ensures { result ≡ value_of self.now name.now }
    {
        self.numbers.get(&name.bytes()).copied()
    }

    /// A name gets a number in place of the one that it has, which comes back.
    pub(crate) fn replace(&mut self, name: &'n Name, number: u32) -> Result<Option<u32>, NoMemory>
        ensures before { IfOk result (λ before. before ≡ value_of self.old name.now) }
        ensures set { OnOk result ((other : List ℕ) → value_of self.new other ≡ (if bytes_eq other name.now then Some number else value_of self.old other)) }
    {
        let before = self.numbers.insert(name.bytes(), number)?;
        Ok(before)
    }

    /// A name gets a number in place of the one that it has.
    pub(crate) fn set(&mut self, name: &'n Name, number: u32) -> Result<(), NoMemory>
        ensures { OnOk result ((other : List ℕ) → value_of self.new other ≡ (if bytes_eq other name.now then Some number else value_of self.old other)) }
    {
        self.replace(name, number)?;
        Ok(())
    }
}
