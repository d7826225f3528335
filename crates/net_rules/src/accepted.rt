//! Networks that keep the rules.
ghost use Rattle.std.specs.Prelude.{◌≡◌, ◌<◌, ◌↔◌, length, slice_get, Some, map, IsTrue};
ghost use Rattle.net_tree.specs.View.{net_view};
ghost use Rattle.net_numbered.specs.View.{numbered_block};
ghost use Rattle.net_rules.specs.Broken.{Keeps};
ghost use Rattle.net_rules.specs.Rules.{first_broken};
ghost use Rattle.net_rules.specs.Numbers.{number_of, numbered};
ghost use Rattle.net_rules.specs.Known.{IsNumbered};
ghost use Rattle.net_rules.specs.CheckedNet.{IsSmallNet, net_of, IsChecked, Checks};

use crate::error::RuleError;
use crate::joins::check_joins;
use crate::lines::check_lines;
use crate::names::NameTable;
use crate::numbered::number_processes;
use crate::numbers::{Numbers, number_names, numbers_of};
use crate::sizes::statement_count;
use crate::turns::sure_reads;
use net_numbered::NumberedBlock;
use net_tree::{Name, Net};
use std::alloc::Global;

// So many names, processes or statements a network that is checked doesn't have.
const MOST: usize = 0x8000_0000;

/// A network that keeps each rule, with the numbers of its names.
#[derive(Drop)]
pub struct Checked<'n> {
    net: &'n Net,
    numbers: NameTable<'n>,
    processes: Vec<NumberedBlock>,
}

// Whether a network keeps each rule, where these are the numbers of its names.
fn check_rules(alloc: Global, net: &Net, numbers: Numbers) -> Result<(), RuleError>
    requires small { IsSmallNet (net_view net.now) }
    requires numbers { IsNumbered numbers (net_view net.now) }
    ensures { Keeps result (first_broken (net_view net.now)) }
{
    let processes = net.processes.as_slice();
    check_lines(alloc, net, numbers)?;
    if let Some(error) = sure_reads(processes) {
        return Err(error);
    }
    check_joins(alloc, numbers, processes)
}

/// Whether a network is small enough to be checked: it has fewer than 2^31 names, processes and statements each.
pub fn is_small(net: &Net) -> bool
    ensures { IsTrue result ↔ IsSmallNet (net_view net.now) }
{
    let names = net
        .inputs
        .len()
        .saturating_add(net.channels.len())
        .saturating_add(net.outputs.len());
    let processes = net.processes.len();
    let statements = statement_count(net.processes.as_slice());
    names < MOST && processes < MOST && statements < MOST
}

/// The network with the numbers of its names, where it keeps each rule; else the first rule that it breaks.
pub fn check(alloc: Global, net: &Net) -> Result<Checked<'_>, RuleError>
    requires { IsSmallNet (net_view net.now) }
    ensures { Checks result (net_view net.now) }
{
    let table = number_names(alloc, net)?;
    let numbers = numbers_of(net, &table);
    check_rules(alloc, net, numbers)?;
    let processes = number_processes(alloc, numbers, net.processes.as_slice())?;
    Ok(Checked {
        net,
        numbers: table,
        processes,
    })
}

impl<'n> Checked<'n> {
    /// The network that was checked.
    pub fn net(&self) -> &'n Net
        ensures { net_view result.now ≡ net_of self.now }
    {
        self.net
    }

    /// The number of a name, or None where no input, channel or output has it.
    pub fn number(&self, name: &Name) -> Option<u32>
        requires { IsChecked self.now }
        ensures { result ≡ number_of (net_of self.now) name.now }
    {
        self.numbers.get(name)
    }

    /// How many processes there are.
    pub fn len(&self) -> usize
        requires { IsChecked self.now }
        ensures { result ≡ length (numbered (net_of self.now)).processes }
    {
        self.processes.len()
    }

    /// What a process does, with the numbers of names; processes are counted from 0.
    pub fn process(&self, index: usize) -> &NumberedBlock
        requires checked { IsChecked self.now }
        requires within { index < length (numbered (net_of self.now)).processes }
        ensures { slice_get (numbered (net_of self.now)).processes index ≡ Some (numbered_block result.now) }
    {
        &self.processes[index]
    }
}
