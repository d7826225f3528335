//! The streams of a network.
ghost use Rattle.std.specs.Prelude.{◌≡◌, ◌<◌, ◌+◌, length, map, IfOk, OnOk, Err, true, option_map};
ghost use Rattle.tis_grid.specs.Puzzle.{input_of, values_at};
ghost use Rattle.net_tree.specs.View.{net_view};
ghost use Rattle.net_numbered.specs.View.{numbered_block};
ghost use Rattle.net_rules.specs.CheckedNet.{IsChecked, IsSmallNet, net_of};
ghost use Rattle.net_rules.specs.Numbers.{numbered};
ghost use Rattle.net_rules.specs.Uses.{surely_reads};
ghost use Rattle.net_rules.specs.Sure.{IsSureBlock};
ghost use Rattle.net_rules.specs.Process.{rounds};
ghost use Rattle.net_kahn.specs.declared.machine.Stop.TheVariants.{Waits};
ghost use Rattle.net_kahn.specs.Links.{given_in};
ghost use Rattle.net_kahn.specs.Machines.{AreLinks, IsReady, Did};
ghost use Rattle.net_kahn.specs.Written.{WritesBelow};
ghost use Rattle.net_kahn.specs.Found.{name_count, OpensLinks, net_in, streams_of, IsFound, Finds, AreOpened, HaveRun, out_at};

use crate::blocks::do_block;
use crate::link::Link;
use crate::machine::{Machine, Stop};
use net_numbered::NumberedBlock;
use net_rules::Checked;
use net_tree::{Net, PortLine};
use std::alloc::Global;
use tis_base::{NoMemory, Value, Values};
use tis_grid::InputAt;

/// The streams of a network over some inputs.
#[derive(Drop)]
pub struct KahnStreams<'a> {
    pub(crate) net: &'a Net,
    pub(crate) links: Vec<Link<'a>>,
}

// What comes in at a position, where anything does.
fn given_at(inputs: &[InputAt], position: u8) -> Option<&Values>
    ensures { given_in result ≡ values_at (map input_of inputs.now) position }
{
    for input in inputs {
        if input.position == position {
            return Some(&input.values);
        }
    }
    None
}

// A link for each input of a network.
fn input_links<'a>(
    alloc: Global,
    ports: &[PortLine],
    inputs: &'a [InputAt],
) -> Result<Vec<Link<'a>>, NoMemory>
    ensures { IfOk result (λ links. AreOpened links.items (map (λ port. values_at (map input_of inputs.now) port.position) ports.now)) }
{
    let mut links = Vec::new(alloc);
    'inputs: for port in ports {
        links.push(Link::new(alloc, given_at(inputs, port.position)))?;
    }
    Ok(links)
}

// A link for each number of a network, and one for the number that no name has.
fn open_links<'a>(
    alloc: Global,
    net: &Net,
    inputs: &'a [InputAt],
) -> Result<Vec<Link<'a>>, NoMemory>
    requires { IsSmallNet (net_view net.now) }
    ensures { IfOk result (λ links. OpensLinks (numbered (net_view net.now)) (map input_of inputs.now) links.items) }
{
    let mut links = input_links(alloc, net.inputs.as_slice(), inputs)?;
    let others = net.channels.len() + net.outputs.len() + 1;
    'others: for _other in 0..others {
        links.push(Link::new(alloc, None))?;
    }
    Ok(links)
}

// Runs a process round after round, until it waits for a value that doesn't come.
fn run_process(machine: &mut Machine, body: &NumberedBlock) -> Result<(), NoMemory>
    requires ready { IsReady machine.old }
    requires sure { IsSureBlock (λ name. name < length machine.old.links.items) (numbered_block body.now) }
    requires reads { surely_reads (numbered_block body.now) ≡ true }
    requires written { WritesBelow (length machine.old.links.items) (numbered_block body.now) }
    ensures { OnOk result (Did (rounds (numbered_block body.now)) machine.old (Err Waits) machine.new) }
{
    'rounds: loop {
        match do_block(machine, body) {
            Ok(()) => {}
            Err(Stop::Waits) => return Ok(()),
            Err(Stop::NoMemory) => return Err(NoMemory),
        }
    }
}

// Runs the processes of a network one after the other.
fn run_all<'a>(net: &Checked, links: Vec<Link<'a>>) -> Result<Vec<Link<'a>>, NoMemory>
    requires checked { IsChecked net.now }
    requires links { AreLinks 0 links.items }
    requires count { length links.items ≡ name_count (numbered (net_of net.now)) + 1 }
    ensures { IfOk result (λ after. HaveRun (numbered (net_of net.now)) links.entry.items after.items) }
{
    let mut machine = Machine {
        process: 0,
        x: Value::default(),
        y: Value::default(),
        links,
    };
    'processes: for index in 0..net.len() {
        machine.process = index as u32 + 1;
        machine.x = Value::default();
        machine.y = Value::default();
        run_process(&mut machine, net.process(index))?;
    }
    Ok(machine.links)
}

/// The streams of a network over some inputs. An input of the network at whose position none of these stands
/// is empty, and one of these where the network has no input plays no part.
pub fn streams<'a>(
    alloc: Global,
    net: &Checked<'a>,
    inputs: &'a [InputAt],
) -> Result<KahnStreams<'a>, NoMemory>
    requires { IsChecked net.now }
    ensures { IfOk result (λ found. Finds found (net_of net.now) (map input_of inputs.now)) }
{
    let links = open_links(alloc, net.net(), inputs)?;
    let links = run_all(net, links)?;
    Ok(KahnStreams {
        net: net.net(),
        links,
    })
}

impl KahnStreams<'_> {
    /// What comes out at a position, or None where no output of the network stands there.
    pub fn out(&self, position: u8) -> Option<&Values>
        requires { IsFound self.now }
        ensures { option_map (λ values. values.now.items) result ≡ out_at (numbered (net_in self.now)) (streams_of self.now) position }
    {
        let first = self.net.inputs.len() + self.net.channels.len();
        'outputs: for index in 0..self.net.outputs.len() {
            if self.net.outputs[index].position == position {
                return Some(&self.links[first + index].sent);
            }
        }
        None
    }
}
