//! The numbers of names: inputs, then channels, then outputs.
ghost use Rattle.std.specs.Prelude.{◌≡◌, ◌<◌, ◌+◌, ◌^◌, List, ℕ, length, map, OnOk, IfOk, Some, None, if◌then◌else◌};
ghost use Rattle.std.specs.List.{position_from};
ghost use Rattle.std.specs.Option.{option_or};
ghost use Rattle.std.specs.Str.{bytes_eq};
ghost use Rattle.net_tree.specs.View.{port_view, channel_view, net_view};
ghost use Rattle.net_rules.specs.Tables.{value_of};
ghost use Rattle.net_rules.specs.Numbers.{number_of};
ghost use Rattle.net_rules.specs.Known.{HasFewNames, number_by, IsNumbered, is_within, can_read, can_write, names_channel};

use crate::names::NameTable;
use net_tree::{ChannelLine, Name, Net, PortLine};
use std::alloc::Global;
use tis_base::NoMemory;

// A name that has no number gets this one.
fn number_name<'n>(numbers: &mut NameTable<'n>, name: &'n Name, number: u32) -> Result<(), NoMemory>
    ensures { OnOk result ((other : List ℕ) → value_of numbers.new other ≡ option_or (value_of numbers.old other) (if bytes_eq other name.now then Some number else None)) }
{
    match numbers.replace(name, number)? {
        None => Ok(()),
        Some(first) => numbers.set(name, first),
    }
}

// Gives the names of ports the numbers from this one on, where they have none.
fn number_ports<'n>(
    ports: &'n [PortLine],
    first: u32,
    numbers: &mut NameTable<'n>,
) -> Result<(), NoMemory>
    requires { first + length ports.now < 2 ^ 32 }
    ensures { OnOk result ((name : List ℕ) → value_of numbers.new name ≡ option_or (value_of numbers.old name) (position_from (bytes_eq name) first (map (λ p. p.name) (map port_view ports.now)))) }
{
    let mut number = first;
    'ports: for port in ports {
        number_name(numbers, &port.name, number)?;
        number += 1;
    }
    Ok(())
}

// Gives the names of channels the numbers from this one on, where they have none.
fn number_channels<'n>(
    channels: &'n [ChannelLine],
    first: u32,
    numbers: &mut NameTable<'n>,
) -> Result<(), NoMemory>
    requires { first + length channels.now < 2 ^ 32 }
    ensures { OnOk result ((name : List ℕ) → value_of numbers.new name ≡ option_or (value_of numbers.old name) (position_from (bytes_eq name) first (map (λ p. p.name) (map channel_view channels.now)))) }
{
    let mut number = first;
    'channels: for channel in channels {
        number_name(numbers, &channel.name, number)?;
        number += 1;
    }
    Ok(())
}

/// The number of each name of an input, a channel or an output.
pub(crate) fn number_names(alloc: Global, net: &Net) -> Result<NameTable<'_>, NoMemory>
    requires { HasFewNames (net_view net.now) }
    ensures { IfOk result (λ numbers. (name : List ℕ) → value_of numbers name ≡ number_of (net_view net.now) name) }
{
    let channels = net.inputs.len() as u32;
    let outputs = channels + net.channels.len() as u32;
    let mut numbers = NameTable::new(alloc);
    number_ports(net.inputs.as_slice(), 0, &mut numbers)?;
    number_channels(net.channels.as_slice(), channels, &mut numbers)?;
    number_ports(net.outputs.as_slice(), outputs, &mut numbers)?;
    Ok(numbers)
}

/// The numbers of names, the first numbers of channels and of outputs, and one that stands for each other name.
#[derive(Clone, Copy)]
pub(crate) struct Numbers<'t, 'n> {
    pub(crate) table: &'t NameTable<'n>,
    pub(crate) channels: u32,
    pub(crate) outputs: u32,
    pub(crate) other: u32,
}

/// The numbers of the names of a network, where the table has them.
pub(crate) fn numbers_of<'t, 'n>(net: &Net, table: &'t NameTable<'n>) -> Numbers<'t, 'n>
    requires small { HasFewNames (net_view net.now) }
    requires table { (name : List ℕ) → value_of table.now name ≡ number_of (net_view net.now) name }
    ensures { IsNumbered result (net_view net.now) }
{
    let channels = net.inputs.len() as u32;
    let outputs = channels + net.channels.len() as u32;
    let other = outputs + net.outputs.len() as u32;
    Numbers {
        table,
        channels,
        outputs,
        other,
    }
}

// Whether there is a number, from this one on and below that.
fn is_between(number: Option<u32>, first: u32, past: u32) -> bool
    ensures { result ≡ is_within first past number }
{
    match number {
        None => false,
        Some(number) => first <= number && number < past,
    }
}

impl Numbers<'_, '_> {
    /// Whether a name can be read: an input or a channel has it.
    pub(crate) fn is_readable(self, name: &Name) -> bool
        ensures { result ≡ can_read self.entry name.now }
    {
        is_between(self.table.get(name), 0, self.outputs)
    }

    /// Whether a name can be written: a channel or an output has it, and no input.
    pub(crate) fn is_writable(self, name: &Name) -> bool
        ensures { result ≡ can_write self.entry name.now }
    {
        is_between(self.table.get(name), self.channels, self.other)
    }

    /// Whether a channel has a name, and no input.
    pub(crate) fn is_channel(self, name: &Name) -> bool
        ensures { result ≡ names_channel self.entry name.now }
    {
        is_between(self.table.get(name), self.channels, self.outputs)
    }

    /// The number of a name.
    pub(crate) fn number(self, name: &Name) -> u32
        ensures { result ≡ number_by self.entry.table.now self.entry.other name.now }
    {
        self.table.get(name).unwrap_or(self.other)
    }
}
