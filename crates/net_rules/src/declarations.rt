//! The declarations of a network, and the rule that their names and places differ.
ghost use Rattle.std.specs.Prelude.{◌≡◌, ◌<◌, ℕ, List, [], ◌∷◌, ◌++◌, ◌||◌, true, false, map, OnOk, slice_index_or, slice_set};
ghost use Rattle.std.specs.Str.{bytes_eq};
ghost use Rattle.std.specs.Option.{option_or};
ghost use Rattle.tis_base.specs.Answers.{Gives};
ghost use Rattle.net_tree.specs.View.{port_view, channel_view, process_view, net_view};
ghost use Rattle.net_rules.specs.Broken.{Keeps};
ghost use Rattle.net_rules.specs.Rules.{Repeated, SamePlace, broken_where, by_line, first_fault, declarations as declarations_of, declaration_fault, input_declared, channel_declared, output_declared, process_declared, Declaration as SeenDeclaration};
ghost use Rattle.net_rules.specs.Known.{declaration_view, has, KnowsDeclared};

use crate::error::RuleError;
use crate::known::forbid;
use crate::names::NameTable;
use net_tree::{ChannelLine, Name, Net, PortLine, ProcessText};
use std::alloc::Global;
use tis_base::NoMemory;

/// What a line declares; an input or an output with its position.
#[derive(Clone, Copy)]
pub(crate) enum Kind {
    Input(u8),
    Channel,
    Output(u8),
    Process,
}

/// A declaration with its line.
#[derive(Clone, Copy)]
pub(crate) struct Declaration<'n> {
    pub(crate) kind: Kind,
    pub(crate) name: &'n Name,
    pub(crate) line: usize,
}

// The inputs behind what was declared before.
fn add_inputs<'n>(
    ports: &'n [PortLine],
    declared: &mut Vec<Declaration<'n>>,
) -> Result<(), NoMemory>
    ensures { OnOk result (map declaration_view declared.new.items ≡ map declaration_view declared.old.items ++ map input_declared (map port_view ports.now)) }
{
    'ports: for port in ports {
        declared.push(Declaration {
            kind: Kind::Input(port.position),
            name: &port.name,
            line: port.line,
        })?;
    }
    Ok(())
}

// The channels behind what was declared before.
fn add_channels<'n>(
    channels: &'n [ChannelLine],
    declared: &mut Vec<Declaration<'n>>,
) -> Result<(), NoMemory>
    ensures { OnOk result (map declaration_view declared.new.items ≡ map declaration_view declared.old.items ++ map channel_declared (map channel_view channels.now)) }
{
    'channels: for channel in channels {
        declared.push(Declaration {
            kind: Kind::Channel,
            name: &channel.name,
            line: channel.line,
        })?;
    }
    Ok(())
}

// The outputs behind what was declared before.
fn add_outputs<'n>(
    ports: &'n [PortLine],
    declared: &mut Vec<Declaration<'n>>,
) -> Result<(), NoMemory>
    ensures { OnOk result (map declaration_view declared.new.items ≡ map declaration_view declared.old.items ++ map output_declared (map port_view ports.now)) }
{
    'ports: for port in ports {
        declared.push(Declaration {
            kind: Kind::Output(port.position),
            name: &port.name,
            line: port.line,
        })?;
    }
    Ok(())
}

// The processes behind what was declared before.
fn add_processes<'n>(
    processes: &'n [ProcessText],
    declared: &mut Vec<Declaration<'n>>,
) -> Result<(), NoMemory>
    ensures { OnOk result (map declaration_view declared.new.items ≡ map declaration_view declared.old.items ++ map process_declared (map process_view processes.now)) }
{
    'processes: for process in processes {
        declared.push(Declaration {
            kind: Kind::Process,
            name: &process.name,
            line: process.line,
        })?;
    }
    Ok(())
}

// Puts declarations in line order; on one line they stay in their order.
fn sort_declarations(declared: &mut Vec<Declaration>) -> Result<(), NoMemory>
    ensures { OnOk result (map declaration_view declared.new.items ≡ by_line (λ d. d.line) (map declaration_view declared.old.items)) }
{
    declared.sort_by_key(|declaration| declaration.line)?;
    Ok(())
}

/// The declarations of a network in line order; on one line inputs come first, then channels, outputs and
/// processes.
pub(crate) fn declarations(alloc: Global, net: &Net) -> Result<Vec<Declaration<'_>>, NoMemory>
    ensures { Gives (λ declared. map declaration_view declared.items) result (declarations_of (net_view net.now)) }
{
    let mut declared = Vec::new(alloc);
    add_inputs(net.inputs.as_slice(), &mut declared)?;
    add_channels(net.channels.as_slice(), &mut declared)?;
    add_outputs(net.outputs.as_slice(), &mut declared)?;
    add_processes(net.processes.as_slice(), &mut declared)?;
    sort_declarations(&mut declared)?;
    Ok(declared)
}

/// The names and places that the lines before have.
#[derive(Drop)]
struct Declared<'n> {
    names: NameTable<'n>,
    processes: NameTable<'n>,
    inputs: [bool; 256],
    outputs: [bool; 256],
}

// A name that isn't taken is taken from now on.
fn take_name<'n>(taken: &mut NameTable<'n>, declaration: &Declaration<'n>) -> Result<(), RuleError>
    ensures fault { Keeps result (broken_where (has taken.old declaration.now.name.now) (Repeated declaration.now.line)) }
    ensures taken { OnOk result ((name : List ℕ) → has taken.new name ≡ (bytes_eq name declaration.now.name.now || has taken.old name)) }
{
    let before = taken.replace(declaration.name, 0)?;
    forbid(
        before.is_some(),
        RuleError::Repeated {
            line: declaration.line,
        },
    )
}

// A position that isn't taken is taken from now on.
fn take_place(taken: &mut [bool; 256], position: u8, line: usize) -> Result<(), RuleError>
    ensures fault { Keeps result (broken_where (slice_index_or taken.old position false) (SamePlace line)) }
    ensures taken { OnOk result (taken.new ≡ slice_set taken.old position true) }
{
    let at = usize::from(position);
    if taken[at] {
        return Err(RuleError::SamePlace { line });
    }
    taken[at] = true;
    Ok(())
}

// A name and a position that aren't taken are taken from now on.
fn take_port<'n>(
    names: &mut NameTable<'n>,
    places: &mut [bool; 256],
    declaration: &Declaration<'n>,
    position: u8,
) -> Result<(), RuleError>
    ensures fault { Keeps result (option_or (broken_where (has names.old declaration.now.name.now) (Repeated declaration.now.line)) (broken_where (slice_index_or places.old position false) (SamePlace declaration.now.line))) }
    ensures named { OnOk result ((name : List ℕ) → has names.new name ≡ (bytes_eq name declaration.now.name.now || has names.old name)) }
    ensures placed { OnOk result (places.new ≡ slice_set places.old position true) }
{
    take_name(names, declaration)?;
    take_place(places, position, declaration.line)
}

// No position is taken.
fn no_places() -> [bool; 256]
    ensures { (position : ℕ) → position < 256 → slice_index_or result position false ≡ false }
{
    [false; 256]
}

impl<'n> Declared<'n> {
    // Nothing is taken. It takes no memory.
    fn new(alloc: Global) -> Declared<'n>
        ensures { KnowsDeclared result.names result.processes result.inputs result.outputs [] }
    {
        Declared {
            names: NameTable::new(alloc),
            processes: NameTable::new(alloc),
            inputs: no_places(),
            outputs: no_places(),
        }
    }

    // Looks at one more declaration, and takes its name and its place.
    fn declare(&mut self, declaration: &Declaration<'n>) -> Result<(), RuleError>
        ensures { (earlier : List SeenDeclaration) → KnowsDeclared self.old.names self.old.processes self.old.inputs self.old.outputs earlier → Keeps result (declaration_fault earlier (declaration_view declaration.now)) × OnOk result (KnowsDeclared self.new.names self.new.processes self.new.inputs self.new.outputs (declaration_view declaration.now ∷ earlier)) }
    {
        match declaration.kind {
            Kind::Input(position) => {
                take_port(&mut self.names, &mut self.inputs, declaration, position)
            }
            Kind::Channel => take_name(&mut self.names, declaration),
            Kind::Output(position) => {
                take_port(&mut self.names, &mut self.outputs, declaration, position)
            }
            Kind::Process => take_name(&mut self.processes, declaration),
        }
    }
}

/// Whether each declaration has a name of its own, and each input and each output a place of its own.
pub(crate) fn check_declarations(alloc: Global, declared: &[Declaration]) -> Result<(), RuleError>
    ensures { Keeps result (first_fault declaration_fault (map declaration_view declared.now)) }
{
    let mut before = Declared::new(alloc);
    'declared: for declaration in declared {
        before.declare(declaration)?;
    }
    Ok(())
}
