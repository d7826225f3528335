//! The programs of a network of one column.
ghost use Rattle.std.specs.Prelude.{◌≡◌, ◌<◌, ◌+◌, ◌∷◌, [], ℕ, length, map, All, IfSome, IfOk};
ghost use Rattle.tis_base.specs.Answers.{Gives};
ghost use Rattle.tis_asm.specs.Programs.{IsSound, program_at};
ghost use Rattle.net_tree.specs.View.{port_view, process_view};
ghost use Rattle.net_rules.specs.CheckedNet.{IsChecked, net_of};
ghost use Rattle.net_rules.specs.Numbers.{numbered};
ghost use Rattle.net_select.specs.HeldPorts.{ports_of};
ghost use Rattle.net_select.specs.Selection.{program_of as code_on};
ghost use Rattle.net_select.specs.Selects.{body_of};
ghost use Rattle.net_column.specs.Carries.{Carries};
ghost use Rattle.net_column.specs.Column.{IsColumn, plain_tiles};
ghost use Rattle.net_column.specs.Compiled.{column_ports as ports_in_column, pass_code, compiled};
ghost use Rattle.net_column.specs.Emission.{put_on, with_processes, with_passes, with_links};

use net_rules::Checked;
use net_select::{Ports, code_behaves, code_is_sound, lines_are_told, select};
use net_tree::{Path, PortLine, ProcessText};
use std::alloc::Global;
use tis_asm::{Dest, Instr, Program, Programs, Source};
use tis_base::{Dir, NoMemory, Tile};

// The directions in which the links of a process lie that reads the name of this number and writes the next one.
fn column_ports(read: u32) -> Ports
    requires { read < 3 }
    ensures { ports_of result ≡ ports_in_column (read + 1) }
{
    let mut ports = Ports::new();
    ports.set(read, Dir::Up);
    ports.set(read + 1, Dir::Down);
    ports
}

// The program of the process of this index.
fn program_of(net: &Checked, process: u32) -> Program
    requires checked { IsChecked net.now }
    requires column { IsColumn (net_of net.now) }
    requires within { process < length (numbered (net_of net.now)).processes }
    ensures { result ≡ code_on (ports_in_column (process + 1)) (body_of net.now process) }
{
    lines_are_told();
    select(net, process, &column_ports(process)).unwrap()
}

// The program that passes each value on, from above to below.
fn pass_program() -> Program
    ensures { result ≡ pass_code }
{
    let mut program = Program::new();
    let down = Instr::Mov(Source::Port(Dir::Up), Dest::Port(Dir::Down));
    program.push(down, false);
    program
}

// Puts the program of a process, which has this index, on its tile.
fn place_process(programs: &mut Programs, net: &Checked, process: &ProcessText, index: u32)
    requires checked { IsChecked net.now }
    requires column { IsColumn (net_of net.now) }
    requires within { index < length (numbered (net_of net.now)).processes }
    requires tiles { programs.old.tiles ≡ plain_tiles }
    requires on_grid { IfSome process.now.at (λ tile. tile < 12) }
    ensures { programs.new ≡ record programs.old { programs = put_on process.now.at (code_on (ports_in_column (index + 1)) (body_of net.now index)) programs.old.programs } }
{
    if let Some(number) = process.at {
        programs.set(Tile { number }, program_of(net, index));
    }
}

// Puts the programs of the processes on their tiles.
fn place_processes(programs: &mut Programs, net: &Checked)
    requires checked { IsChecked net.now }
    requires column { IsColumn (net_of net.now) }
    requires tiles { programs.old.tiles ≡ plain_tiles }
    ensures { programs.new ≡ record programs.old { programs = with_processes 0 (net_of net.now).processes (numbered (net_of net.now)).processes programs.old.programs } }
{
    let processes = net.net().processes.as_slice();
    'processes: for index in 0..processes.len() {
        place_process(programs, net, &processes[index], index as u32);
    }
}

// Puts a program that passes values on each tile of the path.
fn place_passes(programs: &mut Programs, path: &Path)
    requires tiles { programs.old.tiles ≡ plain_tiles }
    requires on_grid { All (λ tile. tile < 12) path.now }
    ensures { programs.new ≡ record programs.old { programs = with_passes path.now programs.old.programs } }
{
    for index in 0..path.len() {
        let number = path.at(index);
        programs.set(Tile { number }, pass_program());
    }
}

// Puts a program that passes values on each tile that these links pass.
fn place_links(programs: &mut Programs, ports: &[PortLine])
    requires tiles { programs.old.tiles ≡ plain_tiles }
    requires on_grid { All (λ port. IfSome port.via (All (λ tile. tile < 12))) ports.now }
    ensures { programs.new ≡ record programs.old { programs = with_links (map port_view ports.now) programs.old.programs } }
{
    for port in ports {
        if let Some(path) = &port.via {
            place_passes(programs, path);
        }
    }
}

/// The programs that carry a network of one column, in whatever order things happen: the code of each process on its
/// tile, and a `MOV` on each tile that its output passes.
pub fn emit(alloc: Global, net: &Checked) -> Result<Programs, NoMemory>
    requires checked { IsChecked net.now }
    requires column { IsColumn (net_of net.now) }
    ensures programs { Gives (λ programs. programs) result (compiled (net_of net.now)) }
    ensures sound { IfOk result (λ programs. (tile : ℕ) → IsSound (program_at programs.programs tile)) }
    ensures carries { IfOk result (λ programs. Carries programs (numbered (net_of net.now))) }
{
    code_behaves();
    code_is_sound();
    let tree = net.net();
    let mut programs = Programs::empty(alloc, tree.tiles)?;
    place_processes(&mut programs, net);
    place_links(&mut programs, &tree.outputs);
    // They are programs of these tiles.
    programs.tiles();
    Ok(programs)
}
