//! The code of a process of a network, where it fits one node.
ghost use Rattle.std.specs.Prelude.{◌≡◌, ◌<◌, length, IfOk};
ghost use Rattle.tis_asm.specs.Programs.{IsSound};
ghost use Rattle.net_rules.specs.CheckedNet.{net_of, IsChecked};
ghost use Rattle.net_rules.specs.Numbers.{numbered};
ghost use Rattle.net_select.specs.Behaves.{AreDistinct, Behaves};
ghost use Rattle.net_select.specs.HeldPorts.{ports_of};
ghost use Rattle.net_select.specs.Selection.{block_lines as block_has};
ghost use Rattle.net_select.specs.Selects.{body_of, Selects};

use crate::laws::code_behaves;
use crate::lines::block_lines;
use crate::ports::Ports;
use crate::selector::Selector;
use net_rules::Checked;
use std::error::Error;
use std::fmt;
use tis_asm::Program;

// How many instructions a program has at most.
const MOST: u64 = 15;

/// Why a process has no program.
#[derive(Clone, Copy, Debug, PartialEq, Eq, Hash)]
pub enum SelectError {
    /// Its code has this many instructions, more than fifteen.
    TooLong { lines: u64 },
}

impl fmt::Display for SelectError {
    fn fmt<W: fmt::Write>(&self, f: &mut fmt::Formatter<W>) -> fmt::Result {
        match self {
            SelectError::TooLong { lines } => write!(f, "the code has {lines} lines"),
        }
    }
}

impl Error for SelectError {}

/// How many instructions the code of a process has, also where they are too many for a program; processes are counted from 0.
pub fn lines_of(net: &Checked, process: u32) -> u64
    requires checked { IsChecked net.now }
    requires within { process < length (numbered (net_of net.now)).processes }
    ensures { result ≡ block_has (body_of net.now process) }
{
    block_lines(net.process(process as usize))
}

/// The code of a process as a program, with these directions of the numbers that it uses; or TooLong, exactly where
/// it has more than fifteen instructions. Each jump goes to one of its instructions. Where no two numbers that are
/// read lie in one direction, and no two that are written, the program behaves as the process, whatever the neighbours
/// of its node do.
pub fn select(net: &Checked, process: u32, ports: &Ports) -> Result<Program, SelectError>
    requires checked { IsChecked net.now }
    requires within { process < length (numbered (net_of net.now)).processes }
    ensures code { Selects result (ports_of ports.now) (body_of net.now process) }
    ensures sound { IfOk result (λ program. IsSound program) }
    ensures behaves { IfOk result (λ program. AreDistinct (ports_of ports.now) (body_of net.now process) → Behaves program (body_of net.now process) (ports_of ports.now)) }
{
    code_behaves();
    let total = lines_of(net, process);
    if total > MOST {
        return Err(SelectError::TooLong { lines: total });
    }
    let mut program = Program::new();
    let selector = Selector { ports, total };
    selector.block(&mut program, net.process(process as usize));
    Ok(program)
}
