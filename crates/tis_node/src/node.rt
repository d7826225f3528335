//! A compute node.
ghost use Rattle.std.specs.Prelude.{◌≡◌, ◌↔◌, IsTrue};
ghost use Rattle.tis_asm.specs.Node as table;
ghost use Rattle.tis_node.specs.NodeView.{node_view};
ghost use Rattle.tis_node.specs.Intents as intents;

use tis_asm::Program;
use tis_base::{Dir, Value};

/// Where a value is written to.
#[derive(Clone, Copy, Debug, PartialEq, Eq, Hash)]
pub enum Toward {
    /// The neighbour in this direction.
    One(Dir),
    /// Whichever neighbour reads first.
    Any,
}

/// What a node is at.
#[derive(Clone, Copy, Debug, PartialEq, Eq, Hash)]
pub enum Mode {
    /// It is ready for the instruction at its pc.
    Ready,
    /// It waits until the value that it writes is read.
    Writing {
        /// The value.
        value: Value,
        /// Where it is written to.
        to: Toward,
    },
}

/// A compute node (T21): the number of its instruction, its two registers, the port that ANY used last,
/// and what it is at.
#[derive(Clone, Copy, Debug, PartialEq, Eq, Hash)]
pub struct Node {
    pub pc: u8,
    pub acc: Value,
    pub bak: Value,
    pub last: Option<Dir>,
    pub mode: Mode,
    // Nothing. With it a node takes 16 bytes, so that one among others is found by a shift.
    filled: u16,
}

/// What a node would do next.
#[derive(Clone, Copy, Debug, PartialEq, Eq, Hash)]
pub enum Intent {
    /// Nothing: it has no instruction.
    Nothing,
    /// An instruction that needs no port.
    Local,
    /// It waits for a value from this port.
    Takes(Dir),
    /// It waits for a value from any port.
    TakesAny,
    /// It gives its value to this port.
    Gives(Dir),
    /// It gives its value to any port.
    GivesAny,
}

impl Intent {
    /// Whether it is an instruction that needs no port.
    #[inline(always)]
    pub fn is_local(&self) -> bool
        ensures { result ≡ intents.is_local self.now }
    {
        match self {
            Intent::Local => true,
            Intent::Nothing
            | Intent::Takes(_)
            | Intent::TakesAny
            | Intent::Gives(_)
            | Intent::GivesAny => false,
        }
    }
}

impl Node {
    /// A node at the start: ready, at the first instruction, with 0 in both registers and no last port.
    #[inline]
    pub fn fresh() -> Node
        ensures { node_view result ≡ table.fresh }
    {
        Node {
            pc: 0,
            acc: Value::clamp(0),
            bak: Value::clamp(0),
            last: None,
            mode: Mode::Ready,
            filled: 0,
        }
    }

    /// Whether it is a node of this program: its pc is the number of an instruction, or the program is
    /// empty, the pc is 0 and the node is ready.
    #[inline]
    pub fn fits(&self, program: &Program) -> bool
        ensures { IsTrue result ↔ table.FitsProgram program.now (node_view self.now) }
    {
        self.acc.get();
        self.bak.get();
        if let Mode::Writing { value, .. } = self.mode {
            value.get();
        }
        if program.is_empty() {
            self.pc == 0 && self.mode == Mode::Ready
        } else {
            self.pc < program.len()
        }
    }
}
