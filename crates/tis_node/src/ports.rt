//! The ports of a node.
ghost use Rattle.std.specs.Prelude.{◌≡◌, ◌<◌, IsTrue, IsSome, length};
ghost use Rattle.tis_asm.specs.Programs.{IsSound};
ghost use Rattle.tis_asm.specs.Node as table;
ghost use Rattle.tis_node.specs.NodeView.{node_view};
ghost use Rattle.tis_node.specs.SupplyView.{supply_view};

use crate::doing::{Supply, source_of};
use crate::node::{Mode, Node, Toward};
use tis_asm::{Instr, Program};
use tis_base::{Dir, Value};

impl Node {
    /// Whether the node waits for a value from this port.
    #[inline]
    pub fn wants(&self, program: &Program, dir: Dir) -> bool
        requires sound { IsSound program.now }
        requires fits { table.FitsProgram program.now (node_view self.now) }
        ensures { result ≡ table.wants program.now (node_view self.now) dir }
    {
        match (self.mode, self.instr(program)) {
            (Mode::Ready, Some(instr)) => match source_of(&instr) {
                Some(source) => match self.supply_of(source) {
                    Supply::AtHand(_) => false,
                    Supply::AtPort(port) => port == dir,
                    Supply::AtAny => true,
                },
                None => false,
            },
            _ => false,
        }
    }

    // ANY remembers the port that it used.
    #[inline(always)]
    fn remember(&mut self, supply: Supply, dir: Dir)
        ensures { node_view self.new ≡ table.remembers (supply_view supply) dir (node_view self.old) }
    {
        match supply {
            Supply::AtAny => self.last = Some(dir),
            Supply::AtHand(_) | Supply::AtPort(_) => {}
        }
    }

    // What an instruction does with a value that came through a port.
    #[inline(always)]
    fn do_take(&mut self, instr: Instr, program: &Program, dir: Dir, value: Value)
        requires { self.old.pc < length program.now }
        ensures { node_view self.new ≡ table.take_with (table.source_of instr) instr program.now (node_view self.old) dir value }
    {
        match source_of(&instr) {
            None => {}
            Some(source) => {
                let supply = self.supply_of(source);
                self.remember(supply, dir);
                self.do_with(instr, program, value);
            }
        }
    }

    // The same. Each instruction has an arm of its own, where the call is put in line, so that behind this one choice
    // nothing asks again which instruction it is.
    #[inline(always)]
    fn take_by(&mut self, instr: Instr, program: &Program, dir: Dir, value: Value)
        requires { self.old.pc < length program.now }
        ensures { node_view self.new ≡ table.take_with (table.source_of instr) instr program.now (node_view self.old) dir value }
    {
        match instr {
            Instr::Mov(..) => self.do_take(instr, program, dir, value),
            Instr::Add(_) => self.do_take(instr, program, dir, value),
            Instr::Sub(_) => self.do_take(instr, program, dir, value),
            Instr::Jro(_) => self.do_take(instr, program, dir, value),
            Instr::Nop => self.do_take(instr, program, dir, value),
            Instr::Swp => self.do_take(instr, program, dir, value),
            Instr::Sav => self.do_take(instr, program, dir, value),
            Instr::Neg => self.do_take(instr, program, dir, value),
            Instr::Jump(..) => self.do_take(instr, program, dir, value),
        }
    }

    /// Takes a value from a port that it wants one from. A value that comes through ANY makes this port
    /// the last one before the destination is looked at.
    #[inline]
    pub fn take(&mut self, program: &Program, dir: Dir, value: Value)
        requires sound { IsSound program.now }
        requires fits { table.FitsProgram program.now (node_view self.old) }
        requires wants { IsTrue (table.wants program.now (node_view self.old) dir) }
        ensures step { node_view self.new ≡ table.take_value program.now (node_view self.old) dir value }
        ensures fits { table.FitsProgram program.now (node_view self.new) }
    {
        // The call tells the proof that this is a value.
        value.get();
        match self.instr(program) {
            Some(instr) => self.take_by(instr, program, dir, value),
            None => {}
        }
    }

    /// The value that the node gives to whoever reads from this port, or None where it gives none there.
    #[inline]
    pub fn offers(&self, dir: Dir) -> Option<Value>
        ensures { result ≡ table.offers (node_view self.now) dir }
    {
        match self.mode {
            Mode::Writing {
                value,
                to: Toward::One(port),
            } if port == dir => Some(value),
            Mode::Writing {
                value,
                to: Toward::Any,
            } => Some(value),
            _ => None,
        }
    }

    /// Gave the value that it offers to this port, and goes on. Through ANY this port becomes the last
    /// one.
    #[inline]
    pub fn gave(&mut self, program: &Program, dir: Dir)
        requires sound { IsSound program.now }
        requires fits { table.FitsProgram program.now (node_view self.old) }
        requires offers { IsSome (table.offers (node_view self.old) dir) }
        ensures step { node_view self.new ≡ table.gave program.now (node_view self.old) dir }
        ensures fits { table.FitsProgram program.now (node_view self.new) }
    {
        if let Mode::Writing {
            to: Toward::Any,
            ..
        } = self.mode
        {
            self.last = Some(dir);
        }
        program.len();
        self.go_on(program);
    }
}
