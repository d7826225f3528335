//! The steps of a node that need no port.
ghost use Rattle.std.specs.Prelude.{◌≡◌, ◌<◌, IsTrue, is_some, length};
ghost use Rattle.tis_asm.specs.Programs.{HasValues, IsSound};
ghost use Rattle.tis_asm.specs.Node as table;
ghost use Rattle.tis_asm.specs.Node.{Ready};
ghost use Rattle.tis_node.specs.Rows.{acc_by, by_row};
ghost use Rattle.tis_node.specs.NodeView.{node_view};
ghost use Rattle.tis_node.specs.Intents as intents;
ghost use Rattle.tis_base.specs.declared.tiles.Dir.{Dir as AnyDir};

use crate::decoded::Decoded;
use crate::doing::{Supply, source_of};
use crate::node::{Intent, Mode, Node, Toward};
use crate::row::Row;
use tis_asm::{Instr, Program};
use tis_base::Dir;

impl Node {
    /// Whether the node can make a local step: it is ready, and its instruction needs no port.
    #[inline]
    pub fn can_local(&self, program: &Program) -> bool
        requires sound { IsSound program.now }
        requires fits { table.FitsProgram program.now (node_view self.now) }
        ensures { result ≡ table.can_local program.now (node_view self.now) }
    {
        match (self.mode, self.instr(program)) {
            (Mode::Ready, Some(instr)) => match source_of(&instr) {
                Some(source) => matches!(self.supply_of(source), Supply::AtHand(_)),
                None => true,
            },
            _ => false,
        }
    }

    /// Makes its local step.
    #[inline]
    pub fn local(&mut self, program: &Program)
        requires sound { IsSound program.now }
        requires fits { table.FitsProgram program.now (node_view self.old) }
        requires can { IsTrue (table.can_local program.now (node_view self.old)) }
        ensures step { node_view self.new ≡ table.local_step program.now (node_view self.old) }
        ensures fits { table.FitsProgram program.now (node_view self.new) }
    {
        match self.instr(program) {
            Some(instr) => self.do_local(instr, program),
            None => {}
        }
    }

    // What an instruction does without a port.
    #[inline]
    fn do_local(&mut self, instr: Instr, program: &Program)
        requires { self.old.pc < length program.now }
        ensures { node_view self.new ≡ table.does_by (table.source_of instr) instr program.now (node_view self.old) }
    {
        match source_of(&instr) {
            None => self.do_plain(instr, program),
            Some(source) => match self.supply_of(source) {
                Supply::AtHand(value) => self.do_with(instr, program, value),
                Supply::AtPort(_) | Supply::AtAny => {}
            },
        }
    }

    // Does an instruction, where it needs no port, and tells what it would do.
    #[inline(always)]
    fn advance_one(&mut self, instr: Instr, program: &Program) -> Intent
        requires { self.old.pc < length program.now }
        ensures intent { result ≡ intents.intent_with (table.source_of instr) (node_view self.old) }
        ensures step { node_view self.new ≡ table.does_by (table.source_of instr) instr program.now (node_view self.old) }
    {
        match source_of(&instr) {
            None => {
                self.do_plain(instr, program);
                Intent::Local
            }
            Some(source) => match self.supply_of(source) {
                Supply::AtHand(held) => {
                    self.do_with(instr, program, held);
                    Intent::Local
                }
                Supply::AtPort(port) => Intent::Takes(port),
                Supply::AtAny => Intent::TakesAny,
            },
        }
    }

    // The same. Each instruction has an arm of its own, where the call is put in line, so that behind this one choice
    // nothing asks again which instruction it is.
    #[inline(always)]
    fn advance_by(&mut self, instr: Instr, program: &Program) -> Intent
        requires { self.old.pc < length program.now }
        ensures intent { result ≡ intents.intent_with (table.source_of instr) (node_view self.old) }
        ensures step { node_view self.new ≡ table.does_by (table.source_of instr) instr program.now (node_view self.old) }
    {
        match instr {
            Instr::Nop => self.advance_one(instr, program),
            Instr::Swp => self.advance_one(instr, program),
            Instr::Sav => self.advance_one(instr, program),
            Instr::Neg => self.advance_one(instr, program),
            Instr::Jump(..) => self.advance_one(instr, program),
            Instr::Mov(..) => self.advance_one(instr, program),
            Instr::Add(_) => self.advance_one(instr, program),
            Instr::Sub(_) => self.advance_one(instr, program),
            Instr::Jro(_) => self.advance_one(instr, program),
        }
    }

    // Does what a row tells.
    #[inline(always)]
    fn step_by(&mut self, row: &Row)
        requires { (node_view self.old).mode ≡ Ready }
        ensures { node_view self.new ≡ by_row row.now (node_view self.old) }
    {
        let acc = self.acc;
        let bak = self.bak;
        self.pc = row.pc(acc);
        self.acc = row.acc(acc, bak);
        self.bak = row.bak(acc, bak);
    }

    // Writes to a port what a row tells.
    #[inline(always)]
    fn send_by(&mut self, row: &Row, port: Dir)
        ensures { node_view self.new ≡ table.writes (acc_by row.now (node_view self.old).acc (node_view self.old).bak) (table.One port) (node_view self.old) }
    {
        self.write(row.acc(self.acc, self.bak), Toward::One(port));
    }

    // Does the instruction at the pc, where it needs no port, and tells what it would do.
    #[inline(never)]
    fn advance_here(&mut self, program: &Program) -> Intent
        requires sound { IsSound program.now }
        requires values { HasValues program.now }
        requires fits { table.FitsProgram program.now (node_view self.old) }
        requires ready { (node_view self.old).mode ≡ Ready }
        ensures local { table.can_local program.now (node_view self.old) ≡ intents.is_local result }
        ensures takes { (dir : AnyDir) → table.wants program.now (node_view self.old) dir ≡ intents.takes_from result dir }
        ensures gives { (dir : AnyDir) → is_some (table.offers (node_view self.old) dir) ≡ intents.gives_to result dir }
        ensures steps { IsTrue (intents.is_local result) → node_view self.new ≡ table.local_step program.now (node_view self.old) }
        ensures stays { ¬ IsTrue (intents.is_local result) → node_view self.new ≡ node_view self.old }
        ensures fits { table.FitsProgram program.now (node_view self.new) }
    {
        match self.instr(program) {
            None => Intent::Nothing,
            Some(instr) => self.advance_by(instr, program),
        }
    }

    // The same of a node whose row tells nothing: it writes to the port that the row has, or its instruction is looked at.
    #[inline(always)]
    fn send_or_look(&mut self, decoded: &Decoded) -> Intent
        requires sound { IsSound decoded.now }
        requires fits { table.FitsProgram decoded.now (node_view self.old) }
        requires ready { (node_view self.old).mode ≡ Ready }
        ensures local { table.can_local decoded.now (node_view self.old) ≡ intents.is_local result }
        ensures takes { (dir : AnyDir) → table.wants decoded.now (node_view self.old) dir ≡ intents.takes_from result dir }
        ensures gives { (dir : AnyDir) → is_some (table.offers (node_view self.old) dir) ≡ intents.gives_to result dir }
        ensures steps { IsTrue (intents.is_local result) → node_view self.new ≡ table.local_step decoded.now (node_view self.old) }
        ensures stays { ¬ IsTrue (intents.is_local result) → node_view self.new ≡ node_view self.old }
        ensures fits { table.FitsProgram decoded.now (node_view self.new) }
    {
        let program = decoded.program();
        let row = decoded.row(self.pc);
        match row.sends {
            Some(port) => {
                self.send_by(row, port);
                Intent::Local
            }
            None => self.advance_here(program),
        }
    }

    // Makes the local step of a node that is ready, where it can make one, by the row of its instruction, where that tells
    // anything.
    #[inline(always)]
    fn advance_ready(&mut self, decoded: &Decoded) -> Intent
        requires sound { IsSound decoded.now }
        requires fits { table.FitsProgram decoded.now (node_view self.old) }
        requires ready { (node_view self.old).mode ≡ Ready }
        ensures local { table.can_local decoded.now (node_view self.old) ≡ intents.is_local result }
        ensures takes { (dir : AnyDir) → table.wants decoded.now (node_view self.old) dir ≡ intents.takes_from result dir }
        ensures gives { (dir : AnyDir) → is_some (table.offers (node_view self.old) dir) ≡ intents.gives_to result dir }
        ensures steps { IsTrue (intents.is_local result) → node_view self.new ≡ table.local_step decoded.now (node_view self.old) }
        ensures stays { ¬ IsTrue (intents.is_local result) → node_view self.new ≡ node_view self.old }
        ensures fits { table.FitsProgram decoded.now (node_view self.new) }
    {
        let program = decoded.program();
        let row = decoded.row(self.pc);
        if row.tells {
            self.step_by(row);
            return Intent::Local;
        }
        match row.waits {
            Some(port) => Intent::Takes(port),
            None => self.send_or_look(decoded),
        }
    }

    /// Makes the node's local step, where it can make one, and tells what it would do: [`Node::intent`] and
    /// [`Node::local`] in one look.
    #[inline(always)]
    pub fn advance(&mut self, decoded: &Decoded) -> Intent
        requires sound { IsSound decoded.now }
        requires fits { table.FitsProgram decoded.now (node_view self.old) }
        ensures local { table.can_local decoded.now (node_view self.old) ≡ intents.is_local result }
        ensures takes { (dir : AnyDir) → table.wants decoded.now (node_view self.old) dir ≡ intents.takes_from result dir }
        ensures gives { (dir : AnyDir) → is_some (table.offers (node_view self.old) dir) ≡ intents.gives_to result dir }
        ensures steps { IsTrue (intents.is_local result) → node_view self.new ≡ table.local_step decoded.now (node_view self.old) }
        ensures stays { ¬ IsTrue (intents.is_local result) → node_view self.new ≡ node_view self.old }
        ensures fits { table.FitsProgram decoded.now (node_view self.new) }
    {
        match self.mode {
            Mode::Ready => self.advance_ready(decoded),
            Mode::Writing {
                to: Toward::One(port),
                ..
            } => Intent::Gives(port),
            Mode::Writing {
                to: Toward::Any,
                ..
            } => Intent::GivesAny,
        }
    }
}
