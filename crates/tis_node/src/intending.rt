//! What a node would do next.
ghost use Rattle.std.specs.Prelude.{◌≡◌, is_some};
ghost use Rattle.tis_asm.specs.Node as table;
ghost use Rattle.tis_asm.specs.Node.{Ready};
ghost use Rattle.tis_node.specs.NodeView.{node_view};
ghost use Rattle.tis_node.specs.Intents as intents;
ghost use Rattle.tis_base.specs.declared.tiles.Dir.{Dir as AnyDir};

use crate::decoded::Decoded;
use crate::doing::{Supply, source_of};
use crate::node::{Intent, Mode, Node, Toward};
use tis_asm::{Instr, Program};
use tis_base::Dir;

impl Node {
    // What an instruction would do.
    #[inline(always)]
    fn intent_at(&self, instr: Instr) -> Intent
        ensures { result ≡ intents.intent_with (table.source_of instr) (node_view self.now) }
    {
        match source_of(&instr) {
            None => Intent::Local,
            Some(source) => match self.supply_of(source) {
                Supply::AtHand(_) => Intent::Local,
                Supply::AtPort(port) => Intent::Takes(port),
                Supply::AtAny => Intent::TakesAny,
            },
        }
    }

    /// What the node would do next: whether it can make a local step, from which ports it waits for a value, and to
    /// which it gives its own. One look answers all that the calls below are asked one by one.
    #[inline(always)]
    pub fn intent(&self, program: &Program) -> Intent
        ensures is { result ≡ intents.intent_of program.now (node_view self.now) }
        ensures local { table.can_local program.now (node_view self.now) ≡ intents.is_local result }
        ensures takes { (dir : AnyDir) → table.wants program.now (node_view self.now) dir ≡ intents.takes_from result dir }
        ensures gives { (dir : AnyDir) → is_some (table.offers (node_view self.now) dir) ≡ intents.gives_to result dir }
    {
        match self.mode {
            Mode::Ready => match self.instr(program) {
                None => Intent::Nothing,
                Some(instr) => self.intent_at(instr),
            },
            Mode::Writing {
                to: Toward::One(port),
                ..
            } => Intent::Gives(port),
            Mode::Writing {
                to: Toward::Any,
                ..
            } => Intent::GivesAny,
        }
    }

    // The same of a node that is ready, by the row of its instruction, where that tells anything.
    #[inline(always)]
    fn intent_ready(&self, decoded: &Decoded) -> Intent
        requires fits { table.FitsProgram decoded.now (node_view self.now) }
        requires ready { (node_view self.now).mode ≡ Ready }
        ensures local { table.can_local decoded.now (node_view self.now) ≡ intents.is_local result }
        ensures takes { (dir : AnyDir) → table.wants decoded.now (node_view self.now) dir ≡ intents.takes_from result dir }
        ensures gives { (dir : AnyDir) → is_some (table.offers (node_view self.now) dir) ≡ intents.gives_to result dir }
    {
        let program = decoded.program();
        let row = decoded.row(self.pc);
        if row.tells {
            return Intent::Local;
        }
        match row.waits {
            Some(port) => Intent::Takes(port),
            None => self.intent(program),
        }
    }

    /// The same of a node of a program that was decoded.
    #[inline(always)]
    pub fn intent_by(&self, decoded: &Decoded) -> Intent
        requires fits { table.FitsProgram decoded.now (node_view self.now) }
        ensures local { table.can_local decoded.now (node_view self.now) ≡ intents.is_local result }
        ensures takes { (dir : AnyDir) → table.wants decoded.now (node_view self.now) dir ≡ intents.takes_from result dir }
        ensures gives { (dir : AnyDir) → is_some (table.offers (node_view self.now) dir) ≡ intents.gives_to result dir }
    {
        match self.mode {
            Mode::Ready => self.intent_ready(decoded),
            Mode::Writing {
                to: Toward::One(port),
                ..
            } => Intent::Gives(port),
            Mode::Writing {
                to: Toward::Any,
                ..
            } => Intent::GivesAny,
        }
    }

    /// Whether a node of a program that was decoded waits for a value from this port.
    #[inline(always)]
    pub fn waits_for(&self, decoded: &Decoded, dir: Dir) -> bool
        requires fits { table.FitsProgram decoded.now (node_view self.now) }
        ensures { result ≡ table.wants decoded.now (node_view self.now) dir }
    {
        match self.intent_by(decoded) {
            Intent::Takes(port) => port == dir,
            Intent::TakesAny => true,
            Intent::Nothing => false,
            Intent::Local => false,
            Intent::Gives(_) => false,
            Intent::GivesAny => false,
        }
    }
}
