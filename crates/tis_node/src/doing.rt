//! What each instruction does.
ghost use Rattle.std.specs.Prelude.{◌≡◌, ◌<◌, length};
ghost use Rattle.tis_asm.specs.Programs.{HasValues};
ghost use Rattle.tis_asm.specs.Node as table;
ghost use Rattle.tis_node.specs.NodeView.{node_view, toward_view};
ghost use Rattle.tis_node.specs.SupplyView.{supply_view};

use crate::node::{Mode, Node, Toward};
use tis_asm::{Dest, Instr, Jump, Program, Source};
use tis_base::{Dir, Value};

// Where the value of a source is.
#[derive(Clone, Copy, Debug)]
pub(crate) enum Supply {
    AtHand(Value),
    AtPort(Dir),
    AtAny,
}

// The source of an instruction, where it has one.
#[inline(always)]
pub(crate) fn source_of(instr: &Instr) -> Option<Source>
    ensures { result ≡ table.source_of instr.now }
{
    match instr {
        Instr::Mov(source, _) | Instr::Add(source) | Instr::Sub(source) | Instr::Jro(source) => {
            Some(*source)
        }
        Instr::Nop | Instr::Swp | Instr::Sav | Instr::Neg | Instr::Jump(..) => None,
    }
}

// Whether a jump is made, by the number in ACC.
#[inline(always)]
pub(crate) fn jumps(jump: Jump, acc: Value) -> bool
    ensures { result ≡ table.jumps jump acc }
{
    let acc = acc.get();
    match jump {
        Jump::Always => true,
        Jump::IfZero => acc == 0,
        Jump::IfNotZero => acc != 0,
        Jump::IfPositive => 0 < acc,
        Jump::IfNegative => acc < 0,
    }
}

// So many instructions on or back from a number, but not before the first one nor behind the last one.
#[inline(always)]
pub(crate) fn away(program: &Program, pc: u8, by: Value) -> u8
    requires { pc < length program.now }
    ensures { result ≡ table.away program.now pc by }
{
    let last = i64::from(program.len()) - 1;
    (i64::from(pc) + by.get()).clamp(0, last) as u8
}

impl Node {
    // The instruction at the pc.
    #[inline(always)]
    pub(crate) fn instr(&self, program: &Program) -> Option<Instr>
        ensures instr { result ≡ table.instr_at program.now self.now.pc }
        ensures values { HasValues program.now }
    {
        if self.pc < program.len() {
            Some(program.at(self.pc))
        } else {
            None
        }
    }

    // Where the value of a source is.
    #[inline(always)]
    pub(crate) fn supply_of(&self, source: Source) -> Supply
        ensures { supply_view result ≡ table.supply_of source (node_view self.now) }
    {
        match source {
            Source::Number(value) => Supply::AtHand(value),
            Source::Acc => Supply::AtHand(self.acc),
            Source::Nil => Supply::AtHand(Value::clamp(0)),
            Source::Port(port) => Supply::AtPort(port),
            Source::Any => Supply::AtAny,
            Source::Last => match self.last {
                Some(port) => Supply::AtPort(port),
                None => Supply::AtHand(Value::clamp(0)),
            },
        }
    }

    // Ready, at the next instruction.
    #[inline(always)]
    pub(crate) fn go_on(&mut self, program: &Program)
        requires { self.old.pc < length program.now }
        ensures { node_view self.new ≡ table.goes_on program.now (node_view self.old) }
    {
        let count = program.len();
        let next = self.pc + 1;
        self.pc = if next < count { next } else { 0 };
        self.mode = Mode::Ready;
    }

    // Ready, at the instruction with this number.
    #[inline(always)]
    fn go_to(&mut self, number: u8)
        ensures { node_view self.new ≡ table.goes_to number (node_view self.old) }
    {
        self.pc = number;
        self.mode = Mode::Ready;
    }

    // Waits until the value is read.
    #[inline(always)]
    pub(crate) fn write(&mut self, value: Value, to: Toward)
        ensures { node_view self.new ≡ table.writes value (toward_view to) (node_view self.old) }
    {
        self.mode = Mode::Writing { value, to };
    }

    // What an instruction does that has no source.
    #[inline(always)]
    pub(crate) fn do_plain(&mut self, instr: Instr, program: &Program)
        requires { self.old.pc < length program.now }
        ensures { node_view self.new ≡ table.does instr program.now (node_view self.old) }
    {
        match instr {
            Instr::Nop => self.go_on(program),
            Instr::Swp => {
                let acc = self.acc;
                self.acc = self.bak;
                self.bak = acc;
                self.go_on(program);
            }
            Instr::Sav => {
                self.bak = self.acc;
                self.go_on(program);
            }
            Instr::Neg => {
                self.acc = self.acc.neg();
                self.go_on(program);
            }
            Instr::Jump(jump, number) => {
                if jumps(jump, self.acc) {
                    self.go_to(number);
                } else {
                    self.go_on(program);
                }
            }
            Instr::Mov(..) | Instr::Add(_) | Instr::Sub(_) | Instr::Jro(_) => {}
        }
    }

    // A value goes where the instruction says.
    #[inline(always)]
    fn put_to(&mut self, dest: Dest, program: &Program, value: Value)
        requires { self.old.pc < length program.now }
        ensures { node_view self.new ≡ table.put_to dest program.now (node_view self.old) value }
    {
        match dest {
            Dest::Acc => {
                self.acc = value;
                self.go_on(program);
            }
            Dest::Nil => self.go_on(program),
            Dest::Port(port) => self.write(value, Toward::One(port)),
            Dest::Any => self.write(value, Toward::Any),
            Dest::Last => match self.last {
                Some(port) => self.write(value, Toward::One(port)),
                None => self.go_on(program),
            },
        }
    }

    // What an instruction with a source does with its value.
    #[inline(always)]
    pub(crate) fn do_with(&mut self, instr: Instr, program: &Program, value: Value)
        requires { self.old.pc < length program.now }
        ensures { node_view self.new ≡ table.does_with instr program.now (node_view self.old) value }
    {
        match instr {
            Instr::Mov(_, dest) => self.put_to(dest, program, value),
            Instr::Add(_) => {
                self.acc = self.acc.add(value);
                self.go_on(program);
            }
            Instr::Sub(_) => {
                self.acc = self.acc.sub(value);
                self.go_on(program);
            }
            Instr::Jro(_) => self.go_to(away(program, self.pc, value)),
            Instr::Nop | Instr::Swp | Instr::Sav | Instr::Neg | Instr::Jump(..) => {}
        }
    }
}
