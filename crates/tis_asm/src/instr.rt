//! The instructions of a compute node.
ghost use Rattle.std.specs.Prelude.{◌≡◌, ◌↔◌, IsTrue};
ghost use Rattle.tis_base.specs.declared.tiles.Dir.TheVariants.{Up, Down};
ghost use Rattle.tis_asm.specs.declared.instr.Source.TheVariants as from;
ghost use Rattle.tis_asm.specs.declared.instr.Dest.TheVariants as to;
ghost use Rattle.tis_asm.specs.declared.instr.Instr.TheVariants.{Mov};
ghost use Rattle.tis_asm.specs.Code.{jumps_to};
ghost use Rattle.tis_asm.specs.Programs.{SourceHasValue, InstrHasValue, JumpsWithin};

use tis_base::{Dir, Value};

/// Where an instruction reads its value.
#[derive(Clone, Copy, Debug, PartialEq, Eq, Hash)]
pub enum Source {
    /// This number.
    Number(Value),
    /// The register ACC.
    Acc,
    /// No register: what is read is 0.
    Nil,
    /// The port in this direction: the node waits until its neighbour there writes.
    Port(Dir),
    /// Any port: the node waits until some neighbour writes.
    Any,
    /// The port that ANY used last, and NIL before it used one.
    Last,
}

/// Where an instruction writes its value.
#[derive(Clone, Copy, Debug, PartialEq, Eq, Hash)]
pub enum Dest {
    /// The register ACC.
    Acc,
    /// No register: what is written is dropped.
    Nil,
    /// The port in this direction: the node waits until its neighbour there reads.
    Port(Dir),
    /// Any port: the node waits until some neighbour reads.
    Any,
    /// The port that ANY used last, and NIL before it used one.
    Last,
}

/// When a jump goes to its instruction, by the number in ACC.
#[derive(Clone, Copy, Debug, PartialEq, Eq, Hash)]
pub enum Jump {
    /// `JMP`.
    Always,
    /// `JEZ`.
    IfZero,
    /// `JNZ`.
    IfNotZero,
    /// `JGZ`.
    IfPositive,
    /// `JLZ`.
    IfNegative,
}

/// An instruction, as the TIS-100 Reference Manual has it.
#[derive(Clone, Copy, Debug, PartialEq, Eq, Hash)]
pub enum Instr {
    /// `NOP`: nothing.
    Nop,
    /// `MOV`: reads a value and writes it.
    Mov(Source, Dest),
    /// `SWP`: exchanges ACC and BAK.
    Swp,
    /// `SAV`: copies ACC to BAK.
    Sav,
    /// `ADD`: adds a value to ACC.
    Add(Source),
    /// `SUB`: subtracts a value from ACC.
    Sub(Source),
    /// `NEG`: turns the sign of ACC.
    Neg,
    /// A jump to the instruction with this number, from 0 on.
    Jump(Jump, u8),
    /// `JRO`: goes so many instructions on, or back, and stops at the first and at the last one.
    Jro(Source),
}

impl Source {
    // The number of a source is a value of the machine.
    fn held(&self)
        ensures { SourceHasValue self.now }
    {
        if let Source::Number(value) = self {
            value.get();
        }
    }
}

impl Instr {
    // Whether it is a jump to the instruction with this number.
    pub(crate) fn jumps_to(&self, number: u8) -> bool
        ensures { result ≡ jumps_to number self.now }
    {
        match self {
            Instr::Jump(_, target) => *target == number,
            _ => false,
        }
    }

    // Whether it is no jump, or one to the first so many instructions.
    pub(crate) fn jumps_within(&self, count: u8) -> bool
        ensures { IsTrue result ↔ JumpsWithin count self.now }
    {
        match self {
            Instr::Jump(_, target) => *target < count,
            _ => true,
        }
    }

    // The number of an instruction, where it has one, is a value of the machine, as its type says.
    pub(crate) fn held(&self)
        ensures { InstrHasValue self.now }
    {
        match self {
            Instr::Mov(source, _) | Instr::Add(source) | Instr::Sub(source) | Instr::Jro(source) =>
                source.held(),
            Instr::Nop | Instr::Swp | Instr::Sav | Instr::Neg | Instr::Jump(..) => {}
        }
    }
}

impl Default for Instr {
    ghost is_default = { λ instr. instr ≡ Mov (from.Port Up) (to.Port Down) };

    /// `MOV UP, DOWN`, which passes values on.
    fn default() -> Self {
        Instr::Mov(Source::Port(Dir::Up), Dest::Port(Dir::Down))
    }
}
