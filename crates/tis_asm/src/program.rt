//! The program of one node.
ghost use Rattle.std.specs.Prelude.{◌≡◌, ◌<◌, ◌↔◌, [], ◌∷◌, ◌++◌, length, slice_get, slice_set, option_map, Some, IsTrue, ◌≤◌};
ghost use Rattle.std.specs.Bool.{OnTrue, OnFalse};
ghost use Rattle.tis_asm.specs.Programs.{HasValues, IsSound};
ghost use Rattle.tis_asm.specs.Code.{is_target};
ghost use Rattle.tis_asm.specs.declared.instr.Instr.TheVariants as asm;

use crate::instr::{Instr, Jump};
use arrayvec::ArrayVec;
use std::marker::Model;

/// How many instructions a program has at most.
pub const MOST: usize = 15;

/// An instruction, and whether a breakpoint marks it.
#[derive(Clone, Copy, Debug, PartialEq, Eq, Hash, Default)]
pub struct MarkedInstr {
    pub instr: Instr,
    pub mark: bool,
}

/// The instructions of one node, at most fifteen, in order.
#[derive(Debug, Drop)]
pub struct Program {
    instrs: ArrayVec<MarkedInstr, MOST>,
}

impl Model for Program {
    ghost use Rattle.std.specs.Prelude.{List};
    ghost use Rattle.tis_asm.specs.declared.program.MarkedInstr.{MarkedInstr};
    ghost use Rattle.tis_asm.specs.Programs.{HasValues};

    ghost Value = { List MarkedInstr };

    ghost view = { λ p. p.instrs.items };

    ghost invariant = { λ p. HasValues p.instrs.items };
}

impl Program {
    /// The program without an instruction.
    pub fn new() -> Program
        ensures { result ≡ [] }
    {
        Program {
            instrs: ArrayVec::new(),
        }
    }

    /// The same program once more.
    pub fn copy(&self) -> Program
        ensures { result ≡ self.now }
    {
        let mut copy = Program::new();
        for index in 0..self.len() {
            let marked = self.marked_instr(index);
            copy.push(marked.instr, marked.mark);
        }
        copy
    }

    /// How many instructions there are.
    pub fn len(&self) -> u8
        ensures len { result ≡ length self.now }
        ensures short { length self.now ≤ 15 }
        ensures values { HasValues self.now }
    {
        self.instrs.len() as u8
    }

    /// Whether there is no instruction.
    pub fn is_empty(&self) -> bool
        ensures { IsTrue result ↔ (self.now ≡ []) }
    {
        self.instrs.is_empty()
    }

    // An instruction with its mark.
    pub(crate) fn marked_instr(&self, index: u8) -> MarkedInstr
        requires { index < length self.now }
        ensures { slice_get self.now index ≡ Some result }
    {
        self.instrs[index as usize]
    }

    /// The instruction with a number from 0 on.
    pub fn at(&self, index: u8) -> Instr
        requires { index < length self.now }
        ensures { option_map (λ marked. marked.instr) (slice_get self.now index) ≡ Some result }
    {
        self.marked_instr(index).instr
    }

    /// Whether a breakpoint marks the instruction with a number from 0 on.
    pub fn marked(&self, index: u8) -> bool
        requires { index < length self.now }
        ensures { option_map (λ marked. marked.mark) (slice_get self.now index) ≡ Some result }
    {
        self.marked_instr(index).mark
    }

    // Whether some jump goes to the instruction with a number from 0 on.
    pub(crate) fn is_target(&self, number: u8) -> bool
        ensures { result ≡ is_target self.now number }
    {
        self.instrs
            .iter()
            .any(|marked| marked.instr.jumps_to(number))
    }

    /// Whether each jump goes to an instruction of the program.
    pub fn sound(&self) -> bool
        ensures { IsTrue result ↔ IsSound self.now }
    {
        let count = self.len();
        for index in 0..count {
            let marked = self.marked_instr(index);
            if !marked.instr.jumps_within(count) {
                return false;
            }
        }
        true
    }

    /// One more instruction at the end, with a mark or without one. False, and the program stays as
    /// it is, exactly where fifteen are there.
    pub fn push(&mut self, instr: Instr, mark: bool) -> bool
        ensures full { IsTrue result ↔ (length self.old < 15) }
        ensures pushed { OnTrue result (self.new ≡ self.old ++ record { instr = instr; mark = mark } ∷ []) }
        ensures unchanged { OnFalse result (self.new ≡ self.old) }
    {
        if self.instrs.is_full() {
            return false;
        }
        instr.held();
        self.instrs.push(MarkedInstr { instr, mark });
        true
    }

    // A jump in place of an instruction, where that is there.
    pub(crate) fn set_jump(&mut self, place: u8, mark: bool, jump: Jump, number: u8)
        ensures { self.new ≡ slice_set self.old place (record { instr = asm.Jump jump number; mark = mark }) }
    {
        if self.instrs.len() <= place as usize {
            return;
        }
        self.instrs[place as usize] = MarkedInstr {
            instr: Instr::Jump(jump, number),
            mark,
        };
    }
}
