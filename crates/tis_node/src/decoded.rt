//! A program with what its steps are made from.
ghost use Rattle.std.specs.Prelude.{◌≡◌, ◌<◌, ◌≤◌, length};
ghost use Rattle.tis_asm.specs.Programs.{HasValues};
ghost use Rattle.tis_asm.specs.Node as table;
ghost use Rattle.tis_node.specs.Rows.{HasRows, Sends, Tells, Waits};

use crate::row::{Row, row_of, silent};
use std::marker::Model;
use tis_asm::Program;

// How many instructions a program has at most.
const MOST: usize = 15;

/// A program, decoded: for each of its instructions that needs no port, what it does is held as a row of numbers, so that
/// a step takes few branches. Contracts see the program.
#[derive(Debug, Drop)]
pub struct Decoded {
    rows: [Row; MOST],
    program: Program,
}

impl Model for Decoded {
    ghost use Rattle.std.specs.Prelude.{List};
    ghost use Rattle.tis_asm.specs.declared.program.MarkedInstr.{MarkedInstr};
    ghost use Rattle.tis_node.specs.Rows.{HasRows};

    ghost Value = { List MarkedInstr };

    ghost view = { λ d. d.program };

    ghost invariant = { λ d. HasRows d.rows d.program };
}

// The row of each instruction.
fn rows_of(program: &Program) -> [Row; MOST]
    ensures { HasRows result program.now }
{
    let mut rows = [silent(); MOST];
    for pc in 0..program.len() {
        rows[pc as usize] = row_of(program.at(pc), program, pc);
    }
    rows
}

impl Decoded {
    /// A program, decoded.
    pub fn new(program: &Program) -> Decoded
        ensures { result ≡ program.now }
    {
        Decoded {
            rows: rows_of(program),
            program: program.copy(),
        }
    }

    // The program.
    #[inline(always)]
    pub(crate) fn program(&self) -> &Program
        ensures program { result.now ≡ self.now }
        ensures short { length self.now ≤ 15 }
        ensures values { HasValues self.now }
    {
        self.program.len();
        &self.program
    }

    // The row of the instruction with a number, which is silent where none has it.
    #[inline(always)]
    pub(crate) fn row(&self, pc: u8) -> &Row
        requires { pc < 15 }
        ensures tells { Tells result.now (table.instr_at self.now pc) self.now pc }
        ensures waits { Waits result.now.waits (table.instr_at self.now pc) }
        ensures sends { Sends result.now (table.instr_at self.now pc) self.now }
    {
        &self.rows[pc as usize]
    }
}
