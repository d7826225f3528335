//! Lines of code are read one after the other.
ghost use Rattle.std.specs.Prelude.{◌≡◌, ◌≤◌, ◌<◌, ◌+◌, ◌∷◌, [], length, map, option_map, Ok, None, Some, OnOk, IsTrue, false};
ghost use Rattle.tis_asm.specs.Held.{Answers};
ghost use Rattle.tis_asm.specs.Assembling.{JumpTo};
ghost use Rattle.tis_asm.specs.LineView.{source_view, source_read};
ghost use Rattle.tis_asm.specs.ReadCode.{label_in, is_above, label_added, instr_added, line_added, nothing_read, code_read, number_in, jump_set, program_read};
ghost use Rattle.tis_asm.specs.ReadingView.{jump_view, reading_view};

use crate::error::AsmError;
use crate::instr::{Instr, Jump};
use crate::line::{NamedInstr, line_of};
use crate::program::Program;
use crate::source_line::SourceLine;
use indexmap::IndexMap;
use std::alloc::Global;
use tis_base::NoMemory;

/// A jump to a label: the number of its line, its place among the instructions, its mark, and its label.
#[derive(Clone, Copy)]
pub(crate) struct NamedJump<'a> {
    pub(crate) line: usize,
    pub(crate) place: u8,
    pub(crate) mark: bool,
    pub(crate) jump: Jump,
    pub(crate) label: &'a [u8],
}

/// The lines so far: their instructions, whose jumps go nowhere yet, the jumps, and the labels, each with the number of
/// instructions above it.
#[derive(Drop)]
pub(crate) struct Reading<'a> {
    pub(crate) program: Program,
    pub(crate) jumps: Vec<NamedJump<'a>>,
    pub(crate) labels: IndexMap<&'a [u8], u8>,
}

impl<'a> Reading<'a> {
    // No line.
    fn new(alloc: Global) -> Reading<'a>
        ensures { reading_view result ≡ nothing_read }
    {
        Reading {
            program: Program::new(),
            jumps: Vec::new(alloc),
            labels: IndexMap::new(alloc),
        }
    }

    // How many instructions stand above a label.
    fn label_at(&self, label: &[u8]) -> Option<u8>
        ensures { result ≡ label_in (reading_view self.now).labels label.now }
    {
        match self.labels.get(label) {
            None => None,
            Some(count) => Some(*count),
        }
    }

    // Whether a label stands above.
    fn has(&self, label: Option<&[u8]>) -> bool
        ensures { result ≡ is_above (reading_view self.now).labels (option_map (λ l. l.now) label.entry) }
    {
        match label {
            None => false,
            Some(label) => self.label_at(label).is_some(),
        }
    }

    // One label more, which doesn't stand above.
    fn insert_label(&mut self, label: &'a [u8]) -> Result<(), NoMemory>
        requires { label_in (reading_view self.old).labels label.now ≡ None }
        ensures labels { OnOk result (reading_view self.new ≡ record (reading_view self.old) { labels = label_added (reading_view self.old).labels (Some label.now) (length self.old.program) }) }
        ensures program { self.new.program ≡ self.old.program }
    {
        self.labels.insert(label, self.program.len())?;
        Ok(())
    }

    // The label of a line, where it has one, which doesn't stand above.
    fn add_label(&mut self, label: Option<&'a [u8]>) -> Result<(), NoMemory>
        requires { is_above (reading_view self.old).labels (option_map (λ l. l.now) label) ≡ false }
        ensures labels { OnOk result (reading_view self.new ≡ record (reading_view self.old) { labels = label_added (reading_view self.old).labels (option_map (λ l. l.now) label.entry) (length self.old.program) }) }
        ensures program { self.new.program ≡ self.old.program }
    {
        match label {
            None => Ok(()),
            Some(label) => self.insert_label(label),
        }
    }

    // One jump more, which goes nowhere yet.
    fn add_jump(
        &mut self,
        line: usize,
        mark: bool,
        jump: Jump,
        label: &'a [u8],
    ) -> Result<(), NoMemory>
        requires { length self.old.program < 15 }
        ensures jump { OnOk result (reading_view self.new ≡ instr_added line mark (Some (JumpTo jump label.now)) (reading_view self.old)) }
        ensures longer { length self.new.program ≤ length self.old.program + 1 }
    {
        self.jumps.push(NamedJump {
            line,
            place: self.program.len(),
            mark,
            jump,
            label,
        })?;
        self.program.push(Instr::Jump(jump, 0), mark);
        Ok(())
    }

    // One line more, which has this number.
    fn add(&mut self, number: usize, source: &'a SourceLine) -> Result<(), AsmError>
        requires { length self.old.program < 15 }
        ensures line { Answers (λ _. reading_view self.new) result (line_added number (reading_view self.old) (source_read number (source_view source.now))) }
        ensures longer { length self.new.program ≤ length self.old.program + 1 }
    {
        if source.long {
            return Err(AsmError::LongLine { line: number });
        }
        match line_of(&source.code) {
            None => Err(AsmError::BadLine { line: number }),
            Some(line) => {
                if self.has(line.label) {
                    return Err(AsmError::RepeatedLabel { line: number });
                }
                self.add_label(line.label)?;
                let mark = line.mark;
                match line.instr {
                    None => {}
                    Some(NamedInstr::Plain(instr)) => {
                        self.program.push(instr, mark);
                    }
                    Some(NamedInstr::JumpTo(jump, label)) => {
                        self.add_jump(number, mark, jump, label)?;
                    }
                }
                Ok(())
            }
        }
    }

    // The instruction that a label names, among so many.
    fn number_of(&self, count: u8, label: &[u8]) -> Option<u8>
        ensures { result ≡ number_in (reading_view self.now).labels count label.now }
    {
        let number = self.label_at(label)?;
        if number == count {
            Some(0)
        } else {
            Some(number)
        }
    }

    // Lets a jump go to the instruction that its label names.
    fn set_jump(&self, program: &mut Program, jump: &NamedJump<'a>) -> Result<(), AsmError>
        ensures { Answers (λ _. program.new) result (jump_set (jump_view jump.now) program.old (number_in (reading_view self.now).labels (length program.old) jump.now.label.now)) }
    {
        match self.number_of(program.len(), jump.label) {
            None => Err(AsmError::UnknownLabel { line: jump.line }),
            Some(number) => {
                program.set_jump(jump.place, jump.mark, jump.jump, number);
                Ok(())
            }
        }
    }

    /// The program of the lines.
    pub(crate) fn finish(&self) -> Result<Program, AsmError>
        ensures { Answers (λ p. p) result (program_read (reading_view self.now)) }
    {
        let mut program = self.program.copy();
        for jump in &self.jumps {
            self.set_jump(&mut program, jump)?;
        }
        Ok(program)
    }
}

/// Lines of code, each of which says something and has a label of its own.
pub(crate) fn read_lines<'a>(
    alloc: Global,
    sources: &'a [SourceLine],
) -> Result<Reading<'a>, AsmError>
    requires { length sources.now ≤ 15 }
    ensures { Answers reading_view result (code_read 1 (Ok nothing_read) (map source_view sources.now)) }
{
    let mut reading = Reading::new(alloc);
    for (index, source) in sources.iter().enumerate() {
        reading.add(index + 1, source)?;
    }
    Ok(reading)
}
