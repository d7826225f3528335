//! The lines of a program are taken one after the other.
ghost use Rattle.std.specs.Prelude.{◌≡◌, ◌++◌, ◌∷◌, [], ℕ, List, map, nat_lt, if◌then◌else◌, IfOk, OnOk, OnErr};
ghost use Rattle.tis_asm.specs.Assembling.{assembled, assembled_lines};
ghost use Rattle.tis_asm.specs.Gathering.{assembled_with, none_gathered, gathered};
ghost use Rattle.tis_asm.specs.LineView.{source_of, source_view};
ghost use Rattle.tis_asm.specs.Held.{Answers};
ghost use Rattle.tis_asm.specs.Programs.{IsSound};

use crate::error::AsmError;
use crate::program::{MOST, Program};
use crate::reading::read_lines;
use crate::source_line::{SourceLine, source_line};
use crate::words::is_blank_line;
use std::alloc::Global;
use tis_base::{NoMemory, lines};

/// The lines of a program so far. It keeps the first fifteen, and counts no further than sixteen.
#[derive(Drop)]
pub struct Assembler {
    sources: Vec<SourceLine>,
    count: usize,
    index: usize,
}

impl Assembler {
    /// No line.
    pub fn new(alloc: Global) -> Assembler
        ensures none { gathered result ≡ none_gathered }
        ensures all { (lines : List (List ℕ)) → assembled_with result lines ≡ assembled_lines lines }
    {
        Assembler {
            sources: Vec::new(alloc),
            count: 0,
            index: 0,
        }
    }

    // Keeps the line where it is one of the first fifteen.
    fn keep(&mut self, alloc: Global, line: &[u8]) -> Result<(), NoMemory>
        ensures kept { OnOk result (gathered self.new ≡ record (gathered self.old) { sources = if nat_lt self.old.index 15 then map source_view self.old.sources.items ++ source_of line.now ∷ [] else map source_view self.old.sources.items }) }
        ensures unchanged { OnErr result (gathered self.new ≡ gathered self.old) }
    {
        if self.index < MOST {
            self.sources.push(source_line(alloc, line)?)?;
        }
        Ok(())
    }

    /// One line more. After want of memory nothing was taken.
    pub fn push(&mut self, alloc: Global, line: &[u8]) -> Result<(), NoMemory>
        ensures taken { OnOk result ((lines : List (List ℕ)) → assembled_with self.new lines ≡ assembled_with self.old (line.now ∷ lines)) }
        ensures unchanged { OnErr result ((lines : List (List ℕ)) → assembled_with self.new lines ≡ assembled_with self.old lines) }
    {
        self.keep(alloc, line)?;
        self.index = self.index.min(MOST) + 1;
        if !is_blank_line(line) {
            self.count = self.index;
        }
        Ok(())
    }

    /// The program that the lines spell.
    pub fn finish(&self, alloc: Global) -> Result<Program, AsmError>
        ensures answer { Answers (λ p. p) result (assembled_with self.now []) }
    {
        if MOST < self.count {
            return Err(AsmError::TooManyLines);
        }
        let sources = &self.sources[..self.count.min(self.sources.len())];
        let reading = read_lines(alloc, sources)?;
        reading.finish()
    }
}

/// The program that a text spells.
pub fn assemble(alloc: Global, text: &[u8]) -> Result<Program, AsmError>
    ensures answer { Answers (λ p. p) result (assembled text.now) }
    ensures sound { IfOk result (λ p. IsSound p) }
{
    let mut assembler = Assembler::new(alloc);
    for line in lines(text) {
        assembler.push(alloc, line)?;
    }
    assembler.finish(alloc)
}
