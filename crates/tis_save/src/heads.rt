//! The lines of a save are tested before its blocks are read.
ghost use Rattle.std.specs.Prelude.{◌≡◌, ◌≤◌, OnOk, [], Some, false, replicate};
ghost use Rattle.tis_base.specs.Lines.{text_lines};
ghost use Rattle.tis_save.specs.Reading.{first_fault, number_of_head as number_in_head};
ghost use Rattle.tis_save.specs.Refusing.{Tests};
ghost use Rattle.tis_save.specs.Heads.{flag_fault, flagged_head_fault, flagged_code_fault, flagged_fault, with_flag, flags_below};

use crate::error::SaveError;
use crate::head::{is_blank_line, is_head, number_of_head};
use tis_base::lines;

// How many numbers may be marked: no grid has as many tiles.
const MOST: usize = 48;

/// The numbers of the heads above a line, each with a mark, and whether there are any.
#[derive(Drop)]
pub(crate) struct Heads {
    seen: [bool; MOST],
    any: bool,
}

impl Heads {
    // No heads.
    fn new() -> Heads
        ensures { result ≡ record { seen = replicate 48 false; any = false } }
    {
        Heads {
            seen: [false; MOST],
            any: false,
        }
    }

    // Tells what is wrong with a head of this number, and marks it.
    fn check_block(&mut self, count: u8, at: usize, number: u16) -> Result<(), SaveError>
        requires { count ≤ 48 }
        ensures fault { Tests result (flag_fault count self.old at number) }
        ensures below { OnOk result (self.new ≡ with_flag self.old (Some number)) }
    {
        if u16::from(count) <= number {
            return Err(SaveError::UnknownBlock { line: at });
        }
        if self.seen[number as usize] {
            return Err(SaveError::RepeatedBlock { line: at });
        }
        self.seen[number as usize] = true;
        self.any = true;
        Ok(())
    }

    // Tells what is wrong with a line that begins with `@`.
    fn check_head(&mut self, count: u8, at: usize, line: &[u8]) -> Result<(), SaveError>
        requires { count ≤ 48 }
        ensures fault { Tests result (flagged_head_fault count self.old at (number_in_head line.now)) }
        ensures below { OnOk result (self.new ≡ with_flag self.old (number_in_head line.now)) }
    {
        match number_of_head(line) {
            None => Err(SaveError::BadHead { line: at }),
            Some(number) => self.check_block(count, at, number),
        }
    }

    // Tells what is wrong with a line that doesn't.
    fn check_code(&self, at: usize, line: &[u8]) -> Result<(), SaveError>
        ensures { Tests result (flagged_code_fault self.now at line.now) }
    {
        if is_blank_line(line) || self.any {
            Ok(())
        } else {
            Err(SaveError::StrayCode { line: at })
        }
    }

    // Tells what is wrong with a line, and marks its number where it is a head.
    fn check_line(&mut self, count: u8, at: usize, line: &[u8]) -> Result<(), SaveError>
        requires { count ≤ 48 }
        ensures fault { Tests result (flagged_fault count self.old at line.now) }
        ensures below { OnOk result (self.new ≡ flags_below self.old line.now) }
    {
        if is_head(line) {
            self.check_head(count, at, line)
        } else {
            self.check_code(at, line)
        }
    }
}

/// Tells what is wrong with the first wrong line of a save, where so many tiles compute.
pub(crate) fn check_lines(text: &[u8], count: u8) -> Result<(), SaveError>
    requires { count ≤ 48 }
    ensures { Tests result (first_fault count [] 1 (text_lines text.now)) }
{
    let mut heads = Heads::new();
    let mut at = 0;
    for line in lines(text) {
        at += 1;
        heads.check_line(count, at, line)?;
    }
    Ok(())
}
