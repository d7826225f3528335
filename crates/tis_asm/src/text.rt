//! The canonical text of a program.
ghost use Rattle.std.specs.Prelude.{◌≡◌, ◌++◌, OnOk};
ghost use Rattle.tis_base.specs.Answers.{Gives};
ghost use Rattle.tis_asm.specs.declared.instr.Instr.TheVariants.{Mov};
ghost use Rattle.tis_asm.specs.declared.instr.Instr.TheVariants as op;
ghost use Rattle.tis_asm.specs.Code.{dir_word, source_word, dest_word, jump_word, label_word, label_text, mark_text, instr_text, is_target, line_text, code_text};

use crate::instr::{Dest, Instr, Jump, Source};
use crate::program::{MarkedInstr, Program};
use std::alloc::Global;
use tis_base::{Dir, NoMemory, push_number};

// The word of a direction.
fn dir_text(dir: Dir) -> &'static [u8]
    ensures { result.now ≡ dir_word dir }
{
    match dir {
        Dir::Left => b"LEFT",
        Dir::Right => b"RIGHT",
        Dir::Up => b"UP",
        Dir::Down => b"DOWN",
    }
}

// Writes a source behind what is there.
fn push_source(out: &mut Vec<u8>, source: Source) -> Result<(), NoMemory>
    ensures { OnOk result (out.new.items ≡ out.old.items ++ source_word source) }
{
    match source {
        Source::Number(value) => push_number(out, value.get()),
        Source::Acc => Ok(out.extend_from_slice(b"ACC")?),
        Source::Nil => Ok(out.extend_from_slice(b"NIL")?),
        Source::Port(dir) => Ok(out.extend_from_slice(dir_text(dir))?),
        Source::Any => Ok(out.extend_from_slice(b"ANY")?),
        Source::Last => Ok(out.extend_from_slice(b"LAST")?),
    }
}

// The word of a destination.
fn dest_text(dest: Dest) -> &'static [u8]
    ensures { result.now ≡ dest_word dest }
{
    match dest {
        Dest::Acc => b"ACC",
        Dest::Nil => b"NIL",
        Dest::Port(dir) => dir_text(dir),
        Dest::Any => b"ANY",
        Dest::Last => b"LAST",
    }
}

// The word of a jump.
fn jump_text(jump: Jump) -> &'static [u8]
    ensures { result.now ≡ jump_word jump }
{
    match jump {
        Jump::Always => b"JMP",
        Jump::IfZero => b"JEZ",
        Jump::IfNotZero => b"JNZ",
        Jump::IfPositive => b"JGZ",
        Jump::IfNegative => b"JLZ",
    }
}

// Writes the label of the instruction with this number behind what is there.
fn push_label(out: &mut Vec<u8>, number: u8) -> Result<(), NoMemory>
    ensures { OnOk result (out.new.items ≡ out.old.items ++ label_word number) }
{
    out.push(b'L')?;
    push_number(out, i64::from(number))
}

// Writes a jump and the label that it goes to behind what is there.
fn push_jump(out: &mut Vec<u8>, jump: Jump, number: u8) -> Result<(), NoMemory>
    ensures { OnOk result (out.new.items ≡ out.old.items ++ instr_text (op.Jump jump number)) }
{
    out.extend_from_slice(jump_text(jump))?;
    out.push(b' ')?;
    push_label(out, number)
}

// Writes a MOV behind what is there.
fn push_mov(out: &mut Vec<u8>, source: Source, dest: Dest) -> Result<(), NoMemory>
    ensures { OnOk result (out.new.items ≡ out.old.items ++ instr_text (Mov source dest)) }
{
    out.extend_from_slice(b"MOV ")?;
    push_source(out, source)?;
    out.extend_from_slice(b", ")?;
    Ok(out.extend_from_slice(dest_text(dest))?)
}

// Writes a word and a source behind what is there.
fn push_with_source(out: &mut Vec<u8>, word: &[u8], source: Source) -> Result<(), NoMemory>
    ensures { OnOk result (out.new.items ≡ out.old.items ++ (word.now ++ source_word source)) }
{
    out.extend_from_slice(word)?;
    push_source(out, source)
}

// Writes an instruction behind what is there.
fn push_instr(out: &mut Vec<u8>, instr: Instr) -> Result<(), NoMemory>
    ensures { OnOk result (out.new.items ≡ out.old.items ++ instr_text instr) }
{
    match instr {
        Instr::Mov(source, dest) => push_mov(out, source, dest),
        Instr::Add(source) => push_with_source(out, b"ADD ", source),
        Instr::Sub(source) => push_with_source(out, b"SUB ", source),
        Instr::Jro(source) => push_with_source(out, b"JRO ", source),
        Instr::Jump(jump, number) => push_jump(out, jump, number),
        Instr::Nop => Ok(out.extend_from_slice(b"NOP")?),
        Instr::Swp => Ok(out.extend_from_slice(b"SWP")?),
        Instr::Sav => Ok(out.extend_from_slice(b"SAV")?),
        Instr::Neg => Ok(out.extend_from_slice(b"NEG")?),
    }
}

// Writes the label in front of an instruction, where it is wanted, behind what is there.
fn push_label_where(out: &mut Vec<u8>, labelled: bool, number: u8) -> Result<(), NoMemory>
    ensures { OnOk result (out.new.items ≡ out.old.items ++ label_text labelled number) }
{
    if labelled {
        push_label(out, number)?;
        out.extend_from_slice(b": ")?;
    }
    Ok(())
}

// Writes a mark, where it is wanted, behind what is there.
fn push_mark(out: &mut Vec<u8>, mark: bool) -> Result<(), NoMemory>
    ensures { OnOk result (out.new.items ≡ out.old.items ++ mark_text mark) }
{
    if mark {
        out.push(b'!')?;
    }
    Ok(())
}

// Writes the line of an instruction behind what is there.
fn push_line(
    out: &mut Vec<u8>,
    program: &Program,
    number: u8,
    marked: MarkedInstr,
) -> Result<(), NoMemory>
    ensures { OnOk result (out.new.items ≡ out.old.items ++ line_text program.now number marked) }
{
    push_label_where(out, program.is_target(number), number)?;
    push_mark(out, marked.mark)?;
    push_instr(out, marked.instr)
}

/// The canonical text of a program: a line for each instruction, in capitals, with `, ` between the
/// operands of a `MOV` and a `!` in front of a marked one. An instruction to which a jump goes has a
/// label in front, `L` and its number.
pub fn print(alloc: Global, program: &Program) -> Result<Vec<u8>, NoMemory>
    ensures { Gives (λ text. text.items) result (code_text program.now) }
{
    let mut out = Vec::new(alloc);
    for index in 0..program.len() {
        push_line(&mut out, program, index, program.marked_instr(index))?;
        out.push(b'\n')?;
    }
    Ok(out)
}
