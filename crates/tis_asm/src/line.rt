//! What a line of code says.
ghost use Rattle.std.specs.Prelude.{◌≡◌, ◌∷◌, [], ◌==◌, option_map};
ghost use Rattle.tis_base.specs.Lines.{pieces_where};
ghost use Rattle.tis_asm.specs.Assembling.{words_of, plain_of_word, with_operand, jump_of_words, mov_of_words, instr_of_words, instr_or_none, is_marked as begins_marked, without_mark as mark_dropped, marked_part as part_behind_label, labelled_part as part_with_label, parts_of as parts_of_pieces, line_of as line_spelled};
ghost use Rattle.tis_asm.specs.LineView.{named_view, line_view, line_with};

use crate::instr::{Instr, Jump};
use crate::word::{dest_named, is_label_word, jump_named, source_named};
use crate::words::{at_colon, behind_first, first_word, is, without_gaps};

/// An instruction, whose jump goes to a label.
#[derive(Clone, Copy)]
pub(crate) enum NamedInstr<'a> {
    Plain(Instr),
    JumpTo(Jump, &'a [u8]),
}

/// What a line says: a label or none, whether it is marked, and an instruction or none.
#[derive(Clone, Copy)]
pub(crate) struct CodeLine<'a> {
    pub(crate) label: Option<&'a [u8]>,
    pub(crate) mark: bool,
    pub(crate) instr: Option<NamedInstr<'a>>,
}

// The instruction that is one word.
fn plain_instr<'a>(name: &'a [u8]) -> Option<NamedInstr<'a>>
    ensures { plain_of_word name.now ≡ option_map named_view result }
{
    if is(name, b"NOP") {
        Some(NamedInstr::Plain(Instr::Nop))
    } else if is(name, b"SWP") {
        Some(NamedInstr::Plain(Instr::Swp))
    } else if is(name, b"SAV") {
        Some(NamedInstr::Plain(Instr::Sav))
    } else if is(name, b"NEG") {
        Some(NamedInstr::Plain(Instr::Neg))
    } else {
        None
    }
}

// A jump and its label.
fn jump_to<'a>(name: &'a [u8], label: &'a [u8]) -> Option<NamedInstr<'a>>
    ensures { jump_of_words name.now label.now ≡ option_map named_view result }
{
    if is_label_word(label) {
        Some(NamedInstr::JumpTo(jump_named(name)?, label))
    } else {
        None
    }
}

// The instruction that is a word and an operand.
fn one_operand_instr<'a>(name: &'a [u8], operand: &'a [u8]) -> Option<NamedInstr<'a>>
    ensures { with_operand name.now operand.now ≡ option_map named_view result }
{
    if is(name, b"ADD") {
        Some(NamedInstr::Plain(Instr::Add(source_named(operand)?)))
    } else if is(name, b"SUB") {
        Some(NamedInstr::Plain(Instr::Sub(source_named(operand)?)))
    } else if is(name, b"JRO") {
        Some(NamedInstr::Plain(Instr::Jro(source_named(operand)?)))
    } else {
        jump_to(name, operand)
    }
}

// A MOV with its operands.
fn mov_instr<'a>(source: &'a [u8], dest: &'a [u8]) -> Option<NamedInstr<'a>>
    ensures { mov_of_words source.now dest.now ≡ option_map named_view result }
{
    let from = source_named(source)?;
    let to = dest_named(dest)?;
    Some(NamedInstr::Plain(Instr::Mov(from, to)))
}

// The instruction of three words, where no further one stands behind them.
fn two_operands_instr<'a>(
    name: &'a [u8],
    source: &'a [u8],
    dest: &'a [u8],
    rest: &'a [u8],
) -> Option<NamedInstr<'a>>
    ensures { instr_of_words (name.now ∷ source.now ∷ dest.now ∷ words_of rest.now) ≡ option_map named_view result }
{
    match first_word(rest) {
        None => {
            if is(name, b"MOV") {
                mov_instr(source, dest)
            } else {
                None
            }
        }
        Some(_) => None,
    }
}

// The instruction of two words and those behind them.
fn operands_instr<'a>(name: &'a [u8], operand: &'a [u8], rest: &'a [u8]) -> Option<NamedInstr<'a>>
    ensures { instr_of_words (name.now ∷ operand.now ∷ words_of rest.now) ≡ option_map named_view result }
{
    match first_word(rest) {
        None => one_operand_instr(name, operand),
        Some((dest, others)) => two_operands_instr(name, operand, dest, others),
    }
}

// The instruction of a word and those behind it.
fn instr_named<'a>(name: &'a [u8], rest: &'a [u8]) -> Option<NamedInstr<'a>>
    ensures { instr_of_words (name.now ∷ words_of rest.now) ≡ option_map named_view result }
{
    match first_word(rest) {
        None => plain_instr(name),
        Some((operand, others)) => operands_instr(name, operand, others),
    }
}

// Whether `!` stands in front.
fn is_marked(line: &[u8]) -> bool
    ensures { result ≡ begins_marked line.now }
{
    match line {
        [] => false,
        [first, ..] => *first == b'!',
    }
}

// What stands behind the `!`, where one stands in front.
fn without_mark(line: &[u8]) -> &[u8]
    ensures { result.now ≡ mark_dropped line.now }
{
    if is_marked(line) {
        behind_first(line)
    } else {
        line
    }
}

// A line with a label or none, whether it is marked, and the words of its instruction.
fn with_words<'a>(mark: bool, label: Option<&'a [u8]>, words: &'a [u8]) -> Option<CodeLine<'a>>
    ensures { option_map (λ i. line_with mark (option_map (λ l. l.now) label.entry) i) (instr_or_none (words_of words.now)) ≡ option_map line_view result }
{
    match first_word(words) {
        None => Some(CodeLine {
            label,
            mark,
            instr: None,
        }),
        Some((name, others)) => match instr_named(name, others) {
            None => None,
            Some(instr) => Some(CodeLine {
                label,
                mark,
                instr: Some(instr),
            }),
        },
    }
}

// What stands behind a label: `!` or none, and an instruction or none.
fn marked_part<'a>(mark: bool, label: Option<&'a [u8]>, rest: &'a [u8]) -> Option<CodeLine<'a>>
    ensures { part_behind_label mark (option_map (λ l. l.now) label.entry) rest.now ≡ option_map line_view result }
{
    let marked = is_marked(rest);
    with_words(mark || marked, label, without_mark(rest))
}

// A label that is one word, and what stands behind its `:`.
fn labelled_part<'a>(mark: bool, label: &'a [u8], rest: &'a [u8]) -> Option<CodeLine<'a>>
    ensures { part_with_label mark (words_of label.now) rest.now ≡ option_map line_view result }
{
    let (word, others) = first_word(label)?;
    match first_word(others) {
        None => {
            if is_label_word(word) {
                marked_part(mark, Some(word), without_gaps(rest))
            } else {
                None
            }
        }
        Some(_) => None,
    }
}

// What stands before the first `:`, and what stands behind it, where no other `:` does.
fn label_and_rest<'a>(mark: bool, label: &'a [u8], rest: &'a [u8]) -> Option<CodeLine<'a>>
    ensures { parts_of_pieces mark (label.now ∷ pieces_where (λ byte. byte == 58) rest.now) ≡ option_map line_view result }
{
    match at_colon(rest) {
        None => labelled_part(mark, label, rest),
        Some(_) => None,
    }
}

// A line behind its first `!`.
fn parts_of<'a>(mark: bool, line: &'a [u8]) -> Option<CodeLine<'a>>
    ensures { parts_of_pieces mark (pieces_where (λ byte. byte == 58) line.now) ≡ option_map line_view result }
{
    match at_colon(line) {
        None => marked_part(mark, None, without_gaps(line)),
        Some((label, rest)) => label_and_rest(mark, label, rest),
    }
}

/// What a line in capitals says, without its comment; or None where it is wrong.
pub(crate) fn line_of<'a>(code: &'a [u8]) -> Option<CodeLine<'a>>
    ensures { line_spelled code.now ≡ option_map line_view result }
{
    let line = without_gaps(code);
    parts_of(is_marked(line), without_mark(line))
}
