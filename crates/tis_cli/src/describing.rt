//! The line that says how the program ended.
ghost use Rattle.std.specs.Prelude.{◌≡◌, ◌++◌, OnOk};
ghost use Rattle.tis_base.specs.Answers.{Gives};
ghost use Rattle.tis_save.specs.declared.error.SaveError.TheVariants.{Asm};
ghost use Rattle.tis_puzzle.specs.declared.error.PuzzleError.TheVariants.{Lua, NoFunction};
ghost use Rattle.tis_cli.specs.Statuses.{with_number, asm_words, net_words, rule_words, save_words, grid_words, chunk_words, lua_words, wanted_words, puzzle_words, refusal_words, status_line};

use crate::status::{Refusal, Status};
use lua_machine::LuaError;
use lua_syntax::LuaSyntax;
use net_rules::RuleError;
use net_syntax::NetError;
use std::alloc::Global;
use tis_asm::AsmError;
use tis_base::NoMemory;
use tis_grid_text::GridTextError;
use tis_puzzle::{PuzzleError, Wanted};
use tis_report::push_count;
use tis_save::SaveError;

// Writes a name and a number behind what is there.
fn push_with_number(line: &mut Vec<u8>, name: &[u8], number: u64) -> Result<(), NoMemory>
    ensures { OnOk result (line.new.items ≡ line.old.items ++ with_number name.now number) }
{
    line.extend_from_slice(name)?;
    push_count(line, number)
}

// Writes a name behind what is there.
fn push_name(line: &mut Vec<u8>, name: &[u8]) -> Result<(), NoMemory>
    ensures { OnOk result (line.new.items ≡ line.old.items ++ name.now) }
{
    line.extend_from_slice(name)?;
    Ok(())
}

// Writes why code is no program.
fn push_asm(line: &mut Vec<u8>, error: AsmError) -> Result<(), NoMemory>
    ensures { OnOk result (line.new.items ≡ line.old.items ++ asm_words error) }
{
    match error {
        AsmError::TooManyLines => push_name(line, b"TooManyLines"),
        AsmError::LongLine { line: at } => push_with_number(line, b"LongLine ", at as u64),
        AsmError::BadLine { line: at } => push_with_number(line, b"BadLine ", at as u64),
        AsmError::RepeatedLabel { line: at } => push_with_number(
            line,
            b"RepeatedLabel ",
            at as u64,
        ),
        AsmError::UnknownLabel { line: at } => push_with_number(line, b"UnknownLabel ", at as u64),
        AsmError::NoMemory => push_name(line, b"NoMemory"),
    }
}

// Writes which block of a save has an error, and which.
fn push_block(line: &mut Vec<u8>, block: u8, error: AsmError) -> Result<(), NoMemory>
    ensures { OnOk result (line.new.items ≡ line.old.items ++ save_words (Asm block error)) }
{
    push_with_number(line, b"Asm ", u64::from(block))?;
    push_name(line, b" ")?;
    push_asm(line, error)
}

// Writes why a text is no save.
fn push_save(line: &mut Vec<u8>, error: SaveError) -> Result<(), NoMemory>
    ensures { OnOk result (line.new.items ≡ line.old.items ++ save_words error) }
{
    match error {
        SaveError::BadHead { line: at } => push_with_number(line, b"BadHead ", at as u64),
        SaveError::UnknownBlock { line: at } => push_with_number(line, b"UnknownBlock ", at as u64),
        SaveError::RepeatedBlock { line: at } => push_with_number(
            line,
            b"RepeatedBlock ",
            at as u64,
        ),
        SaveError::StrayCode { line: at } => push_with_number(line, b"StrayCode ", at as u64),
        SaveError::Asm { block, error } => push_block(line, block, error),
        SaveError::NoMemory => push_name(line, b"NoMemory"),
    }
}

// Writes why a text is no network.
fn push_net(line: &mut Vec<u8>, error: NetError) -> Result<(), NoMemory>
    ensures { OnOk result (line.new.items ≡ line.old.items ++ net_words error) }
{
    match error {
        NetError::BadLine { line: at } => push_with_number(line, b"BadLine ", at as u64),
        NetError::TooDeep { line: at } => push_with_number(line, b"TooDeep ", at as u64),
        NetError::StrayEnd { line: at } => push_with_number(line, b"StrayEnd ", at as u64),
        NetError::Unclosed { line: at } => push_with_number(line, b"Unclosed ", at as u64),
        NetError::NoMemory => push_name(line, b"NoMemory"),
    }
}

// Writes which rule a network breaks.
fn push_rule(line: &mut Vec<u8>, error: RuleError) -> Result<(), NoMemory>
    ensures { OnOk result (line.new.items ≡ line.old.items ++ rule_words error) }
{
    match error {
        RuleError::Unknown { line: at } => push_with_number(line, b"Unknown ", at as u64),
        RuleError::Repeated { line: at } => push_with_number(line, b"Repeated ", at as u64),
        RuleError::SamePlace { line: at } => push_with_number(line, b"SamePlace ", at as u64),
        RuleError::ReadTwice { line: at } => push_with_number(line, b"ReadTwice ", at as u64),
        RuleError::WrittenTwice { line: at } => push_with_number(line, b"WrittenTwice ", at as u64),
        RuleError::CounterChanged { line: at } => push_with_number(
            line,
            b"CounterChanged ",
            at as u64,
        ),
        RuleError::Unread { line: at } => push_with_number(line, b"Unread ", at as u64),
        RuleError::Unwritten { line: at } => push_with_number(line, b"Unwritten ", at as u64),
        RuleError::ReadBeforeWritten { line: at } => push_with_number(
            line,
            b"ReadBeforeWritten ",
            at as u64,
        ),
        RuleError::NoSureRead { process } => push_with_number(
            line,
            b"NoSureRead ",
            u64::from(process),
        ),
        RuleError::LoopWithoutRead { line: at } => push_with_number(
            line,
            b"LoopWithoutRead ",
            at as u64,
        ),
        RuleError::JoinAfterSplit { process } => push_with_number(
            line,
            b"JoinAfterSplit ",
            u64::from(process),
        ),
        RuleError::NoMemory => push_name(line, b"NoMemory"),
    }
}

// Writes why a text is no grid.
fn push_grid(line: &mut Vec<u8>, error: GridTextError) -> Result<(), NoMemory>
    ensures { OnOk result (line.new.items ≡ line.old.items ++ grid_words error) }
{
    match error {
        GridTextError::BadLine { line: at } => push_with_number(line, b"BadLine ", at as u64),
        GridTextError::SamePlace { line: at } => push_with_number(line, b"SamePlace ", at as u64),
        GridTextError::NoMemory => push_name(line, b"NoMemory"),
    }
}

// Writes why a text is no chunk of Lua.
fn push_chunk(line: &mut Vec<u8>, error: LuaSyntax) -> Result<(), NoMemory>
    ensures { OnOk result (line.new.items ≡ line.old.items ++ chunk_words error) }
{
    match error {
        LuaSyntax::Syntax { line: at } => push_with_number(line, b"Syntax ", at as u64),
        LuaSyntax::TooDeep { line: at } => push_with_number(line, b"TooDeep ", at as u64),
        LuaSyntax::NoMemory => push_name(line, b"NoMemory"),
    }
}

// Writes why a call of a function gives nothing.
fn push_lua(line: &mut Vec<u8>, error: LuaError) -> Result<(), NoMemory>
    ensures { OnOk result (line.new.items ≡ line.old.items ++ lua_words error) }
{
    match error {
        LuaError::TypeFault { line: at } => push_with_number(line, b"TypeFault ", at as u64),
        LuaError::UnknownName { line: at } => push_with_number(line, b"UnknownName ", at as u64),
        LuaError::Inexact { line: at } => push_with_number(line, b"Inexact ", at as u64),
        LuaError::OutOfRange { line: at } => push_with_number(line, b"OutOfRange ", at as u64),
        LuaError::LongString { line: at } => push_with_number(line, b"LongString ", at as u64),
        LuaError::TooDeepCalls { line: at } => push_with_number(line, b"TooDeepCalls ", at as u64),
        LuaError::Budget => push_name(line, b"Budget"),
        LuaError::NoMemory => push_name(line, b"NoMemory"),
    }
}

// Writes which function of a specification is meant.
fn push_wanted(line: &mut Vec<u8>, wanted: Wanted) -> Result<(), NoMemory>
    ensures { OnOk result (line.new.items ≡ line.old.items ++ wanted_words wanted) }
{
    match wanted {
        Wanted::Name => push_name(line, b"Name"),
        Wanted::Description => push_name(line, b"Description"),
        Wanted::Streams => push_name(line, b"Streams"),
        Wanted::Layout => push_name(line, b"Layout"),
    }
}

// Writes which function is missing.
fn push_missing(line: &mut Vec<u8>, name: Wanted) -> Result<(), NoMemory>
    ensures { OnOk result (line.new.items ≡ line.old.items ++ puzzle_words (NoFunction name)) }
{
    push_name(line, b"NoFunction ")?;
    push_wanted(line, name)
}

// Writes which call of a function gives nothing, and why.
fn push_call(line: &mut Vec<u8>, name: Wanted, error: LuaError) -> Result<(), NoMemory>
    ensures { OnOk result (line.new.items ≡ line.old.items ++ puzzle_words (Lua name error)) }
{
    push_name(line, b"Lua ")?;
    push_wanted(line, name)?;
    push_name(line, b" ")?;
    push_lua(line, error)
}

// Writes why a chunk gives no puzzle.
fn push_puzzle(line: &mut Vec<u8>, error: PuzzleError) -> Result<(), NoMemory>
    ensures { OnOk result (line.new.items ≡ line.old.items ++ puzzle_words error) }
{
    match error {
        PuzzleError::NoFunction { name } => push_missing(line, name),
        PuzzleError::Lua { name, error } => push_call(line, name, error),
        PuzzleError::BadStreams { index } => push_with_number(line, b"BadStreams ", index as u64),
        PuzzleError::SamePlace { index } => push_with_number(line, b"SamePlace ", index as u64),
        PuzzleError::BadLayout { index } => push_with_number(line, b"BadLayout ", index as u64),
        PuzzleError::NoMemory => push_name(line, b"NoMemory"),
    }
}

// Writes the words of a refusal.
fn push_refusal(line: &mut Vec<u8>, refusal: Refusal) -> Result<(), NoMemory>
    ensures { OnOk result (line.new.items ≡ line.old.items ++ refusal_words refusal) }
{
    match refusal {
        Refusal::NotThisForm => push_name(line, b"NotThisForm"),
        Refusal::Net(error) => {
            push_name(line, b"Net ")?;
            push_net(line, error)
        }
        Refusal::Rule(error) => {
            push_name(line, b"Rule ")?;
            push_rule(line, error)
        }
        Refusal::Save(error) => {
            push_name(line, b"Save ")?;
            push_save(line, error)
        }
        Refusal::Grid(error) => {
            push_name(line, b"Grid ")?;
            push_grid(line, error)
        }
        Refusal::Syntax(error) => {
            push_name(line, b"Syntax ")?;
            push_chunk(line, error)
        }
        Refusal::Puzzle(error) => {
            push_name(line, b"Puzzle ")?;
            push_puzzle(line, error)
        }
        Refusal::Events { line: at } => push_with_number(line, b"Events ", at as u64),
        Refusal::NotEnabled { index } => push_with_number(line, b"NotEnabled ", index as u64),
        Refusal::Script { line: at } => push_with_number(line, b"Script ", at as u64),
    }
}

// Writes the line of a status behind what is there.
fn push_status(line: &mut Vec<u8>, status: Status) -> Result<(), NoMemory>
    ensures { OnOk result (line.new.items ≡ line.old.items ++ status_line status) }
{
    match status {
        Status::Done => Ok(()),
        Status::NotPassed { .. } => push_name(line, b"not passed"),
        Status::Words => push_name(line, b"not a command"),
        Status::Refused(refusal) => {
            push_name(line, b"refused ")?;
            push_refusal(line, refusal)
        }
        Status::Missing => push_name(line, b"missing"),
        Status::StoreFault => push_name(line, b"store fault"),
        Status::SinkFault => push_name(line, b"sink fault"),
        Status::NoMemory => push_name(line, b"no memory"),
        Status::Limit { done } => push_with_number(line, b"limit ", done),
    }
}

/// The line that says how a call ended, without its LF. For `Done` it is empty.
pub fn describe(alloc: Global, status: &Status) -> Result<Vec<u8>, NoMemory>
    ensures { Gives (λ line. line.items) result (status_line status.now) }
{
    let mut line = Vec::new(alloc);
    push_status(&mut line, *status)?;
    Ok(line)
}
