//! The rules that each name is used, and that each channel is written before it is read.
ghost use Rattle.std.specs.Prelude.{◌≡◌, ◌<◌, ◌^◌, List, ℕ, map, OnOk, IfOk, option_map, if◌then◌else◌, Some, None};
ghost use Rattle.std.specs.Option.{option_or};
ghost use Rattle.net_rules.specs.Broken.{Keeps};
ghost use Rattle.net_rules.specs.Rules.{ReadBeforeWritten, broken_where, first_fault, is_name};
ghost use Rattle.net_rules.specs.Found.{use_view};
ghost use Rattle.net_rules.specs.Tables.{value_of};
ghost use Rattle.net_rules.specs.Known.{declaration_view, HasUsers, unused_by_tables, is_smaller, early_by_tables, unused_fault_by, names_channel, order_fault_by};

use crate::declarations::{Declaration, Kind};
use crate::error::RuleError;
use crate::known::forbid;
use crate::names::NameTable;
use crate::numbers::Numbers;
use crate::statements::Use;
use net_tree::Name;
use std::alloc::Global;
use tis_base::NoMemory;

/// The first process that reads each name, and the first that writes it.
#[derive(Drop)]
pub(crate) struct FirstUsers<'n> {
    pub(crate) readers: NameTable<'n>,
    pub(crate) writers: NameTable<'n>,
}

// A process is the first user of a name, where there is no earlier one.
fn note_first<'n>(
    users: &mut NameTable<'n>,
    used: Option<&'n Name>,
    process: u32,
) -> Result<(), NoMemory>
    ensures { OnOk result ((name : List ℕ) → value_of users.new name ≡ option_or (value_of users.old name) (if is_name name (option_map (λ name. name.now) used.entry) then Some process else None)) }
{
    match used {
        None => Ok(()),
        Some(name) => {
            if users.get(name).is_some() {
                return Ok(());
            }
            users.set(name, process)
        }
    }
}

/// The first users of the names in these statements.
pub(crate) fn first_users<'n>(alloc: Global, uses: &[Use<'n>]) -> Result<FirstUsers<'n>, NoMemory>
    ensures readers { IfOk result (λ users. HasUsers users.readers (λ found. found.read) (map use_view uses.now)) }
    ensures writers { IfOk result (λ users. HasUsers users.writers (λ found. found.written) (map use_view uses.now)) }
{
    let mut readers = NameTable::new(alloc);
    let mut writers = NameTable::new(alloc);
    'uses: for found in uses {
        note_first(&mut readers, found.read, found.process)?;
        note_first(&mut writers, found.written, found.process)?;
    }
    Ok(FirstUsers { readers, writers })
}

// Whether what a line declares is read and written as it has to be.
fn check_declared(users: &FirstUsers, declaration: &Declaration) -> Result<(), RuleError>
    ensures { Keeps result (unused_by_tables users.now.readers users.now.writers (declaration_view declaration.now) (declaration_view declaration.now).kind) }
{
    let line = declaration.line;
    let unread = users.readers.get(declaration.name).is_none();
    let unwritten = users.writers.get(declaration.name).is_none();
    match declaration.kind {
        Kind::Input(_) => forbid(unread, RuleError::Unread { line }),
        Kind::Channel => {
            forbid(unread, RuleError::Unread { line })?;
            forbid(unwritten, RuleError::Unwritten { line })
        }
        Kind::Output(_) => forbid(unwritten, RuleError::Unwritten { line }),
        Kind::Process => Ok(()),
    }
}

/// The rule that each input and channel is read, and each channel and output written, in line order.
pub(crate) fn check_used(users: &FirstUsers, declared: &[Declaration]) -> Result<(), RuleError>
    ensures { Keeps result (first_fault (unused_fault_by users.now.readers users.now.writers) (map declaration_view declared.now)) }
{
    'declared: for declaration in declared {
        check_declared(users, declaration)?;
    }
    Ok(())
}

// Whether a process is there and has a smaller number than this one.
fn is_before(writer: Option<u32>, process: u32) -> bool
    ensures { result ≡ is_smaller writer process }
{
    match writer {
        None => false,
        Some(number) => number < process,
    }
}

// Whether a statement reads a channel that is written before.
fn check_read(numbers: Numbers, writers: &NameTable, found: &Use) -> Result<(), RuleError>
    ensures { Keeps result (broken_where (early_by_tables (names_channel numbers.entry) writers.now found.now.process (use_view found.now).read) (ReadBeforeWritten found.now.line)) }
{
    let line = found.line;
    match found.read {
        None => Ok(()),
        Some(name) => {
            let is_channel = numbers.is_channel(name);
            let before = is_before(writers.get(name), found.process);
            forbid(is_channel && !before, RuleError::ReadBeforeWritten { line })
        }
    }
}

/// The rule that the writer of each channel stands before its reader, in line order.
pub(crate) fn check_order(
    numbers: Numbers,
    writers: &NameTable,
    uses: &[Use],
) -> Result<(), RuleError>
    ensures { Keeps result (first_fault (order_fault_by (names_channel numbers.entry) writers.now) (map use_view uses.now)) }
{
    'uses: for found in uses {
        check_read(numbers, writers, found)?;
    }
    Ok(())
}
