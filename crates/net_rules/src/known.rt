//! The rules of statements: known names, one reader and one writer, and counters that stay.
ghost use Rattle.std.specs.Prelude.{◌≡◌, map, option_map, OnOk, IfOk, if◌then◌else◌, Err, Ok};
ghost use Rattle.net_rules.specs.Broken.{IsBroken, Keeps};
ghost use Rattle.net_rules.specs.Rules.{Unknown, ReadTwice, WrittenTwice, CounterChanged, broken_where, first_fault};
ghost use Rattle.net_rules.specs.Found.{Use as SeenUse, use_view};
ghost use Rattle.net_rules.specs.Known.{can_read, can_write, isnt_known, is_other as is_other_user, is_used_by_other, IsNoted, use_fault, use_fault_among};

use crate::error::RuleError;
use crate::names::NameTable;
use crate::numbers::Numbers;
use crate::statements::Use;
use net_tree::Name;
use std::alloc::Global;
use tis_base::NoMemory;

/// An error where something is wrong.
pub(crate) fn forbid(wrong: bool, error: RuleError) -> Result<(), RuleError>
    ensures { result ≡ (if wrong then Err error else Ok tt) }
{
    if wrong { Err(error) } else { Ok(()) }
}

// A name that is read is one that can be.
fn check_readable(numbers: Numbers, used: Option<&Name>, line: usize) -> Result<(), RuleError>
    ensures { Keeps result (broken_where (isnt_known (can_read numbers.entry) (option_map (λ name. name.now) used.entry)) (Unknown line)) }
{
    match used {
        None => Ok(()),
        Some(name) => {
            let known = numbers.is_readable(name);
            forbid(!known, RuleError::Unknown { line })
        }
    }
}

// A name that is written is one that can be.
fn check_writable(numbers: Numbers, used: Option<&Name>, line: usize) -> Result<(), RuleError>
    ensures { Keeps result (broken_where (isnt_known (can_write numbers.entry) (option_map (λ name. name.now) used.entry)) (Unknown line)) }
{
    match used {
        None => Ok(()),
        Some(name) => {
            let known = numbers.is_writable(name);
            forbid(!known, RuleError::Unknown { line })
        }
    }
}

// Whether a process is there and isn't this one.
fn is_other(user: Option<u32>, process: u32) -> bool
    ensures { result ≡ is_other_user user process }
{
    match user {
        None => false,
        Some(other) => other != process,
    }
}

// Whether another process uses a name already; if none does, this one does from now on.
fn note_user<'n>(
    users: &mut NameTable<'n>,
    used: Option<&'n Name>,
    process: u32,
) -> Result<bool, NoMemory>
    ensures other { IfOk result (λ other. other ≡ is_used_by_other users.old process (option_map (λ name. name.now) used.entry)) }
    ensures noted { OnOk result (IsNoted users.old users.new (option_map (λ name. name.now) used.entry) process) }
{
    match used {
        None => Ok(false),
        Some(name) => {
            let before = users.replace(name, process)?;
            Ok(is_other(before, process))
        }
    }
}

/// The readers and writers of the statements before.
#[derive(Drop)]
struct Users<'n> {
    readers: NameTable<'n>,
    writers: NameTable<'n>,
}

impl<'n> Users<'n> {
    // Looks at one more statement by the tables, and notes what it uses.
    fn note(&mut self, numbers: Numbers, found: &Use<'n>) -> Result<(), RuleError>
        ensures fault { Keeps result (use_fault (can_read numbers.entry) (can_write numbers.entry) self.old.readers self.old.writers (use_view found.now)) }
        ensures read { OnOk result (IsNoted self.old.readers self.new.readers (use_view found.now).read found.now.process) }
        ensures written { OnOk result (IsNoted self.old.writers self.new.writers (use_view found.now).written found.now.process) }
    {
        let line = found.line;
        check_readable(numbers, found.read, line)?;
        check_writable(numbers, found.written, line)?;
        let read_twice = note_user(&mut self.readers, found.read, found.process)?;
        if read_twice {
            return Err(RuleError::ReadTwice { line });
        }
        let written_twice = note_user(&mut self.writers, found.written, found.process)?;
        if written_twice {
            return Err(RuleError::WrittenTwice { line });
        }
        if found.changes {
            return Err(RuleError::CounterChanged { line });
        }
        Ok(())
    }
}

/// The rule of statements in line order: each name is there, nobody else reads or writes it, and no counter
/// is changed.
pub(crate) fn check_statements(
    alloc: Global,
    numbers: Numbers,
    uses: &[Use],
) -> Result<(), RuleError>
    ensures { Keeps result (first_fault (use_fault_among (can_read numbers.entry) (can_write numbers.entry)) (map use_view uses.now)) }
{
    let mut users = Users {
        readers: NameTable::new(alloc),
        writers: NameTable::new(alloc),
    };
    'uses: for found in uses {
        users.note(numbers, found)?;
    }
    Ok(())
}
