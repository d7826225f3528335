//! The rule that what was split isn't joined again.
ghost use Rattle.std.specs.Prelude.{◌≡◌, ◌<◌, ◌^◌, ◌&&◌, ◌||◌, ◌++◌, ◌==◌, not, false, List, ℕ, length, map, nat_eq, OnOk, IfOk, option_map};
ghost use Rattle.std.specs.List.{list_any};
ghost use Rattle.indexmap.specs.IndexSet.{contains as has_number};
ghost use Rattle.tis_base.specs.Answers.{Gives};
ghost use Rattle.net_tree.specs.Tree.{Block as Tree};
ghost use Rattle.net_tree.specs.View.{block_view, process_view};
ghost use Rattle.net_rules.specs.Broken.{Keeps};
ghost use Rattle.net_rules.specs.Rules.{JoinAfterSplit, broken_where, has_two as two_numbers, spreads as spreads_its_writes, joins as joins_spread, joins_from, spread_behind};
ghost use Rattle.net_rules.specs.Uses.{as_list, reads_in, writes_in};
ghost use Rattle.net_rules.specs.Numbers.{block_with};
ghost use Rattle.net_rules.specs.Found.{use_view};
ghost use Rattle.net_rules.specs.Known.{number_by, names_used};

use crate::error::RuleError;
use crate::numbers::Numbers;
use crate::statements::{Use, uses_of_body};
use indexmap::IndexSet;
use net_tree::{Block, Name, ProcessText};
use std::alloc::Global;
use tis_base::NoMemory;

/// The numbers of the names that a process reads and writes, as often as they stand there.
#[derive(Drop)]
struct Used {
    reads: Vec<u32>,
    writes: Vec<u32>,
}

// The number of a name that is used, where one is, behind those before.
fn push_number(numbers: Numbers, used: Option<&Name>, found: &mut Vec<u32>) -> Result<(), NoMemory>
    ensures { OnOk result (found.new.items ≡ found.old.items ++ map (number_by numbers.entry.table.now numbers.entry.other) (as_list (option_map (λ name. name.now) used.entry))) }
{
    match used {
        None => Ok(()),
        Some(name) => {
            found.push(numbers.number(name))?;
            Ok(())
        }
    }
}

// The numbers of the names that these statements use.
fn numbers_of(alloc: Global, numbers: Numbers, uses: &[Use]) -> Result<Used, NoMemory>
    ensures reads { IfOk result (λ used. used.reads.items ≡ map (number_by numbers.entry.table.now numbers.entry.other) (names_used (λ found. found.read) (map use_view uses.now))) }
    ensures writes { IfOk result (λ used. used.writes.items ≡ map (number_by numbers.entry.table.now numbers.entry.other) (names_used (λ found. found.written) (map use_view uses.now))) }
{
    let mut reads = Vec::new(alloc);
    let mut writes = Vec::new(alloc);
    'uses: for found in uses {
        push_number(numbers, found.read, &mut reads)?;
        push_number(numbers, found.written, &mut writes)?;
    }
    Ok(Used { reads, writes })
}

// Whether one of these numbers isn't this one.
fn any_other(first: u32, numbers: &[u32]) -> bool
    ensures { result ≡ list_any (λ number. not (number == first)) numbers.now }
{
    numbers.iter().any(|number| *number != first)
}

// Whether there are two different numbers among these.
fn has_two(numbers: &[u32]) -> bool
    ensures { result ≡ two_numbers numbers.now }
{
    match numbers {
        [] => false,
        [first, ..] => any_other(*first, numbers),
    }
}

// Whether one of these numbers is among those.
fn any_among(those: &IndexSet<u32>, numbers: &[u32]) -> bool
    ensures { result ≡ list_any (λ number. has_number nat_eq those.now number) numbers.now }
{
    numbers.iter().any(|number| those.contains(number))
}

// These numbers, beside those that the set has.
fn add_all(numbers: &[u32], set: &mut IndexSet<u32>) -> Result<(), NoMemory>
    ensures { OnOk result ((number : ℕ) → has_number nat_eq set.new number ≡ (has_number nat_eq set.old number || list_any (λ other. other == number) numbers.now)) }
{
    'numbers: for number in numbers {
        set.insert(*number)?;
    }
    Ok(())
}

// Whether a process joins what was spread.
fn joins(spread: &IndexSet<u32>, used: &Used) -> bool
    ensures { (body : Tree ℕ) → reads_in body ≡ used.now.reads.items → result ≡ joins_spread (has_number nat_eq spread.now) body }
{
    let reads_spread = any_among(spread, used.reads.as_slice());
    let reads_two = has_two(used.reads.as_slice());
    reads_spread && reads_two
}

// Whether a process spreads what it writes.
fn spreads(spread: &IndexSet<u32>, used: &Used) -> bool
    ensures { (body : Tree ℕ) → reads_in body ≡ used.now.reads.items → writes_in body ≡ used.now.writes.items → result ≡ spreads_its_writes (has_number nat_eq spread.now) body }
{
    let writes_two = has_two(used.writes.as_slice());
    let reads_spread = any_among(spread, used.reads.as_slice());
    writes_two || reads_spread
}

// What a process writes is spread from now on, where it spreads it.
fn spread_writes(spread: &mut IndexSet<u32>, used: &Used) -> Result<(), NoMemory>
    ensures { OnOk result ((body : Tree ℕ) → reads_in body ≡ used.now.reads.items → writes_in body ≡ used.now.writes.items → (number : ℕ) → has_number nat_eq spread.new number ≡ spread_behind (has_number nat_eq spread.old) body number) }
{
    if spreads(spread, used) {
        add_all(used.writes.as_slice(), spread)
    } else {
        Ok(())
    }
}

// Looks at one more process.
fn check_process(
    alloc: Global,
    numbers: Numbers,
    process: u32,
    body: &Block,
    spread: &mut IndexSet<u32>,
) -> Result<(), RuleError>
    ensures fault { Keeps result (broken_where (joins_spread (has_number nat_eq spread.old) (block_with (number_by numbers.entry.table.now numbers.entry.other) (block_view body.now))) (JoinAfterSplit process)) }
    ensures behind { OnOk result ((number : ℕ) → has_number nat_eq spread.new number ≡ spread_behind (has_number nat_eq spread.old) (block_with (number_by numbers.entry.table.now numbers.entry.other) (block_view body.now)) number) }
{
    let uses = uses_of_body(alloc, process, body)?;
    let used = numbers_of(alloc, numbers, uses.as_slice())?;
    if joins(spread, &used) {
        return Err(RuleError::JoinAfterSplit { process });
    }
    spread_writes(spread, &used)?;
    Ok(())
}

/// The rule that no process reads a name that was spread and another one, process by process.
pub(crate) fn check_joins(
    alloc: Global,
    numbers: Numbers,
    processes: &[ProcessText],
) -> Result<(), RuleError>
    requires { length processes.now < 2 ^ 32 }
    ensures { Keeps result (joins_from (λ number. false) 0 (map (λ process. block_with (number_by numbers.entry.table.now numbers.entry.other) process.body) (map process_view processes.now))) }
{
    let mut spread = IndexSet::new(alloc);
    let mut number = 0;
    'processes: for process in processes {
        check_process(alloc, numbers, number, &process.body, &mut spread)?;
        number += 1;
    }
    Ok(())
}
