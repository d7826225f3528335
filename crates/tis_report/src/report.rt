//! The reports of commands that run a grid.
ghost use Rattle.tis_base.specs.Answers.{Gives};
ghost use Rattle.tis_grid.specs.Puzzle.{puzzle_of};
ghost use Rattle.tis_report.specs.Reports.{report_text, ended_text, replayed_text, not_enabled_text};

use crate::count::push_count;
use crate::outputs::push_outputs;
use std::alloc::Global;
use tis_base::NoMemory;
use tis_grid::{Ended, Puzzle, State};

// A line of a word and a number, and the outputs.
fn report(
    alloc: Global,
    word: &[u8],
    number: u64,
    puzzle: &Puzzle,
    state: &State,
) -> Result<Vec<u8>, NoMemory>
    ensures { Gives (λ text. text.items) result (report_text word.now number (puzzle_of puzzle.now) state.now.state) }
{
    let mut text = Vec::new(alloc);
    text.extend_from_slice(word)?;
    push_count(&mut text, number)?;
    text.push(b'\n')?;
    push_outputs(&mut text, puzzle, state)?;
    Ok(text)
}

/// The report of a run that ended so.
pub fn ended_report(
    alloc: Global,
    ended: Ended,
    puzzle: &Puzzle,
    state: &State,
) -> Result<Vec<u8>, NoMemory>
    ensures { Gives (λ text. text.items) result (ended_text ended (puzzle_of puzzle.now) state.now.state) }
{
    match ended {
        Ended::Rest { done } => report(alloc, b"rest ", done, puzzle, state),
        Ended::Limit { done } => report(alloc, b"limit ", done, puzzle, state),
    }
}

/// The report of an order with so many events, all of which were applied.
pub fn replayed_report(
    alloc: Global,
    count: u64,
    puzzle: &Puzzle,
    state: &State,
) -> Result<Vec<u8>, NoMemory>
    ensures { Gives (λ text. text.items) result (replayed_text count (puzzle_of puzzle.now) state.now.state) }
{
    report(alloc, b"events ", count, puzzle, state)
}

/// The report of an order up to its first event that wasn't enabled, which has this index from 0 on.
pub fn not_enabled_report(
    alloc: Global,
    index: u64,
    puzzle: &Puzzle,
    state: &State,
) -> Result<Vec<u8>, NoMemory>
    ensures { Gives (λ text. text.items) result (not_enabled_text index (puzzle_of puzzle.now) state.now.state) }
{
    report(alloc, b"not enabled ", index, puzzle, state)
}
