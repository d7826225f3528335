//! A save over a specification, cycle by cycle, in an order that is drawn or handed in, or in the debugger.
ghost use Rattle.std.specs.Prelude.{◌≡◌, ◌≤◌, Result, IfOk};
ghost use Rattle.tis_grid.specs.Puzzle.{Puzzle as SomePuzzle, IsPuzzle, puzzle_of};
ghost use Rattle.tis_grid.specs.State.{Grid as SomeGrid};
ghost use Rattle.tis_grid_text.specs.EventsText.{events_of};
ghost use Rattle.tis_debug.specs.Scripts.{script_of};
ghost use Rattle.tis_spec.specs.Specification.{Refusal as SpecRefusal, Specifies};
ghost use Rattle.tis_cli.specs.Answers.{Answer};
ghost use Rattle.tis_cli.specs.Runs.{over_given, over_grid, clocked, ordered, replayed, debugged, run_answer, order_answer, replay_answer, debug_answer};
ghost use Rattle.tis_cli.specs.Ends.{Ends, Opens, OpensPuzzle, ended_status};

use crate::status::{Refusal, Status};
use std::alloc::Global;
use tis_clock::run_making_room;
use tis_debug::{debug_report, read_script};
use tis_grid::{Ended, Grid, OrderError, Puzzle};
use tis_grid_text::read_events;
use tis_report::{ended_report, not_enabled_report, replayed_report};
use tis_save::read_save;
use tis_spec::read_spec;

/// How a run ended, and the report that says so.
#[derive(Drop)]
pub(crate) struct Run {
    pub(crate) status: Status,
    pub(crate) report: Vec<u8>,
}

// The puzzle that a specification gives with a seed.
fn open_puzzle(alloc: Global, spec: &[u8], seed: u64) -> Result<Puzzle, Status>
    ensures opens { (given : Result SomePuzzle SpecRefusal) (next : SomePuzzle → Answer) → Specifies spec.now seed given → OpensPuzzle result (over_given given next) next }
    ensures puzzle { IfOk result (λ made. IsPuzzle (puzzle_of made)) }
{
    match read_spec(alloc, spec, seed) {
        Ok(puzzle) => Ok(puzzle),
        Err(why) => Err(Status::from(why)),
    }
}

/// The grid of a save and of what a specification gives with a seed, which is looked at first.
pub(crate) fn open_grid(alloc: Global, save: &[u8], spec: &[u8], seed: u64) -> Result<Grid, Status>
    ensures { (given : Result SomePuzzle SpecRefusal) (next : SomeGrid → Answer) → Specifies spec.now seed given → Opens result (over_grid save.now given next) next }
{
    let puzzle = open_puzzle(alloc, spec, seed)?;
    let programs = read_save(alloc, save, puzzle.tiles)?;
    Ok(Grid::new(puzzle, programs))
}

// The status of a run that ended so.
fn status_of(ended: Ended) -> Status
    ensures { result ≡ ended_status ended }
{
    match ended {
        Ended::Rest { .. } => Status::Done,
        Ended::Limit { done } => Status::Limit { done },
    }
}

// Runs a grid from its start cycle by cycle, up to so many.
fn run_clocked(alloc: Global, grid: &Grid, cycles: u64) -> Result<Run, Status>
    ensures { Ends result (clocked cycles grid.now) }
{
    let mut state = grid.start(alloc)?;
    let ended = run_making_room(grid, &mut state, cycles)?;
    let report = ended_report(alloc, ended, grid.puzzle(), &state)?;
    Ok(Run {
        status: status_of(ended),
        report,
    })
}

/// What a run by the clock comes to.
pub(crate) fn clock(
    alloc: Global,
    save: &[u8],
    spec: &[u8],
    seed: u64,
    cycles: u64,
) -> Result<Run, Status>
    ensures { (given : Result SomePuzzle SpecRefusal) → Specifies spec.now seed given → Ends result (run_answer save.now given cycles) }
{
    let grid = open_grid(alloc, save, spec, seed)?;
    run_clocked(alloc, &grid, cycles)
}

// Runs a grid from its start in the order that is drawn with this seed, up to so many events.
fn run_drawn(alloc: Global, grid: &Grid, seed: u64, limit: u64) -> Result<Run, Status>
    ensures { Ends result (ordered seed limit grid.now) }
{
    let mut state = grid.start(alloc)?;
    let ended = grid.run_seeded(&mut state, seed, limit)?;
    let report = ended_report(alloc, ended, grid.puzzle(), &state)?;
    Ok(Run {
        status: status_of(ended),
        report,
    })
}

/// What an order comes to that is drawn with its own seed.
pub(crate) fn order(
    alloc: Global,
    save: &[u8],
    spec: &[u8],
    seed: u64,
    order_seed: u64,
    limit: u64,
) -> Result<Run, Status>
    ensures { (given : Result SomePuzzle SpecRefusal) → Specifies spec.now seed given → Ends result (order_answer save.now given order_seed limit) }
{
    let grid = open_grid(alloc, save, spec, seed)?;
    run_drawn(alloc, &grid, order_seed, limit)
}

// Runs a grid from its start by these events.
fn run_events(alloc: Global, grid: &Grid, text: &[u8]) -> Result<Run, Status>
    ensures { Ends result (replayed (events_of text.now) grid.now) }
{
    let events = read_events(alloc, text)?;
    let mut state = grid.start(alloc)?;
    match grid.run_order(&mut state, &events) {
        Ok(()) => Ok(Run {
            status: Status::Done,
            report: replayed_report(alloc, events.len() as u64, grid.puzzle(), &state)?,
        }),
        Err(OrderError::NotEnabled { index }) => Ok(Run {
            status: Status::Refused(Refusal::NotEnabled { index }),
            report: not_enabled_report(alloc, index as u64, grid.puzzle(), &state)?,
        }),
        Err(OrderError::NoMemory) => Err(Status::NoMemory),
    }
}

/// What an order comes to that is handed in.
pub(crate) fn replay(
    alloc: Global,
    save: &[u8],
    spec: &[u8],
    seed: u64,
    events: &[u8],
) -> Result<Run, Status>
    ensures { (given : Result SomePuzzle SpecRefusal) → Specifies spec.now seed given → Ends result (replay_answer save.now given events.now) }
{
    let grid = open_grid(alloc, save, spec, seed)?;
    run_events(alloc, &grid, events)
}

// Does what a script says over a grid from its start.
fn run_script(alloc: Global, grid: &Grid, text: &[u8]) -> Result<Run, Status>
    ensures { Ends result (debugged (script_of text.now) grid.now) }
{
    let actions = read_script(alloc, text)?;
    let report = debug_report(alloc, grid, &actions)?;
    Ok(Run {
        status: Status::Done,
        report,
    })
}

/// What a session of the debugger comes to.
pub(crate) fn debug(
    alloc: Global,
    save: &[u8],
    spec: &[u8],
    seed: u64,
    script: &[u8],
) -> Result<Run, Status>
    ensures { (given : Result SomePuzzle SpecRefusal) → Specifies spec.now seed given → Ends result (debug_answer save.now given script.now) }
{
    let grid = open_grid(alloc, save, spec, seed)?;
    run_script(alloc, &grid, script)
}
