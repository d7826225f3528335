//! A grid, cycle by cycle.
ghost use Rattle.std.specs.Prelude.{◌≡◌, ◌≤◌, ◌++◌, [], ℕ, IsTrue, length, IfOk, IfErr, OnOk, true, false};
ghost use Rattle.tis_grid.specs.Orders.{Fits};
ghost use Rattle.tis_grid.specs.HeldState.{HasRoomEach};
ghost use Rattle.tis_clock.specs.Cycle.{reads_or_steps, gives_out, state_after, in_turn, all_tiles, cycle_events, after_cycle};
ghost use Rattle.tis_clock.specs.Runs.{EndsAs, LowersBy, IsAfterSome};
ghost use Rattle.tis_clock.specs.Cycle as cycle;
ghost use Rattle.tis_clock.specs.Sleepers.{AreAsleep};
ghost use Rattle.tis_clock.specs.Turns.{kept_at, acts, HasRoomForOne, Keeps};

use crate::acting::act;
use crate::trace::Trace;
use crate::turns::{COUNT, give_out, read_or_step, writers};
use tis_base::NoMemory;
use tis_grid::{Ended, Event, Grid, State, TileSet};

// How many tiles a grid has.
#[inline(always)]
fn tiles_of(grid: &Grid) -> u8
    ensures tiles { result ≡ length grid.now.puzzle.tiles.kinds }
    ensures few { result ≡ 12 }
{
    // The call tells the proof how many tiles there are.
    grid.puzzle().tiles.shape();
    COUNT
}

// How many events that is.
#[inline(always)]
fn number_of(chosen: Option<Event>) -> u32
    ensures number { result ≡ length (acts chosen) }
    ensures one { result ≤ 1 }
{
    match chosen {
        Some(_) => 1,
        None => 0,
    }
}

// What the tiles do that were ready, tile by tile, and how many events there were. They are written into the trace if
// they are kept. Tiles that sleep do nothing, and others fall asleep.
#[inline(always)]
fn first_half(
    grid: &Grid,
    writing: &TileSet,
    asleep: &mut TileSet,
    state: &mut State,
    trace: &mut Trace,
    kept: bool,
) -> u32
    requires fits { Fits grid.now state.old.state }
    requires keeps { Keeps writing.now state.old.state }
    requires asleep { AreAsleep grid.now (kept_at writing.now) state.old.state asleep.old }
    requires empty { trace.old ≡ [] }
    ensures trace { IsTrue kept → trace.new ≡ in_turn grid.now (reads_or_steps grid.now (kept_at writing.now)) state.old.state (all_tiles grid.now) }
    ensures count { result ≡ length (in_turn grid.now (reads_or_steps grid.now (kept_at writing.now)) state.old.state (all_tiles grid.now)) }
    ensures few { result ≤ 12 }
    ensures state { state.new.state ≡ state_after grid.now state.old.state (in_turn grid.now (reads_or_steps grid.now (kept_at writing.now)) state.old.state (all_tiles grid.now)) }
    ensures spares { state.new.spares ≡ state.old.spares }
    ensures fits { Fits grid.now state.new.state }
    ensures asleep { AreAsleep grid.now (kept_at writing.now) state.new.state asleep.new }
{
    // The calls tell the proof that this is a grid, and how many tiles it has.
    grid.puzzle();
    tiles_of(grid);
    let working = grid.working();
    let ready = working.without(writing);
    let mut left = ready.without(asleep);
    // The tiles below this number had their turn.
    let mut passed = 0;
    let mut count = 0;
    while let Some(tile) = left.take_first() {
        let chosen = read_or_step(grid, writing, asleep, state, tile);
        trace.add(chosen, kept);
        count += number_of(chosen);
        passed = tile.number + 1;
    }
    count
}

// What those give that were writing and whose values weren't taken, tile by tile, and how many events there were. It stands
// out of line, so that what is done in each cycle is short.
#[inline(never)]
fn give_all(grid: &Grid, writing: &TileSet, state: &mut State, trace: &mut Trace, kept: bool) -> u32
    requires fits { Fits grid.now state.old.state }
    requires room { HasRoomForOne grid.now state.old.spares }
    requires few { IsTrue kept → length trace.old ≤ 12 }
    ensures trace { IsTrue kept → trace.new ≡ trace.old ++ in_turn grid.now (gives_out grid.now (kept_at writing.now)) state.old.state (all_tiles grid.now) }
    ensures count { result ≡ length (in_turn grid.now (gives_out grid.now (kept_at writing.now)) state.old.state (all_tiles grid.now)) }
    ensures few { result ≤ 12 }
    ensures state { state.new.state ≡ state_after grid.now state.old.state (in_turn grid.now (gives_out grid.now (kept_at writing.now)) state.old.state (all_tiles grid.now)) }
    ensures spares { LowersBy 1 state.old.spares state.new.spares }
    ensures fits { Fits grid.now state.new.state }
{
    // The calls tell the proof that this is a grid, and how many tiles it has.
    grid.puzzle();
    tiles_of(grid);
    let mut left = writing.copy();
    // The tiles below this number had their turn.
    let mut passed = 0;
    let mut count = 0;
    while let Some(tile) = left.take_first() {
        let chosen = give_out(grid, writing, state, tile);
        act(grid, state, chosen);
        trace.add(chosen, kept);
        count += number_of(chosen);
        passed = tile.number + 1;
    }
    count
}

// What those give that were writing and whose values weren't taken, tile by tile, and how many events there were: none, where
// nobody writes any more that was writing.
#[inline(always)]
fn second_half(
    grid: &Grid,
    writing: &TileSet,
    state: &mut State,
    trace: &mut Trace,
    kept: bool,
) -> u32
    requires fits { Fits grid.now state.old.state }
    requires room { HasRoomForOne grid.now state.old.spares }
    requires few { IsTrue kept → length trace.old ≤ 12 }
    ensures trace { IsTrue kept → trace.new ≡ trace.old ++ in_turn grid.now (gives_out grid.now (kept_at writing.now)) state.old.state (all_tiles grid.now) }
    ensures count { result ≡ length (in_turn grid.now (gives_out grid.now (kept_at writing.now)) state.old.state (all_tiles grid.now)) }
    ensures few { result ≤ 12 }
    ensures state { state.new.state ≡ state_after grid.now state.old.state (in_turn grid.now (gives_out grid.now (kept_at writing.now)) state.old.state (all_tiles grid.now)) }
    ensures spares { LowersBy 1 state.old.spares state.new.spares }
    ensures fits { Fits grid.now state.new.state }
{
    // The call tells the proof that this is a grid.
    grid.puzzle();
    let now = writers(state);
    let still = writing.both(&now);
    if still.is_empty() {
        return 0;
    }
    give_all(grid, writing, state, trace, kept)
}

// Wakes all tiles, where any began to write.
#[inline(always)]
fn wake(asleep: &mut TileSet, writing: &TileSet, state: &State)
    requires { length asleep.old ≡ 12 }
    ensures full { length asleep.new ≡ 12 }
    ensures none_begins { (tile : ℕ) → kept_at asleep.new tile ≡ true → (kept_at asleep.old tile ≡ true) × ((other : ℕ) → kept_at writing.now other ≡ false → cycle.writers state.now.state other ≡ false) }
{
    let now = writers(state);
    let begun = now.without(writing);
    if !begun.is_empty() {
        *asleep = TileSet::empty();
    }
}

// Applies the events of one clock cycle, and gives how many there were. They are written into the trace if they are kept.
// Tiles that sleep are passed over.
#[inline(always)]
fn do_cycle(
    grid: &Grid,
    asleep: &mut TileSet,
    state: &mut State,
    trace: &mut Trace,
    kept: bool,
) -> u32
    requires fits { Fits grid.now state.old.state }
    requires asleep { AreAsleep grid.now (cycle.writers state.old.state) state.old.state asleep.old }
    requires room { HasRoomEach state.old 1 }
    ensures trace { IsTrue kept → trace.new ≡ cycle_events grid.now state.old.state }
    ensures count { result ≡ length (cycle_events grid.now state.old.state) }
    ensures state { state.new.state ≡ after_cycle grid.now state.old.state }
    ensures spares { LowersBy 1 state.old.spares state.new.spares }
    ensures fits { Fits grid.now state.new.state }
    ensures asleep { AreAsleep grid.now (cycle.writers state.new.state) state.new.state asleep.new }
{
    // The call tells the proof that this is a grid.
    grid.puzzle();
    let writing = writers(state);
    trace.clear();
    let first = first_half(grid, &writing, asleep, state, trace, kept);
    wake(asleep, &writing, state);
    let second = second_half(grid, &writing, state, trace, kept);
    first + second
}

/// Applies the events of one clock cycle, writes them into the trace, and gives how many there were: by the law
/// `rest_has_no_cycle` none exactly where the grid is at rest. It asks room for one more value of each output, and takes
/// no memory.
pub fn cycle(grid: &Grid, state: &mut State, trace: &mut Trace) -> u32
    requires fits { Fits grid.now state.old.state }
    requires room { HasRoomEach state.old 1 }
    ensures trace { trace.new ≡ cycle_events grid.now state.old.state }
    ensures count { result ≡ length trace.new }
    ensures state { state.new.state ≡ after_cycle grid.now state.old.state }
    ensures spares { LowersBy 1 state.old.spares state.new.spares }
    ensures fits { Fits grid.now state.new.state }
{
    let mut asleep = TileSet::empty();
    do_cycle(grid, &mut asleep, state, trace, true)
}

/// The same without a trace: applies the events of one clock cycle, and gives how many there were.
pub fn count_cycle(grid: &Grid, state: &mut State) -> u32
    requires fits { Fits grid.now state.old.state }
    requires room { HasRoomEach state.old 1 }
    ensures count { result ≡ length (cycle_events grid.now state.old.state) }
    ensures state { state.new.state ≡ after_cycle grid.now state.old.state }
    ensures spares { LowersBy 1 state.old.spares state.new.spares }
    ensures fits { Fits grid.now state.new.state }
{
    let mut asleep = TileSet::empty();
    let mut trace = Trace::new();
    do_cycle(grid, &mut asleep, state, &mut trace, false)
}

/// Runs a grid cycle by cycle until it is at rest, for so many cycles at most, and gives how many were done. It asks
/// room for so many more values of each output, and takes no memory.
pub fn run(grid: &Grid, state: &mut State, cycles: u64) -> Ended
    requires fits { Fits grid.now state.old.state }
    requires room { HasRoomEach state.old cycles }
    ensures ended { EndsAs grid.now state.old.state cycles result state.new.state }
    ensures spares { LowersBy cycles state.old.spares state.new.spares }
    ensures fits { Fits grid.now state.new.state }
{
    // The call tells the proof that this is a grid.
    grid.puzzle();
    let mut asleep = TileSet::empty();
    let mut trace = Trace::new();
    for done in 0..cycles {
        if do_cycle(grid, &mut asleep, state, &mut trace, false) == 0 {
            return Ended::Rest { done };
        }
    }
    if grid.at_rest(state) {
        Ended::Rest { done: cycles }
    } else {
        Ended::Limit { done: cycles }
    }
}

/// Makes room for one more value of each output, where one has none left, so that [`cycle`] can follow. Where memory
/// runs out, the state is as it was, though some outputs may have more room.
pub fn make_room(state: &mut State) -> Result<(), NoMemory>
    ensures state { state.new.state ≡ state.old.state }
    ensures room { OnOk result (HasRoomEach state.new 1) }
{
    if 0 < state.spare() {
        return Ok(());
    }
    state.reserve(1)
}

// Makes room for one more value of each output where none is known, and gives for how many there is some.
#[inline(always)]
fn keep_room(state: &mut State, room: usize) -> Result<usize, NoMemory>
    requires { HasRoomEach state.old room }
    ensures state { state.new.state ≡ state.old.state }
    ensures some { IfOk result (λ room. 1 ≤ room) }
    ensures room { IfOk result (λ room. HasRoomEach state.new room) }
{
    if 0 < room {
        return Ok(room);
    }
    find_room(state)
}

// Makes room for one more value of each output, and gives for how many there is some.
fn find_room(state: &mut State) -> Result<usize, NoMemory>
    ensures state { state.new.state ≡ state.old.state }
    ensures some { IfOk result (λ room. 1 ≤ room) }
    ensures room { IfOk result (λ room. HasRoomEach state.new room) }
{
    make_room(state)?;
    Ok(state.spare().max(1))
}

/// The same, and makes room for more values of the outputs where one has none left. Where memory runs out, some of
/// the cycles were done. How much room there is is counted down, and looked at again where none is left.
pub fn run_making_room(grid: &Grid, state: &mut State, cycles: u64) -> Result<Ended, NoMemory>
    requires { Fits grid.now state.old.state }
    ensures ended { IfOk result (λ ended. EndsAs grid.now state.old.state cycles ended state.new.state) }
    ensures broken_off { IfErr result (λ _. IsAfterSome grid.now state.old.state cycles state.new.state) }
    ensures fits { Fits grid.now state.new.state }
{
    // The call tells the proof that this is a grid.
    grid.puzzle();
    let mut asleep = TileSet::empty();
    let mut trace = Trace::new();
    let mut room = 0;
    for done in 0..cycles {
        room = keep_room(state, room)?;
        if do_cycle(grid, &mut asleep, state, &mut trace, false) == 0 {
            return Ok(Ended::Rest { done });
        }
        room -= 1;
    }
    if grid.at_rest(state) {
        Ok(Ended::Rest { done: cycles })
    } else {
        Ok(Ended::Limit { done: cycles })
    }
}
