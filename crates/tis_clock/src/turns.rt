//! What a tile does at its turn in a cycle.
ghost use Rattle.std.specs.Prelude.{◌≡◌, ◌≢◌, ◌<◌, ◌∷◌, [], ℕ, length, flat_map, IsTrue, Some, None, false, true, ◌&&◌};
ghost use Rattle.tis_base.specs.declared.tiles.Dir.{Dir as AnyDir};
ghost use Rattle.tis_base.specs.declared.tiles.Dir.TheVariants.{Down};
ghost use Rattle.std.specs.List.{find};
ghost use Rattle.tis_grid.specs.Orders.{Fits};
ghost use Rattle.tis_node.specs.Intents.{takes_from};
ghost use Rattle.tis_grid.specs.declared.event.Event.TheVariants as event;
ghost use Rattle.tis_grid.specs.Events.{is_compute_at, is_enabled, is_giving, is_waiting, next_tile};
ghost use Rattle.tis_clock.specs.Cycle.{state_after};
ghost use Rattle.tis_clock.specs.Cycle as cycle;
ghost use Rattle.tis_clock.specs.Sleepers.{Sleeps};
ghost use Rattle.tis_clock.specs.Turns.{kept_at, acts, Keeps};

use crate::acting::act;
use tis_base::{Dir, Tile, TileKind};
use tis_grid::{Event, Grid, State, TileSet};
use tis_node::Intent;

/// How many tiles a grid has.
pub(crate) const COUNT: u8 = 12;

// The number of the first tile of the bottom row.
const BOTTOM: u8 = 8;

/// Which tiles are writing.
#[inline(always)]
pub(crate) fn writers(state: &State) -> TileSet
    ensures { Keeps result state.now.state }
{
    state.writers()
}

// Whether a tile was writing when the cycle began.
#[inline(always)]
fn was_writing(grid: &Grid, writing: &TileSet, tile: Tile) -> bool
    requires { tile.number < length grid.now.puzzle.tiles.kinds }
    ensures { result ≡ kept_at writing.now tile.number }
{
    // The call tells the proof how many tiles there are.
    grid.puzzle().tiles.shape();
    writing.has(tile)
}

// Whether a tile gives a value to a port that it was writing already when the cycle began.
#[inline(always)]
fn gives_old(grid: &Grid, writing: &TileSet, state: &State, giver: Tile, dir: Dir) -> bool
    requires fits { Fits grid.now state.now.state }
    requires there { giver.number < length grid.now.puzzle.tiles.kinds }
    ensures { result ≡ (kept_at writing.now giver.number && is_giving grid.now state.now.state giver.number dir) }
{
    if !was_writing(grid, writing, giver) {
        return false;
    }
    grid.is_giving(state, giver, dir)
}

// What a tile that waits takes from the next one: what that one was giving when the cycle began, or the newest value
// of a stack.
#[inline(always)]
fn take_from_next(
    grid: &Grid,
    writing: &TileSet,
    state: &State,
    tile: Tile,
    dir: Dir,
    next: Tile,
) -> Option<Event>
    requires fits { Fits grid.now state.now.state }
    requires there { tile.number < length grid.now.puzzle.tiles.kinds }
    requires waits { IsTrue (is_waiting grid.now state.now.state tile.number dir) }
    requires next { next_tile grid.now tile.number dir ≡ Some next.number }
    requires beside { next.number < length grid.now.puzzle.tiles.kinds }
    ensures { result ≡ cycle.first_way grid.now (kept_at writing.now) state.now.state (cycle.ways_to_take grid.now tile.number dir) }
{
    // The call tells the proof that this is a grid.
    grid.puzzle();
    if gives_old(grid, writing, state, next, dir.opposite()) {
        return Some(Event::Meet(next, dir.opposite()));
    }
    if grid.has_value(state, next) {
        return Some(Event::Pop(tile, dir));
    }
    None
}

// What a tile that waits takes from beyond the grid: above the top row the next value of an input.
#[inline(always)]
fn take_from_beyond(
    grid: &Grid,
    writing: &TileSet,
    state: &State,
    tile: Tile,
    dir: Dir,
) -> Option<Event>
    requires fits { Fits grid.now state.now.state }
    requires there { tile.number < length grid.now.puzzle.tiles.kinds }
    requires next { next_tile grid.now tile.number dir ≡ None }
    ensures { result ≡ cycle.first_way grid.now (kept_at writing.now) state.now.state (cycle.ways_to_take grid.now tile.number dir) }
{
    // The call tells the proof that this is a grid.
    grid.puzzle();
    match dir {
        Dir::Up => {
            if grid.enabled(state, Event::In(tile.number)) {
                Some(Event::In(tile.number))
            } else {
                None
            }
        }
        Dir::Left | Dir::Right | Dir::Down => None,
    }
}

// What a tile that waits takes from a direction.
#[inline(always)]
fn take_from(grid: &Grid, writing: &TileSet, state: &State, tile: Tile, dir: Dir) -> Option<Event>
    requires fits { Fits grid.now state.now.state }
    requires there { tile.number < length grid.now.puzzle.tiles.kinds }
    requires waits { IsTrue (is_waiting grid.now state.now.state tile.number dir) }
    ensures { result ≡ cycle.first_way grid.now (kept_at writing.now) state.now.state (cycle.ways_to_take grid.now tile.number dir) }
{
    match grid.next(tile, dir) {
        Some(next) => take_from_next(grid, writing, state, tile, dir, next),
        None => take_from_beyond(grid, writing, state, tile, dir),
    }
}

// What a tile that waits for any port takes, from the first of these directions from which anything comes.
fn take_any(
    grid: &Grid,
    writing: &TileSet,
    state: &State,
    tile: Tile,
    dirs: &[Dir],
) -> Option<Event>
    requires fits { Fits grid.now state.now.state }
    requires there { tile.number < length grid.now.puzzle.tiles.kinds }
    requires waits { (dir : AnyDir) → IsTrue (is_waiting grid.now state.now.state tile.number dir) }
    ensures { result ≡ cycle.first_way grid.now (kept_at writing.now) state.now.state (flat_map (cycle.ways_to_take grid.now tile.number) dirs.now) }
{
    match dirs.split_first() {
        None => None,
        Some((dir, rest)) => match take_from(grid, writing, state, tile, *dir) {
            Some(taken) => Some(taken),
            None => take_any(grid, writing, state, tile, rest),
        },
    }
}

// What a tile takes that was ready when the cycle began, and whose instruction needs a port.
#[inline(always)]
fn take(grid: &Grid, writing: &TileSet, state: &State, tile: Tile, intent: Intent) -> Option<Event>
    requires fits { Fits grid.now state.now.state }
    requires there { tile.number < length grid.now.puzzle.tiles.kinds }
    requires ready { kept_at writing.now tile.number ≡ false }
    requires local { is_enabled grid.now state.now.state (event.Local tile) ≡ false }
    requires takes { (dir : AnyDir) → is_waiting grid.now state.now.state tile.number dir ≡ takes_from intent dir }
    ensures { result ≡ cycle.reads_or_steps grid.now (kept_at writing.now) state.now.state tile.number }
{
    // The call tells the proof that this is a grid.
    grid.puzzle();
    match intent {
        Intent::Takes(dir) => take_from(grid, writing, state, tile, dir),
        Intent::TakesAny => {
            let dirs = [Dir::Left, Dir::Right, Dir::Up, Dir::Down];
            take_any(grid, writing, state, tile, &dirs)
        }
        Intent::Nothing => None,
        Intent::Local => None,
        Intent::Gives(_) => None,
        Intent::GivesAny => None,
    }
}

// Does what a tile does that was ready when the cycle began, and whose instruction needs a port.
#[inline(always)]
fn read(
    grid: &Grid,
    writing: &TileSet,
    state: &mut State,
    tile: Tile,
    intent: Intent,
) -> Option<Event>
    requires fits { Fits grid.now state.old.state }
    requires there { tile.number < length grid.now.puzzle.tiles.kinds }
    requires ready { kept_at writing.now tile.number ≡ false }
    requires local { is_enabled grid.now state.old.state (event.Local tile) ≡ false }
    requires takes { (dir : AnyDir) → is_waiting grid.now state.old.state tile.number dir ≡ takes_from intent dir }
    ensures chosen { result ≡ cycle.reads_or_steps grid.now (kept_at writing.now) state.old.state tile.number }
    ensures state { state.new.state ≡ state_after grid.now state.old.state (acts result) }
    ensures spares { state.new.spares ≡ state.old.spares }
    ensures fits { Fits grid.now state.new.state }
{
    let taken = take(grid, writing, state, tile, intent);
    act(grid, state, taken);
    taken
}

// Whether a compute tile is there.
#[inline(always)]
fn computes(grid: &Grid, tile: Tile) -> bool
    requires { tile.number < length grid.now.puzzle.tiles.kinds }
    ensures { result ≡ is_compute_at grid.now tile.number }
{
    matches!(grid.puzzle().tiles.kind(tile), TileKind::Compute)
}

// Whether a tile that waits for a port waits for one that computes and wasn't writing when the cycle began, so that it does
// nothing until that one writes.
#[inline(always)]
fn falls_asleep(grid: &Grid, writing: &TileSet, state: &State, tile: Tile, intent: Intent) -> bool
    requires there { tile.number < length grid.now.puzzle.tiles.kinds }
    requires ready { kept_at writing.now tile.number ≡ false }
    requires local { is_enabled grid.now state.now.state (event.Local tile) ≡ false }
    requires takes { (dir : AnyDir) → is_waiting grid.now state.now.state tile.number dir ≡ takes_from intent dir }
    ensures { IsTrue result → Sleeps grid.now (kept_at writing.now) state.now.state tile.number }
{
    // The call tells the proof that this is a grid.
    grid.puzzle();
    match intent {
        Intent::Takes(dir) => match grid.next(tile, dir) {
            Some(next) => {
                if was_writing(grid, writing, next) {
                    return false;
                }
                computes(grid, next)
            }
            None => false,
        },
        Intent::TakesAny => false,
        Intent::Nothing => false,
        Intent::Local => false,
        Intent::Gives(_) => false,
        Intent::GivesAny => false,
    }
}

// A tile that did nothing falls asleep, where it does nothing until another one writes.
#[inline(always)]
fn doze(
    grid: &Grid,
    writing: &TileSet,
    asleep: &mut TileSet,
    state: &State,
    tile: Tile,
    intent: Intent,
)
    requires there { tile.number < length grid.now.puzzle.tiles.kinds }
    requires ready { kept_at writing.now tile.number ≡ false }
    requires full { length asleep.old ≡ 12 }
    requires awake { kept_at asleep.old tile.number ≡ false }
    requires local { is_enabled grid.now state.now.state (event.Local tile) ≡ false }
    requires takes { (dir : AnyDir) → is_waiting grid.now state.now.state tile.number dir ≡ takes_from intent dir }
    ensures full { length asleep.new ≡ 12 }
    ensures asleep { kept_at asleep.new tile.number ≡ true → Sleeps grid.now (kept_at writing.now) state.now.state tile.number }
    ensures others { (other : ℕ) → other ≢ tile.number → kept_at asleep.new other ≡ kept_at asleep.old other }
{
    // The call tells the proof how many tiles there are.
    grid.puzzle().tiles.shape();
    if falls_asleep(grid, writing, state, tile, intent) {
        asleep.put(tile, true);
    }
}

/// What a compute tile does that was ready when the cycle began. Where it does nothing until another one writes, it falls asleep.
#[inline(always)]
pub(crate) fn read_or_step(
    grid: &Grid,
    writing: &TileSet,
    asleep: &mut TileSet,
    state: &mut State,
    tile: Tile,
) -> Option<Event>
    requires fits { Fits grid.now state.old.state }
    requires there { tile.number < length grid.now.puzzle.tiles.kinds }
    requires ready { kept_at writing.now tile.number ≡ false }
    requires full { length asleep.old ≡ 12 }
    requires awake { kept_at asleep.old tile.number ≡ false }
    requires computes { IsTrue (is_compute_at grid.now tile.number) }
    ensures chosen { result ≡ cycle.reads_or_steps grid.now (kept_at writing.now) state.old.state tile.number }
    ensures state { state.new.state ≡ state_after grid.now state.old.state (acts result) }
    ensures spares { state.new.spares ≡ state.old.spares }
    ensures fits { Fits grid.now state.new.state }
    ensures full { length asleep.new ≡ 12 }
    ensures asleep { kept_at asleep.new tile.number ≡ true → Sleeps grid.now (kept_at writing.now) state.new.state tile.number }
    ensures others { (other : ℕ) → other ≢ tile.number → kept_at asleep.new other ≡ kept_at asleep.old other }
{
    // The call tells the proof that this is a grid.
    grid.puzzle();
    let intent = grid.advance(state, tile);
    if intent.is_local() {
        return Some(Event::Local(tile));
    }
    let taken = read(grid, writing, state, tile, intent);
    if let None = taken {
        doze(grid, writing, asleep, state, tile, intent);
    }
    taken
}

// The output whose column ends in this tile takes what it gives downwards.
#[inline(always)]
fn give_below(grid: &Grid, state: &State, tile: Tile) -> Option<Event>
    requires fits { Fits grid.now state.now.state }
    requires there { tile.number < length grid.now.puzzle.tiles.kinds }
    requires gives { is_giving grid.now state.now.state tile.number Down ≡ true }
    ensures { result ≡ find (is_enabled grid.now state.now.state) (cycle.to_below grid.now tile.number Down) }
{
    // The call tells the proof which shape the tiles have.
    grid.puzzle().tiles.shape();
    if tile.number < BOTTOM {
        return None;
    }
    let position = tile.number - BOTTOM;
    if grid.goes_out(state, position) {
        Some(Event::Out(position))
    } else {
        None
    }
}

// What a tile gives in a direction without a reader, where it gives its value there.
#[inline(always)]
fn give_toward(grid: &Grid, state: &State, tile: Tile, dir: Dir) -> Option<Event>
    requires fits { Fits grid.now state.now.state }
    requires there { tile.number < length grid.now.puzzle.tiles.kinds }
    requires gives { is_giving grid.now state.now.state tile.number dir ≡ true }
    ensures { result ≡ find (is_enabled grid.now state.now.state) (cycle.ways_to_give grid.now tile.number dir) }
{
    if grid.goes_onto_stack(state, tile, dir) {
        return Some(Event::Push(tile, dir));
    }
    match dir {
        Dir::Down => give_below(grid, state, tile),
        Dir::Left | Dir::Right | Dir::Up => None,
    }
}

// What a tile gives in the first of these directions in which it gives anything, where it gives its value to any port.
fn give_any(grid: &Grid, state: &State, tile: Tile, dirs: &[Dir]) -> Option<Event>
    requires fits { Fits grid.now state.now.state }
    requires there { tile.number < length grid.now.puzzle.tiles.kinds }
    requires gives { (dir : AnyDir) → is_giving grid.now state.now.state tile.number dir ≡ true }
    ensures { result ≡ find (is_enabled grid.now state.now.state) (flat_map (cycle.ways_to_give grid.now tile.number) dirs.now) }
{
    match dirs.split_first() {
        None => None,
        Some((dir, rest)) => match give_toward(grid, state, tile, *dir) {
            Some(given) => Some(given),
            None => give_any(grid, state, tile, rest),
        },
    }
}

/// What a tile gives that was writing when the cycle began.
#[inline(always)]
pub(crate) fn give_out(grid: &Grid, writing: &TileSet, state: &State, tile: Tile) -> Option<Event>
    requires fits { Fits grid.now state.now.state }
    requires there { tile.number < length grid.now.puzzle.tiles.kinds }
    requires wrote { kept_at writing.now tile.number ≡ true }
    ensures { result ≡ cycle.gives_out grid.now (kept_at writing.now) state.now.state tile.number }
{
    // The call tells the proof that this is a grid.
    grid.puzzle();
    match grid.intent(state, tile) {
        Intent::Gives(dir) => give_toward(grid, state, tile, dir),
        Intent::GivesAny => {
            let order = [Dir::Left, Dir::Right, Dir::Up, Dir::Down];
            give_any(grid, state, tile, &order)
        }
        Intent::Nothing => None,
        Intent::Local => None,
        Intent::Takes(_) => None,
        Intent::TakesAny => None,
    }
}
