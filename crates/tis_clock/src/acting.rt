//! What a tile chose is done. Each kind of event stands out of line by itself, so that what is done for each tile is short, and
//! where it is known which event was chosen, that isn't asked again.
ghost use Rattle.std.specs.Prelude.{◌≡◌, ◌<◌, IfSome};
ghost use Rattle.tis_grid.specs.Orders.{Fits};
ghost use Rattle.tis_grid.specs.declared.event.Event.TheVariants as event;
ghost use Rattle.tis_grid.specs.Events.{IsEnabled, after_event};
ghost use Rattle.tis_grid.specs.HeldState.{HasRoom, spare_at, spares_after};
ghost use Rattle.tis_clock.specs.Cycle.{state_after};
ghost use Rattle.tis_clock.specs.Turns.{acts, room_behind};

use tis_base::{Dir, Tile};
use tis_grid::{Event, Grid, State};

// A tile does an instruction without a port.
#[inline(never)]
fn step(grid: &Grid, state: &mut State, tile: Tile)
    requires fits { Fits grid.now state.old.state }
    requires enabled { IsEnabled grid.now state.old.state (event.Local tile) }
    ensures state { state.new.state ≡ after_event grid.now state.old.state (event.Local tile) }
    ensures spares { state.new.spares ≡ state.old.spares }
    ensures fits { Fits grid.now state.new.state }
{
    grid.apply(state, Event::Local(tile));
}

// A tile gives to the next one, which takes.
#[inline(never)]
fn meet(grid: &Grid, state: &mut State, giver: Tile, dir: Dir)
    requires fits { Fits grid.now state.old.state }
    requires enabled { IsEnabled grid.now state.old.state (event.Meet giver dir) }
    ensures state { state.new.state ≡ after_event grid.now state.old.state (event.Meet giver dir) }
    ensures spares { state.new.spares ≡ state.old.spares }
    ensures fits { Fits grid.now state.new.state }
{
    grid.apply(state, Event::Meet(giver, dir));
}

// The tile below an input takes its next value.
#[inline(never)]
fn come_in(grid: &Grid, state: &mut State, position: u8)
    requires fits { Fits grid.now state.old.state }
    requires enabled { IsEnabled grid.now state.old.state (event.In position) }
    ensures state { state.new.state ≡ after_event grid.now state.old.state (event.In position) }
    ensures spares { state.new.spares ≡ state.old.spares }
    ensures fits { Fits grid.now state.new.state }
{
    grid.apply(state, Event::In(position));
}

// The tile above an output gives its value.
#[inline(never)]
fn go_out(grid: &Grid, state: &mut State, position: u8)
    requires fits { Fits grid.now state.old.state }
    requires enabled { IsEnabled grid.now state.old.state (event.Out position) }
    requires room { 0 < spare_at state.old.spares position }
    ensures state { state.new.state ≡ after_event grid.now state.old.state (event.Out position) }
    ensures spares { state.new.spares ≡ spares_after state.old.spares (event.Out position) }
    ensures fits { Fits grid.now state.new.state }
{
    grid.apply(state, Event::Out(position));
}

// A tile gives to a stack.
#[inline(never)]
fn push(grid: &Grid, state: &mut State, tile: Tile, dir: Dir)
    requires fits { Fits grid.now state.old.state }
    requires enabled { IsEnabled grid.now state.old.state (event.Push tile dir) }
    ensures state { state.new.state ≡ after_event grid.now state.old.state (event.Push tile dir) }
    ensures spares { state.new.spares ≡ state.old.spares }
    ensures fits { Fits grid.now state.new.state }
{
    grid.apply(state, Event::Push(tile, dir));
}

// A tile takes the newest value of a stack.
#[inline(never)]
fn pop(grid: &Grid, state: &mut State, tile: Tile, dir: Dir)
    requires fits { Fits grid.now state.old.state }
    requires enabled { IsEnabled grid.now state.old.state (event.Pop tile dir) }
    ensures state { state.new.state ≡ after_event grid.now state.old.state (event.Pop tile dir) }
    ensures spares { state.new.spares ≡ state.old.spares }
    ensures fits { Fits grid.now state.new.state }
{
    grid.apply(state, Event::Pop(tile, dir));
}

// Applies an event.
#[inline(always)]
fn happen(grid: &Grid, state: &mut State, event: Event)
    requires fits { Fits grid.now state.old.state }
    requires enabled { IsEnabled grid.now state.old.state event }
    requires room { HasRoom state.old.spares event }
    ensures state { state.new.state ≡ after_event grid.now state.old.state event }
    ensures spares { state.new.spares ≡ spares_after state.old.spares event }
    ensures fits { Fits grid.now state.new.state }
{
    match event {
        Event::Local(tile) => step(grid, state, tile),
        Event::Meet(giver, dir) => meet(grid, state, giver, dir),
        Event::In(position) => come_in(grid, state, position),
        Event::Out(position) => go_out(grid, state, position),
        Event::Push(tile, dir) => push(grid, state, tile, dir),
        Event::Pop(tile, dir) => pop(grid, state, tile, dir),
    }
}

/// Applies what a tile chose, where it chose anything.
#[inline(always)]
pub(crate) fn act(grid: &Grid, state: &mut State, chosen: Option<Event>)
    requires fits { Fits grid.now state.old.state }
    requires enabled { IfSome chosen (λ event. IsEnabled grid.now state.old.state event) }
    requires room { IfSome chosen (λ event. HasRoom state.old.spares event) }
    ensures state { state.new.state ≡ state_after grid.now state.old.state (acts chosen) }
    ensures spares { state.new.spares ≡ room_behind state.old.spares chosen }
    ensures fits { Fits grid.now state.new.state }
{
    if let Some(event) = chosen {
        happen(grid, state, event);
    }
}
