//! What stops a session that goes on.
ghost use Rattle.std.specs.Prelude.{◌≡◌, ◌<◌, ◌-◌, length, option_map, All};
ghost use Rattle.std.specs.List.{list_any};
ghost use Rattle.tis_node.specs.NodeView.{node_view};
ghost use Rattle.tis_grid.specs.declared.event.Event.TheVariants as event;
ghost use Rattle.tis_clock.specs.Cycle.{is_ready as is_ready_in};
ghost use Rattle.tis_debug.specs.Sessions.{is_at_mark, has_acted, break_here};
ghost use Rattle.tis_debug.specs.Held.{takes_part, StandsOnGrid, IsLastCycle};

use crate::marks::marked_at;
use crate::session::Session;
use tis_base::{Dir, Tile};
use tis_clock::Trace;
use tis_grid::{Event, Grid};
use tis_node::{Mode, Node};

// Whether a node is ready.
fn is_ready(node: &Node) -> bool
    ensures { result ≡ is_ready_in (node_view node.now).mode }
{
    match node.mode {
        Mode::Ready => true,
        Mode::Writing { .. } => false,
    }
}

// Whether the tile above an output is this one.
fn is_above(grid: &Grid, position: u8, tile: Tile) -> bool
    ensures { result ≡ takes_part grid.now (event.Out position) tile.number }
{
    let shape = grid.puzzle().tiles.shape();
    u32::from(position) + u32::from(shape.columns) * u32::from(shape.rows - 1)
        == u32::from(tile.number)
}

// Whether two tiles meet, of which one is this.
fn is_of_meeting(grid: &Grid, at: Tile, dir: Dir, tile: Tile) -> bool
    requires { at.number < length grid.now.puzzle.tiles.kinds }
    ensures { result ≡ takes_part grid.now (event.Meet at dir) tile.number }
{
    let reader = match grid.puzzle().tiles.neighbour(at, dir) {
        Some(next) => next.number,
        None => at.number,
    };
    at.number == tile.number || reader == tile.number
}

// Whether the node of a tile takes part in an event.
fn is_part(grid: &Grid, event: Event, tile: Tile) -> bool
    requires { StandsOnGrid grid.now event }
    ensures { result ≡ takes_part grid.now event tile.number }
{
    match event {
        Event::Local(at) | Event::Push(at, _) | Event::Pop(at, _) => at.number == tile.number,
        Event::Meet(at, dir) => is_of_meeting(grid, at, dir, tile),
        Event::In(position) => position == tile.number,
        Event::Out(position) => is_above(grid, position, tile),
    }
}

// Whether the node of a tile takes part in one of these events.
fn acts(grid: &Grid, trace: &Trace, tile: Tile) -> bool
    requires { All (StandsOnGrid grid.now) trace.now }
    ensures { result ≡ list_any (λ event. takes_part grid.now event tile.number) trace.now }
{
    for index in 0..trace.len() {
        if is_part(grid, trace.at(index), tile) {
            return true;
        }
    }
    false
}

impl<'g> Session<'g> {
    // Whether the node of a tile is ready at a marked instruction.
    fn is_at_mark(&self, tile: Tile) -> bool
        requires { tile.number < length self.now.grid.puzzle.tiles.kinds }
        ensures { result ≡ is_at_mark self.now tile.number }
    {
        let node = self.state.node(tile);
        is_ready(&node) && marked_at(&self.marks, tile.number, node.pc)
    }

    // Whether the node of a tile made a step in the last cycle, whose events these are.
    fn has_acted(&self, trace: &Trace, tile: Tile) -> bool
        requires { IsLastCycle self.now trace.now }
        ensures { result ≡ has_acted self.now tile.number }
    {
        acts(self.grid, trace, tile)
    }

    /// The least tile whose node made a step in the last cycle, whose events these are, and is ready at a marked
    /// instruction.
    pub(crate) fn stopping_tile(&self, trace: &Trace) -> Option<Tile>
        requires { IsLastCycle self.now trace.now }
        ensures { option_map (λ tile. tile.number) result ≡ break_here self.now }
    {
        let shape = self.grid.puzzle().tiles.shape();
        for number in 0..shape.columns * shape.rows {
            let tile = Tile { number };
            if self.is_at_mark(tile) && self.has_acted(trace, tile) {
                return Some(tile);
            }
        }
        None
    }
}
