//! Whether each event can happen next.
ghost use Rattle.std.specs.Prelude.{◌≡◌, ◌≢◌, ◌<◌, ◌≤◌, IsTrue, IfSome, length, true, option_map, unwrap_or};
ghost use Rattle.tis_base.specs.Tiles.{neighbour_of};
ghost use Rattle.tis_base.specs.declared.tiles.Dir.{Dir as AnyDir};
ghost use Rattle.tis_node.specs.Intents.{is_local, takes_from, gives_to};
ghost use Rattle.tis_asm.specs.Programs.{IsSound};
ghost use Rattle.tis_asm.specs.Node as table;
ghost use Rattle.tis_node.specs.NodeView.{node_view};
ghost use Rattle.tis_grid.specs.Puzzle.{has_output};
ghost use Rattle.tis_grid.specs.State as at;
ghost use Rattle.tis_grid.specs.declared.event.Event.TheVariants as events;
ghost use Rattle.tis_grid.specs.Events as event;
ghost use Rattle.tis_grid.specs.Orders.{Fits};
ghost use Rattle.tis_base.specs.declared.tiles.Dir.TheVariants as dirs;

use crate::givers::spot;
use crate::grid::Grid;
use crate::state::State;
use tis_asm::Program;
use tis_base::{Dir, Tile, TileKind};
use tis_node::{Decoded, Intent, Node};

// How many columns, and how many tiles a grid has.
const WIDTH: u8 = 4;

const COUNT: u8 = 12;

// The number of the tile that is next in a direction, on four columns and three rows, and 12 where there is none: four for each tile, in
// the order left, right, up, down. So it is found without a branch.
const NEXT: [u8; 48] = [
    12, 1, 12, 4, 0, 2, 12, 5, 1, 3, 12, 6, 2, 12, 12, 7, 12, 5, 0, 8, 4, 6, 1, 9, 5, 7, 2, 10, 6,
    12, 3, 11, 12, 9, 4, 12, 8, 10, 5, 12, 9, 11, 6, 12, 10, 12, 7, 12,
];

// What stands there.
#[inline(always)]
fn entry(tile: Tile, dir: Dir) -> u8
    requires { tile.number < 12 }
    ensures { result ≡ unwrap_or (neighbour_of (record { columns = 4; rows = 3 }) tile.number dir) 12 }
{
    NEXT[spot(tile, dir) as usize]
}

// The tile that is next in a direction, on four columns and three rows.
#[inline(always)]
fn beside(tile: Tile, dir: Dir) -> Option<Tile>
    requires { tile.number < 12 }
    ensures { option_map (λ t. t.number) result ≡ neighbour_of (record { columns = 4; rows = 3 }) tile.number dir }
{
    let number = entry(tile, dir);
    if number < COUNT {
        Some(Tile { number })
    } else {
        None
    }
}

impl Grid {
    // Whether a tile is there.
    #[inline(always)]
    fn is_there(&self, tile: Tile) -> bool
        ensures there { IsTrue result → tile.number < length self.now.puzzle.tiles.kinds }
        ensures not_there { ¬ IsTrue result → length self.now.puzzle.tiles.kinds ≤ tile.number }
    {
        // The call tells the proof how many tiles there are.
        self.puzzle.tiles.shape();
        tile.number < COUNT
    }

    // Whether a compute tile is there.
    #[inline(always)]
    pub(crate) fn is_compute(&self, tile: Tile) -> bool
        ensures is { result ≡ event.is_compute_at self.now tile.number }
        ensures there { IsTrue result → tile.number < length self.now.puzzle.tiles.kinds }
    {
        if self.is_there(tile) {
            matches!(self.puzzle.tiles.kind(tile), TileKind::Compute)
        } else {
            false
        }
    }

    // Whether a memory tile is there.
    #[inline(always)]
    pub(crate) fn is_memory(&self, tile: Tile) -> bool
        ensures is { result ≡ event.is_memory_at self.now tile.number }
        ensures there { IsTrue result → tile.number < length self.now.puzzle.tiles.kinds }
    {
        if self.is_there(tile) {
            matches!(self.puzzle.tiles.kind(tile), TileKind::Memory)
        } else {
            false
        }
    }

    // The program of a tile.
    #[inline(always)]
    pub(crate) fn program(&self, tile: Tile) -> &Program
        requires { tile.number < length self.now.puzzle.tiles.kinds }
        ensures program { result.now ≡ event.program_of self.now tile.number }
        ensures sound { IsSound result.now }
    {
        self.programs.of(tile)
    }

    // The program of a tile, decoded.
    #[inline(always)]
    pub(crate) fn decoded(&self, tile: Tile) -> &Decoded
        requires { tile.number < length self.now.puzzle.tiles.kinds }
        ensures program { result.now ≡ event.program_of self.now tile.number }
        ensures sound { IsSound result.now }
    {
        // The call tells the proof how many tiles there are.
        self.puzzle.tiles.shape();
        &self.decoded[tile.number as usize]
    }

    /// The tile that is next in a direction, where one is there.
    #[inline(always)]
    pub fn next(&self, tile: Tile, dir: Dir) -> Option<Tile>
        requires { tile.number < length self.now.puzzle.tiles.kinds }
        ensures next { option_map (λ t. t.number) result ≡ event.next_tile self.now tile.number dir }
        ensures other { IfSome result (λ next. tile.number ≢ next.number) }
        ensures there { IfSome result (λ next. next.number < length self.now.puzzle.tiles.kinds) }
    {
        // The call tells the proof which shape the tiles have.
        self.puzzle.tiles.shape();
        beside(tile, dir)
    }

    /// What the node of a tile would do next, if nothing else happened; on a tile that has none, nothing. One look
    /// answers whether it can do an instruction without a port, from which ports it waits for a value, and to which it
    /// gives one.
    #[inline(always)]
    pub fn intent(&self, state: &State, tile: Tile) -> Intent
        requires fits { Fits self.now state.now.state }
        requires there { tile.number < length self.now.puzzle.tiles.kinds }
        ensures local { event.is_enabled self.now state.now.state (events.Local tile) ≡ is_local result }
        ensures takes { (dir : AnyDir) → event.is_waiting self.now state.now.state tile.number dir ≡ takes_from result dir }
        ensures gives { (dir : AnyDir) → event.is_giving self.now state.now.state tile.number dir ≡ gives_to result dir }
    {
        if !self.is_compute(tile) {
            return Intent::Nothing;
        }
        state.node_of(tile).intent_by(self.decoded(tile))
    }

    // Whether a compute tile waits for a value from a port.
    #[inline(always)]
    pub(crate) fn is_waiting(&self, state: &State, tile: Tile, dir: Dir) -> bool
        requires { Fits self.now state.now.state }
        ensures is { result ≡ event.is_waiting self.now state.now.state tile.number dir }
        ensures there { IsTrue result → tile.number < length self.now.puzzle.tiles.kinds }
    {
        if !self.is_compute(tile) {
            return false;
        }
        state.node_of(tile).waits_for(self.decoded(tile), dir)
    }

    /// Whether a compute tile gives a value to a port.
    #[inline(always)]
    pub fn is_giving(&self, state: &State, tile: Tile, dir: Dir) -> bool
        requires { Fits self.now state.now.state }
        ensures is { result ≡ event.is_giving self.now state.now.state tile.number dir }
        ensures there { IsTrue result → tile.number < length self.now.puzzle.tiles.kinds }
    {
        if !self.is_compute(tile) {
            return false;
        }
        state.node_of(tile).offers(dir).is_some()
    }

    /// Whether a stack takes one more value; a tile of another kind takes none.
    #[inline(always)]
    pub fn has_room(&self, state: &State, tile: Tile) -> bool
        requires { Fits self.now state.now.state }
        ensures { result ≡ event.has_room self.now state.now.state tile.number }
    {
        if !self.is_memory(tile) {
            return false;
        }
        !state.stack(tile).is_full()
    }

    /// Whether a stack has a value to give; a tile of another kind has none.
    #[inline(always)]
    pub fn has_value(&self, state: &State, tile: Tile) -> bool
        requires { Fits self.now state.now.state }
        ensures { result ≡ event.has_value self.now state.now.state tile.number }
    {
        if !self.is_memory(tile) {
            return false;
        }
        !state.stack(tile).is_empty()
    }

    // Whether an output stands at a position.
    #[inline(always)]
    fn output_stands(&self, state: &State, position: u8) -> bool
        requires { Fits self.now state.now.state }
        ensures { result ≡ has_output self.now.puzzle.outputs position }
    {
        state.out(position).is_some()
    }

    // The tile at the bottom of a column.
    #[inline(always)]
    pub(crate) fn bottom(&self, position: u8) -> Tile
        requires { position < self.now.puzzle.tiles.shape.columns }
        ensures { result.number ≡ event.bottom_of self.now position }
    {
        // The call tells the proof which shape the tiles have.
        self.puzzle.tiles.shape();
        Tile {
            number: position + (COUNT - WIDTH),
        }
    }

    // Whether a compute tile can do an instruction without a port.
    #[inline(always)]
    pub(crate) fn can_local(&self, state: &State, tile: Tile) -> bool
        requires { Fits self.now state.now.state }
        ensures { result ≡ event.is_enabled self.now state.now.state (events.Local tile) }
    {
        if !self.is_compute(tile) {
            return false;
        }
        state.node_of(tile).can_local(self.program(tile))
    }

    // Whether a tile gives to the next one, which waits for it.
    #[inline(always)]
    pub(crate) fn can_meet(&self, state: &State, tile: Tile, dir: Dir) -> bool
        requires { Fits self.now state.now.state }
        ensures { result ≡ event.is_enabled self.now state.now.state (events.Meet tile dir) }
    {
        if !self.is_giving(state, tile, dir) {
            return false;
        }
        match self.next(tile, dir) {
            Some(reader) => self.is_waiting(state, reader, dir.opposite()),
            None => false,
        }
    }

    // Whether the tile below an input waits for its next value.
    #[inline(always)]
    pub(crate) fn can_take(&self, state: &State, position: u8) -> bool
        requires { Fits self.now state.now.state }
        ensures { result ≡ event.is_enabled self.now state.now.state (events.In position) }
    {
        if self.puzzle.tiles.shape().columns <= position {
            return false;
        }
        if state.count_left(position) == 0 {
            return false;
        }
        self.is_waiting(state, Tile { number: position }, Dir::Up)
    }

    // Whether the tile above an output gives to it.
    #[inline(always)]
    pub(crate) fn can_give(&self, state: &State, position: u8) -> bool
        requires { Fits self.now state.now.state }
        ensures { result ≡ event.is_enabled self.now state.now.state (events.Out position) }
    {
        if self.puzzle.tiles.shape().columns <= position {
            return false;
        }
        if !self.output_stands(state, position) {
            return false;
        }
        self.is_giving(state, self.bottom(position), Dir::Down)
    }

    /// Whether what a tile at the bottom gives downwards goes to the output of its column.
    #[inline(always)]
    pub fn goes_out(&self, state: &State, position: u8) -> bool
        requires fits { Fits self.now state.now.state }
        requires gives { event.is_giving self.now state.now.state (event.bottom_of self.now position) dirs.Down ≡ true }
        ensures { result ≡ event.is_enabled self.now state.now.state (events.Out position) }
    {
        if self.puzzle.tiles.shape().columns <= position {
            return false;
        }
        self.output_stands(state, position)
    }

    // Whether a tile gives to a stack that isn't full.
    #[inline(always)]
    pub(crate) fn can_push(&self, state: &State, tile: Tile, dir: Dir) -> bool
        requires { Fits self.now state.now.state }
        ensures { result ≡ event.is_enabled self.now state.now.state (events.Push tile dir) }
    {
        if !self.is_giving(state, tile, dir) {
            return false;
        }
        self.goes_onto_stack(state, tile, dir)
    }

    /// Whether what a tile gives to a port goes onto a stack, which isn't full.
    #[inline(always)]
    pub fn goes_onto_stack(&self, state: &State, tile: Tile, dir: Dir) -> bool
        requires fits { Fits self.now state.now.state }
        requires there { tile.number < length self.now.puzzle.tiles.kinds }
        requires gives { event.is_giving self.now state.now.state tile.number dir ≡ true }
        ensures { result ≡ event.is_enabled self.now state.now.state (events.Push tile dir) }
    {
        match self.next(tile, dir) {
            Some(stack) => self.has_room(state, stack),
            None => false,
        }
    }

    // Whether a tile waits for a value from a stack that isn't empty.
    #[inline(always)]
    pub(crate) fn can_pop(&self, state: &State, tile: Tile, dir: Dir) -> bool
        requires { Fits self.now state.now.state }
        ensures { result ≡ event.is_enabled self.now state.now.state (events.Pop tile dir) }
    {
        if !self.is_waiting(state, tile, dir) {
            return false;
        }
        match self.next(tile, dir) {
            Some(stack) => self.has_value(state, stack),
            None => false,
        }
    }
}
