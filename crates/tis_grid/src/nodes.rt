//! The nodes of a state.
ghost use Rattle.std.specs.Prelude.{◌≡◌, ◌<◌, IsSome, IsTrue, get_or, is_some, length, map, slice_set};
ghost use Rattle.tis_base.specs.declared.tiles.Dir.{Dir as AnyDir};
ghost use Rattle.tis_asm.specs.Node as table;
ghost use Rattle.tis_asm.specs.Programs.{IsSound};
ghost use Rattle.tis_node.specs.Intents.{is_local, takes_from, gives_to};
ghost use Rattle.tis_node.specs.NodeView.{node_view};
ghost use Rattle.tis_grid.specs.State.{node_at};
ghost use Rattle.tis_grid.specs.HeldState as held;
ghost use Rattle.tis_grid.specs.Events.{with_node};

use crate::state::{State, TILES};
use crate::tile_set::TileSet;
use tis_asm::Program;
use tis_base::{Dir, Tile, Value};
use tis_node::{Decoded, Intent, Mode, Node};

// Whether a node writes.
#[inline(always)]
fn writes(node: &Node) -> bool
    ensures { result ≡ held.writes (node_view node.now) }
{
    match node.mode {
        Mode::Ready => false,
        Mode::Writing { .. } => true,
    }
}

/// Which of these nodes write.
pub(crate) fn writers_of(nodes: &[Node; TILES]) -> TileSet
    ensures { result ≡ map held.writes (map node_view nodes.now) }
{
    let mut writing = TileSet::empty();
    for number in 0..12u8 {
        writing.put(Tile { number }, writes(&nodes[number as usize]));
    }
    writing
}

// Makes the step of one of the nodes where it stands, where it can make one without a port, and tells what it would do.
#[inline(always)]
fn advance_at(nodes: &mut [Node], index: usize, decoded: &Decoded) -> Intent
    requires within { index < length nodes.old }
    requires sound { IsSound decoded.now }
    requires fits { table.FitsProgram decoded.now (get_or (map node_view nodes.old) index table.fresh) }
    ensures local { table.can_local decoded.now (get_or (map node_view nodes.old) index table.fresh) ≡ is_local result }
    ensures takes { (dir : AnyDir) → table.wants decoded.now (get_or (map node_view nodes.old) index table.fresh) dir ≡ takes_from result dir }
    ensures gives { (dir : AnyDir) → is_some (table.offers (get_or (map node_view nodes.old) index table.fresh) dir) ≡ gives_to result dir }
    ensures steps { IsTrue (is_local result) → map node_view nodes.new ≡ slice_set (map node_view nodes.old) index (table.local_step decoded.now (get_or (map node_view nodes.old) index table.fresh)) }
    ensures stays { ¬ IsTrue (is_local result) → map node_view nodes.new ≡ map node_view nodes.old }
    ensures alone { map node_view nodes.new ≡ slice_set (map node_view nodes.old) index (get_or (map node_view nodes.new) index table.fresh) }
{
    nodes[index].advance(decoded)
}

// One of the nodes takes a value from a port, where it stands.
#[inline(always)]
fn take_at(nodes: &mut [Node], index: usize, program: &Program, dir: Dir, value: Value)
    requires within { index < length nodes.old }
    requires sound { IsSound program.now }
    requires fits { table.FitsProgram program.now (get_or (map node_view nodes.old) index table.fresh) }
    requires wants { IsTrue (table.wants program.now (get_or (map node_view nodes.old) index table.fresh) dir) }
    ensures { map node_view nodes.new ≡ slice_set (map node_view nodes.old) index (table.take_value program.now (get_or (map node_view nodes.old) index table.fresh) dir value) }
{
    nodes[index].take(program, dir, value);
}

// One of the nodes gave its value to a port, where it stands.
#[inline(always)]
fn gave_at(nodes: &mut [Node], index: usize, program: &Program, dir: Dir)
    requires within { index < length nodes.old }
    requires sound { IsSound program.now }
    requires fits { table.FitsProgram program.now (get_or (map node_view nodes.old) index table.fresh) }
    requires offers { IsSome (table.offers (get_or (map node_view nodes.old) index table.fresh) dir) }
    ensures { map node_view nodes.new ≡ slice_set (map node_view nodes.old) index (table.gave program.now (get_or (map node_view nodes.old) index table.fresh) dir) }
{
    nodes[index].gave(program, dir);
}

impl State {
    // The node of a tile, where it stands.
    #[inline(always)]
    pub(crate) fn node_of(&self, tile: Tile) -> &Node
        requires { tile.number < length self.now.state.nodes }
        ensures { node_view result.now ≡ node_at self.now.state tile.number }
    {
        &self.nodes[tile.number as usize]
    }

    // The node of a tile takes a value from a port.
    #[inline(always)]
    pub(crate) fn take(&mut self, tile: Tile, program: &Program, dir: Dir, value: Value)
        requires within { tile.number < length self.old.state.nodes }
        requires sound { IsSound program.now }
        requires fits { table.FitsProgram program.now (node_at self.old.state tile.number) }
        requires wants { IsTrue (table.wants program.now (node_at self.old.state tile.number) dir) }
        ensures { self.new ≡ record self.old { state = with_node self.old.state tile.number (table.take_value program.now (node_at self.old.state tile.number) dir value) } }
    {
        let index = tile.number as usize;
        take_at(&mut self.nodes, index, program, dir, value);
        let writes = writes(&self.nodes[index]);
        self.writing.put(tile, writes);
    }

    // The node of a tile gave its value to a port.
    #[inline(always)]
    pub(crate) fn gave(&mut self, tile: Tile, program: &Program, dir: Dir)
        requires within { tile.number < length self.old.state.nodes }
        requires sound { IsSound program.now }
        requires fits { table.FitsProgram program.now (node_at self.old.state tile.number) }
        requires offers { IsSome (table.offers (node_at self.old.state tile.number) dir) }
        ensures { self.new ≡ record self.old { state = with_node self.old.state tile.number (table.gave program.now (node_at self.old.state tile.number) dir) } }
    {
        let index = tile.number as usize;
        gave_at(&mut self.nodes, index, program, dir);
        let writes = writes(&self.nodes[index]);
        self.writing.put(tile, writes);
    }

    // Makes the step of the node of a tile, where it can make one without a port, and tells what it would do.
    #[inline(always)]
    pub(crate) fn advance(&mut self, tile: Tile, decoded: &Decoded) -> Intent
        requires within { tile.number < length self.old.state.nodes }
        requires sound { IsSound decoded.now }
        requires fits { table.FitsProgram decoded.now (node_at self.old.state tile.number) }
        ensures local { table.can_local decoded.now (node_at self.old.state tile.number) ≡ is_local result }
        ensures takes { (dir : AnyDir) → table.wants decoded.now (node_at self.old.state tile.number) dir ≡ takes_from result dir }
        ensures gives { (dir : AnyDir) → is_some (table.offers (node_at self.old.state tile.number) dir) ≡ gives_to result dir }
        ensures steps { IsTrue (is_local result) → self.new ≡ record self.old { state = with_node self.old.state tile.number (table.local_step decoded.now (node_at self.old.state tile.number)) } }
        ensures stays { ¬ IsTrue (is_local result) → self.new ≡ self.old }
    {
        let index = tile.number as usize;
        let intent = advance_at(&mut self.nodes, index, decoded);
        if !intent.is_local() {
            return intent;
        }
        // It was ready, so that nothing changes in the set where it doesn't begin to write.
        if !writes(&self.nodes[index]) {
            return intent;
        }
        self.writing.add(tile);
        intent
    }
}
