//! A grid at one moment.
ghost use Rattle.std.specs.Prelude.{◌≡◌, ◌≤◌, ◌<◌, ◌-◌, ◌++◌, ◌∷◌, [], ℕ, length, map, replicate, slice_get, slice_index_or, slice_set, option_map, unwrap_or, Some, None, OnOk};
ghost use Rattle.tis_node.specs.NodeView.{node_view};
ghost use Rattle.tis_grid.specs.Orders.{Fits};
ghost use Rattle.tis_grid.specs.State.{Grid as SomeGrid, State as SomeState, node_at, stack_at, input_left, left_at, output_taken, outs};
ghost use Rattle.tis_devices.specs.Stack.{ROOM, newest, without_newest};
ghost use Rattle.tis_grid.specs.declared.event.Event.TheVariants as event;
ghost use Rattle.tis_grid.specs.HeldState.{output_spare, spare_at, least_spare, spares_after, HasSpare, HasRoomEach, NeverFall, writes};
ghost use Rattle.tis_grid.specs.Events.{with_stack};
ghost use Rattle.tis_grid.specs.Points.{point_of, returned, HasTaken, CanReturn, cut, cut_each};

use crate::nodes::writers_of;
use crate::point::Point;
use crate::tile_set::TileSet;
use std::marker::Model;
use tis_base::{NoMemory, Tile, Value, Values};
use tis_devices::Stack;
use tis_node::Node;

/// How many tiles a grid has.
pub(crate) const TILES: usize = 12;

/// How many columns a grid has.
pub(crate) const COLUMNS: usize = 4;

/// A grid at one moment: the nodes and the stacks by tile, how many values of each input are left, and what
/// each output has taken so far. Contracts see these, and how many more values each output takes without
/// taking memory.
#[derive(Debug, Drop)]
pub struct State {
    pub(crate) nodes: [Node; TILES],
    // Which of the nodes write.
    pub(crate) writing: TileSet,
    pub(crate) stacks: [Stack; TILES],
    pub(crate) left: [Option<usize>; COLUMNS],
    pub(crate) outs: [Option<Values>; COLUMNS],
}

impl Model for State {
    ghost use Rattle.std.specs.Prelude.{map, option_map};
    ghost use Rattle.tis_node.specs.NodeView.{node_view};
    ghost use Rattle.tis_grid.specs.HeldState.{HeldState, AreWriting};

    ghost Value = { HeldState };

    ghost view = { λ s. record {
      state = record {
        nodes = map node_view s.nodes;
        stacks = s.stacks;
        left = s.left;
        outs = map (option_map (λ v. v.items)) s.outs;
      };
      spares = map (option_map (λ v. v.spare)) s.outs;
    } };

    ghost invariant = { λ s. AreWriting s.writing (map node_view s.nodes) };
}

// As many stacks, each without a value. They are written out, since a stack isn't `Copy`.
pub(crate) fn no_stacks() -> [Stack; TILES]
    ensures { result ≡ replicate TILES [] }
{
    [
        Stack::new(),
        Stack::new(),
        Stack::new(),
        Stack::new(),
        Stack::new(),
        Stack::new(),
        Stack::new(),
        Stack::new(),
        Stack::new(),
        Stack::new(),
        Stack::new(),
        Stack::new(),
    ]
}

// The same nodes.
fn copy_nodes(nodes: &[Node; TILES]) -> [Node; TILES]
    ensures { result ≡ nodes.now }
{
    let mut all = [Node::fresh(); TILES];
    all.copy_from_slice(nodes);
    all
}

// Stacks with the same values.
fn copy_stacks(stacks: &[Stack; TILES]) -> [Stack; TILES]
    ensures { result ≡ stacks.now }
{
    let mut all = no_stacks();
    for tile in 0..TILES {
        all[tile] = stacks[tile].copy();
    }
    all
}

// The least number of values that each output takes without taking memory.
fn least_of(outs: &[Option<Values>]) -> usize
    ensures { result ≡ least_spare (map (option_map (λ v. v.spare)) outs.now) }
{
    match outs.split_first() {
        None => usize::MAX,
        Some((None, rest)) => least_of(rest),
        Some((Some(values), rest)) => values.spare().min(least_of(rest)),
    }
}

// Makes room for so many more values of an output.
fn reserve_one(taken: &mut Option<Values>, count: usize) -> Result<(), NoMemory>
    ensures items { option_map (λ v. v.items) taken.new ≡ option_map (λ v. v.items) taken.old }
    ensures ok { OnOk result (HasSpare count (option_map (λ v. v.spare) taken.new)) }
    ensures spare { unwrap_or (option_map (λ v. v.spare) taken.old) 0 ≤ unwrap_or (option_map (λ v. v.spare) taken.new) 0 }
{
    match taken {
        Some(values) => values.reserve(count),
        None => Ok(()),
    }
}

// Makes room for so many more values of each output.
fn reserve_each(outs: &mut [Option<Values>], count: usize) -> Result<(), NoMemory>
    ensures items { map (option_map (λ v. v.items)) outs.new ≡ map (option_map (λ v. v.items)) outs.old }
    ensures ok { OnOk result (count ≤ least_spare (map (option_map (λ v. v.spare)) outs.new)) }
    ensures spares { NeverFall (map (option_map (λ v. v.spare)) outs.old) (map (option_map (λ v. v.spare)) outs.new) }
{
    for position in 0..outs.len() {
        reserve_one(&mut outs[position], count)?;
    }
    Ok(())
}

// How many values an output took.
#[inline]
fn count_of(taken: &Option<Values>) -> Option<usize>
    ensures { result ≡ option_map (λ values. length values) (option_map (λ v. v.items) taken.now) }
{
    match taken {
        Some(values) => Some(values.len()),
        None => None,
    }
}

// How many values each output took.
fn lengths_of(outs: &[Option<Values>; COLUMNS]) -> [Option<usize>; COLUMNS]
    ensures { result ≡ map (option_map (λ values. length values)) (map (option_map (λ v. v.items)) outs.now) }
{
    let mut lengths = [None; COLUMNS];
    for position in 0..COLUMNS {
        lengths[position] = count_of(&outs[position]);
    }
    lengths
}

// Leaves as many of the values that an output took as it had taken at a point.
fn cut_one(taken: &mut Option<Values>, len: Option<usize>)
    requires { HasTaken len (option_map (λ v. v.items) taken.old) }
    ensures items { option_map (λ v. v.items) taken.new ≡ cut len (option_map (λ v. v.items) taken.old) }
    ensures spare { unwrap_or (option_map (λ v. v.spare) taken.old) 0 ≤ unwrap_or (option_map (λ v. v.spare) taken.new) 0 }
{
    if let (Some(values), Some(len)) = (taken, len) {
        values.cut(len);
    }
}

// Leaves as many of the values that each output took as it had taken at a point.
fn cut_all(outs: &mut [Option<Values>], lengths: &[Option<usize>])
    requires len { length lengths.now ≡ length outs.old }
    requires taken { (position : ℕ) → HasTaken (slice_index_or lengths.now position None) (slice_index_or (map (option_map (λ v. v.items)) outs.old) position None) }
    ensures items { map (option_map (λ v. v.items)) outs.new ≡ cut_each lengths.now (map (option_map (λ v. v.items)) outs.old) }
    ensures spares { NeverFall (map (option_map (λ v. v.spare)) outs.old) (map (option_map (λ v. v.spare)) outs.new) }
{
    for position in 0..outs.len() {
        cut_one(&mut outs[position], lengths[position]);
    }
}

// One more value of an output, in a spare place.
#[inline]
fn append_one(taken: &mut Option<Values>, value: Value)
    requires { 0 < unwrap_or (option_map (λ v. v.spare) taken.old) 0 }
    ensures items { option_map (λ v. v.items) taken.new ≡ Some (unwrap_or (option_map (λ v. v.items) taken.old) [] ++ value ∷ []) }
    ensures spare { option_map (λ v. v.spare) taken.new ≡ option_map (λ spare. spare - 1) (option_map (λ v. v.spare) taken.old) }
{
    if let Some(values) = taken {
        values.push_spared(value);
    }
}

impl State {
    /// Makes room for so many more values of each output. Where memory runs out, the state is as it was,
    /// though some outputs may have more room.
    pub fn reserve(&mut self, count: usize) -> Result<(), NoMemory>
        ensures state { self.new.state ≡ self.old.state }
        ensures ok { OnOk result (count ≤ least_spare self.new.spares) }
        ensures each { OnOk result (HasRoomEach self.new count) }
        ensures spares { NeverFall self.old.spares self.new.spares }
    {
        reserve_each(&mut self.outs, count)
    }

    /// The least number of values that each output takes without taking memory, and the greatest number
    /// where there is no output.
    pub fn spare(&self) -> usize
        ensures least { result ≡ least_spare self.now.spares }
        ensures each { HasRoomEach self.now result }
    {
        least_of(&self.outs)
    }

    /// What the output at a position has taken so far, or None where no output stands.
    #[inline]
    pub fn out(&self, position: u8) -> Option<&Values>
        ensures values { option_map (λ v. v.now.items) result ≡ output_taken self.now.state position }
        ensures spare { option_map (λ v. v.now.spare) result ≡ output_spare self.now.spares position }
    {
        match self.outs.get(position as usize) {
            Some(Some(values)) => Some(values),
            _ => None,
        }
    }

    /// How many values of the input at a position are left, or None where no input stands.
    #[inline]
    pub fn left(&self, position: u8) -> Option<usize>
        ensures { result ≡ input_left self.now.state position }
    {
        match self.left.get(position as usize) {
            Some(left) => *left,
            None => None,
        }
    }

    /// The node of a compute tile.
    #[inline]
    pub fn node(&self, tile: Tile) -> Node
        requires { tile.number < length self.now.state.nodes }
        ensures { node_view result ≡ node_at self.now.state tile.number }
    {
        self.nodes[tile.number as usize]
    }

    /// Which of the nodes write.
    #[inline(always)]
    pub fn writers(&self) -> TileSet
        ensures { result ≡ map writes self.now.state.nodes }
    {
        self.writing.copy()
    }

    /// The stack of a memory tile.
    #[inline]
    pub fn stack(&self, tile: Tile) -> &Stack
        requires { tile.number < length self.now.state.stacks }
        ensures { result.now ≡ stack_at self.now.state tile.number }
    {
        &self.stacks[tile.number as usize]
    }

    // How many values of the input at a position are left, and 0 where no input stands.
    #[inline]
    pub(crate) fn count_left(&self, position: u8) -> usize
        ensures { result ≡ left_at self.now.state position }
    {
        self.left(position).unwrap_or(0)
    }

    // One more value on a stack.
    #[inline]
    pub(crate) fn push(&mut self, tile: Tile, value: Value)
        requires within { tile.number < length self.old.state.stacks }
        requires room { length (stack_at self.old.state tile.number) < ROOM }
        ensures { self.new ≡ record self.old { state = with_stack self.old.state tile.number (stack_at self.old.state tile.number ++ value ∷ []) } }
    {
        self.stacks[tile.number as usize].push(value);
    }

    // Takes the newest value off a stack.
    #[inline]
    pub(crate) fn pop(&mut self, tile: Tile) -> Value
        requires within { tile.number < length self.old.state.stacks }
        requires value { 0 < length (stack_at self.old.state tile.number) }
        ensures value { result ≡ newest (stack_at self.old.state tile.number) }
        ensures state { self.new ≡ record self.old { state = with_stack self.old.state tile.number (without_newest (stack_at self.old.state tile.number)) } }
    {
        self.stacks[tile.number as usize].pop()
    }

    // One value of an input is left less.
    #[inline]
    pub(crate) fn take_input(&mut self, position: u8)
        requires { 0 < left_at self.old.state position }
        ensures { self.new ≡ record self.old { state = record self.old.state { left = slice_set self.old.state.left position (Some (left_at self.old.state position - 1)) } } }
    {
        let left = self.count_left(position);
        self.left[position as usize] = Some(left - 1);
    }

    // One more value of an output, in a spare place.
    #[inline]
    pub(crate) fn append(&mut self, position: u8, value: Value)
        requires { 0 < spare_at self.old.spares position }
        ensures state { self.new.state ≡ record self.old.state { outs = slice_set self.old.state.outs position (Some (outs self.old.state position ++ value ∷ [])) } }
        ensures spares { self.new.spares ≡ spares_after self.old.spares (event.Out position) }
    {
        append_one(&mut self.outs[position as usize], value);
    }

    /// What the state is now, to come back to. It takes no memory.
    pub fn point(&self) -> Point
        ensures { result ≡ point_of self.now.state }
    {
        Point {
            nodes: copy_nodes(&self.nodes),
            stacks: copy_stacks(&self.stacks),
            left: self.left,
            lengths: lengths_of(&self.outs),
        }
    }

    /// Brings the state back to a point: the nodes, the stacks and what is left of the inputs are as they
    /// were then, and of what each output took only those values stay that it had taken then. It takes no
    /// memory.
    pub fn return_to(&mut self, point: &Point)
        requires { CanReturn self.old.state point.now }
        ensures state { self.new.state ≡ returned self.old.state point.now }
        ensures spares { NeverFall self.old.spares self.new.spares }
        ensures fits { (grid : SomeGrid) (earlier : SomeState) → Fits grid self.old.state → Fits grid earlier → point.now ≡ point_of earlier → Fits grid self.new.state }
    {
        cut_all(&mut self.outs, &point.lengths);
        self.nodes = copy_nodes(&point.nodes);
        self.writing = writers_of(&point.nodes);
        self.stacks = copy_stacks(&point.stacks);
        self.left = point.left;
    }
}
