//! What each event does.
ghost use Rattle.std.specs.Prelude.{◌≡◌, ◌≢◌, ◌<◌, IsTrue, IsSome, length};
ghost use Rattle.tis_asm.specs.Node as table;
ghost use Rattle.tis_grid.specs.State as at;
ghost use Rattle.tis_grid.specs.declared.event.Event.TheVariants as events;
ghost use Rattle.tis_grid.specs.Events.{IsEnabled, is_enabled, is_waiting, is_giving, is_compute_at, after_event, program_of, offered, reached, took, given, next_tile};
ghost use Rattle.tis_grid.specs.Orders.{Fits};
ghost use Rattle.tis_base.specs.declared.tiles.Dir.{Dir as AnyDir};
ghost use Rattle.tis_node.specs.Intents.{is_local, takes_from, gives_to};
ghost use Rattle.tis_grid.specs.HeldState.{HasRoom, spares_after, spare_at};

use crate::event::Event;
use crate::grid::Grid;
use crate::state::State;
use tis_base::{Dir, Tile, Value};
use tis_node::Intent;

impl Grid {
    /// Applies an event that is enabled. One that gives to an output uses up one of its spare places; it takes no
    /// memory.
    #[inline(always)]
    pub fn apply(&self, state: &mut State, event: Event)
        requires fits { Fits self.now state.old.state }
        requires enabled { IsEnabled self.now state.old.state event }
        requires room { HasRoom state.old.spares event }
        ensures state { state.new.state ≡ after_event self.now state.old.state event }
        ensures spares { state.new.spares ≡ spares_after state.old.spares event }
        ensures fits { Fits self.now state.new.state }
    {
        // The call tells the proof that this is a grid.
        self.puzzle();
        self.act(state, event);
    }

    /// Does the instruction of a compute tile, where it needs no port, and tells what its node would have done: [`Grid::intent`], and
    /// [`Grid::apply`] of a local event, in one look.
    #[inline(always)]
    pub fn advance(&self, state: &mut State, tile: Tile) -> Intent
        requires fits { Fits self.now state.old.state }
        requires there { tile.number < length self.now.puzzle.tiles.kinds }
        requires computes { IsTrue (is_compute_at self.now tile.number) }
        ensures local { is_enabled self.now state.old.state (events.Local tile) ≡ is_local result }
        ensures takes { (dir : AnyDir) → is_waiting self.now state.old.state tile.number dir ≡ takes_from result dir }
        ensures gives { (dir : AnyDir) → is_giving self.now state.old.state tile.number dir ≡ gives_to result dir }
        ensures steps { IsTrue (is_local result) → state.new.state ≡ after_event self.now state.old.state (events.Local tile) }
        ensures stays { ¬ IsTrue (is_local result) → state.new.state ≡ state.old.state }
        ensures spares { state.new.spares ≡ state.old.spares }
        ensures fits { Fits self.now state.new.state }
    {
        // The call tells the proof that this is a grid.
        self.puzzle();
        state.advance(tile, self.decoded(tile))
    }

    // Does what an event does.
    #[inline(always)]
    fn act(&self, state: &mut State, event: Event)
        requires fits { Fits self.now state.old.state }
        requires enabled { IsEnabled self.now state.old.state event }
        requires room { HasRoom state.old.spares event }
        ensures state { state.new.state ≡ after_event self.now state.old.state event }
        ensures spares { state.new.spares ≡ spares_after state.old.spares event }
    {
        match event {
            Event::Local(tile) => self.do_local(state, tile),
            Event::Meet(tile, dir) => self.meet(state, tile, dir),
            Event::In(position) => self.take_in(state, position),
            Event::Out(position) => self.give_out(state, position),
            Event::Push(tile, dir) => self.push(state, tile, dir),
            Event::Pop(tile, dir) => self.pop(state, tile, dir),
        }
    }

    // The next value of an input that has one left.
    #[inline(always)]
    fn next_value(&self, state: &State, position: u8) -> Value
        requires fits { Fits self.now state.now.state }
        requires left { 0 < at.left_at state.now.state position }
        requires within { position < self.now.puzzle.tiles.shape.columns }
        ensures { result ≡ at.next_value self.now state.now.state position }
    {
        match self.input(position) {
            Some(values) => values.at(values.len() - state.count_left(position)),
            None => unreachable!(),
        }
    }

    // The value that a tile gives to a port.
    #[inline(always)]
    fn offered(&self, state: &State, tile: Tile, dir: Dir) -> Value
        requires within { tile.number < length state.now.state.nodes }
        requires offers { IsSome (table.offers (at.node_at state.now.state tile.number) dir) }
        ensures { result ≡ offered state.now.state tile.number dir }
    {
        match state.node_of(tile).offers(dir) {
            Some(value) => value,
            None => unreachable!(),
        }
    }

    // The tile that is next in a direction, where one is there.
    #[inline(always)]
    pub(crate) fn reached(&self, tile: Tile, dir: Dir) -> Tile
        requires { tile.number < length self.now.puzzle.tiles.kinds }
        ensures next { result.number ≡ reached self.now tile.number dir }
        ensures other { IsSome (next_tile self.now tile.number dir) → tile.number ≢ result.number }
    {
        match self.next(tile, dir) {
            Some(next) => next,
            None => tile,
        }
    }

    // A tile takes a value from a port.
    #[inline(always)]
    fn take(&self, state: &mut State, tile: Tile, dir: Dir, value: Value)
        requires there { tile.number < length self.now.puzzle.tiles.kinds }
        requires within { tile.number < length state.old.state.nodes }
        requires fits { table.FitsProgram (program_of self.now tile.number) (at.node_at state.old.state tile.number) }
        requires wants { IsTrue (table.wants (program_of self.now tile.number) (at.node_at state.old.state tile.number) dir) }
        ensures { state.new ≡ record state.old { state = took self.now state.old.state tile.number dir value } }
    {
        state.take(tile, self.program(tile), dir, value);
    }

    // A tile gives its value to a port.
    #[inline(always)]
    fn give(&self, state: &mut State, tile: Tile, dir: Dir)
        requires there { tile.number < length self.now.puzzle.tiles.kinds }
        requires within { tile.number < length state.old.state.nodes }
        requires fits { table.FitsProgram (program_of self.now tile.number) (at.node_at state.old.state tile.number) }
        requires offers { IsSome (table.offers (at.node_at state.old.state tile.number) dir) }
        ensures { state.new ≡ record state.old { state = given self.now state.old.state tile.number dir } }
    {
        state.gave(tile, self.program(tile), dir);
    }

    // A tile does an instruction without a port.
    #[inline(always)]
    fn do_local(&self, state: &mut State, tile: Tile)
        requires fits { Fits self.now state.old.state }
        requires enabled { IsEnabled self.now state.old.state (events.Local tile) }
        ensures { state.new ≡ record state.old { state = after_event self.now state.old.state (events.Local tile) } }
    {
        state.advance(tile, self.decoded(tile));
    }

    // A tile gives to the next one, which takes.
    #[inline(always)]
    fn meet(&self, state: &mut State, tile: Tile, dir: Dir)
        requires fits { Fits self.now state.old.state }
        requires enabled { IsEnabled self.now state.old.state (events.Meet tile dir) }
        ensures { state.new ≡ record state.old { state = after_event self.now state.old.state (events.Meet tile dir) } }
    {
        let value = self.offered(state, tile, dir);
        let reader = self.reached(tile, dir);
        self.take(state, reader, dir.opposite(), value);
        self.give(state, tile, dir);
    }

    // The tile below an input takes its next value.
    #[inline(always)]
    fn take_in(&self, state: &mut State, position: u8)
        requires fits { Fits self.now state.old.state }
        requires enabled { IsEnabled self.now state.old.state (events.In position) }
        ensures { state.new ≡ record state.old { state = after_event self.now state.old.state (events.In position) } }
    {
        let value = self.next_value(state, position);
        self.take(state, Tile { number: position }, Dir::Up, value);
        state.take_input(position);
    }

    // The tile above an output gives its value, which the output takes.
    #[inline(always)]
    fn give_out(&self, state: &mut State, position: u8)
        requires fits { Fits self.now state.old.state }
        requires enabled { IsEnabled self.now state.old.state (events.Out position) }
        requires room { 0 < spare_at state.old.spares position }
        ensures state { state.new.state ≡ after_event self.now state.old.state (events.Out position) }
        ensures spares { state.new.spares ≡ spares_after state.old.spares (events.Out position) }
    {
        let bottom = self.bottom(position);
        let value = self.offered(state, bottom, Dir::Down);
        self.give(state, bottom, Dir::Down);
        state.append(position, value);
    }

    // A tile gives to a stack.
    #[inline(always)]
    fn push(&self, state: &mut State, tile: Tile, dir: Dir)
        requires fits { Fits self.now state.old.state }
        requires enabled { IsEnabled self.now state.old.state (events.Push tile dir) }
        ensures { state.new ≡ record state.old { state = after_event self.now state.old.state (events.Push tile dir) } }
    {
        let value = self.offered(state, tile, dir);
        let stack = self.reached(tile, dir);
        self.give(state, tile, dir);
        state.push(stack, value);
    }

    // A tile takes the newest value of a stack.
    #[inline(always)]
    fn pop(&self, state: &mut State, tile: Tile, dir: Dir)
        requires fits { Fits self.now state.old.state }
        requires enabled { IsEnabled self.now state.old.state (events.Pop tile dir) }
        ensures { state.new ≡ record state.old { state = after_event self.now state.old.state (events.Pop tile dir) } }
    {
        let stack = self.reached(tile, dir);
        let value = state.pop(stack);
        self.take(state, tile, dir, value);
    }
}
