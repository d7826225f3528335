//! What can happen next on a grid, in its order.
ghost use Rattle.std.specs.Prelude.{◌≡◌, ◌<◌, ◌≤◌, ◌+◌, ◌++◌, [], ◌∷◌, ℕ, length, slice_get, Some, IsSome, IsTrue, ◌↔◌, ◌^◌, true, false};
ghost use Rattle.tis_base.specs.declared.tiles.Dir.{Dir as AnyDir};
ghost use Rattle.tis_node.specs.Intents.{is_local, takes_from, gives_to};
ghost use Rattle.tis_grid.specs.declared.event.Event.TheVariants as events;
ghost use Rattle.tis_grid.specs.Events.{is_enabled, is_waiting, is_giving};
ghost use Rattle.arrayvec.specs.ArrayVec.{array_vec_len};
ghost use Rattle.tis_grid.specs.Choices.{events_towards, events_at, those_enabled, enabled_events};
ghost use Rattle.tis_grid.specs.HeldChoices.{listed, event_of, events_in, AreChoices};
ghost use Rattle.rand_pcg.specs.Pcg.{pcg32};
ghost use Rattle.tis_grid.specs.Drawn.{choice_of, next_of};
ghost use Rattle.tis_grid.specs.Orders.{Fits, IsAtRest};

use crate::event::Event;
use crate::grid::Grid;
use crate::state::State;
use arrayvec::ArrayVec;
use rand_core::utils::NextWord;
use rand_pcg::Lcg64Xsh32;
use tis_base::{Dir, Tile};
use tis_node::Intent;

// How many events of a tile can happen at most: one in each direction.
pub(crate) const WAYS: usize = 4;

// How many lists there are: one for each tile, then one for each input, and then one for each output.
pub(crate) const LISTS: usize = 20;

// The lists of the inputs and of the outputs begin here.
pub(crate) const INPUTS: u8 = 12;

pub(crate) const OUTPUTS: u8 = 16;

/// The events that can happen: those of each tile, of each input and of each output.
#[derive(Debug, Drop)]
pub(crate) struct Choices {
    pub(crate) lists: [ArrayVec<Event, WAYS>; LISTS],
}

// No event, in each list. They are written out, since a list isn't `Copy`.
fn no_events() -> [ArrayVec<Event, WAYS>; LISTS]
    ensures { length result ≡ 20 }
{
    [
        ArrayVec::new(),
        ArrayVec::new(),
        ArrayVec::new(),
        ArrayVec::new(),
        ArrayVec::new(),
        ArrayVec::new(),
        ArrayVec::new(),
        ArrayVec::new(),
        ArrayVec::new(),
        ArrayVec::new(),
        ArrayVec::new(),
        ArrayVec::new(),
        ArrayVec::new(),
        ArrayVec::new(),
        ArrayVec::new(),
        ArrayVec::new(),
        ArrayVec::new(),
        ArrayVec::new(),
        ArrayVec::new(),
        ArrayVec::new(),
    ]
}

impl Choices {
    // How many events can happen.
    pub(crate) fn count(&self) -> usize
        requires { length self.now.lists ≡ 20 }
        ensures count { result ≡ length (listed self.now) }
        ensures few { result < 2 ^ 16 }
    {
        let mut count = 0;
        for events in &self.lists {
            count += events.len();
        }
        count
    }

    // The event with an index.
    pub(crate) fn at(&self, index: usize) -> Event
        requires len { length self.now.lists ≡ 20 }
        requires within { index < length (listed self.now) }
        ensures { slice_get (listed self.now) index ≡ Some result }
    {
        let mut left = index;
        for events in &self.lists {
            if left < events.len() {
                return events[left];
            }
            left -= events.len();
        }
        unreachable!()
    }

    // The event that the generator's next word chooses, where one can happen. Where none can, no word is drawn.
    pub(crate) fn draw(&self, generator: &mut Lcg64Xsh32) -> Option<Event>
        requires { length self.now.lists ≡ 20 }
        ensures event { result ≡ next_of (listed self.now) (pcg32 generator.old).0 }
        ensures word { IsSome result → generator.new ≡ (pcg32 generator.old).1 }
    {
        let count = self.count();
        if count == 0 {
            return None;
        }
        Some(self.at(choice(generator.next_word(), count)))
    }
}

// Puts an event, where there is one, behind the others of a list.
#[inline(always)]
fn put<const MOST: usize>(events: &mut ArrayVec<Event, MOST>, event: Option<Event>)
    requires { array_vec_len events.old < MOST }
    ensures items { events.new.items ≡ events.old.items ++ event_of event }
    ensures len { array_vec_len events.new ≤ array_vec_len events.old + 1 }
{
    if let Some(event) = event {
        events.push(event);
    }
}

impl Grid {
    // What a tile that waits for a value from a direction can do there: it pops, where a stack has a value.
    #[inline(always)]
    fn pulled(&self, state: &State, tile: Tile, dir: Dir) -> Option<Event>
        requires fits { Fits self.now state.now.state }
        requires there { tile.number < length self.now.puzzle.tiles.kinds }
        requires takes { is_waiting self.now state.now.state tile.number dir ≡ true }
        requires gives { is_giving self.now state.now.state tile.number dir ≡ false }
        ensures { event_of result ≡ those_enabled self.now state.now.state (events_towards tile.number dir) }
    {
        match self.next(tile, dir) {
            Some(next) if self.has_value(state, next) => Some(Event::Pop(tile, dir)),
            _ => None,
        }
    }

    // What a tile that gives a value to a direction can do there: it meets a tile that waits, or pushes onto a stack that
    // isn't full.
    #[inline(always)]
    fn given_to(&self, state: &State, tile: Tile, dir: Dir) -> Option<Event>
        requires fits { Fits self.now state.now.state }
        requires there { tile.number < length self.now.puzzle.tiles.kinds }
        requires takes { is_waiting self.now state.now.state tile.number dir ≡ false }
        requires gives { is_giving self.now state.now.state tile.number dir ≡ true }
        ensures { event_of result ≡ those_enabled self.now state.now.state (events_towards tile.number dir) }
    {
        match self.next(tile, dir) {
            None => None,
            Some(next) => {
                if self.is_waiting(state, next, dir.opposite()) {
                    Some(Event::Meet(tile, dir))
                } else if self.has_room(state, next) {
                    Some(Event::Push(tile, dir))
                } else {
                    None
                }
            }
        }
    }

    // What a tile can do that waits for a value from any port.
    fn all_pulled(&self, state: &State, tile: Tile) -> ArrayVec<Event, WAYS>
        requires fits { Fits self.now state.now.state }
        requires there { tile.number < length self.now.puzzle.tiles.kinds }
        requires local { is_enabled self.now state.now.state (events.Local tile) ≡ false }
        requires takes { (dir : AnyDir) → is_waiting self.now state.now.state tile.number dir ≡ true }
        requires gives { (dir : AnyDir) → is_giving self.now state.now.state tile.number dir ≡ false }
        ensures { result.items ≡ those_enabled self.now state.now.state (events_at tile.number) }
    {
        let mut events = ArrayVec::new();
        put(&mut events, self.pulled(state, tile, Dir::Left));
        put(&mut events, self.pulled(state, tile, Dir::Right));
        put(&mut events, self.pulled(state, tile, Dir::Up));
        put(&mut events, self.pulled(state, tile, Dir::Down));
        events
    }

    // What a tile can do that gives a value to any port.
    fn all_given(&self, state: &State, tile: Tile) -> ArrayVec<Event, WAYS>
        requires fits { Fits self.now state.now.state }
        requires there { tile.number < length self.now.puzzle.tiles.kinds }
        requires local { is_enabled self.now state.now.state (events.Local tile) ≡ false }
        requires takes { (dir : AnyDir) → is_waiting self.now state.now.state tile.number dir ≡ false }
        requires gives { (dir : AnyDir) → is_giving self.now state.now.state tile.number dir ≡ true }
        ensures { result.items ≡ those_enabled self.now state.now.state (events_at tile.number) }
    {
        let mut events = ArrayVec::new();
        put(&mut events, self.given_to(state, tile, Dir::Left));
        put(&mut events, self.given_to(state, tile, Dir::Right));
        put(&mut events, self.given_to(state, tile, Dir::Up));
        put(&mut events, self.given_to(state, tile, Dir::Down));
        events
    }

    // The list of one event, or of none.
    #[inline(always)]
    fn alone(event: Option<Event>) -> ArrayVec<Event, WAYS>
        ensures { result.items ≡ event_of event }
    {
        let mut events = ArrayVec::new();
        put(&mut events, event);
        events
    }

    // What a tile can do whose node would do this next. Only that is asked for.
    pub(crate) fn events_by(
        &self,
        state: &State,
        tile: Tile,
        intent: Intent,
    ) -> ArrayVec<Event, WAYS>
        requires fits { Fits self.now state.now.state }
        requires there { tile.number < length self.now.puzzle.tiles.kinds }
        requires local { is_enabled self.now state.now.state (events.Local tile) ≡ is_local intent }
        requires takes { (dir : AnyDir) → is_waiting self.now state.now.state tile.number dir ≡ takes_from intent dir }
        requires gives { (dir : AnyDir) → is_giving self.now state.now.state tile.number dir ≡ gives_to intent dir }
        ensures { result.items ≡ those_enabled self.now state.now.state (events_at tile.number) }
    {
        match intent {
            Intent::Nothing => Grid::alone(None),
            Intent::Local => Grid::alone(Some(Event::Local(tile))),
            Intent::Takes(dir) => Grid::alone(self.pulled(state, tile, dir)),
            Intent::TakesAny => self.all_pulled(state, tile),
            Intent::Gives(dir) => Grid::alone(self.given_to(state, tile, dir)),
            Intent::GivesAny => self.all_given(state, tile),
        }
    }

    // What a tile can do.
    pub(crate) fn tile_events(&self, state: &State, tile: Tile) -> ArrayVec<Event, WAYS>
        requires fits { Fits self.now state.now.state }
        requires there { tile.number < length self.now.puzzle.tiles.kinds }
        ensures { result.items ≡ those_enabled self.now state.now.state (events_at tile.number) }
    {
        self.events_by(state, tile, self.intent(state, tile))
    }

    // What an input can do.
    #[inline(always)]
    pub(crate) fn input_events(&self, state: &State, position: u8) -> ArrayVec<Event, WAYS>
        requires { Fits self.now state.now.state }
        ensures { result.items ≡ those_enabled self.now state.now.state (events.In position ∷ []) }
    {
        if self.can_take(state, position) {
            Grid::alone(Some(Event::In(position)))
        } else {
            Grid::alone(None)
        }
    }

    // What an output can do.
    #[inline(always)]
    pub(crate) fn output_events(&self, state: &State, position: u8) -> ArrayVec<Event, WAYS>
        requires { Fits self.now state.now.state }
        ensures { result.items ≡ those_enabled self.now state.now.state (events.Out position ∷ []) }
    {
        if self.can_give(state, position) {
            Grid::alone(Some(Event::Out(position)))
        } else {
            Grid::alone(None)
        }
    }

    // What can happen of a list.
    fn list_events(&self, state: &State, list: u8) -> ArrayVec<Event, WAYS>
        requires fits { Fits self.now state.now.state }
        requires within { list < 20 }
        ensures { result.items ≡ those_enabled self.now state.now.state (events_in list) }
    {
        // The call tells the proof that this is a grid.
        self.puzzle();
        if list < INPUTS {
            self.tile_events(state, Tile { number: list })
        } else if list < OUTPUTS {
            self.input_events(state, list - INPUTS)
        } else {
            self.output_events(state, list - OUTPUTS)
        }
    }

    // What can happen next.
    pub(crate) fn choices(&self, state: &State) -> Choices
        requires { Fits self.now state.now.state }
        ensures right { AreChoices self.now state.now.state result }
        ensures all { listed result ≡ enabled_events self.now state.now.state }
    {
        // The call tells the proof that this is a grid.
        self.puzzle();
        let mut lists = no_events();
        for list in 0..LISTS {
            lists[list] = self.list_events(state, list as u8);
        }
        Choices { lists }
    }

    /// Whether no event can happen.
    pub fn at_rest(&self, state: &State) -> bool
        requires { Fits self.now state.now.state }
        ensures { IsTrue result ↔ IsAtRest self.now state.now.state }
    {
        // The call tells the proof that this is a grid.
        self.puzzle();
        self.choices(state).count() == 0
    }
}

// Of so many, the number that a word chooses.
fn choice(word: u32, count: usize) -> usize
    requires some { 0 < count }
    requires few { count < 2 ^ 16 }
    ensures choice { result ≡ choice_of word count }
    ensures within { result < count }
{
    ((u64::from(word) * count as u64) >> 32) as usize
}
