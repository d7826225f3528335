//! What can happen next, kept from one event to the next.
//!
//! After an event only the lists of the tiles that it changed, of their ports and of those next to them that can do something with
//! them are made anew. So an event takes a time that doesn't grow with what lies elsewhere on the grid.
ghost use Rattle.std.specs.Prelude.{◌≡◌, ◌≢◌, ◌<◌, ◌≤◌, ◌/◌, ℕ, length};
ghost use Rattle.std.specs.Int.{bit_at};
ghost use Rattle.tis_base.specs.declared.tiles.Dir.{Dir as AnyDir};
ghost use Rattle.tis_node.specs.Intents.{is_local, takes_from, gives_to};
ghost use Rattle.tis_grid.specs.declared.event.Event.TheVariants as events;
ghost use Rattle.tis_grid.specs.Events.{IsEnabled, after_event, is_enabled, is_giving, is_waiting};
ghost use Rattle.tis_grid.specs.HeldChoices.{AreAround, AreChoices, AreGivers, AreRenewed, IsMarked, IsPlaced, IsRight, tile_at, touched};
ghost use Rattle.tis_grid.specs.HeldState.{HasRoom};
ghost use Rattle.tis_grid.specs.Orders.{Fits};

use crate::choices::{Choices, INPUTS, OUTPUTS};
use crate::event::Event;
use crate::givers::Givers;
use crate::grid::Grid;
use crate::state::State;
use tis_base::Tile;
use tis_node::Intent;

// The tiles of the top row are those below this one, and those of the bottom row begin with this one.
const TOP: u8 = 4;

const BOTTOM: u8 = 8;

impl Grid {
    // The tiles that an event changes.
    fn touched(&self, event: Event) -> (Tile, Tile)
        requires { IsPlaced self.now event }
        ensures first { result.0.number ≡ (touched self.now event).0 }
        ensures second { result.1.number ≡ (touched self.now event).1 }
    {
        match event {
            Event::Local(tile) => (tile, tile),
            Event::Meet(tile, dir) | Event::Push(tile, dir) | Event::Pop(tile, dir) => {
                (tile, self.reached(tile, dir))
            }
            Event::In(position) => {
                let tile = Tile { number: position };
                (tile, tile)
            }
            Event::Out(position) => {
                let tile = self.bottom(position);
                (tile, tile)
            }
        }
    }

    // Makes the list of a tile anew, and marks where it gives a value.
    #[inline(always)]
    fn renew(&self, state: &State, choices: &mut Choices, givers: &mut Givers, tile: Tile)
        requires fits { Fits self.now state.now.state }
        requires len { length choices.old.lists ≡ 20 }
        requires within { tile.number < 12 }
        requires there { tile.number < length self.now.puzzle.tiles.kinds }
        ensures len { length choices.new.lists ≡ 20 }
        ensures here { IsRight self.now state.now.state choices.new.lists tile.number }
        ensures ports { (list : ℕ) → 12 ≤ list → list < 20 → tile_at list ≡ tile.number → IsRight self.now state.now.state choices.new.lists list }
        ensures others { (other : ℕ) → IsRight self.now state.now.state choices.old.lists other → IsRight self.now state.now.state choices.new.lists other }
        ensures around { givers.new ≡ record givers.old { marks = givers.new.marks } }
        ensures marked { IsMarked self.now state.now.state givers.new.marks tile.number }
        ensures marked_others { (other : ℕ) → other < 12 → other ≢ tile.number → IsMarked self.now state.now.state givers.old.marks other → IsMarked self.now state.now.state givers.new.marks other }
    {
        let intent = self.intent(state, tile);
        self.mark(state, givers, tile, intent);
        self.relist(state, choices, tile, intent);
        self.renew_ports(state, choices, tile);
    }

    // Makes the list of a tile anew, whose node would do this next.
    #[inline(always)]
    fn relist(&self, state: &State, choices: &mut Choices, tile: Tile, intent: Intent)
        requires fits { Fits self.now state.now.state }
        requires len { length choices.old.lists ≡ 20 }
        requires within { tile.number < 12 }
        requires there { tile.number < length self.now.puzzle.tiles.kinds }
        requires local { is_enabled self.now state.now.state (events.Local tile) ≡ is_local intent }
        requires takes { (dir : AnyDir) → is_waiting self.now state.now.state tile.number dir ≡ takes_from intent dir }
        requires gives { (dir : AnyDir) → is_giving self.now state.now.state tile.number dir ≡ gives_to intent dir }
        ensures len { length choices.new.lists ≡ 20 }
        ensures here { IsRight self.now state.now.state choices.new.lists tile.number }
        ensures others { (other : ℕ) → IsRight self.now state.now.state choices.old.lists other → IsRight self.now state.now.state choices.new.lists other }
    {
        choices.lists[tile.number as usize] = self.events_by(state, tile, intent);
    }

    // Makes the list of a tile anew that didn't change itself.
    #[inline(always)]
    fn look_again(&self, state: &State, choices: &mut Choices, tile: Tile)
        requires fits { Fits self.now state.now.state }
        requires len { length choices.old.lists ≡ 20 }
        requires within { tile.number < 12 }
        requires there { tile.number < length self.now.puzzle.tiles.kinds }
        ensures len { length choices.new.lists ≡ 20 }
        ensures here { IsRight self.now state.now.state choices.new.lists tile.number }
        ensures others { (other : ℕ) → IsRight self.now state.now.state choices.old.lists other → IsRight self.now state.now.state choices.new.lists other }
    {
        self.relist(state, choices, tile, self.intent(state, tile));
    }

    // Makes the lists of the ports of a tile anew: of the input above it, or of the output below it.
    fn renew_ports(&self, state: &State, choices: &mut Choices, tile: Tile)
        requires fits { Fits self.now state.now.state }
        requires len { length choices.old.lists ≡ 20 }
        requires within { tile.number < 12 }
        ensures len { length choices.new.lists ≡ 20 }
        ensures ports { (list : ℕ) → 12 ≤ list → list < 20 → tile_at list ≡ tile.number → IsRight self.now state.now.state choices.new.lists list }
        ensures others { (other : ℕ) → IsRight self.now state.now.state choices.old.lists other → IsRight self.now state.now.state choices.new.lists other }
    {
        if tile.number < TOP {
            choices.lists[(tile.number + INPUTS) as usize] = self.input_events(state, tile.number);
        } else if tile.number >= BOTTOM {
            let position = tile.number - BOTTOM;
            choices.lists[(position + OUTPUTS) as usize] = self.output_events(state, position);
        }
    }

    // Makes the lists of the tiles of these bits anew.
    #[inline(always)]
    fn renew_each(&self, state: &State, choices: &mut Choices, places: u64)
        requires fits { Fits self.now state.now.state }
        requires len { length choices.old.lists ≡ 20 }
        requires within { (place : ℕ) → bit_at places place ≡ 1 → place < 48 }
        ensures len { length choices.new.lists ≡ 20 }
        ensures here { (place : ℕ) → place < 48 → bit_at places place ≡ 1 → IsRight self.now state.now.state choices.new.lists (place / 4) }
        ensures others { (other : ℕ) → IsRight self.now state.now.state choices.old.lists other → IsRight self.now state.now.state choices.new.lists other }
    {
        // The call tells the proof how many tiles there are.
        self.puzzle();
        let mut left = places;
        'places: while left != 0 {
            let place = left.trailing_zeros();
            left &= !(1 << place);
            self.look_again(
                state,
                choices,
                Tile {
                    number: (place / 4) as u8,
                },
            );
        }
    }

    // Makes the lists of the second tile anew, if it is another one than the first.
    #[inline(always)]
    fn renew_second(
        &self,
        state: &State,
        choices: &mut Choices,
        givers: &mut Givers,
        first: Tile,
        second: Tile,
    )
        requires fits { Fits self.now state.now.state }
        requires len { length choices.old.lists ≡ 20 }
        requires within { second.number < length self.now.puzzle.tiles.kinds }
        requires here { IsRight self.now state.now.state choices.old.lists first.number }
        requires ports { (list : ℕ) → 12 ≤ list → list < 20 → tile_at list ≡ first.number → IsRight self.now state.now.state choices.old.lists list }
        requires marked { IsMarked self.now state.now.state givers.old.marks first.number }
        ensures len { length choices.new.lists ≡ 20 }
        ensures here { IsRight self.now state.now.state choices.new.lists second.number }
        ensures ports { (list : ℕ) → 12 ≤ list → list < 20 → tile_at list ≡ second.number → IsRight self.now state.now.state choices.new.lists list }
        ensures others { (other : ℕ) → IsRight self.now state.now.state choices.old.lists other → IsRight self.now state.now.state choices.new.lists other }
        ensures around { givers.new ≡ record givers.old { marks = givers.new.marks } }
        ensures marked { IsMarked self.now state.now.state givers.new.marks second.number }
        ensures marked_others { (other : ℕ) → other < 12 → other ≢ second.number → IsMarked self.now state.now.state givers.old.marks other → IsMarked self.now state.now.state givers.new.marks other }
    {
        // The call tells the proof how many tiles there are.
        self.puzzle();
        if first.number != second.number {
            self.renew(state, choices, givers, second);
        }
    }

    // Makes the lists of two tiles anew, and those of the tiles next to them that can do something with them.
    fn renew_both(
        &self,
        state: &State,
        choices: &mut Choices,
        givers: &mut Givers,
        first: Tile,
        second: Tile,
    )
        requires fits { Fits self.now state.now.state }
        requires len { length choices.old.lists ≡ 20 }
        requires first { first.number < length self.now.puzzle.tiles.kinds }
        requires second { second.number < length self.now.puzzle.tiles.kinds }
        requires around { AreAround self.now givers.old }
        requires marked { (other : ℕ) → other < 12 → other ≢ first.number → other ≢ second.number → IsMarked self.now state.now.state givers.old.marks other }
        ensures first { AreRenewed self.now state.now.state first.number choices.old choices.new }
        ensures second { AreRenewed self.now state.now.state second.number choices.old choices.new }
        ensures givers { AreGivers self.now state.now.state givers.new }
    {
        // The call tells the proof how many tiles there are.
        self.puzzle();
        self.renew(state, choices, givers, first);
        self.renew_second(state, choices, givers, first, second);
        let places = self.concerned(state, givers, first) | self.concerned(state, givers, second);
        self.renew_each(state, choices, places);
    }

    // Applies an event that is enabled, and keeps what can happen next.
    pub(crate) fn step(
        &self,
        state: &mut State,
        choices: &mut Choices,
        givers: &mut Givers,
        event: Event,
    )
        requires fits { Fits self.now state.old.state }
        requires enabled { IsEnabled self.now state.old.state event }
        requires room { HasRoom state.old.spares event }
        requires right { AreChoices self.now state.old.state choices.old }
        requires givers { AreGivers self.now state.old.state givers.old }
        ensures state { state.new.state ≡ after_event self.now state.old.state event }
        ensures fits { Fits self.now state.new.state }
        ensures right { AreChoices self.now state.new.state choices.new }
        ensures givers { AreGivers self.now state.new.state givers.new }
    {
        // The call tells the proof that this is a grid.
        self.puzzle();
        let (first, second) = self.touched(event);
        self.apply(state, event);
        self.renew_both(state, choices, givers, first, second);
    }
}
