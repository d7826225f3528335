//! The events of a cycle.
ghost use Rattle.std.specs.Prelude.{◌≡◌, ◌<◌, [], ◌∷◌, ◌++◌, IsTrue, length, slice_get, Some};
ghost use Rattle.tis_clock.specs.Turns.{acts};

use std::marker::Model;
use tis_base::Tile;
use tis_grid::Event;

// How many events a trace holds at most: one for each tile of the largest grid.
const MOST: usize = 48;

/// The events of the last cycle, in their order. Contracts see their list.
#[derive(Debug, Drop)]
pub struct Trace {
    events: [Event; MOST],
    count: u8,
}

impl Model for Trace {
    ghost use Rattle.std.specs.Prelude.{◌≡◌, List, take, length, ◌≤◌};
    ghost use Rattle.tis_grid.specs.declared.event.Event.{Event as SomeEvent};

    ghost Value = { List SomeEvent };

    ghost view = { λ t. take t.count t.events };

    ghost invariant = { λ t. (t.count ≤ 48) × (length t.events ≡ 48) };
}

impl Trace {
    /// The trace of no event.
    pub fn new() -> Trace
        ensures { result ≡ [] }
    {
        Trace {
            events: [Event::Local(Tile { number: 0 }); MOST],
            count: 0,
        }
    }

    /// How many events there are.
    #[inline(always)]
    pub fn len(&self) -> u32
        ensures { result ≡ length self.now }
    {
        u32::from(self.count)
    }

    /// The event with a number from 0 on.
    #[inline(always)]
    pub fn at(&self, index: u32) -> Event
        requires { index < length self.now }
        ensures { slice_get self.now index ≡ Some result }
    {
        self.events[index as usize]
    }

    /// Leaves no event.
    #[inline(always)]
    pub fn clear(&mut self)
        ensures { self.new ≡ [] }
    {
        self.count = 0;
    }

    /// One more event at the end.
    #[inline(always)]
    pub fn push(&mut self, event: Event)
        requires { length self.old < 48 }
        ensures { self.new ≡ self.old ++ event ∷ [] }
    {
        self.events[self.count as usize] = event;
        self.count += 1;
    }

    // One more event at the end, where there is one, if the events are kept.
    #[inline(always)]
    pub(crate) fn add(&mut self, event: Option<Event>, kept: bool)
        requires { IsTrue kept → length self.old < 48 }
        ensures { IsTrue kept → self.new ≡ self.old ++ acts event }
    {
        if !kept {
            return;
        }
        if let Some(event) = event {
            self.push(event);
        }
    }
}
