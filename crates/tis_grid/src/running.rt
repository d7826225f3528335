//! Runs of a grid in one order of events.
ghost use Rattle.std.specs.Prelude.{◌≡◌, ◌↔◌, IsTrue, OnOk, option_map, unwrap_or};
ghost use Rattle.tis_grid.specs.Events.{IsEnabled};
ghost use Rattle.tis_grid.specs.HeldState.{HasRoom};
ghost use Rattle.tis_grid.specs.Orders.{Fits};
ghost use Rattle.tis_grid.specs.Running.{RunsOrder, RunsSeeded};

use crate::event::Event;
use crate::grid::Grid;
use crate::state::State;
use rand_pcg::Lcg64Xsh32;
use tis_base::{NoMemory, Values};

/// Why an order wasn't run to its end.
#[derive(Clone, Copy, Debug, PartialEq, Eq, Hash)]
pub enum OrderError {
    /// The event at this index, counted from 0, isn't enabled in its turn.
    NotEnabled { index: usize },
    /// Memory ran out.
    NoMemory,
}

impl From<NoMemory> for OrderError {
    ghost use Rattle.std.specs.Prelude.{◌≡◌};
    ghost use Rattle.tis_grid.specs.declared.running.OrderError.TheVariants as cause;

    ghost from_gives = { λ _ result. result ≡ cause.NoMemory };

    fn from(_: NoMemory) -> Self {
        OrderError::NoMemory
    }
}

/// How a run in a drawn order ended.
#[derive(Clone, Copy, Debug, PartialEq, Eq, Hash)]
pub enum Ended {
    /// At rest, after so many events.
    Rest { done: u64 },
    /// After as many events as were allowed, and not at rest.
    Limit { done: u64 },
}

// Whether an output takes no more values without taking memory.
fn is_full(taken: Option<&Values>) -> bool
    ensures { IsTrue result ↔ (unwrap_or (option_map (λ v. v.now.spare) taken.entry) 0 ≡ 0) }
{
    match taken {
        Some(values) => values.spare() == 0,
        None => true,
    }
}

impl Grid {
    /// Applies the events of an order, one after the other, up to the first that isn't enabled in its turn. It
    /// makes its room first: where memory runs out, no event was applied.
    pub fn run_order(&self, state: &mut State, events: &[Event]) -> Result<(), OrderError>
        requires { Fits self.now state.old.state }
        ensures runs { RunsOrder self.now state.old.state events.now result state.new.state }
        ensures fits { Fits self.now state.new.state }
    {
        state.reserve(events.len())?;
        for (index, event) in events.iter().enumerate() {
            if !self.enabled(state, *event) {
                return Err(OrderError::NotEnabled { index });
            }
            self.apply(state, *event);
        }
        Ok(())
    }

    // Makes room for what the event gives, where the output has none left.
    fn make_room(&self, state: &mut State, event: Event) -> Result<(), NoMemory>
        requires fits { Fits self.now state.old.state }
        requires enabled { IsEnabled self.now state.old.state event }
        ensures state { state.new.state ≡ state.old.state }
        ensures room { OnOk result (HasRoom state.new.spares event) }
    {
        match event {
            Event::Out(position) if is_full(state.out(position)) => state.reserve(1),
            _ => Ok(()),
        }
    }

    /// Applies the events of the order that is drawn with this seed, until the state is at rest or so many were
    /// applied. Where memory runs out, the state is the one after the first events of that order.
    pub fn run_seeded(&self, state: &mut State, seed: u64, limit: u64) -> Result<Ended, NoMemory>
        requires { Fits self.now state.old.state }
        ensures runs { RunsSeeded self.now state.old.state seed limit result state.new.state }
        ensures fits { Fits self.now state.new.state }
    {
        // The call tells the proof that this is a grid.
        self.puzzle();
        let mut generator = Lcg64Xsh32::new(seed, 1);
        let mut choices = self.choices(state);
        let mut givers = self.givers(state);
        for done in 0..limit {
            let Some(event) = choices.draw(&mut generator) else {
                return Ok(Ended::Rest { done });
            };
            self.make_room(state, event)?;
            self.step(state, &mut choices, &mut givers, event);
        }
        if self.at_rest(state) {
            Ok(Ended::Rest { done: limit })
        } else {
            Ok(Ended::Limit { done: limit })
        }
    }
}
