//! Clock cycles: one order of a grid's events among all that can be.
//!
//! # What it is for
//!
//! `specs/Cycle.antt` says which events happen in a cycle from a state, and in which order: first, tile by tile, what
//! the tiles do that were ready when it began, and then what those give away that were writing when it began and
//! whose values weren't taken. A [`Trace`] holds the events of one cycle.
//!
//! # What the layers above use
//!
//! [`cycle`] applies the events of one cycle, [`count_cycle`] does so without a trace, [`run`] does cycle after cycle up to the first after which the grid is at
//! rest or to a limit, and [`run_making_room`] does the same where nobody knows how much the outputs take; who looks at
//! the state between the cycles calls [`make_room`] and one of the two in turn.
//!
//! The laws, as contracts of functions without a body: the events of a cycle are a legal order
//! ([`cycles_are_legal`]); there is none exactly at rest ([`rest_has_no_cycle`]); each tile does one thing in a cycle
//! at most, so that a value crosses one node in it at most ([`tiles_act_once`]).
//!
//! # An example
//!
//! ```text
//! let mut state = grid.start(alloc)?;
//! state.reserve(100)?;
//! let ended = run(&grid, &mut state, 100);     // Ended::Rest { done: 6 }, say
//! ```
//!
//! # What it costs
//!
//! A cycle goes over the tiles that have a program, and a second time over those that were writing when it began, and asks of each what it can do.
//! In a run, a tile that waits for one that computes and doesn't write falls asleep: it is passed over until any tile begins to write
//! (`specs/Sleepers.antt`). `cycle` writes its events down; `count_cycle` and a run count them alone. `cycle`, `count_cycle` and `run` take no memory;
//! `run_making_room` takes some where an output has no room left.
//!
//! # What it doesn't do
//!
//! It knows nothing of the cycle counts of the game: the clock is this project's own.
#![tactic(auto)]

mod acting;
mod cycles;
mod laws;
mod trace;
mod turns;

pub use cycles::{count_cycle, cycle, make_room, run, run_making_room};
pub use laws::{cycles_are_legal, rest_has_no_cycle, tiles_act_once};
pub use trace::Trace;
