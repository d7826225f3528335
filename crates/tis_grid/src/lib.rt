//! Grids that run, in any order of events, and the laws of every grid.
//!
//! # What it is for
//!
//! A [`Puzzle`] is tiles, what comes in above the top row and what is wanted below the bottom row. A [`Grid`] is
//! a puzzle with a program for each tile, and a [`State`] is a grid at one moment; an [`Event`] is one thing that
//! can happen in it: a node makes a local step, two nodes meet at a port, a value comes in or goes out, a stack
//! takes or gives one. `specs/Events.antt` says when each can happen and what it does, and `specs/Orders.antt`
//! where a list of them leads.
//!
//! # What the layers above use
//!
//! Each call of [`Grid`] and [`State`] is what the definition says: whether an event is enabled, the state after
//! it, the state after a list of events or the first that isn't enabled, and the state after the order that a
//! seed draws. Every call asks for a state of its grid and keeps it one; [`Grid::start`] gives the first.
//!
//! The laws hold whatever the programs are and whatever the order: [`states_fit`],
//! [`enabled_events_are_listed`], [`drawn_orders_are_legal`], [`orders_are_runs`], [`links_pass_all`],
//! [`events_are_counted`], [`points_bring_back`]. They are functions without a body, whose contracts are the laws: nothing has to be
//! called.
//!
//! # An example
//!
//! ```text
//! let grid = Grid::new(puzzle, programs);
//! let mut state = grid.start(alloc)?;
//! grid.run_seeded(&mut state, 1, 100)?;
//! state.out(1);
//! ```
//!
//! # What it costs
//!
//! [`Grid::apply`], [`Grid::enabled`], [`Grid::at_rest`], [`State::point`] and [`State::return_to`] take no
//! memory. [`Grid::run_order`] makes its room first, and [`Grid::run_seeded`] where an output has none left. An
//! event of a drawn order takes a time that doesn't grow with what lies elsewhere on the grid, but for the choice
//! among what can happen, which looks once at each tile's count.
//!
//! # What it doesn't do
//!
//! It reads no text. No event takes time: an order says what came before what, and nothing of how long it took.
#![tactic(auto)]

mod applying;
mod choices;
mod enabling;
mod event;
mod givers;
mod grid;
mod laws;
mod nodes;
mod point;
mod puzzle;
mod renewing;
mod running;
mod state;
mod tile_set;

pub use event::Event;
pub use grid::Grid;
pub use laws::{
    drawn_orders_are_legal, enabled_events_are_listed, events_are_counted, links_pass_all,
    orders_are_runs, points_bring_back, ports_make_puzzles, states_fit,
};
pub use point::Point;
pub use puzzle::{InputAt, OutKind, OutputAt, Puzzle, is_picture};
pub use running::{Ended, OrderError};
pub use state::State;
pub use tile_set::TileSet;
