//! A debugger: a grid, cycle by cycle, with stops, a look at everything, and a way back.
//!
//! # What it is for
//!
//! A [`Session`] stands at one cycle of a grid. [`Session::step`] does so many cycles, and [`Session::go`] cycles until a
//! node that made a step is ready at a marked instruction, or nothing more can happen. [`Session::break_at`] marks an
//! instruction; those that the programs mark are marked from the start. [`Session::back`] takes up to 64 cycles back,
//! and [`Session::show`] tells all that there is to see.
//!
//! A script has one command of a session a line. [`read_script`] reads one, and [`debug_report`] does what it says over a
//! grid from its start and gives what is printed.
//!
//! # What the layers above use
//!
//! `specs/Sessions.antt` says what each call comes to: contracts see of a session the grid, the number of the cycle, how
//! many cycles can be taken back, and the marks. Its state is that of the grid so many cycles after its start, whatever
//! was done and taken back before. `specs/Scripts.antt` says which commands a text has and what each prints.
//!
//! The laws, as contracts of functions without a body: a step does the fewest cycles after which it can end
//! ([`steps_end_first`]), going on stops after the fewest after which something stops it ([`goes_stop_first`]), and what
//! was taken back is the same as many cycles later ([`back_is_undone`]).
//!
//! # An example
//!
//! ```text
//! let mut session = Session::new(alloc, &grid)?;
//! session.break_at(5, 0)?;                // or NoSuchNode, NoSuchLine
//! session.go()?;                          // Stop::Break { tile: 5 }, say
//! session.back(2)?;                       // or NoHistory
//! ```
//!
//! # What it costs
//!
//! A cycle costs what it costs the clock, and the copy of a point, which has a fixed size: nodes, stacks, and how much is
//! left and was taken. The last 64 are kept in a ring, so that going back costs the copy of one of them and never runs
//! the grid again. Only outputs take memory while a session goes on, where one has no room left.
//!
//! # What it doesn't do
//!
//! It opens no file and prints nothing. A mark is never taken away again.
#![tactic(auto)]

mod error;
mod laws;
mod marks;
mod report;
mod script;
mod session;
mod show;
mod steps;
mod stops;
mod text;

pub use error::{DebugError, ScriptError};
pub use laws::{back_is_undone, goes_stop_first, steps_end_first};
pub use report::debug_report;
pub use script::{Action, read_script};
pub use session::{Session, Stop};

#[cfg(test)]
mod tests;
