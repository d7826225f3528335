//! What chunks of Lua compute.
//!
//! This is the meaning alone, for whoever reads it beside the language: `Yields` of `specs/Answer.antt`
//! says what a call of a function of a chunk gives, with its cost in units, and `specs/Yields.antt` has one
//! case or more for each kind of node, over values (`Value.antt`), tables as numbered rows (`Tables.antt`), variables and
//! the generator of random words (`State.antt`). What operators and the libraries make of values are functions
//! (`Operators.antt`, `Library.antt`). A chunk that never ends comes to nothing there, and a call that would pay
//! more than 500,000 units runs out (`RunsOut`).
//!
//! `specs/Machine.antt` has the configurations of a machine that does the same step by step: the node that it is at,
//! or the way that comes back, the frames of what waits, the state, and the units paid. `specs/Turn.antt` has one turn
//! of it, with one case for each kind of node and of frame.
//!
//! `laws` says that a call gives one answer at most, and that it gives one or runs out; that turns come to an answer at
//! a cost exactly where the call gives it at that cost; that the call runs out exactly where turns come to pay more units
//! than may be paid; and that each turn pays a unit, or leaves fewer turns that may come before the next one is paid.
//! Nothing here evaluates a chunk: `call` of `lua_call` does, by a machine that takes these turns.
#![tactic(auto)]

mod error;
pub mod laws;

pub use error::LuaError;
