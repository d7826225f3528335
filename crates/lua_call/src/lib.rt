//! Calls of the functions of a chunk.
//!
//! [`call`] evaluates a function of a chunk, called by its name without arguments and with a seed for the words that are drawn,
//! and gives the value that it returns made plain, with its cost in units ([`Called`]). The layers above rely on this: what is
//! given is what the meaning of the chunk gives, at its cost, and so is a fault, with its line; `Budget` comes where
//! the call gives nothing within the 500,000 units that may be paid (`specs/Calls.antt`, over `Answers` and `RunsOut` of
//! `lua_machine`). By the laws of `lua_machine` there is one such answer for each call, so none of them stands for another.
//!
//! ```text
//! if chunk.defines(b"get_streams") {
//!     let called = call(alloc, &chunk, b"get_streams", seed)?;
//!     let streams = called.value;
//! }
//! ```
//!
//! `laws` says that a name is defined exactly where a function is found under it.
//!
//! A call makes a machine of `lua_frames` and takes turns of it up to the end (`running.rt`), in two loops: one up to the first turn that pays
//! a unit, since fewer turns that pay nothing are left with each, and one around it, which has 500,000 units. So each call ends, and takes time by
//! the units that it pays. Its memory is given back at its end.
#![tactic(auto)]

mod calling;
pub mod laws;
mod running;

pub use calling::{Called, call};
