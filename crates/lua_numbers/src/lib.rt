//! The numbers of Lua, and what operators make of them.
//!
//! A [`LuaNumber`] is a whole number from -2^53 to 2^53, which contracts see as that number. Each call says in its
//! contract what `lua_machine` says of the operator: a sum, a difference or a product past either end is none, and so
//! are a quotient that isn't whole and anything divided by 0. Which fault that is, and on which line, is for the caller.
//!
//! ```text
//! let sum = a.plus(b).ok_or(LuaError::OutOfRange { line })?;
//! if a.is_less(b) { .. }
//! ```
//!
//! No call takes memory, and each takes the time of a few machine instructions.
#![tactic(auto)]

mod number;
mod quotient;

pub use number::LuaNumber;
