//! What an evaluation of Lua stands on and changes.
//!
//! A [`LuaState`] has the variables, the tables and the random generator of an evaluation, and a stack of the values that wait
//! beside the frames of a machine. Contracts see it as a `Store` of `specs/Store.antt`: values of `lua_machine`, and its
//! `State`. Texts, rows and places stay inside, so that a machine above speaks of plain values alone. Each call says, by the
//! functions of `lua_machine`, what it makes of the newest values: it takes them, the newest last, and puts what it gives.
//!
//! ```text
//! let mut state = LuaState::new(alloc, seed)?;
//! state.push_variable(alloc, b"a")?;
//! state.push_number(two)?;
//! state.binary(alloc, 2, BinaryOp::Times, line)?;      // a * 2, or the fault with its line
//! state.assign(alloc, b"a")?;
//! ```
//!
//! A name is looked for among the texts that are held, and its place there numbers it. A table by that number tells where the innermost local of the
//! name stands, and each local where the one stands that it shadows, so that nothing is walked through when a name is looked up, or when a block ends and the
//! locals around it are seen again. Another table tells where each global stands. A new text takes memory, and so does a value that is put, now and then; no call copies a table
//! or a list of variables.
//!
//! Units are for the caller.
#![tactic(auto)]

mod bindings;
mod bounds;
mod by_name;
mod calls;
mod globals;
mod held;
mod locals;
mod loops;
mod making;
mod names;
mod plain;
mod stack;
mod starting;
mod state;
mod storing;
mod variables;

pub use state::LuaState;
