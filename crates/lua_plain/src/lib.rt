//! The plain values that a call of a chunk's function gives.
//!
//! [`Plain`] is a value without tables: a table is a list of plain values, and one that lies too deep is only told to
//! be deep. [`Plains`] is such a list. The layers above rely on this: contracts see a `Plain` as the plain data of
//! `lua_machine` (`plain_view` of `specs/Plain.antt`), and a `Plains` as its elements in order.
//!
//! ```text
//! let mut list = Plains::new(alloc);
//! list.push(Plain::Number(39))?;
//! let value = Plain::List(list);
//! ```
//!
//! An element is found by its index in constant time. Who evaluates a chunk makes plain values, and who wants a puzzle
//! of them looks at them; nothing here does either.
#![tactic(auto)]

mod plain;

pub use plain::{Plain, Plains};
