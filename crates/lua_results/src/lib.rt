//! The value of a call, made plain.
//!
//! [`make_plain`] makes a value of an evaluation plain: a table becomes the list of its values at 1, 2 and so on, before the first
//! key that isn't there, and a table inside of four others is only told to be deep. The layers above rely on this: the plain value and
//! its cost are those of `plain_of` of `lua_machine`, and where the units that are left don't suffice, the answer is `Budget`
//! and nothing else.
//!
//! ```text
//! let mut left = 500_000;
//! let plain = make_plain(alloc, &tables, &texts, value, &mut left)?;
//! ```
//!
//! A unit is paid for each value that is made plain, before it is looked at, so that no table makes a list that is longer
//! than the units that are left. A table that is met more than once is made plain each time, as its cost says.
#![tactic(auto)]

mod making;

pub use making::make_plain;
