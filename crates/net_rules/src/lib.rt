//! Which networks are accepted, what their processes do, and the streams that they send.
//!
//! # What it is for
//!
//! - `specs/Rules.antt` has each rule of networks as a definition of its own, and the first that is broken.
//! - `specs/Process.antt` says what a process does over whole streams, step by step: both variables, branches,
//!   loops, and where it waits. From here on a name is its number (`specs/Numbers.antt`).
//! - `specs/Kahn.antt` gives a network its streams, after Kahn 1974, the bound on the steps of its processes, and the
//!   bound on orders that the compiler promises.
//!
//! # What the layers above use
//!
//! [`check`] gives a [`Checked`] network, with the numbers of its names and its bodies over numbers, or the first
//! rule that is broken: exactly that of `first_broken`. [`is_small`] is the test of what it asks.
//!
//! [`processes_wait`]: from the rules, and since its numbers are values of the machine, a process never runs out of
//! fuel, whatever values it reads; so the streams are those of a process that never ends.
//!
//! # An example
//!
//! ```text
//! let net = read_net(alloc, text)?;
//! match check(alloc, &net) {
//!     Ok(checked) => checked.number(&name),          // its number, counted from 0
//!     Err(RuleError::Unread { line }) => ..,          // nobody reads what this line declares
//!     Err(error) => ..,
//! }
//! ```
//!
//! # What the calls cost
//!
//! [`check`] takes time and memory as the network is large, and a little more for sorting its lines: names stand in
//! hash tables, and no rule looks at all pairs of names or statements. [`surely_reads`] and
//! [`first_loop_without_read`] go over a body once for each `while` around a statement. The look-ups take no memory.
//!
//! # What it doesn't do
//!
//! It runs no process, and knows nothing of programs and grids, and of tiles only how many there are.
#![tactic(auto)]

mod accepted;
mod declarations;
mod error;
mod joins;
mod known;
mod laws;
mod lines;
mod loops;
mod names;
mod numbered;
mod numbers;
mod sizes;
mod statements;
mod sure;
mod turns;
mod used;
mod uses;

pub use accepted::{Checked, check, is_small};
pub use error::RuleError;
pub use laws::processes_wait;
pub use loops::first_loop_without_read;
pub use sure::surely_reads;
pub use turns::{sure_read_fault, sure_reads};
pub use uses::{changes, read_of, written_of};

#[cfg(test)]
mod tests;
