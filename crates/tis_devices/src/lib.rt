//! The devices of a grid beside its compute nodes: the stack memory node, and the console on which an
//! output draws.
//!
//! The layer above uses two promises. A [`Stack`] is a list of at most fifteen values, newest last: a push
//! puts one behind them, and a pop takes the last one away. A [`Console`] that was given some values, first
//! to last, shows the picture that these values draw, as the definition of a picture says over the whole
//! list.
//!
//! ```text
//! let mut console = Console::new();
//! for number in [29, 17, 3, -1] {
//!     console.paint(Value::clamp(number));
//! }
//! assert_eq!(console.pixel(29, 17), 3);
//! ```
//!
//! No call takes memory or refuses anything, and each takes a time that doesn't grow with what was pushed
//! or painted before. What a stack does while it is full or empty is the caller's: a push asks that it isn't
//! full and a pop that it isn't empty, and `is_full` and `is_empty` are the tests.
#![tactic(auto)]

mod console;
mod laws;
mod stack;

pub use console::Console;
pub use laws::pictures_are_drawn;
pub use stack::Stack;

#[cfg(test)]
mod tests;
