//! Grades: whether a grid passes its puzzle.
//!
//! # What it is for
//!
//! `specs/Verdict.antt` says which verdict a grid has: its outputs are looked at after each number of clock cycles,
//! from none on, and the first number that decides gives it.
//!
//! # What the layer above uses
//!
//! [`grade`] gives that verdict, [`counts`] says how large a solution is, and [`grade_all`] grades a solution for several
//! seeds and tells what came of it, as `specs/Reports.antt` says. The law [`verdicts_are_first`] says
//! of verdicts what the definition says cycle by cycle: that they are those of the first state that decides.
//!
//! # An example
//!
//! ```text
//! match grade(alloc, &grid, 10_000)? {
//!     Verdict::Passed { cycles } => ..,
//!     Verdict::Wrong { output, index, want, got } => ..,
//!     ..
//! }
//! let (nodes, instructions) = counts(grid.programs());
//! ```
//!
//! # What it costs
//!
//! A cycle of a grade costs what a cycle of the clock costs, and a step for each value that came out in it: how far
//! each output was compared is kept, and of a picture its console and how many of its points aren't as wanted. The
//! outputs of the grid are held in memory, with two bytes for each value.
//!
//! # What it doesn't do
//!
//! It reads no text, puts its report nowhere, and says nothing of orders other than the clock's.
#![tactic(auto)]

mod cases;
mod follow;
mod grading;
mod laws;
mod size;
mod verdict;

pub use cases::{Case, Failed, Graded, grade_all};
pub use grading::grade;
pub use laws::verdicts_are_first;
pub use size::counts;
pub use verdict::Verdict;
