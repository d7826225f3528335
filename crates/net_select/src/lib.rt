//! Instruction selection: the code of a process.
//!
//! # What it is for
//!
//! A node has two registers, ACC and BAK, and a process two variables, x and y. [`select`] gives a process of a checked
//! network its code as a program, with [`Ports`] that say in which direction each of its names lies, and [`lines_of`]
//! how many instructions that is. `docs/selection.md` has the tables.
//!
//! # What the layers above use
//!
//! The code is exactly that of `specs/Selection.antt`, by recursion on the statements, and each of its jumps goes to one
//! of its instructions. It behaves as the process (`specs/Behaves.antt`), for any directions that are distinct on each
//! side: whatever the neighbours of its node do, the node reads, sends and waits as the process does over the values
//! that it took, and by itself it takes at most eight steps for one of the process. [`code_behaves`] is the law, for
//! code of any length, and [`lines_are_told`] says that the lines are those of the code.
//!
//! # An example
//!
//! ```text
//! let mut ports = Ports::new();
//! ports.set(0, Dir::Up);                           // the first input lies above
//! ports.set(1, Dir::Down);
//! match select(&checked, 0, &ports) {
//!     Ok(program) => ..,                           // MOV UP, ACC ...
//!     Err(SelectError::TooLong { lines }) => ..,   // lines_of(&checked, 0), more than fifteen
//! }
//! ```
//!
//! # What the calls cost
//!
//! None takes memory. The lines of a block are counted once for each block around it, and its code is put behind the
//! program instruction after instruction.
//!
//! # What it doesn't do
//!
//! It shortens no code, and knows nothing of grids.
#![tactic(auto)]

mod laws;
mod lines;
mod ports;
mod selection;
mod selector;

pub use laws::{code_behaves, code_is_sound, lines_are_told};
pub use ports::Ports;
pub use selection::{SelectError, lines_of, select};
