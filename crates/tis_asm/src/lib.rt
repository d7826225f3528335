//! Programs of the compute nodes: their instructions, and their text, read and written.
//!
//! # What it is for
//!
//! - [`Instr`] is an instruction, with its [`Source`], [`Dest`] or [`Jump`]; [`Program`] holds at most fifteen of
//!   them, each with a mark or without one, and [`Programs`] one program for each tile.
//! - [`assemble`] reads the program that a text spells, as players write it: letters of either case, comments,
//!   labels on lines of their own, CRs. [`print`] writes the canonical text of a program.
//! - [`Assembler`] takes lines one after the other, for a caller whose program is a part of a text.
//!
//! # What the crates above use
//!
//! `assemble` gives exactly the program that its text spells, or refuses it for the cause that comes first:
//! too many lines, then the first wrong line, then the first jump without its label. What it gives is sound:
//! each of its jumps goes to one of its instructions. The canonical text of a sound program is read as that
//! program ([`programs_read_back`]), and so are its lines before blank ones ([`lines_read_back`]).
//!
//! # An example
//!
//! ```text
//! let program = assemble(alloc, b"loop: mov up acc # x\nadd 1\nmov acc, down\njmp LOOP\n")?;
//! print(alloc, &program)?;              // L0: MOV UP, ACC ... JMP L0
//! ```
//!
//! # What the calls cost
//!
//! `assemble` looks at each line of a text once, and takes a copy in capitals of the first fifteen; of those
//! behind them it is only told whether they are blank. Each of the first fifteen is read once, and its label goes into a
//! table, in which the jumps look it up once all lines are read. `print` takes time that grows with the program. Calls of `Program`
//! take no memory.
//!
//! # What it doesn't do
//!
//! It runs no program, and doesn't read saves. A mark says nothing of what an instruction does.
#![tactic(auto)]

mod assembler;
mod error;
mod instr;
mod laws;
mod line;
mod program;
mod programs;
mod reading;
mod source_line;
mod text;
mod word;
mod words;

pub use assembler::{Assembler, assemble};
pub use error::AsmError;
pub use instr::{Dest, Instr, Jump, Source};
pub use laws::{
    assembled_are_whole, empty_programs_rest, lines_read_back, moves_pass_values, nodes_fit,
    nodes_go_on, programs_read_back, steps_add_up,
};
pub use program::Program;
pub use programs::Programs;
pub use text::print;

#[cfg(test)]
mod tests;
