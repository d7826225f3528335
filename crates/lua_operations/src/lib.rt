//! What operators and the functions of the libraries make of held values.
//!
//! The values of the parts of a node come as a slice of `SmallValue`, in the order in which they were evaluated, and each call
//! gives the value that `lua_machine` makes of what they stand for, or the fault with its line: `Comes` of `specs/Results.antt`
//! says both, and `Makes` of those calls that also change the tables or the random generator. A wrong number of parts is a
//! fault as well.
//!
//! ```text
//! let sum = binary_of_parts(&texts, BinaryOp::Plus, line, &[a, b])?;
//! let one_of_six = math_of_parts(&mut generator, MathFunction::Random, line, &[six])?;
//! let last = table_of_parts(&mut tables, TableFunction::Remove, line, &[table])?;
//! ```
//!
//! Only `..` and `table.insert` take memory, and only they and the comparison of texts take more time than a look-up.
//! Where the parts wait, and where what is made goes, is for the caller.
#![tactic(auto)]

mod functions;
mod math;
mod operators;
mod parts;
mod table;

pub use functions::{MathFunction, TableFunction, math_function, table_function};
pub use math::math_of_parts;
pub use operators::is_true;
pub use parts::{
    binary_of_parts, floor_of_parts, index_of_parts, is_join, joined_of_parts, select_of_parts,
    unary_of_parts,
};
pub use table::table_of_parts;
