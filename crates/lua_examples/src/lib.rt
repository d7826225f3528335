//! Small chunks of Lua with what they give and cost.
//!
//! Each row of `rows.rt` is a chunk, the value that its function `f` gives, and the units that the call costs, or its fault. They were
//! worked out by hand from the language: a unit for each statement, each expression, each turn of a loop, and each
//! value that is made plain; the words of draws are those of the generator. The tests call each of them by the machine and compare. Nothing else is here.
#![tactic(auto)]

#[cfg(test)]
mod rows;
#[cfg(test)]
mod tests;
