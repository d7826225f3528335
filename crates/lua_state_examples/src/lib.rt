//! Calls of the state of an evaluation, one after the other, with ample memory.
//!
//! # What it is for
//!
//! `lua_state` and the crates below it are proved, and want of memory is an answer that each of their calls may give. The tests
//! here make the calls with memory enough, and compare what comes out with what was worked out by hand.
//!
//! # What it doesn't do
//!
//! It has no call. What it shows is tested and not proved.
#![tactic(auto)]

#[cfg(test)]
mod loops;
#[cfg(test)]
mod samples;
#[cfg(test)]
mod tables;
