//! What the commands that run saves answer: tests of `run`, `order`, `replay` and `grade`, from the words on.
//!
//! # What it is for
//!
//! `tis_cli` is proved by itself, over definitions. The tests here give [`tis_cli::tool`] the words of a command and a store
//! with a save, a specification and events, and compare its status and its report with what was worked out by hand: so they are
//! a check of the definitions. They stand apart from `tis_cli` since a crate with tests is proved twice.
//!
//! - `running.rt` has orders that are drawn and given, runs by the clock, texts that are refused with their lines, and
//!   stores and sinks that fail.
//! - `grading.rt` has grades by several seeds, and each verdict.
//! - `specifying.rt` has specifications in Lua, graded over several seeds, and refused.
//!
//! # What it doesn't do
//!
//! It has no call. What it shows is tested and not proved.
#![tactic(auto)]

#[cfg(test)]
mod grading;
#[cfg(test)]
mod running;
#[cfg(test)]
mod specifying;
