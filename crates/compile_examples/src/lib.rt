//! What the commands that read networks answer: tests of `compile` and `net`, from the words on.
//!
//! # What it is for
//!
//! `tis_cli` is proved by itself, over definitions. The tests here give [`tis_cli::tool`] the words of a command and a store
//! with texts, and compare its status, its save or its report, and what it left alone, with what was worked out by
//! hand: so they are a check of the definitions. They stand apart from `tis_cli` since a crate with tests is proved twice.
//!
//! - `compiling.rt` has texts that are compiled, with their saves, texts that are nearly of the form that is taken, stores
//!   that fail, words that are no command, and the number and the line of each status.
//! - `networks.rt` has networks with their streams, each rule that one can break, and limits.
//!
//! # What it doesn't do
//!
//! It has no call. What it shows is tested and not proved.
#![tactic(auto)]

#[cfg(test)]
mod compiling;
#[cfg(test)]
mod networks;
