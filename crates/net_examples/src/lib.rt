//! Networks whose code is known: tests that go through the crates of networks, from the text on.
//!
//! # What it is for
//!
//! Each crate of networks is proved by itself, over its definitions. The tests here read the text of a network, check
//! it, and compare what comes out with what was worked out by hand: so they are a check of the definitions.
//!
//! # What it doesn't do
//!
//! It has no call. What it shows is tested and not proved.
#![tactic(auto)]

#[cfg(test)]
mod samples;
#[cfg(test)]
mod selection;
