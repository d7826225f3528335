//! The streams of a network, by running its processes.
//!
//! # What it is for
//!
//! [`streams`] runs each process of a checked network over whole streams, in the order of the text, and gives what
//! goes through each channel and out at each output.
//!
//! # What the layers above use
//!
//! What it gives are the `kahn_streams` of `net_rules`, for any finite lists of inputs. They are the streams of Kahn's
//! model: whatever order the processes run in, these numbers go through each channel, in this order.
//!
//! # An example
//!
//! ```text
//! let checked = check(alloc, &net)?;
//! let found = streams(alloc, &checked, &puzzle.inputs)?;
//! let values = found.out(1);      // what comes out below column 1, or None where no output stands there
//! ```
//!
//! # What the calls cost
//!
//! One list is kept for each channel and each output, and nothing is copied of the inputs. A step of a process takes the
//! same time each, looks no name up, and takes memory only where what it sends makes a list grow.
//!
//! # What it doesn't do
//!
//! It says nothing of tiles and time. A process that waits for ever is simply left.
#![tactic(auto)]

mod blocks;
mod finding;
mod link;
mod machine;
mod simple;

pub use finding::{KahnStreams, streams};
