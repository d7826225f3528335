//! The one call that does all that the program does.
//!
//! # What it is for
//!
//! [`tool`] takes the words of a command, a store and a sink, does what the words say, and answers a
//! [`Status`]. The program hands it real files and standard output; a test hands it those in memory.
//! [`describe`] gives the line that says why, and `Status::number` the number that the program ends with.
//!
//! # What the layer above uses
//!
//! The clauses of `tool`: each answer has its cause, nothing but what the command keeps or puts has changed,
//! and where `compile` is done, its save is read back to programs that follow the network in every order.
//! `docs/promises.md` has them in plain words. What is promised of the programs comes from `net_column`, whose
//! clauses are all that the proofs here use of it. Below `tool`, `specs/Commands.antt` says of each command what it
//! fetches, where what it makes goes, what it comes to, and what is promised; `specs/Outcomes.antt` says what each
//! status means, for any command.
//!
//! # An example
//!
//! ```text
//! let mut store = MemStore::honest(alloc);
//! store.set("a.net", text)?;
//! let mut out = MemSink::honest(alloc);
//! let status = tool(alloc, &words, &mut store, &mut out);     // the words compile, a.net and a.save
//! assert_eq!(status, Status::Done);
//! ```
//!
//! # What it costs
//!
//! A `compile` goes over its text from left to right once, and holds the text, the network, its programs and
//! the save in memory. A `net` holds its texts, a list for each channel and output, and the report. A `run`, an `order`, a `replay` or a `debug` holds its texts, the grid with two bytes for each value of an
//! output, and the report; a `grade` so many grids as it has seeds. Where the specification is Lua, each seed takes a tree of the text and two calls, of at most
//! 500,000 units each, whose memory is given back before the grid is made.
//!
//! # What it doesn't do
//!
//! It opens no file and prints nothing by itself: the store and the sink do.
#![tactic(auto)]

mod command;
mod describing;
mod grades;
mod laws;
mod nets;
mod run;
mod runs;
mod status;

pub use describing::describe;
pub use laws::{answers_are_one, reports_answer};
pub use run::tool;
pub use status::{Refusal, Status};
