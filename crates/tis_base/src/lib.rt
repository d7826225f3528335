//! What every crate of the machine stands on: its numbers, its lists of numbers, its tiles, the lines of a
//! text, and the store and the sink outside of it.
//!
//! # What it is for
//!
//! - [`Value`] is a number from -999 to 999, and [`Values`] a list of them that grows at its end.
//! - [`Tiles`] is a grid: a [`Shape`], and a [`TileKind`] for each [`Tile`], with its neighbours.
//! - [`lines`] gives the lines of a text, and [`push_number`] writes a number.
//! - [`Store`] keeps texts under names, and [`Sink`] takes a report. [`FileStore`] and [`OutSink`] are those of
//!   a real system, [`MemStore`] and [`MemSink`] those of a test, which fail the calls that they are told to.
//!
//! # What the crates above use
//!
//! A `Value` is never outside of its range, and a sum or a difference is held at its ends. Each item of a
//! `Values` is a value. A store and a sink count their own answers: with a fault the count of faults rises, with
//! a name that isn't there that of misses, up to 2^64 - 1, and each stays with every other answer. Where a
//! store tells its texts, `fetch` gives the text under the name, and `keep` changes that name alone or, where
//! it fails, nothing.
//!
//! # An example
//!
//! ```text
//! let mut store = MemStore::honest(alloc);
//! store.set("numbers", b"7\r\n8")?;
//! let text = store.fetch(alloc, "numbers")?;
//! for line in lines(&text) { .. }                   // 7 and then 8, without the CR
//! let mut values = Values::new(alloc);
//! values.reserve(2)?;                               // from here on two pushes take no memory
//! values.push_spared(Value::clamp(990).add(Value::clamp(20)));      // 999
//! ```
//!
//! # What the calls cost
//!
//! Those of `Value`, `Tiles` and `Tile`, and `len`, `at`, `spare`, `push_spared` and `cut` of `Values`, take
//! no memory and the same time each, `Tiles::compute_count` but for the tiles that it counts. `push` takes
//! memory now and then, and copies the list then. A line is found by looking once at each of its bytes. A
//! `MemStore` looks a name up among n names in log n steps. A real file is read in pieces of 8 KiB, and no
//! file or output is tried more than 16,777,217 times.
//!
//! # What it doesn't do
//!
//! It keeps no file open and nothing in hand behind a call, tells nothing of what a real file holds, and
//! doesn't know what a text means. A `keep` of a real file that fails may leave it cut short.
#![tactic(auto)]

mod calls;
mod file_store;
mod mem_sink;
mod mem_store;
mod memory;
mod number;
mod out_sink;
mod sink;
mod store;
mod text_lines;
mod tiles;
mod transfer;
mod turns;
mod value;
mod values;

pub use file_store::FileStore;
pub use mem_sink::MemSink;
pub use mem_store::MemStore;
pub use memory::NoMemory;
pub use number::push_number;
pub use out_sink::OutSink;
pub use sink::{Sink, SinkError};
pub use store::{Store, StoreError};
pub use text_lines::{TextLines, lines};
pub use tiles::{Dir, Shape, Tile, TileKind, Tiles};
pub use value::Value;
pub use values::Values;

#[cfg(test)]
mod tests;
