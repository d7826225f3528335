//! The puzzle of a specification, by calls of its functions.
ghost use Rattle.std.specs.Prelude.{◌≡◌, IsTrue, is_some, IfOk, Ok, None};
ghost use Rattle.lua_machine.specs.Tree.{items_of};
ghost use Rattle.lua_machine.specs.Functions.{function_of};
ghost use Rattle.lua_plain.specs.Plain.{plain_view};
ghost use Rattle.tis_grid.specs.Puzzle.{IsPuzzle, puzzle_of};
ghost use Rattle.tis_puzzle.specs.LuaPuzzle.{Given, called, first_missing, missing, ComesTo, ports_from, on_layout, WithPorts, WithFunctions, LuaPuzzle};
ghost use Rattle.tis_puzzle.specs.Calling.{call_error, AnswersCall, AnswersPuzzle};

use crate::entries::read_streams;
use crate::error::{PuzzleError, Wanted};
use crate::layout::read_layout;
use lua_call::call;
use lua_call::laws::defined_is_found;
use lua_machine::LuaError;
use lua_plain::Plain;
use lua_tree::Chunk;
use std::alloc::Global;
use tis_grid::Puzzle;

// Whether a chunk defines a function.
fn has(chunk: &Chunk, wanted: Wanted) -> bool
    ensures { result ≡ is_some (function_of (items_of chunk.now) (called wanted)) }
{
    defined_is_found();
    chunk.defines(wanted.function())
}

// The first of these functions that a chunk doesn't define.
fn first_missing(chunk: &Chunk, wanted: &[Wanted]) -> Option<Wanted>
    ensures { result ≡ first_missing (items_of chunk.now) wanted.now }
{
    for name in wanted {
        if !has(chunk, *name) {
            return Some(*name);
        }
    }
    None
}

// The first function that a chunk doesn't define and should.
fn missing(chunk: &Chunk) -> Option<Wanted>
    ensures { result ≡ missing (items_of chunk.now) }
{
    first_missing(
        chunk,
        &[
            Wanted::Name,
            Wanted::Description,
            Wanted::Streams,
            Wanted::Layout,
        ],
    )
}

// The refusal for a fault of a call of this function.
fn call_error(wanted: Wanted, error: LuaError) -> PuzzleError
    ensures { result ≡ call_error wanted error }
{
    match error {
        LuaError::NoMemory => PuzzleError::NoMemory,
        _ => PuzzleError::Lua {
            name: wanted,
            error,
        },
    }
}

// What a function of a chunk gives.
fn value_of(alloc: Global, chunk: &Chunk, wanted: Wanted, seed: u64) -> Result<Plain, PuzzleError>
    requires { IsTrue (is_some (function_of (items_of chunk.now) (called wanted))) }
    ensures { AnswersCall result wanted (ComesTo (items_of chunk.now) seed wanted) }
{
    defined_is_found();
    match call(alloc, chunk, wanted.function(), seed) {
        Ok(called) => Ok(called.value),
        Err(error) => Err(call_error(wanted, error)),
    }
}

// The ports on what `get_layout` gives.
fn on_layout(mut ports: Puzzle, layout: &Plain) -> Result<Puzzle, PuzzleError>
    ensures { AnswersPuzzle result (λ answer. answer ≡ on_layout (puzzle_of ports) (Given (plain_view layout.now))) }
{
    match read_layout(layout) {
        Ok(tiles) => {
            ports.tiles = tiles;
            Ok(ports)
        }
        Err(index) => Err(PuzzleError::BadLayout { index }),
    }
}

// The ports on the tiles of a chunk.
fn with_ports(alloc: Global, chunk: &Chunk, seed: u64, ports: Puzzle) -> Result<Puzzle, PuzzleError>
    requires { IsTrue (is_some (function_of (items_of chunk.now) (called Wanted.Layout))) }
    ensures { AnswersPuzzle result (WithPorts (items_of chunk.now) seed (Ok (puzzle_of ports))) }
{
    match value_of(alloc, chunk, Wanted::Layout, seed) {
        Ok(layout) => on_layout(ports, &layout),
        Err(why) => Err(why),
    }
}

// The ports of what `get_streams` gives, on the tiles of a chunk.
fn with_streams(
    alloc: Global,
    chunk: &Chunk,
    seed: u64,
    streams: &Plain,
) -> Result<Puzzle, PuzzleError>
    requires { IsTrue (is_some (function_of (items_of chunk.now) (called Wanted.Layout))) }
    ensures { AnswersPuzzle result (WithPorts (items_of chunk.now) seed (ports_from (Given (plain_view streams.now)))) }
{
    match read_streams(alloc, streams) {
        Ok(ports) => with_ports(alloc, chunk, seed, ports),
        Err(why) => Err(why),
    }
}

// The puzzle of a chunk that defines each function.
fn with_functions(alloc: Global, chunk: &Chunk, seed: u64) -> Result<Puzzle, PuzzleError>
    requires { missing (items_of chunk.now) ≡ None }
    ensures { AnswersPuzzle result (WithFunctions (items_of chunk.now) seed None) }
{
    match value_of(alloc, chunk, Wanted::Streams, seed) {
        Ok(streams) => with_streams(alloc, chunk, seed, &streams),
        Err(why) => Err(why),
    }
}

/// The puzzle of a specification with a seed: the inputs and outputs of what `get_streams` gives, on the tiles of what `get_layout`
/// gives. Refused is, in this order, the first of the functions that isn't defined, a fault of the call of `get_streams`, its
/// first wrong entry, a fault of the call of `get_layout`, and its first wrong value.
pub fn puzzle(alloc: Global, chunk: &Chunk, seed: u64) -> Result<Puzzle, PuzzleError>
    ensures answers { AnswersPuzzle result (LuaPuzzle (items_of chunk.now) seed) }
    ensures puzzle { IfOk result (λ made. IsPuzzle (puzzle_of made)) }
{
    match missing(chunk) {
        Some(name) => Err(PuzzleError::NoFunction { name }),
        None => with_functions(alloc, chunk, seed),
    }
}
