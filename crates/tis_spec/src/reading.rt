//! Reading a specification.
ghost use Rattle.std.specs.Prelude.{◌≡◌, Ok, IfOk};
ghost use Rattle.lua_syntax.specs.Reading.{tree_of};
ghost use Rattle.tis_grid.specs.Puzzle.{IsPuzzle, puzzle_of};
ghost use Rattle.tis_grid_text.specs.GridText.{grid_of};
ghost use Rattle.tis_spec.specs.Specification.{NoGrid, refused_by, ChunkGives, Specifies};
ghost use Rattle.tis_spec.specs.Answering.{AnswersSpec};

use crate::error::SpecError;
use lua_syntax::{Chunk, parse};
use std::alloc::Global;
use tis_grid::Puzzle;
use tis_grid_text::{is_grid_text, read_grid};
use tis_puzzle::puzzle;

// The puzzle of a grid text.
fn read_text(alloc: Global, text: &[u8]) -> Result<Puzzle, SpecError>
    ensures { AnswersSpec result (λ given. given ≡ refused_by NoGrid (grid_of text.now)) }
{
    match read_grid(alloc, text) {
        Ok(puzzle) => Ok(puzzle),
        Err(why) => Err(SpecError::Grid(why)),
    }
}

// The puzzle of a chunk with a seed.
fn call_chunk(alloc: Global, chunk: &Chunk, seed: u64) -> Result<Puzzle, SpecError>
    ensures { AnswersSpec result (ChunkGives (Ok chunk.now) seed) }
{
    match puzzle(alloc, chunk, seed) {
        Ok(puzzle) => Ok(puzzle),
        Err(why) => Err(SpecError::Puzzle(why)),
    }
}

// The puzzle of the text of a chunk with a seed.
fn read_chunk(alloc: Global, text: &[u8], seed: u64) -> Result<Puzzle, SpecError>
    ensures { AnswersSpec result (ChunkGives (tree_of text.now) seed) }
{
    match parse(alloc, text) {
        Ok(chunk) => call_chunk(alloc, &chunk, seed),
        Err(why) => Err(SpecError::Syntax(why)),
    }
}

/// The puzzle that a specification gives with a seed. A text whose first line that isn't blank is `grid 1` is read as a grid text,
/// and the seed isn't used; any other text is read as a chunk of Lua, whose functions are called with the seed. The first fault is
/// answered.
pub fn read_spec(alloc: Global, text: &[u8], seed: u64) -> Result<Puzzle, SpecError>
    ensures answers { AnswersSpec result (Specifies text.now seed) }
    ensures puzzle { IfOk result (λ made. IsPuzzle (puzzle_of made)) }
{
    if is_grid_text(text) {
        read_text(alloc, text)
    } else {
        read_chunk(alloc, text, seed)
    }
}
