//! The blocks of a save are read, and each tile gets the program of its block.
ghost use Rattle.std.specs.Prelude.{◌≡◌, ◌<◌, [], map, length, slice_set, if◌then◌else◌};
ghost use Rattle.std.specs.List.{range_with_len};
ghost use Rattle.tis_base.specs.Answers.{Gives};
ghost use Rattle.tis_base.specs.Lines.{text_lines};
ghost use Rattle.tis_base.specs.Tiles.{IsOnGrid};
ghost use Rattle.tis_asm.specs.Gathering.{assembled_with};
ghost use Rattle.tis_save.specs.Reading.{blocks_of, block_programs, computes, program_in, program_on};
ghost use Rattle.tis_save.specs.Refusing.{Answers};
ghost use Rattle.tis_save.specs.Heads.{block_number as number_in_line, HaveSmallHeads};
ghost use Rattle.tis_save.specs.Blocks.{blocks_view, closed, error_of_block};

use crate::error::SaveError;
use crate::head::{is_head, number_of_head};
use crate::write::block_after;
use std::alloc::Global;
use tis_asm::{AsmError, Assembler, Program, Programs};
use tis_base::{NoMemory, Tile, TileKind, Tiles, lines};

/// The program of a block, with the number of its head.
#[derive(Drop)]
pub(crate) struct ReadBlock {
    number: u8,
    program: Program,
}

// The number of the block that a head begins.
fn block_number(line: &[u8]) -> u8
    requires { number_in_line line.now < 256 }
    ensures { result ≡ number_in_line line.now }
{
    number_of_head(line).unwrap_or(0) as u8
}

// The refusal of a block's code.
fn block_error(block: u8, error: AsmError) -> SaveError
    ensures { result ≡ error_of_block block error }
{
    match error {
        AsmError::NoMemory => SaveError::NoMemory,
        _ => SaveError::Asm { block, error },
    }
}

// One more block at the end, with the program of the lines that were taken; none where no block has
// begun.
fn close(
    alloc: Global,
    blocks: &mut Vec<ReadBlock>,
    begun: Option<u8>,
    code: &Assembler,
) -> Result<(), SaveError>
    ensures { Answers (λ _. blocks_view blocks.new.items) result (closed (blocks_view blocks.old.items) begun (assembled_with code.now [])) }
{
    let Some(number) = begun else {
        return Ok(());
    };
    match code.finish(alloc) {
        Ok(program) => {
            blocks.push(ReadBlock { number, program })?;
            Ok(())
        }
        Err(error) => Err(block_error(number, error)),
    }
}

/// The blocks of a text, each with its program.
pub(crate) fn read_blocks(alloc: Global, text: &[u8]) -> Result<Vec<ReadBlock>, SaveError>
    requires { HaveSmallHeads (text_lines text.now) }
    ensures { Answers (λ blocks. blocks_view blocks.items) result (block_programs (blocks_of (text_lines text.now))) }
{
    let mut blocks = Vec::new(alloc);
    let mut begun = None;
    let mut code = Assembler::new(alloc);
    for line in lines(text) {
        if is_head(line) {
            close(alloc, &mut blocks, begun, &code)?;
            begun = Some(block_number(line));
            code = Assembler::new(alloc);
        } else {
            code.push(alloc, line)?;
        }
    }
    close(alloc, &mut blocks, begun, &code)?;
    Ok(blocks)
}

// The program of the block with a number, the empty one where no block has it. There are no more
// blocks than compute tiles.
fn program_of(blocks: &[ReadBlock], number: u8) -> Program
    ensures { result ≡ program_in (blocks_view blocks.now) number }
{
    for block in blocks {
        if block.number == number {
            return block.program.copy();
        }
    }
    Program::new()
}

// Gives a compute tile the program of the block with this number.
fn place_block(programs: &mut Programs, tile: Tile, blocks: &[ReadBlock], block: u8)
    requires { IsOnGrid programs.old.tiles tile.number }
    ensures { programs.new ≡ record programs.old { programs = if computes programs.old.tiles tile.number then slice_set programs.old.programs tile.number (program_in (blocks_view blocks.now) block) else programs.old.programs } }
{
    if programs.tiles().kind(tile) == TileKind::Compute {
        programs.set(tile, program_of(blocks, block));
    }
}

/// Each compute tile has the program of its block.
pub(crate) fn placed(
    alloc: Global,
    tiles: Tiles,
    blocks: &[ReadBlock],
) -> Result<Programs, NoMemory>
    ensures { Gives (λ p. p) result (record { tiles = tiles; programs = map (program_on tiles (blocks_view blocks.now)) (range_with_len 0 (length tiles.kinds)) }) }
{
    let mut programs = Programs::empty(alloc, tiles)?;
    let shape = tiles.shape();
    let mut block = 0;
    for number in 0..shape.columns * shape.rows {
        let tile = Tile { number };
        place_block(&mut programs, tile, blocks, block);
        block = block_after(block, tiles.kind(tile));
    }
    Ok(programs)
}
