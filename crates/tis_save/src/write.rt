//! The text of a save.
ghost use Rattle.std.specs.Prelude.{◌≡◌, ◌+◌, ◌<◌, ◌++◌, ◌∷◌, decimal, if◌then◌else◌, ℕ, Ok, OnOk, IfOk};
ghost use Rattle.tis_base.specs.Answers.{Gives};
ghost use Rattle.tis_base.specs.Tiles.{is_compute};
ghost use Rattle.tis_asm.specs.Programs.{IsSound, program_at};
ghost use Rattle.tis_save.specs.Reading.{save_of};
ghost use Rattle.tis_save.specs.Writing.{block_text, save_text};

use std::alloc::Global;
use tis_asm::{Program, Programs, print};
use tis_base::{NoMemory, Tile, TileKind, push_number};

// Writes the block of a program behind what is there: its head, its code and an empty line. It
// writes nothing for the empty program.
fn push_block(
    alloc: Global,
    out: &mut Vec<u8>,
    block: u8,
    program: &Program,
) -> Result<(), NoMemory>
    ensures { OnOk result (out.new.items ≡ out.old.items ++ block_text (64 ∷ decimal block) program.now) }
{
    if program.is_empty() {
        return Ok(());
    }
    let code = print(alloc, program)?;
    out.push(b'@')?;
    push_number(out, i64::from(block))?;
    out.push(b'\n')?;
    out.extend_from_slice(&code)?;
    out.push(b'\n')?;
    Ok(())
}

/// The number of the next block, behind a tile of this kind.
pub(crate) fn block_after(block: u8, kind: TileKind) -> u8
    requires { block < 255 }
    ensures { result ≡ block + (if is_compute kind then 1 else 0) }
{
    match kind {
        TileKind::Compute => block + 1,
        TileKind::Memory | TileKind::Damaged => block,
    }
}

/// The canonical save: a block for each compute tile with instructions, in reading order. Where each
/// program is sound, it is read as these programs.
pub fn write_save(alloc: Global, programs: &Programs) -> Result<Vec<u8>, NoMemory>
    ensures text { Gives (λ text. text.items) result (save_text programs.now) }
    ensures reads_back { ((tile : ℕ) → IsSound (program_at programs.now.programs tile)) → IfOk result (λ text. save_of text.items programs.now.tiles ≡ Ok programs.now) }
{
    let mut out = Vec::new(alloc);
    let tiles = programs.tiles();
    let shape = tiles.shape();
    let mut block = 0;
    for number in 0..shape.columns * shape.rows {
        let tile = Tile { number };
        push_block(alloc, &mut out, block, programs.of(tile))?;
        block = block_after(block, tiles.kind(tile));
    }
    Ok(out)
}
