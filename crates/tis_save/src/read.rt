//! A text is read as a save.
ghost use Rattle.std.specs.Prelude.{◌≡◌, ◌≤◌, IfOk};
ghost use Rattle.tis_save.specs.Reading.{compute_count, save_of};
ghost use Rattle.tis_save.specs.Refusing.{Answers};
ghost use Rattle.tis_save.specs.Soundness.{AreSound};

use crate::block::{placed, read_blocks};
use crate::error::SaveError;
use crate::heads::check_lines;
use std::alloc::Global;
use tis_asm::Programs;
use tis_base::Tiles;

// How many tiles compute. Their shape, of which the clause of `shape` tells, has no more than twelve.
fn block_count(tiles: Tiles) -> u8
    ensures count { result ≡ compute_count tiles }
    ensures few { result ≤ 48 }
{
    tiles.shape();
    tiles.compute_count()
}

/// The programs that a text gives on these tiles. A tile without a block has the empty one.
pub fn read_save(alloc: Global, text: &[u8], tiles: Tiles) -> Result<Programs, SaveError>
    ensures answer { Answers (λ p. p) result (save_of text.now tiles) }
    ensures sound { IfOk result (λ p. AreSound tiles p) }
{
    check_lines(text, block_count(tiles))?;
    let blocks = read_blocks(alloc, text)?;
    Ok(placed(alloc, tiles, &blocks)?)
}
