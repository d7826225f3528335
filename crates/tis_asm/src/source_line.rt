//! A line of code before it is read.
ghost use Rattle.std.specs.Prelude.{◌≡◌, ◌<◌, length, map, IfOk};
ghost use Rattle.tis_asm.specs.Assembling.{capital};
ghost use Rattle.tis_asm.specs.LineView.{source_of, source_view};

use crate::words::{capital_of, without_comment};
use std::alloc::{AllocError, Global};
use tis_base::NoMemory;

/// Whether the line has more than 80 bytes, and its bytes in capitals, without the comment.
#[derive(Drop)]
pub(crate) struct SourceLine {
    pub(crate) long: bool,
    pub(crate) code: Vec<u8>,
}

// The bytes in capitals.
fn capitals(alloc: Global, bytes: &[u8]) -> Result<Vec<u8>, AllocError>
    ensures { IfOk result (λ v. v.items ≡ map capital bytes.now) }
{
    bytes.iter().map(|byte| capital_of(*byte)).collect(alloc)
}

/// One line.
pub(crate) fn source_line(alloc: Global, line: &[u8]) -> Result<SourceLine, NoMemory>
    ensures { IfOk result (λ s. source_view s ≡ source_of line.now) }
{
    let code = capitals(alloc, without_comment(line))?;
    let long = 80 < line.len();
    Ok(SourceLine { long, code })
}
