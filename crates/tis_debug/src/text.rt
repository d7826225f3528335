//! Words, numbers and lines of what is printed.
ghost use Rattle.std.specs.Prelude.{◌≡◌, ◌++◌, OnOk};
ghost use Rattle.tis_report.specs.Outputs.{value_text};
ghost use Rattle.tis_debug.specs.Shown.{numbered, line_of};

use tis_base::{NoMemory, Value};
use tis_report::{push_count, push_value};

/// Writes a text behind what is there.
pub(crate) fn push_text(out: &mut Vec<u8>, text: &[u8]) -> Result<(), NoMemory>
    ensures { OnOk result (out.new.items ≡ out.old.items ++ text.now) }
{
    out.extend_from_slice(text)?;
    Ok(())
}

/// Writes a word and a number behind it.
pub(crate) fn push_numbered(out: &mut Vec<u8>, word: &[u8], number: u64) -> Result<(), NoMemory>
    ensures { OnOk result (out.new.items ≡ out.old.items ++ numbered word.now number) }
{
    push_text(out, word)?;
    push_count(out, number)
}

/// Writes a line of a word and a number behind it.
pub(crate) fn push_line(out: &mut Vec<u8>, word: &[u8], number: u64) -> Result<(), NoMemory>
    ensures { OnOk result (out.new.items ≡ out.old.items ++ line_of word.now number) }
{
    push_numbered(out, word, number)?;
    push_text(out, b"\n")
}

/// Writes a word and a value behind it.
pub(crate) fn push_register(out: &mut Vec<u8>, word: &[u8], value: Value) -> Result<(), NoMemory>
    ensures { OnOk result (out.new.items ≡ out.old.items ++ (word.now ++ value_text value)) }
{
    push_text(out, word)?;
    push_value(out, value)
}
