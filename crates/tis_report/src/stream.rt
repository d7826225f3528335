//! An output that keeps its values.
ghost use Rattle.std.specs.Prelude.{◌≡◌, ◌++◌, ◌∷◌, [], flat_map, take, codes, decimal, OnOk};
ghost use Rattle.tis_report.specs.Outputs.{value_text, stream_text};

use tis_base::{NoMemory, Value, Values, push_number};

/// Writes a word and a position behind what is there.
pub(crate) fn push_head(out: &mut Vec<u8>, word: &[u8], position: u8) -> Result<(), NoMemory>
    ensures { OnOk result (out.new.items ≡ out.old.items ++ (word.now ++ decimal position)) }
{
    out.extend_from_slice(word)?;
    push_number(out, i64::from(position))
}

/// Writes a value behind a blank.
pub fn push_value(out: &mut Vec<u8>, value: Value) -> Result<(), NoMemory>
    ensures { OnOk result (out.new.items ≡ out.old.items ++ value_text value) }
{
    out.push(b' ')?;
    push_number(out, i64::from(value.get()))
}

// Writes values, each behind a blank.
fn push_values(out: &mut Vec<u8>, values: &Values) -> Result<(), NoMemory>
    ensures { OnOk result (out.new.items ≡ out.old.items ++ flat_map value_text values.now.items) }
{
    for index in 0..values.len() {
        push_value(out, values.at(index))?;
    }
    Ok(())
}

/// Writes the line of an output that has taken these values, or none yet.
pub fn push_stream(out: &mut Vec<u8>, position: u8, values: &Values) -> Result<(), NoMemory>
    ensures { OnOk result (out.new.items ≡ out.old.items ++ stream_text position values.now.items) }
{
    push_head(out, b"out ", position)?;
    push_values(out, values)?;
    out.push(b'\n')?;
    Ok(())
}
