//! An output that draws.
ghost use Rattle.std.specs.Prelude.{◌≡◌, ◌<◌, ◌++◌, take, OnOk};
ghost use Rattle.tis_devices.specs.Picture.{picture, ROWS};
ghost use Rattle.tis_report.specs.Outputs.{row_text, rows_text, image_text};

use crate::stream::push_head;
use tis_base::{NoMemory, Values};
use tis_devices::Console;

// How many columns and rows the console has.
const WIDTH: u8 = 30;

const HEIGHT: u8 = 18;

// The console on which these values were drawn.
fn drawn(values: &Values) -> Console
    ensures { result ≡ picture values.now.items }
{
    let mut console = Console::new();
    for index in 0..values.len() {
        console.paint(values.at(index));
    }
    console
}

// Writes a row of points as a line of digits.
fn push_row(out: &mut Vec<u8>, console: &Console, y: u8) -> Result<(), NoMemory>
    requires { y < ROWS }
    ensures { OnOk result (out.new.items ≡ out.old.items ++ row_text console.now.colours y) }
{
    for x in 0..WIDTH {
        out.push(b'0' + console.pixel(x, y))?;
    }
    out.push(b'\n')?;
    Ok(())
}

// Writes the rows of a picture, from the top.
fn push_rows(out: &mut Vec<u8>, console: &Console) -> Result<(), NoMemory>
    ensures { OnOk result (out.new.items ≡ out.old.items ++ rows_text console.now.colours) }
{
    for y in 0..HEIGHT {
        push_row(out, console, y)?;
    }
    Ok(())
}

/// Writes the picture that these values draw.
pub(crate) fn push_image(out: &mut Vec<u8>, position: u8, values: &Values) -> Result<(), NoMemory>
    ensures { OnOk result (out.new.items ≡ out.old.items ++ image_text position values.now.items) }
{
    push_head(out, b"image ", position)?;
    out.push(b'\n')?;
    let console = drawn(values);
    push_rows(out, &console)?;
    Ok(())
}
