//! Tables by the number of a name, which have 0 where they end.
ghost use Rattle.std.specs.Prelude.{◌≡◌, ℕ, ◌<◌, get_or, length, OnOk};

use tis_base::NoMemory;

/// What a table has for a name, 0 where it ends before it.
#[inline(always)]
pub(crate) fn entry(table: &[usize], name: usize) -> usize
    ensures { result ≡ get_or table.now name 0 }
{
    if name < table.len() { table[name] } else { 0 }
}

/// Makes a table long enough for a name.
pub(crate) fn reach(table: &mut Vec<usize>, name: usize) -> Result<(), NoMemory>
    ensures inside { OnOk result (name < length table.new.items) }
    ensures same { (n : ℕ) → get_or table.new.items n 0 ≡ get_or table.old.items n 0 }
{
    while table.len() <= name {
        table.push(0)?;
    }
    Ok(())
}
