//! The functions of the libraries by their names.
ghost use Rattle.std.specs.Prelude.{◌≡◌};
ghost use Rattle.std.specs.Option.{option_map};
ghost use Rattle.lua_machine.specs.Library.{math_of, table_of};
ghost use Rattle.lua_operations.specs.Functions.{math_in, table_in};

/// A function of `math`.
#[derive(Clone, Copy)]
pub enum MathFunction {
    Random,
    Floor,
    Abs,
    Min,
    Max,
}

/// A function of `table`.
#[derive(Clone, Copy)]
pub enum TableFunction {
    Insert,
    Remove,
}

/// The function of `math` of a name.
pub fn math_function(name: &[u8]) -> Option<MathFunction>
    ensures { option_map math_in result ≡ math_of name.now }
{
    if name == b"random".as_slice() {
        Some(MathFunction::Random)
    } else if name == b"floor".as_slice() {
        Some(MathFunction::Floor)
    } else if name == b"abs".as_slice() {
        Some(MathFunction::Abs)
    } else if name == b"min".as_slice() {
        Some(MathFunction::Min)
    } else if name == b"max".as_slice() {
        Some(MathFunction::Max)
    } else {
        None
    }
}

/// The function of `table` of a name.
pub fn table_function(name: &[u8]) -> Option<TableFunction>
    ensures { option_map table_in result ≡ table_of name.now }
{
    if name == b"insert".as_slice() {
        Some(TableFunction::Insert)
    } else if name == b"remove".as_slice() {
        Some(TableFunction::Remove)
    } else {
        None
    }
}
