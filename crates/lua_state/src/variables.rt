//! Variables.
use lua_store::SmallValue;

/// A variable: the place of its name among the texts that are held, and its value.
#[derive(Clone, Copy, Debug)]
pub struct Variable {
    pub name: usize,
    pub value: SmallValue,
}
