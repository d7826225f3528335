//! Where a machine is.
use lua_tree::{Expr, LuaStatement};

/// At an expression or a statement, or back at the innermost frame.
#[derive(Clone, Copy)]
pub enum Control<'a> {
    Evaluate(&'a Expr),
    Execute(&'a LuaStatement),
    /// At an assignment of the chunk.
    Assign(&'a [u8], &'a Expr),
    /// Back from a statement.
    Goes,
    Breaks,
    /// Back with the newest value.
    Returns,
}
