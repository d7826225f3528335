//! The parts of an expression that are still to be evaluated.
use lua_tree::Expr;

/// Expressions that are evaluated one after the other.
#[derive(Clone, Copy)]
pub enum Parts<'a> {
    Done,
    One(&'a Expr),
    Two(&'a Expr, &'a Expr),
    Several(&'a [Expr]),
}
