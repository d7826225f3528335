//! The tree of a text. Parentheses aren't kept.
//!
//! A `line` is where an error in that part is reported: of an operation the line of its operator, of a call that
//! of the called name (behind `math.` and `table.` too), of an index that of its `[`, of a member that of its `.`,
//! also where it is assigned to, of a string that of its quote, of a `for` that of the word, of an entry with a
//! key that of its `[`.
use crate::text::Text;
use sqlite_items::{Boxed, Items};

/// An item of the chunk.
#[derive(Drop)]
pub enum Item {
    /// `function name(params) body end`
    Function {
        name: Text,
        params: Items<Text>,
        body: LuaBlock,
    },
    /// `name = value`
    Assign {
        name: Text,
        value: Expr,
    },
}

/// Statements, in order.
#[cycle(block)]
#[derive(Drop)]
pub struct LuaBlock {
    pub statements: Items<LuaStatement>,
}

/// A test with the block that follows where it holds.
#[cycle(block)]
#[derive(Drop)]
pub struct Arm {
    pub test: Expr,
    pub body: LuaBlock,
}

/// A statement.
#[cycle(block)]
#[derive(Drop)]
pub enum LuaStatement {
    Local {
        name: Text,
        value: Option<Expr>,
    },
    Assign {
        name: Text,
        value: Expr,
    },
    SetIndex {
        table: Expr,
        key: Expr,
        value: Expr,
        line: usize,
    },
    SetMember {
        table: Expr,
        name: Text,
        value: Expr,
        line: usize,
    },
    Call {
        call: Expr,
    },
    /// The arms of `if` and of each `elseif`, and the block of `else`.
    If {
        arms: Items<Arm>,
        otherwise: Option<LuaBlock>,
    },
    While {
        test: Expr,
        body: LuaBlock,
    },
    /// The test sees the locals of the block.
    Repeat {
        body: LuaBlock,
        test: Expr,
    },
    /// Without a step it is 1.
    For {
        name: Text,
        first: Expr,
        last: Expr,
        step: Option<Expr>,
        body: LuaBlock,
        line: usize,
    },
    Do {
        body: LuaBlock,
    },
    Break,
    Return {
        value: Option<Expr>,
    },
}

/// An expression.
#[cycle(expression)]
#[derive(Drop)]
pub enum Expr {
    Nil,
    True,
    False,
    /// At most 2^53.
    Number {
        value: i64,
    },
    Str {
        text: Text,
        line: usize,
    },
    Name {
        name: Text,
    },
    Index {
        table: Boxed<Expr>,
        key: Boxed<Expr>,
        line: usize,
    },
    Member {
        table: Boxed<Expr>,
        name: Text,
        line: usize,
    },
    Call {
        name: Text,
        args: Items<Expr>,
        line: usize,
    },
    /// `math.name(args)`
    MathCall {
        name: Text,
        args: Items<Expr>,
        line: usize,
    },
    /// `table.name(args)`
    TableCall {
        name: Text,
        args: Items<Expr>,
        line: usize,
    },
    Construct {
        entries: Items<Entry>,
    },
    Unary {
        op: UnaryOp,
        of: Boxed<Expr>,
        line: usize,
    },
    Binary {
        op: BinaryOp,
        left: Boxed<Expr>,
        right: Boxed<Expr>,
        line: usize,
    },
}

/// An item of a constructor.
#[cycle(expression)]
#[derive(Drop)]
pub enum Entry {
    Value { value: Expr },
    Named { name: Text, value: Expr },
    Keyed { key: Expr, value: Expr, line: usize },
}

#[derive(Clone, Copy, Debug, PartialEq, Eq)]
pub enum UnaryOp {
    Not,
    /// `#`
    Length,
    Minus,
}

#[derive(Clone, Copy, Debug, PartialEq, Eq)]
pub enum BinaryOp {
    Or,
    And,
    Less,
    Greater,
    LessEqual,
    GreaterEqual,
    NotEqual,
    Equal,
    /// `..`
    Join,
    Plus,
    Minus,
    Times,
    /// `/`
    Over,
    /// `%`
    Mod,
}
