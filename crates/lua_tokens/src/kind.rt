//! What a token can be.
use lua_tree::BinaryOp;

/// What a name can stand for besides itself: `math` and `table` are libraries.
#[derive(Clone, Copy)]
pub enum Role {
    Plain,
    Math,
    Table,
}

/// What kind of token a piece of the text is.
#[derive(Clone, Copy)]
pub enum Kind {
    /// A space, a tab, a line end or a comment, which is no token.
    Blank,
    /// What begins no token.
    Bad,
    /// Behind the last byte.
    EndOfText,
    Break,
    Do,
    Else,
    ElseIf,
    End,
    False,
    For,
    Function,
    Goto,
    If,
    In,
    Local,
    Nil,
    Not,
    Repeat,
    Return,
    Then,
    True,
    Until,
    While,
    Name(Role),
    Str,
    Number(i64),
    /// A binary operator but `-`, which is unary too.
    Operator(BinaryOp),
    Minus,
    Hash,
    Assign,
    LeftParen,
    RightParen,
    LeftBrace,
    RightBrace,
    LeftBracket,
    RightBracket,
    Semicolon,
    Comma,
    Dot,
}
