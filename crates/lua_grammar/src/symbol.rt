//! The symbols of the grammar, and what is done between them.
ghost use Rattle.std.specs.Prelude.{◌≡◌, ◌≤◌, length};

use arrayvec::ArrayVec;
use lua_tokens::Role;
use lua_tree::{BinaryOp, UnaryOp};
use std::marker::Model;

/// A token that has to come.
#[derive(Clone, Copy)]
pub enum Mark {
    Name,
    Assign,
    Comma,
    End,
    Until,
    LeftParen,
    RightParen,
    RightBracket,
}

/// What is made of the parts that were read last.
#[derive(Clone, Copy)]
pub enum Action {
    Nothing,
    /// What was opened since is closed: so many are open again.
    Restore(usize),
    Nil,
    True,
    False,
    Number(i64),
    Str(usize),
    Name,
    Index(usize),
    Member(usize),
    StartArguments,
    AddArgument,
    Call(usize),
    MathCall(usize),
    TableCall(usize),
    StartEntries,
    AddValue,
    AddName,
    AddNamed,
    AddKeyed(usize),
    Construct,
    Unary(UnaryOp, usize),
    Binary(BinaryOp, usize),
    StartBlock,
    LocalWith,
    LocalWithout,
    Assign,
    SetIndex(usize),
    SetMember(usize),
    CallStatement,
    StartArms,
    AddArm,
    If,
    IfElse,
    While,
    Repeat,
    For(usize),
    ForStep(usize),
    Do,
    Break,
    ReturnWith,
    ReturnWithout,
    StartParameters,
    AddParameter,
    Function,
    Assignment,
}

/// A symbol of the grammar. A number is the line of a token that came before, a truth value says
/// whether a loop stands around.
#[derive(Clone, Copy, Default)]
pub enum Symbol {
    #[default]
    Chunk,
    Token(Mark),
    Semicolon,
    Parameters,
    MoreParameters,
    Block(bool),
    LocalValue,
    ReturnValue,
    ThenBlock(bool),
    Arms(bool),
    DoBlock,
    ForStep(usize),
    Target(Role, usize),
    MemberTarget(Role, usize),
    TargetMember(Role, usize, usize),
    TargetIndex(usize),
    TargetCall,
    Expression,
    /// The key of an index, up to and with the closing bracket.
    Key,
    Operand,
    /// Operators that bind at least so tightly.
    Operators(u8),
    AfterName(Role, usize),
    LibraryName(Role, usize),
    AfterMember(Role, usize, usize),
    Suffix,
    Arguments,
    MoreArguments,
    Entries,
    MoreEntries,
    EntryName(Role, usize),
    Make(Action),
}

/// A few symbols, in order.
#[derive(Drop)]
pub struct Body {
    symbols: ArrayVec<Symbol, 9>,
}

impl Model for Body {
    ghost use Rattle.std.specs.Prelude.{List};
    ghost use Rattle.lua_grammar.specs.declared.symbol.Symbol.{Symbol};

    ghost Value = { List Symbol };

    ghost view = { λ b. b.symbols.items };
}

impl Body {
    pub fn new(symbols: &[Symbol]) -> Body
        requires { length symbols.now ≤ 9 }
        ensures { result ≡ symbols.now }
    {
        let mut body = Body {
            symbols: ArrayVec::new(),
        };
        let _ = body.symbols.try_extend_from_slice(symbols);
        body
    }

    pub fn symbols(&self) -> &[Symbol]
        ensures { result.now ≡ self.now }
    {
        self.symbols.as_slice()
    }
}

/// What becomes of a symbol before a token.
#[derive(Drop)]
pub enum Row {
    /// The token is taken, and these are left to come.
    Takes(Body),
    /// The token is taken and opens something, and these are left to come.
    Opens(Body),
    /// An expression begins with the token, and these come behind its first operand.
    Begins(Body),
    /// The symbol ends before the token.
    Passes(Action),
    /// The token can't come.
    Refuses,
}

pub fn takes(symbols: &[Symbol]) -> Row
    requires { length symbols.now ≤ 9 }
    ensures { result ≡ Row.Takes symbols.now }
{
    Row::Takes(Body::new(symbols))
}

pub fn opens(symbols: &[Symbol]) -> Row
    requires { length symbols.now ≤ 9 }
    ensures { result ≡ Row.Opens symbols.now }
{
    Row::Opens(Body::new(symbols))
}

pub fn begins(symbols: &[Symbol]) -> Row
    requires { length symbols.now ≤ 9 }
    ensures { result ≡ Row.Begins symbols.now }
{
    Row::Begins(Body::new(symbols))
}
