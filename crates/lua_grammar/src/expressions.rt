//! The rows of expressions.
ghost use Rattle.std.specs.Prelude.{◌≡◌, [], ◌∷◌};
ghost use Rattle.lua_grammar.specs.Table as spec;

use crate::symbol::Symbol::{Make, Token};
use crate::symbol::{Action, Mark, Row, Symbol, begins, opens, takes};
use lua_tokens::{Kind, Role};
use lua_tree::{BinaryOp, UnaryOp};

pub fn is_library(role: Role) -> bool
    ensures { result ≡ spec.is_library role }
{
    match role {
        Role::Plain => false,
        Role::Math | Role::Table => true,
    }
}

pub fn library_call(role: Role, line: usize) -> Action
    ensures { result ≡ spec.library_call role line }
{
    match role {
        Role::Math => Action::MathCall(line),
        Role::Table => Action::TableCall(line),
        Role::Plain => Action::Call(line),
    }
}

fn level(op: BinaryOp) -> u8
    ensures { result ≡ spec.level op }
{
    match op {
        BinaryOp::Or => 1,
        BinaryOp::And => 2,
        BinaryOp::Less
        | BinaryOp::Greater
        | BinaryOp::LessEqual
        | BinaryOp::GreaterEqual
        | BinaryOp::NotEqual
        | BinaryOp::Equal => 3,
        BinaryOp::Join => 4,
        BinaryOp::Plus | BinaryOp::Minus => 5,
        BinaryOp::Times | BinaryOp::Over | BinaryOp::Mod => 6,
    }
}

fn right_level(op: BinaryOp) -> u8
    ensures { result ≡ spec.right_level op }
{
    match op {
        BinaryOp::Or => 2,
        BinaryOp::And => 3,
        BinaryOp::Less
        | BinaryOp::Greater
        | BinaryOp::LessEqual
        | BinaryOp::GreaterEqual
        | BinaryOp::NotEqual
        | BinaryOp::Equal
        | BinaryOp::Join => 4,
        BinaryOp::Plus | BinaryOp::Minus => 6,
        BinaryOp::Times | BinaryOp::Over | BinaryOp::Mod => 7,
    }
}

fn binary_of(kind: Kind) -> Option<BinaryOp>
    ensures { result ≡ spec.binary_of kind }
{
    match kind {
        Kind::Operator(op) => Some(op),
        Kind::Minus => Some(BinaryOp::Minus),
        _ => None,
    }
}

pub fn operand_row(opened: usize, kind: Kind, line: usize) -> Row
    ensures { result ≡ spec.operand_row opened kind line }
{
    match kind {
        Kind::Nil => takes(&[Make(Action::Nil)]),
        Kind::True => takes(&[Make(Action::True)]),
        Kind::False => takes(&[Make(Action::False)]),
        Kind::Number(value) => takes(&[Make(Action::Number(value))]),
        Kind::Str => takes(&[Make(Action::Str(line))]),
        Kind::Name(role) => takes(&[Symbol::AfterName(role, line), Symbol::Suffix]),
        Kind::LeftParen => opens(&[
            Symbol::Expression,
            Token(Mark::RightParen),
            Make(Action::Restore(opened)),
        ]),
        Kind::LeftBrace => opens(&[
            Make(Action::StartEntries),
            Symbol::Entries,
            Make(Action::Construct),
            Make(Action::Restore(opened)),
        ]),
        Kind::Not => opens(&[Symbol::Operand, Make(Action::Unary(UnaryOp::Not, line))]),
        Kind::Minus => opens(&[Symbol::Operand, Make(Action::Unary(UnaryOp::Minus, line))]),
        Kind::Hash => opens(&[Symbol::Operand, Make(Action::Unary(UnaryOp::Length, line))]),
        _ => Row::Refuses,
    }
}

pub fn begins_expression(kind: Kind) -> bool
    ensures { result ≡ spec.begins_expression kind }
{
    match kind {
        Kind::Nil
        | Kind::True
        | Kind::False
        | Kind::Number(_)
        | Kind::Str
        | Kind::Name(_)
        | Kind::LeftParen
        | Kind::LeftBrace
        | Kind::Not
        | Kind::Minus
        | Kind::Hash => true,
        _ => false,
    }
}

pub fn operators_row(least: u8, kind: Kind, line: usize) -> Row
    ensures { result ≡ spec.operators_row least kind line }
{
    match binary_of(kind) {
        Some(op) if least <= level(op) => opens(&[
            Symbol::Operand,
            Symbol::Operators(right_level(op)),
            Make(Action::Binary(op, line)),
            Symbol::Operators(least),
        ]),
        _ => Row::Passes(Action::Nothing),
    }
}

pub fn after_name_row(role: Role, name_line: usize, kind: Kind, line: usize) -> Row
    ensures { result ≡ spec.after_name_row role name_line kind line }
{
    match kind {
        Kind::LeftParen => opens(&[
            Make(Action::StartArguments),
            Symbol::Arguments,
            Make(Action::Call(name_line)),
        ]),
        Kind::Dot if is_library(role) => {
            opens(&[Make(Action::Name), Symbol::LibraryName(role, line)])
        }
        _ => Row::Passes(Action::Name),
    }
}

pub fn library_name_row(role: Role, dot_line: usize, kind: Kind, line: usize) -> Row
    ensures { result ≡ spec.library_name_row role dot_line kind line }
{
    match kind {
        Kind::Name(_) => takes(&[Symbol::AfterMember(role, dot_line, line)]),
        _ => Row::Refuses,
    }
}

pub fn after_member_row(role: Role, dot_line: usize, name_line: usize, kind: Kind) -> Row
    ensures { result ≡ spec.after_member_row role dot_line name_line kind }
{
    match kind {
        Kind::LeftParen => opens(&[
            Make(Action::StartArguments),
            Symbol::Arguments,
            Make(library_call(role, name_line)),
        ]),
        _ => Row::Passes(Action::Member(dot_line)),
    }
}

pub fn suffix_row(opened: usize, kind: Kind, line: usize) -> Row
    ensures { result ≡ spec.suffix_row opened kind line }
{
    match kind {
        Kind::Dot => opens(&[
            Token(Mark::Name),
            Make(Action::Member(line)),
            Symbol::Suffix,
        ]),
        Kind::LeftBracket => opens(&[Symbol::Key, Make(Action::Index(line)), Symbol::Suffix]),
        _ => Row::Passes(Action::Nothing),
    }
}

/// The key of an index, and its closing bracket.
pub fn key_row(opened: usize) -> Row
    ensures { result ≡ spec.key_row opened }
{
    begins(&[
        Symbol::Operators(1),
        Token(Mark::RightBracket),
        Make(Action::Restore(opened)),
    ])
}

pub fn arguments_row(opened: usize, kind: Kind) -> Row
    ensures { result ≡ spec.arguments_row opened kind }
{
    match kind {
        Kind::RightParen => takes(&[]),
        _ => begins(&[
            Symbol::Operators(1),
            Make(Action::AddArgument),
            Make(Action::Restore(opened)),
            Symbol::MoreArguments,
        ]),
    }
}

pub fn more_arguments_row(opened: usize, kind: Kind) -> Row
    ensures { result ≡ spec.more_arguments_row opened kind }
{
    match kind {
        Kind::Comma => takes(&[
            Symbol::Expression,
            Make(Action::AddArgument),
            Make(Action::Restore(opened)),
            Symbol::MoreArguments,
        ]),
        Kind::RightParen => takes(&[]),
        _ => Row::Refuses,
    }
}

pub fn entries_row(opened: usize, kind: Kind, line: usize) -> Row
    ensures { result ≡ spec.entries_row opened kind line }
{
    match kind {
        Kind::RightBrace => takes(&[]),
        Kind::LeftBracket => takes(&[
            Symbol::Expression,
            Token(Mark::RightBracket),
            Token(Mark::Assign),
            Symbol::Expression,
            Make(Action::AddKeyed(line)),
            Make(Action::Restore(opened)),
            Symbol::MoreEntries,
        ]),
        Kind::Name(role) => takes(&[
            Symbol::EntryName(role, line),
            Make(Action::Restore(opened)),
            Symbol::MoreEntries,
        ]),
        _ => begins(&[
            Symbol::Operators(1),
            Make(Action::AddValue),
            Make(Action::Restore(opened)),
            Symbol::MoreEntries,
        ]),
    }
}

pub fn more_entries_row(kind: Kind) -> Row
    ensures { result ≡ spec.more_entries_row kind }
{
    match kind {
        Kind::Comma | Kind::Semicolon => takes(&[Symbol::Entries]),
        Kind::RightBrace => takes(&[]),
        _ => Row::Refuses,
    }
}

fn entry_operation(kind: Kind, line: usize) -> Row
    ensures { result ≡ spec.entry_operation (spec.binary_of kind) line }
{
    match binary_of(kind) {
        Some(op) => opens(&[
            Make(Action::Name),
            Symbol::Operand,
            Symbol::Operators(right_level(op)),
            Make(Action::Binary(op, line)),
            Symbol::Operators(1),
            Make(Action::AddValue),
        ]),
        None => Row::Passes(Action::AddName),
    }
}

// Behind a name and a dot, with which an item begins.
fn entry_member(role: Role, line: usize) -> Row
    ensures { result ≡ spec.entry_member role line }
{
    if is_library(role) {
        return opens(&[
            Make(Action::Name),
            Symbol::LibraryName(role, line),
            Symbol::Suffix,
            Symbol::Operators(1),
            Make(Action::AddValue),
        ]);
    }
    opens(&[
        Make(Action::Name),
        Token(Mark::Name),
        Make(Action::Member(line)),
        Symbol::Suffix,
        Symbol::Operators(1),
        Make(Action::AddValue),
    ])
}

pub fn entry_name_row(opened: usize, role: Role, name_line: usize, kind: Kind, line: usize) -> Row
    ensures { result ≡ spec.entry_name_row opened role name_line kind line }
{
    match kind {
        Kind::Assign => takes(&[Symbol::Expression, Make(Action::AddNamed)]),
        Kind::LeftParen => opens(&[
            Make(Action::StartArguments),
            Symbol::Arguments,
            Make(Action::Call(name_line)),
            Symbol::Suffix,
            Symbol::Operators(1),
            Make(Action::AddValue),
        ]),
        Kind::LeftBracket => opens(&[
            Make(Action::Name),
            Symbol::Key,
            Make(Action::Index(line)),
            Symbol::Suffix,
            Symbol::Operators(1),
            Make(Action::AddValue),
        ]),
        Kind::Dot => entry_member(role, line),
        _ => entry_operation(kind, line),
    }
}
