//! The rows of the chunk and of statements.
ghost use Rattle.std.specs.Prelude.{◌≡◌, []};
ghost use Rattle.lua_grammar.specs.Table as spec;

use crate::expressions::begins_expression;
use crate::symbol::Symbol::{Make, Token};
use crate::symbol::{Action, Mark, Row, Symbol, begins, opens, takes};
use lua_tokens::Kind;

fn is_mark(mark: Mark, kind: Kind) -> bool
    ensures { result ≡ spec.is_mark mark kind }
{
    match (mark, kind) {
        (Mark::Name, Kind::Name(_))
        | (Mark::Assign, Kind::Assign)
        | (Mark::Comma, Kind::Comma)
        | (Mark::End, Kind::End)
        | (Mark::Until, Kind::Until)
        | (Mark::LeftParen, Kind::LeftParen)
        | (Mark::RightParen, Kind::RightParen)
        | (Mark::RightBracket, Kind::RightBracket) => true,
        _ => false,
    }
}

pub fn token_row(mark: Mark, kind: Kind) -> Row
    ensures { result ≡ spec.token_row mark kind }
{
    if is_mark(mark, kind) {
        takes(&[])
    } else {
        Row::Refuses
    }
}

pub fn semicolon_row(kind: Kind) -> Row
    ensures { result ≡ spec.semicolon_row kind }
{
    match kind {
        Kind::Semicolon => takes(&[]),
        _ => Row::Passes(Action::Nothing),
    }
}

pub fn chunk_row(opened: usize, kind: Kind) -> Row
    ensures { result ≡ spec.chunk_row opened kind }
{
    match kind {
        Kind::Function => takes(&[
            Token(Mark::Name),
            Token(Mark::LeftParen),
            Make(Action::StartParameters),
            Symbol::Parameters,
            Token(Mark::End),
            Make(Action::Function),
            Symbol::Semicolon,
            Symbol::Chunk,
        ]),
        Kind::Name(_) => takes(&[
            Token(Mark::Assign),
            Symbol::Expression,
            Make(Action::Assignment),
            Make(Action::Restore(opened)),
            Symbol::Semicolon,
            Symbol::Chunk,
        ]),
        Kind::EndOfText => takes(&[]),
        _ => Row::Refuses,
    }
}

fn a_block(opened: usize, in_loop: bool) -> Row
    ensures { result ≡ Row.Opens (spec.a_block opened in_loop []) }
{
    opens(&[
        Make(Action::StartBlock),
        Symbol::Block(in_loop),
        Make(Action::Restore(opened)),
    ])
}

pub fn parameters_row(opened: usize, kind: Kind) -> Row
    ensures { result ≡ spec.parameters_row opened kind }
{
    match kind {
        Kind::Name(_) => takes(&[Make(Action::AddParameter), Symbol::MoreParameters]),
        Kind::RightParen => a_block(opened, false),
        _ => Row::Refuses,
    }
}

pub fn more_parameters_row(opened: usize, kind: Kind) -> Row
    ensures { result ≡ spec.more_parameters_row opened kind }
{
    match kind {
        Kind::Comma => takes(&[
            Token(Mark::Name),
            Make(Action::AddParameter),
            Symbol::MoreParameters,
        ]),
        Kind::RightParen => a_block(opened, false),
        _ => Row::Refuses,
    }
}

fn break_row(opened: usize, in_loop: bool) -> Row
    ensures { result ≡ spec.break_row opened in_loop }
{
    if !in_loop {
        return Row::Refuses;
    }
    takes(&[
        Make(Action::Break),
        Make(Action::Restore(opened)),
        Symbol::Semicolon,
        Symbol::Block(in_loop),
    ])
}

fn if_row(opened: usize, in_loop: bool) -> Row
    ensures { result ≡ spec.block_row opened in_loop Kind.If 0 }
{
    takes(&[
        Make(Action::StartArms),
        Symbol::Expression,
        Symbol::ThenBlock(in_loop),
        Make(Action::AddArm),
        Symbol::Arms(in_loop),
        Make(Action::Restore(opened)),
        Symbol::Semicolon,
        Symbol::Block(in_loop),
    ])
}

fn while_row(opened: usize, in_loop: bool) -> Row
    ensures { result ≡ spec.block_row opened in_loop Kind.While 0 }
{
    takes(&[
        Symbol::Expression,
        Symbol::DoBlock,
        Token(Mark::End),
        Make(Action::While),
        Make(Action::Restore(opened)),
        Symbol::Semicolon,
        Symbol::Block(in_loop),
    ])
}

fn repeat_row(opened: usize, in_loop: bool) -> Row
    ensures { result ≡ spec.block_row opened in_loop Kind.Repeat 0 }
{
    opens(&[
        Make(Action::StartBlock),
        Symbol::Block(true),
        Make(Action::Restore(opened)),
        Token(Mark::Until),
        Symbol::Expression,
        Make(Action::Repeat),
        Make(Action::Restore(opened)),
        Symbol::Semicolon,
        Symbol::Block(in_loop),
    ])
}

fn for_row(opened: usize, in_loop: bool, line: usize) -> Row
    ensures { result ≡ spec.block_row opened in_loop Kind.For line }
{
    takes(&[
        Token(Mark::Name),
        Token(Mark::Assign),
        Symbol::Expression,
        Token(Mark::Comma),
        Symbol::Expression,
        Symbol::ForStep(line),
        Make(Action::Restore(opened)),
        Symbol::Semicolon,
        Symbol::Block(in_loop),
    ])
}

fn do_row(opened: usize, in_loop: bool) -> Row
    ensures { result ≡ spec.block_row opened in_loop Kind.Do 0 }
{
    opens(&[
        Make(Action::StartBlock),
        Symbol::Block(in_loop),
        Make(Action::Restore(opened)),
        Token(Mark::End),
        Make(Action::Do),
        Make(Action::Restore(opened)),
        Symbol::Semicolon,
        Symbol::Block(in_loop),
    ])
}

pub fn block_row(opened: usize, in_loop: bool, kind: Kind, line: usize) -> Row
    ensures { result ≡ spec.block_row opened in_loop kind line }
{
    let close = Make(Action::Restore(opened));
    match kind {
        Kind::Local => takes(&[
            Token(Mark::Name),
            Symbol::LocalValue,
            close,
            Symbol::Semicolon,
            Symbol::Block(in_loop),
        ]),
        Kind::Name(role) => takes(&[
            Symbol::Target(role, line),
            close,
            Symbol::Semicolon,
            Symbol::Block(in_loop),
        ]),
        Kind::If => if_row(opened, in_loop),
        Kind::While => while_row(opened, in_loop),
        Kind::Repeat => repeat_row(opened, in_loop),
        Kind::For => for_row(opened, in_loop, line),
        Kind::Do => do_row(opened, in_loop),
        Kind::Break => break_row(opened, in_loop),
        Kind::Return => takes(&[Symbol::ReturnValue, close, Symbol::Semicolon]),
        _ => Row::Passes(Action::Nothing),
    }
}

pub fn local_value_row(kind: Kind) -> Row
    ensures { result ≡ spec.local_value_row kind }
{
    match kind {
        Kind::Assign => takes(&[Symbol::Expression, Make(Action::LocalWith)]),
        _ => Row::Passes(Action::LocalWithout),
    }
}

pub fn return_value_row(kind: Kind) -> Row
    ensures { result ≡ spec.return_value_row kind }
{
    if begins_expression(kind) {
        begins(&[Symbol::Operators(1), Make(Action::ReturnWith)])
    } else {
        Row::Passes(Action::ReturnWithout)
    }
}

pub fn then_block_row(opened: usize, in_loop: bool, kind: Kind) -> Row
    ensures { result ≡ spec.then_block_row opened in_loop kind }
{
    match kind {
        Kind::Then => a_block(opened, in_loop),
        _ => Row::Refuses,
    }
}

pub fn arms_row(opened: usize, in_loop: bool, kind: Kind) -> Row
    ensures { result ≡ spec.arms_row opened in_loop kind }
{
    match kind {
        Kind::ElseIf => takes(&[
            Symbol::Expression,
            Symbol::ThenBlock(in_loop),
            Make(Action::AddArm),
            Symbol::Arms(in_loop),
        ]),
        Kind::Else => opens(&[
            Make(Action::StartBlock),
            Symbol::Block(in_loop),
            Make(Action::Restore(opened)),
            Token(Mark::End),
            Make(Action::IfElse),
        ]),
        Kind::End => takes(&[Make(Action::If)]),
        _ => Row::Refuses,
    }
}

pub fn do_block_row(opened: usize, kind: Kind) -> Row
    ensures { result ≡ spec.do_block_row opened kind }
{
    match kind {
        Kind::Do => a_block(opened, true),
        _ => Row::Refuses,
    }
}

pub fn for_step_row(opened: usize, for_line: usize, kind: Kind) -> Row
    ensures { result ≡ spec.for_step_row opened for_line kind }
{
    match kind {
        Kind::Comma => takes(&[
            Symbol::Expression,
            Symbol::DoBlock,
            Token(Mark::End),
            Make(Action::ForStep(for_line)),
        ]),
        Kind::Do => opens(&[
            Make(Action::StartBlock),
            Symbol::Block(true),
            Make(Action::Restore(opened)),
            Token(Mark::End),
            Make(Action::For(for_line)),
        ]),
        _ => Row::Refuses,
    }
}
