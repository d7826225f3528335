//! The rows of a statement that begins with a name: the target of an assignment, or a call.
ghost use Rattle.std.specs.Prelude.{◌≡◌, [], ◌∷◌};
ghost use Rattle.lua_grammar.specs.Table as spec;

use crate::expressions::{is_library, library_call};
use crate::symbol::Symbol::{Make, Token};
use crate::symbol::{Action, Mark, Row, Symbol, opens, takes};
use lua_tokens::{Kind, Role};

pub fn target_row(opened: usize, role: Role, name_line: usize, kind: Kind, line: usize) -> Row
    ensures { result ≡ spec.target_row opened role name_line kind line }
{
    match kind {
        Kind::Assign => takes(&[Symbol::Expression, Make(Action::Assign)]),
        Kind::LeftParen => opens(&[
            Make(Action::StartArguments),
            Symbol::Arguments,
            Make(Action::Call(name_line)),
            Symbol::TargetCall,
        ]),
        Kind::Dot => opens(&[Make(Action::Name), Symbol::MemberTarget(role, line)]),
        Kind::LeftBracket => opens(&[Make(Action::Name), Symbol::Key, Symbol::TargetIndex(line)]),
        _ => Row::Refuses,
    }
}

pub fn member_target_row(role: Role, dot_line: usize, kind: Kind, line: usize) -> Row
    ensures { result ≡ spec.member_target_row role dot_line kind line }
{
    match kind {
        Kind::Name(_) => takes(&[Symbol::TargetMember(role, dot_line, line)]),
        _ => Row::Refuses,
    }
}

// A further index of what an action makes.
fn indexed(get: Action, line: usize) -> Row
    ensures { result ≡ Row.Opens (Symbol.Make get ∷ Symbol.Key ∷ Symbol.TargetIndex line ∷ []) }
{
    opens(&[Make(get), Symbol::Key, Symbol::TargetIndex(line)])
}

fn library_call_row(role: Role, name_line: usize) -> Row
    ensures { result ≡ spec.library_target_row role name_line }
{
    if !is_library(role) {
        return Row::Refuses;
    }
    opens(&[
        Make(Action::StartArguments),
        Symbol::Arguments,
        Make(library_call(role, name_line)),
        Symbol::TargetCall,
    ])
}

pub fn target_member_row(
    opened: usize,
    role: Role,
    dot_line: usize,
    name_line: usize,
    kind: Kind,
    line: usize,
) -> Row
    ensures { result ≡ spec.target_member_row opened role dot_line name_line kind line }
{
    match kind {
        Kind::Assign => takes(&[Symbol::Expression, Make(Action::SetMember(dot_line))]),
        Kind::Dot => opens(&[
            Make(Action::Member(dot_line)),
            Symbol::MemberTarget(Role::Plain, line),
        ]),
        Kind::LeftBracket => indexed(Action::Member(dot_line), line),
        Kind::LeftParen => library_call_row(role, name_line),
        _ => Row::Refuses,
    }
}

pub fn target_index_row(opened: usize, index_line: usize, kind: Kind, line: usize) -> Row
    ensures { result ≡ spec.target_index_row opened index_line kind line }
{
    match kind {
        Kind::Assign => takes(&[Symbol::Expression, Make(Action::SetIndex(index_line))]),
        Kind::Dot => opens(&[
            Make(Action::Index(index_line)),
            Symbol::MemberTarget(Role::Plain, line),
        ]),
        Kind::LeftBracket => indexed(Action::Index(index_line), line),
        _ => Row::Refuses,
    }
}

pub fn target_call_row(opened: usize, kind: Kind, line: usize) -> Row
    ensures { result ≡ spec.target_call_row opened kind line }
{
    match kind {
        Kind::Dot => opens(&[Symbol::MemberTarget(Role::Plain, line)]),
        Kind::LeftBracket => opens(&[Symbol::Key, Symbol::TargetIndex(line)]),
        _ => Row::Passes(Action::CallStatement),
    }
}
