//! The table of the grammar: what becomes of a symbol before a token.
ghost use Rattle.std.specs.Prelude.{◌≡◌};
ghost use Rattle.lua_grammar.specs.Table as spec;

use crate::symbol::{Row, Symbol, begins};
use crate::{expressions as e, statements as s, targets as t};
use lua_tokens::Kind;

#[tactic(auto, unfolding(crate::specs::Table::row))]
pub fn row(symbol: Symbol, opened: usize, kind: Kind, line: usize) -> Row
    ensures { result ≡ spec.row symbol opened kind line }
{
    match symbol {
        Symbol::Chunk => s::chunk_row(opened, kind),
        Symbol::Token(mark) => s::token_row(mark, kind),
        Symbol::Semicolon => s::semicolon_row(kind),
        Symbol::Parameters => s::parameters_row(opened, kind),
        Symbol::MoreParameters => s::more_parameters_row(opened, kind),
        Symbol::Block(in_loop) => s::block_row(opened, in_loop, kind, line),
        Symbol::LocalValue => s::local_value_row(kind),
        Symbol::ReturnValue => s::return_value_row(kind),
        Symbol::ThenBlock(in_loop) => s::then_block_row(opened, in_loop, kind),
        Symbol::Arms(in_loop) => s::arms_row(opened, in_loop, kind),
        Symbol::DoBlock => s::do_block_row(opened, kind),
        Symbol::ForStep(for_line) => s::for_step_row(opened, for_line, kind),
        Symbol::Target(role, at) => t::target_row(opened, role, at, kind, line),
        Symbol::MemberTarget(role, at) => t::member_target_row(role, at, kind, line),
        Symbol::TargetMember(role, dot, at) => {
            t::target_member_row(opened, role, dot, at, kind, line)
        }
        Symbol::TargetIndex(at) => t::target_index_row(opened, at, kind, line),
        Symbol::TargetCall => t::target_call_row(opened, kind, line),
        Symbol::Expression => begins(&[Symbol::Operators(1)]),
        Symbol::Key => e::key_row(opened),
        Symbol::Operand => begins(&[]),
        Symbol::Operators(least) => e::operators_row(least, kind, line),
        Symbol::AfterName(role, at) => e::after_name_row(role, at, kind, line),
        Symbol::LibraryName(role, dot) => e::library_name_row(role, dot, kind, line),
        Symbol::AfterMember(role, dot, at) => e::after_member_row(role, dot, at, kind),
        Symbol::Suffix => e::suffix_row(opened, kind, line),
        Symbol::Arguments => e::arguments_row(opened, kind),
        Symbol::MoreArguments => e::more_arguments_row(opened, kind),
        Symbol::Entries => e::entries_row(opened, kind, line),
        Symbol::MoreEntries => e::more_entries_row(kind),
        Symbol::EntryName(role, at) => e::entry_name_row(opened, role, at, kind, line),
        Symbol::Make(action) => Row::Passes(action),
    }
}
