//! The lines of a network, and the rules that look at them in their order.
ghost use Rattle.std.specs.Prelude.{◌≡◌, ◌<◌, ◌^◌, length, map, IfOk};
ghost use Rattle.std.specs.Option.{option_or};
ghost use Rattle.net_tree.specs.View.{net_view, process_view};
ghost use Rattle.net_rules.specs.Broken.{Keeps};
ghost use Rattle.net_rules.specs.Rules.{by_line, first_fault, declarations as declarations_of, statements, declaration_fault, statement_fault, unused_fault, order_fault};
ghost use Rattle.net_rules.specs.Found.{use_view, uses_from};
ghost use Rattle.net_rules.specs.Known.{declaration_view, HasUsers, IsNumbered};

use crate::declarations::{Declaration, check_declarations, declarations};
use crate::error::RuleError;
use crate::known::check_statements;
use crate::numbers::Numbers;
use crate::statements::{Use, sort_uses, uses_of_all};
use crate::used::{FirstUsers, check_order, check_used, first_users};
use net_tree::Net;
use std::alloc::Global;
use tis_base::NoMemory;

/// The declarations and the statements of a network in line order, and the first users of each name.
#[derive(Drop)]
struct Lines<'n> {
    declared: Vec<Declaration<'n>>,
    uses: Vec<Use<'n>>,
    users: FirstUsers<'n>,
}

// The lines of a network.
fn lines_of(alloc: Global, net: &Net) -> Result<Lines<'_>, NoMemory>
    requires { length net.now.processes.items < 2 ^ 32 }
    ensures declared { IfOk result (λ lines. map declaration_view lines.declared.items ≡ declarations_of (net_view net.now)) }
    ensures uses { IfOk result (λ lines. map use_view lines.uses.items ≡ by_line (λ found. found.line) (uses_from 0 (net_view net.now).processes)) }
    ensures readers { IfOk result (λ lines. HasUsers lines.users.readers (λ found. found.read) (uses_from 0 (net_view net.now).processes)) }
    ensures writers { IfOk result (λ lines. HasUsers lines.users.writers (λ found. found.written) (uses_from 0 (net_view net.now).processes)) }
{
    let declared = declarations(alloc, net)?;
    let mut uses = uses_of_all(alloc, net.processes.as_slice())?;
    let users = first_users(alloc, uses.as_slice())?;
    sort_uses(&mut uses)?;
    Ok(Lines {
        declared,
        uses,
        users,
    })
}

/// The rules that look at the lines of a network in their order.
pub(crate) fn check_lines(alloc: Global, net: &Net, numbers: Numbers) -> Result<(), RuleError>
    requires processes { length net.now.processes.items < 2 ^ 32 }
    requires numbers { IsNumbered numbers (net_view net.now) }
    ensures { let seen = net_view net.now in Keeps result (option_or (first_fault declaration_fault (declarations_of seen)) (option_or (first_fault (statement_fault seen) (statements seen)) (option_or (first_fault (unused_fault seen) (declarations_of seen)) (first_fault (order_fault seen) (statements seen))))) }
{
    let lines = lines_of(alloc, net)?;
    let declared = lines.declared.as_slice();
    let uses = lines.uses.as_slice();
    check_declarations(alloc, declared)?;
    check_statements(alloc, numbers, uses)?;
    check_used(&lines.users, declared)?;
    check_order(numbers, &lines.users.writers, uses)
}
