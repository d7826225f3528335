//! The statements of a network, as the rules look at them.
ghost use Rattle.std.specs.Prelude.{◌≡◌, ◌<◌, ◌^◌, ◌++◌, ◌||◌, false, length, map, OnOk};
ghost use Rattle.tis_base.specs.Answers.{Gives};
ghost use Rattle.net_tree.specs.View.{block_view, statement_view, process_view};
ghost use Rattle.net_rules.specs.Rules.{by_line};
ghost use Rattle.net_tree.specs.declared.tree.Var.TheVariants.{X, Y};
ghost use Rattle.net_rules.specs.Uses.{is_same_var};
ghost use Rattle.net_rules.specs.Found.{use_view, changes_counted as statement_changes_counted, use_of as statement_use, uses_in, uses_inside, uses_from};

use crate::uses::{changes, read_of, written_of};
use net_tree::{Block, Name, ProcessText, Statement, Var};
use std::alloc::Global;
use tis_base::NoMemory;

/// What the rules look at in a statement.
#[derive(Clone, Copy)]
pub(crate) struct Use<'n> {
    pub(crate) line: usize,
    pub(crate) process: u32,
    pub(crate) read: Option<&'n Name>,
    pub(crate) written: Option<&'n Name>,
    pub(crate) changes: bool,
}

/// Where a statement stands: in which process, and inside a `count` of which variables.
#[derive(Clone, Copy)]
struct Place {
    process: u32,
    in_x: bool,
    in_y: bool,
}

// Whether a statement changes a variable that is counted.
fn changes_counted(place: Place, statement: &Statement) -> bool
    ensures { result ≡ statement_changes_counted place.in_x place.in_y (statement_view statement.now) }
{
    let x = changes(Var::X, statement);
    let y = changes(Var::Y, statement);
    (place.in_x && x) || (place.in_y && y)
}

// A statement as the rules look at it.
fn use_of<'n>(place: Place, line: usize, statement: &'n Statement) -> Use<'n>
    ensures { use_view result ≡ statement_use place.process place.in_x place.in_y line (statement_view statement.now) }
{
    Use {
        line,
        process: place.process,
        read: read_of(statement),
        written: written_of(statement),
        changes: changes_counted(place, statement),
    }
}

// The place inside a `count`.
fn inside_count(place: Place, var: Var) -> Place
    ensures process { result.process ≡ place.process }
    ensures x { result.in_x ≡ (place.in_x || is_same_var X var) }
    ensures y { result.in_y ≡ (place.in_y || is_same_var Y var) }
{
    match var {
        Var::X => Place {
            in_x: true,
            ..place
        },
        Var::Y => Place {
            in_y: true,
            ..place
        },
    }
}

// The statements in the blocks of a statement, behind those that were found before.
#[cycle(statements)]
fn find_inside<'n>(
    place: Place,
    statement: &'n Statement,
    found: &mut Vec<Use<'n>>,
) -> Result<(), NoMemory>
    ensures { OnOk result (map use_view found.new.items ≡ map use_view found.old.items ++ uses_inside place.process place.in_x place.in_y (statement_view statement.now)) }
{
    match statement {
        Statement::If(_, _, first, second) => {
            find_in_block(place, first, found)?;
            find_in_block(place, second, found)
        }
        Statement::While(_, _, body) => find_in_block(place, body, found),
        Statement::Count(var, body) => find_in_block(inside_count(place, *var), body, found),
        _ => Ok(()),
    }
}

// The statements of a block, each before those in its blocks, behind those that were found before.
#[cycle(statements)]
fn find_in_block<'n>(
    place: Place,
    block: &'n Block,
    found: &mut Vec<Use<'n>>,
) -> Result<(), NoMemory>
    ensures { OnOk result (map use_view found.new.items ≡ map use_view found.old.items ++ uses_in place.process place.in_x place.in_y (block_view block.now)) }
{
    'statements: for index in 0..block.len() {
        let statement = block.at(index);
        found.push(use_of(place, block.line(index), statement))?;
        find_inside(place, statement, found)?;
    }
    Ok(())
}

/// The statements of a body, of the process with this number.
pub(crate) fn uses_of_body(
    alloc: Global,
    process: u32,
    body: &Block,
) -> Result<Vec<Use<'_>>, NoMemory>
    ensures { Gives (λ uses. map use_view uses.items) result (uses_in process false false (block_view body.now)) }
{
    let mut found = Vec::new(alloc);
    let place = Place {
        process,
        in_x: false,
        in_y: false,
    };
    find_in_block(place, body, &mut found)?;
    Ok(found)
}

/// The statements of these processes, in the order of the processes and then as they stand.
pub(crate) fn uses_of_all(
    alloc: Global,
    processes: &[ProcessText],
) -> Result<Vec<Use<'_>>, NoMemory>
    requires { length processes.now < 2 ^ 32 }
    ensures { Gives (λ uses. map use_view uses.items) result (uses_from 0 (map process_view processes.now)) }
{
    let mut found = Vec::new(alloc);
    let mut number = 0;
    'processes: for process in processes {
        let place = Place {
            process: number,
            in_x: false,
            in_y: false,
        };
        find_in_block(place, &process.body, &mut found)?;
        number += 1;
    }
    Ok(found)
}

/// Puts statements in line order; on one line they stay in their order.
pub(crate) fn sort_uses(uses: &mut Vec<Use>) -> Result<(), NoMemory>
    ensures { OnOk result (map use_view uses.new.items ≡ by_line (λ found. found.line) (map use_view uses.old.items)) }
{
    uses.sort_by_key(|found| found.line)?;
    Ok(())
}
