//! How many statements a network has.
ghost use Rattle.std.specs.Prelude.{◌≡◌, map, sum_by};
ghost use Rattle.net_tree.specs.View.{block_view, statement_view, process_view};
ghost use Rattle.net_rules.specs.Sizes.{statements_in as block_statements, statements_inside as inner_statements, held_count};

use net_tree::{Block, ProcessText, Statement};

// How many statements the blocks of a statement have.
#[cycle(sizes)]
fn statements_inside(statement: &Statement) -> usize
    ensures { result ≡ held_count (inner_statements (statement_view statement.now)) }
{
    match statement {
        Statement::If(_, _, first, second) => {
            let one = statements_in(first);
            let other = statements_in(second);
            one.saturating_add(other)
        }
        Statement::While(_, _, body) => statements_in(body),
        Statement::Count(_, body) => statements_in(body),
        _ => 0,
    }
}

// How many statements a block has, those of its inner blocks among them.
#[cycle(sizes)]
fn statements_in(block: &Block) -> usize
    ensures { result ≡ held_count (block_statements (block_view block.now)) }
{
    let mut count: usize = 0;
    'statements: for index in 0..block.len() {
        let inside = statements_inside(block.at(index));
        count = count.saturating_add(inside).saturating_add(1);
    }
    count
}

/// How many statements these processes have.
pub(crate) fn statement_count(processes: &[ProcessText]) -> usize
    ensures { result ≡ held_count (sum_by (λ process. block_statements process.body) (map process_view processes.now)) }
{
    let mut count: usize = 0;
    'processes: for process in processes {
        count = count.saturating_add(statements_in(&process.body));
    }
    count
}
