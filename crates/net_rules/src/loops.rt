//! The first `while` of a body that may do a turn without a read.
ghost use Rattle.std.specs.Prelude.{◌≡◌};
ghost use Rattle.net_tree.specs.View.{block_view, statement_view};
ghost use Rattle.net_rules.specs.Rules.{loops_without_read as statement_loops};
ghost use Rattle.net_rules.specs.Loops.{lesser as lesser_line, own_loop as loop_itself, block_loop as loop_in, inner_loop as loop_inside, IsFirstLoop};

use crate::sure::surely_reads;
use net_tree::{Block, Statement};

// The lesser of two lines, where there are any.
fn lesser(first: Option<usize>, second: Option<usize>) -> Option<usize>
    ensures { result ≡ lesser_line first second }
{
    match first {
        None => second,
        Some(one) => match second {
            None => Some(one),
            Some(other) => Some(one.min(other)),
        },
    }
}

// Whether a statement is a `while` whose block may do a turn without a read.
fn loops_without_read(statement: &Statement) -> bool
    ensures { result ≡ statement_loops (statement_view statement.now) }
{
    match statement {
        Statement::While(_, _, body) => !surely_reads(body),
        _ => false,
    }
}

// The line of a statement, where it is such a `while`.
fn own_loop(line: usize, statement: &Statement) -> Option<usize>
    ensures { result ≡ loop_itself line (statement_view statement.now) }
{
    if loops_without_read(statement) {
        Some(line)
    } else {
        None
    }
}

// The least line of such a `while` in the blocks of a statement.
#[cycle(loops)]
fn inner_loop(statement: &Statement) -> Option<usize>
    ensures { result ≡ loop_inside (statement_view statement.now) }
{
    match statement {
        Statement::If(_, _, first, second) => {
            let one = block_loop(first);
            let other = block_loop(second);
            lesser(one, other)
        }
        Statement::While(_, _, body) => block_loop(body),
        Statement::Count(_, body) => block_loop(body),
        _ => None,
    }
}

// The least line of such a `while` in a block.
#[cycle(loops)]
fn block_loop(block: &Block) -> Option<usize>
    ensures { result ≡ loop_in (block_view block.now) }
{
    let mut least = None;
    'statements: for index in 0..block.len() {
        let statement = block.at(index);
        let own = own_loop(block.line(index), statement);
        let inner = inner_loop(statement);
        least = lesser(least, lesser(own, inner));
    }
    least
}

/// The line of the first `while` of a body, by line, whose block may do a turn without a read; or
/// None where there is no such `while`.
pub fn first_loop_without_read(body: &Block) -> Option<usize>
    ensures { IsFirstLoop result (block_view body.now) }
{
    block_loop(body)
}
