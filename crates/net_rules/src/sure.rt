//! Whether a body surely reads.
ghost use Rattle.std.specs.Prelude.{◌≡◌};
ghost use Rattle.net_tree.specs.View.{block_view, statement_view};
ghost use Rattle.net_rules.specs.Uses.{reads_itself as statement_reads, reads_either_way as statement_reads_either_way, surely_reads as block_surely_reads};

use net_tree::{Block, Statement};

// Whether a statement has a read of its own.
fn reads_itself(statement: &Statement) -> bool
    ensures { result ≡ statement_reads (statement_view statement.now) }
{
    match statement {
        Statement::Get(_, _)
        | Statement::GetAdd(_, _)
        | Statement::GetSub(_, _)
        | Statement::Move(_, _) => true,
        _ => false,
    }
}

// Whether a statement is an `if` both of whose blocks surely read.
#[cycle(sure)]
fn reads_either_way(statement: &Statement) -> bool
    ensures { result ≡ statement_reads_either_way (statement_view statement.now) }
{
    match statement {
        Statement::If(_, _, first, second) => {
            let first_reads = surely_reads(first);
            let second_reads = surely_reads(second);
            first_reads && second_reads
        }
        _ => false,
    }
}

/// Whether a block reads whichever way it goes: one of its statements is a read, or an `if` both of
/// whose blocks surely read.
#[cycle(sure)]
pub fn surely_reads(block: &Block) -> bool
    ensures { result ≡ block_surely_reads (block_view block.now) }
{
    'statements: for index in 0..block.len() {
        let statement = block.at(index);
        let itself = reads_itself(statement);
        let either_way = reads_either_way(statement);
        if itself || either_way {
            return true;
        }
    }
    false
}
