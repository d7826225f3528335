//! How many instructions the code of a statement has.
ghost use Rattle.std.specs.Prelude.{◌≡◌, ◌+◌, ◌∷◌, [], length};
ghost use Rattle.tis_asm.specs.declared.instr.Instr.TheVariants.{Nop};
ghost use Rattle.net_numbered.specs.View.{numbered_block, numbered_statement};
ghost use Rattle.net_rules.specs.Sizes.{held_count};
ghost use Rattle.net_select.specs.Selection.{on, copy_code, jumps_where_held as jumps_held, if_frame as frame_of_if, while_frame as frame_of_while, count_frame as frame_of_count, jumped, statement_lines as statement_has, block_lines as block_has};

use net_numbered::{NumberedBlock as Block, NumberedStatement as Statement};
use net_tree::{Test, Var};

/// Whether the code of a test jumps where the test holds; else it jumps where the test fails.
pub(crate) fn jumps_where_held(test: Test) -> bool
    ensures { result ≡ jumps_held test }
{
    match test {
        Test::Positive | Test::Negative => true,
        Test::Zero | Test::NotZero | Test::NotPositive | Test::NotNegative => false,
    }
}

/// How many instructions one on x takes, and one on y, which stands between two SWP.
pub(crate) fn on_lines(var: Var) -> u64
    ensures { result ≡ length (on var (Nop ∷ [])) }
{
    match var {
        Var::X => 1,
        Var::Y => 3,
    }
}

// How many instructions a copy takes.
fn copy_lines(to: Var, from: Var) -> u64
    ensures { result ≡ length (copy_code to from) }
{
    match (to, from) {
        (Var::X, Var::Y) => 2,
        (Var::Y, Var::X) => 1,
        (Var::X, Var::X) | (Var::Y, Var::Y) => 0,
    }
}

// How many instructions an `if` has besides those of its blocks, by how many the block has that is jumped to.
fn if_frame(var: Var, reached: u64) -> u64
    ensures { result ≡ frame_of_if var reached }
{
    match var {
        Var::X => if reached == 0 { 1 } else { 2 },
        Var::Y => 5,
    }
}

// How many instructions an `if` has whose blocks have so many.
fn if_lines(var: Var, test: Test, first: u64, second: u64) -> u64
    ensures { result ≡ held_count (frame_of_if var (jumped test first second) + (first + second)) }
{
    let reached = if jumps_where_held(test) {
        first
    } else {
        second
    };
    first
        .saturating_add(second)
        .saturating_add(if_frame(var, reached))
}

// How many instructions a `while` has besides those of its block.
fn while_frame(var: Var, test: Test) -> u64
    ensures { result ≡ frame_of_while var test }
{
    let enters = jumps_where_held(test);
    match var {
        Var::X => if enters { 3 } else { 2 },
        Var::Y => if enters { 6 } else { 5 },
    }
}

// How many instructions a `count` has besides those of its block.
fn count_frame(var: Var) -> u64
    ensures { result ≡ frame_of_count var }
{
    match var {
        Var::X => 4,
        Var::Y => 9,
    }
}

// How many instructions the code of a statement has.
#[cycle(lines)]
fn statement_lines(statement: &Statement) -> u64
    ensures { result ≡ held_count (statement_has (numbered_statement statement.now)) }
{
    match statement {
        Statement::Get(_, var)
        | Statement::GetAdd(_, var)
        | Statement::GetSub(_, var)
        | Statement::Put(_, var)
        | Statement::Set(var, _)
        | Statement::Add(var, _)
        | Statement::Sub(var, _)
        | Statement::Neg(var)
        | Statement::Double(var) => on_lines(*var),
        Statement::PutNumber(_, _) | Statement::Move(_, _) | Statement::Swap => 1,
        Statement::Copy(to, from) => copy_lines(*to, *from),
        Statement::If(var, test, first, second) => {
            if_lines(*var, *test, block_lines(first), block_lines(second))
        }
        Statement::While(var, test, body) => {
            block_lines(body).saturating_add(while_frame(*var, *test))
        }
        Statement::Count(var, body) => block_lines(body).saturating_add(count_frame(*var)),
    }
}

/// How many instructions the code of a block has.
#[cycle(lines)]
pub(crate) fn block_lines(block: &Block) -> u64
    ensures { result ≡ held_count (block_has (numbered_block block.now)) }
{
    let mut lines: u64 = 0;
    'statements: for index in 0..block.len() {
        lines = lines.saturating_add(statement_lines(block.at(index)));
    }
    lines
}
