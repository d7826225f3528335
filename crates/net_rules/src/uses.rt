//! What a statement reads, writes and changes by itself.
ghost use Rattle.std.specs.Prelude.{◌≡◌, MatchOption, Some, None};
ghost use Rattle.net_tree.specs.View.{statement_view};
ghost use Rattle.net_rules.specs.Uses.{read_of as name_read, written_of as name_written, is_same_var as same_var, changes as statement_changes};

use net_tree::{Name, Statement, Var};

/// The name that a statement reads by itself; what its blocks read is theirs.
pub fn read_of(statement: &Statement) -> Option<&Name>
    ensures { MatchOption result (name_read (statement_view statement.now) ≡ None) (λ name. name_read (statement_view statement.now) ≡ Some name.now) }
{
    match statement {
        Statement::Get(read, _) => Some(read),
        Statement::GetAdd(read, _) => Some(read),
        Statement::GetSub(read, _) => Some(read),
        Statement::Move(read, _) => Some(read),
        _ => None,
    }
}

/// The name that a statement writes by itself.
pub fn written_of(statement: &Statement) -> Option<&Name>
    ensures { MatchOption result (name_written (statement_view statement.now) ≡ None) (λ name. name_written (statement_view statement.now) ≡ Some name.now) }
{
    match statement {
        Statement::Put(written, _) => Some(written),
        Statement::PutNumber(written, _) => Some(written),
        Statement::Move(_, written) => Some(written),
        _ => None,
    }
}

// Whether two variables are the same.
fn is_same_var(counter: Var, var: Var) -> bool
    ensures { result ≡ same_var counter var }
{
    match counter {
        Var::X => match var {
            Var::X => true,
            Var::Y => false,
        },
        Var::Y => match var {
            Var::X => false,
            Var::Y => true,
        },
    }
}

/// Whether a statement changes a variable by itself, by its form alone: a sum with 0 changes it too.
pub fn changes(counter: Var, statement: &Statement) -> bool
    ensures { result ≡ statement_changes counter (statement_view statement.now) }
{
    match statement {
        Statement::Get(_, var) => is_same_var(counter, *var),
        Statement::GetAdd(_, var) => is_same_var(counter, *var),
        Statement::GetSub(_, var) => is_same_var(counter, *var),
        Statement::Set(var, _) => is_same_var(counter, *var),
        Statement::Add(var, _) => is_same_var(counter, *var),
        Statement::Sub(var, _) => is_same_var(counter, *var),
        Statement::Neg(var) => is_same_var(counter, *var),
        Statement::Double(var) => is_same_var(counter, *var),
        Statement::Copy(to, _) => is_same_var(counter, *to),
        Statement::Swap => true,
        Statement::Count(var, _) => is_same_var(counter, *var),
        _ => false,
    }
}
