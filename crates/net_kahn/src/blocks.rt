//! What blocks do: statements one after the other, branches and loops.
ghost use Rattle.std.specs.Prelude.{◌<◌, length};
ghost use Rattle.net_tree.specs.Tree.{If, While, Count};
ghost use Rattle.net_numbered.specs.View.{numbered_block, numbered_statement};
ghost use Rattle.net_rules.specs.Sure.{IsSureBlock, IsSure};
ghost use Rattle.net_rules.specs.Process.{exec, exec_statement};
ghost use Rattle.net_kahn.specs.Machines.{IsReady, Did};
ghost use Rattle.net_kahn.specs.Written.{WritesBelow, StatementWritesBelow};

use crate::machine::{Machine, Stop, one_less, passes};
use crate::simple::{
    add, copy, double, get, get_add, get_sub, neg, pass, put, put_number, set, sub, swap,
};
use net_numbered::{NumberedBlock, NumberedStatement};
use net_tree::{Test, Var};

// Does a block as long as a variable passes a test.
#[cycle(blocks)]
fn repeat(machine: &mut Machine, var: Var, test: Test, body: &NumberedBlock) -> Result<(), Stop>
    requires ready { IsReady machine.old }
    requires sure { IsSure (λ name. name < length machine.old.links.items) (While var test (numbered_block body.now)) }
    requires written { WritesBelow (length machine.old.links.items) (numbered_block body.now) }
    ensures { Did (exec_statement (While var test (numbered_block body.now))) machine.old result machine.new }
{
    'turns: while passes(test, machine.value(var)) {
        do_block(machine, body)?;
    }
    Ok(())
}

// Does a block as long as a variable is positive, and takes 1 from it behind each time.
#[cycle(blocks)]
fn count_down(machine: &mut Machine, var: Var, body: &NumberedBlock) -> Result<(), Stop>
    requires ready { IsReady machine.old }
    requires sure { IsSure (λ name. name < length machine.old.links.items) (Count var (numbered_block body.now)) }
    requires written { WritesBelow (length machine.old.links.items) (numbered_block body.now) }
    ensures { Did (exec_statement (Count var (numbered_block body.now))) machine.old result machine.new }
{
    'turns: while passes(Test::Positive, machine.value(var)) {
        do_block(machine, body)?;
        let less = one_less(machine.value(var));
        machine.set(var, less);
    }
    Ok(())
}

// Does one of two blocks.
#[cycle(blocks)]
fn choose(
    machine: &mut Machine,
    var: Var,
    test: Test,
    first: &NumberedBlock,
    second: &NumberedBlock,
) -> Result<(), Stop>
    requires ready { IsReady machine.old }
    requires sure { IsSure (λ name. name < length machine.old.links.items) (If var test (numbered_block first.now) (numbered_block second.now)) }
    requires written { StatementWritesBelow (length machine.old.links.items) (If var test (numbered_block first.now) (numbered_block second.now)) }
    ensures { Did (exec_statement (If var test (numbered_block first.now) (numbered_block second.now))) machine.old result machine.new }
{
    if passes(test, machine.value(var)) {
        do_block(machine, first)
    } else {
        do_block(machine, second)
    }
}

// Does a statement.
#[cycle(blocks)]
fn do_statement(machine: &mut Machine, statement: &NumberedStatement) -> Result<(), Stop>
    requires ready { IsReady machine.old }
    requires sure { IsSure (λ name. name < length machine.old.links.items) (numbered_statement statement.now) }
    requires written { StatementWritesBelow (length machine.old.links.items) (numbered_statement statement.now) }
    ensures { Did (exec_statement (numbered_statement statement.now)) machine.old result machine.new }
{
    match statement {
        NumberedStatement::Get(name, var) => get(machine, *name, *var),
        NumberedStatement::GetAdd(name, var) => get_add(machine, *name, *var),
        NumberedStatement::GetSub(name, var) => get_sub(machine, *name, *var),
        NumberedStatement::Put(name, var) => put(machine, *name, *var),
        NumberedStatement::PutNumber(name, number) => put_number(machine, *name, *number),
        NumberedStatement::Move(name, written) => pass(machine, *name, *written),
        NumberedStatement::Set(var, number) => set(machine, *var, *number),
        NumberedStatement::Add(var, number) => add(machine, *var, *number),
        NumberedStatement::Sub(var, number) => sub(machine, *var, *number),
        NumberedStatement::Neg(var) => neg(machine, *var),
        NumberedStatement::Double(var) => double(machine, *var),
        NumberedStatement::Copy(to, from) => copy(machine, *to, *from),
        NumberedStatement::Swap => swap(machine),
        NumberedStatement::If(var, test, first, second) => {
            choose(machine, *var, *test, first, second)
        }
        NumberedStatement::While(var, test, body) => repeat(machine, *var, *test, body),
        NumberedStatement::Count(var, body) => count_down(machine, *var, body),
    }
}

/// Does the statements of a block, one after the other.
#[cycle(blocks)]
pub(crate) fn do_block(machine: &mut Machine, block: &NumberedBlock) -> Result<(), Stop>
    requires ready { IsReady machine.old }
    requires sure { IsSureBlock (λ name. name < length machine.old.links.items) (numbered_block block.now) }
    requires written { WritesBelow (length machine.old.links.items) (numbered_block block.now) }
    ensures { Did (exec (numbered_block block.now)) machine.old result machine.new }
{
    'statements: for index in 0..block.len() {
        do_statement(machine, block.at(index))?;
    }
    Ok(())
}
