//! The processes of a network with numbers in place of names.
ghost use Rattle.std.specs.Prelude.{◌≡◌, map, All, OnOk};
ghost use Rattle.tis_base.specs.Answers.{Gives};
ghost use Rattle.tis_base.specs.Saturation.{IsValue};
ghost use Rattle.net_tree.specs.Tree.{ProcessText as SeenProcess};
ghost use Rattle.net_tree.specs.View.{block_view, statement_view, process_view};
ghost use Rattle.net_numbered.specs.View.{numbered_block, numbered_statement};
ghost use Rattle.net_rules.specs.Numbers.{block_with, statement_with};
ghost use Rattle.net_rules.specs.Sure.{HasValues, StatementHasValues};
ghost use Rattle.net_rules.specs.Known.{number_by};

use crate::numbers::Numbers;
use net_numbered::{NumberedBlock, NumberedStatement};
use net_tree::{Block, ProcessText, Statement};
use std::alloc::Global;
use tis_base::{NoMemory, Value};

// The value itself.
fn held(value: Value) -> Value
    ensures value { result ≡ value }
    ensures held { IsValue value }
{
    let _number = value.get();
    value
}

// A statement with numbers in place of names.
#[cycle(numbering)]
fn number_statement(
    alloc: Global,
    numbers: Numbers,
    statement: &Statement,
) -> Result<NumberedStatement, NoMemory>
    ensures seen { Gives numbered_statement result (statement_with (number_by numbers.entry.table.now numbers.entry.other) (statement_view statement.now)) }
    ensures values { OnOk result (StatementHasValues (statement_view statement.now)) }
{
    match statement {
        Statement::Get(read, var) => Ok(NumberedStatement::Get(numbers.number(read), *var)),
        Statement::GetAdd(read, var) => Ok(NumberedStatement::GetAdd(numbers.number(read), *var)),
        Statement::GetSub(read, var) => Ok(NumberedStatement::GetSub(numbers.number(read), *var)),
        Statement::Put(written, var) => Ok(NumberedStatement::Put(numbers.number(written), *var)),
        Statement::PutNumber(written, number) => Ok(NumberedStatement::PutNumber(
            numbers.number(written),
            held(*number),
        )),
        Statement::Move(read, written) => Ok(NumberedStatement::Move(
            numbers.number(read),
            numbers.number(written),
        )),
        Statement::Set(var, number) => Ok(NumberedStatement::Set(*var, held(*number))),
        Statement::Add(var, number) => Ok(NumberedStatement::Add(*var, held(*number))),
        Statement::Sub(var, number) => Ok(NumberedStatement::Sub(*var, held(*number))),
        Statement::Neg(var) => Ok(NumberedStatement::Neg(*var)),
        Statement::Double(var) => Ok(NumberedStatement::Double(*var)),
        Statement::Copy(to, from) => Ok(NumberedStatement::Copy(*to, *from)),
        Statement::Swap => Ok(NumberedStatement::Swap),
        Statement::If(var, test, first, second) => Ok(NumberedStatement::If(
            *var,
            *test,
            number_block(alloc, numbers, first)?,
            number_block(alloc, numbers, second)?,
        )),
        Statement::While(var, test, body) => Ok(NumberedStatement::While(
            *var,
            *test,
            number_block(alloc, numbers, body)?,
        )),
        Statement::Count(var, body) => Ok(NumberedStatement::Count(
            *var,
            number_block(alloc, numbers, body)?,
        )),
    }
}

// A block with numbers in place of names.
#[cycle(numbering)]
fn number_block(alloc: Global, numbers: Numbers, block: &Block) -> Result<NumberedBlock, NoMemory>
    ensures seen { Gives numbered_block result (block_with (number_by numbers.entry.table.now numbers.entry.other) (block_view block.now)) }
    ensures values { OnOk result (HasValues (block_view block.now)) }
{
    let mut numbered = NumberedBlock::new(alloc);
    'statements: for index in 0..block.len() {
        let statement = number_statement(alloc, numbers, block.at(index))?;
        numbered.push(statement, block.line(index))?;
    }
    Ok(numbered)
}

/// The bodies of processes with numbers in place of names.
pub(crate) fn number_processes(
    alloc: Global,
    numbers: Numbers,
    processes: &[ProcessText],
) -> Result<Vec<NumberedBlock>, NoMemory>
    ensures seen { Gives (λ bodies. map numbered_block bodies.items) result (map (λ process. block_with (number_by numbers.entry.table.now numbers.entry.other) process.body) (map process_view processes.now)) }
    ensures values { OnOk result (All (λ (process : SeenProcess). HasValues process.body) (map process_view processes.now)) }
{
    let mut bodies = Vec::new(alloc);
    'processes: for process in processes {
        bodies.push(number_block(alloc, numbers, &process.body)?)?;
    }
    Ok(bodies)
}
