//! The body of a process whose names are numbers.
ghost use Rattle.std.specs.Prelude.{◌≡◌, ◌<◌, length, slice_get, Some};
ghost use Rattle.std.specs.Prelude.{OnOk, OnErr, option_map};
ghost use Rattle.net_tree.specs.Tree.{Empty, with_last, statements_of};
ghost use Rattle.net_numbered.specs.View.{numbered_block, numbered_statement};

use net_tree::{Test, Var};
use sqlite_items::Items;
use std::alloc::Global;
use tis_base::{NoMemory, Value};

/// What a process does next, with numbers in place of names.
#[cycle(numbered)]
#[derive(Drop)]
pub enum NumberedStatement {
    /// Reads a value into a variable.
    Get(u32, Var),
    /// Reads a value and adds it to a variable.
    GetAdd(u32, Var),
    /// Reads a value and subtracts it from a variable.
    GetSub(u32, Var),
    /// Sends the value of a variable.
    Put(u32, Var),
    /// Sends a number.
    PutNumber(u32, Value),
    /// Reads a value from the first name and sends it on the second.
    Move(u32, u32),
    /// The number becomes the value of the variable.
    Set(Var, Value),
    /// Adds the number to the variable.
    Add(Var, Value),
    /// Subtracts the number from the variable.
    Sub(Var, Value),
    /// Turns the sign of the variable.
    Neg(Var),
    /// Adds the variable to itself.
    Double(Var),
    /// The first variable gets the value of the second.
    Copy(Var, Var),
    /// The variables exchange their values.
    Swap,
    /// Does the first block where the variable passes the test, and the second one where it doesn't.
    If(Var, Test, NumberedBlock, NumberedBlock),
    /// Tests, and where the variable passes does the block and tests again.
    While(Var, Test, NumberedBlock),
    /// Where the variable is positive does the block, takes 1 from the variable, and looks again.
    Count(Var, NumberedBlock),
}

/// A statement and the number of its line.
#[cycle(numbered)]
#[derive(Drop)]
pub(crate) struct StatementOnLine {
    pub(crate) statement: NumberedStatement,
    pub(crate) line: usize,
}

/// Statements in order, with numbers in place of names.
#[cycle(numbered)]
#[derive(Drop)]
pub struct NumberedBlock {
    pub(crate) statements: Items<StatementOnLine>,
}

impl NumberedBlock {
    /// The block without a statement. It takes no memory.
    pub fn new(alloc: Global) -> NumberedBlock
        ensures { numbered_block result ≡ Empty }
    {
        NumberedBlock {
            statements: Items::new(alloc),
        }
    }

    /// One more statement at the end. Want of memory leaves the block as it was.
    pub fn push(&mut self, statement: NumberedStatement, line: usize) -> Result<(), NoMemory>
        ensures ok { OnOk result (numbered_block self.new ≡ with_last (numbered_block self.old) line (numbered_statement statement)) }
        ensures err { OnErr result (numbered_block self.new ≡ numbered_block self.old) }
    {
        self.statements.push(StatementOnLine { statement, line })?;
        Ok(())
    }

    /// How many statements there are, without those in their blocks.
    pub fn len(&self) -> usize
        ensures { result ≡ length (statements_of (numbered_block self.now)) }
    {
        self.statements.len()
    }

    /// The statement at an index from 0 on.
    pub fn at(&self, index: usize) -> &NumberedStatement
        requires { index < length (statements_of (numbered_block self.now)) }
        ensures { option_map (λ s. s.1) (slice_get (statements_of (numbered_block self.now)) index) ≡ Some (numbered_statement result.now) }
    {
        &self.statements.as_slice()[index].statement
    }

    /// The number of the line of the statement at an index from 0 on.
    pub fn line(&self, index: usize) -> usize
        requires { index < length (statements_of (numbered_block self.now)) }
        ensures { option_map (λ s. s.0) (slice_get (statements_of (numbered_block self.now)) index) ≡ Some result }
    {
        self.statements.as_slice()[index].line
    }
}
