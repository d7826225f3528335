//! The tree of a network.
ghost use Rattle.std.specs.Prelude.{◌≡◌, ◌<◌, ◌≤◌, ◌↔◌, [], ◌∷◌, ◌++◌, length, slice_get, Some, IsTrue};
ghost use Rattle.std.specs.Prelude.{OnOk, OnErr, option_map};
ghost use Rattle.tis_base.specs.Answers.{Gives};
ghost use Rattle.net_tree.specs.Tree.{Empty, with_last, statements_of};
ghost use Rattle.net_tree.specs.View.{block_view, statement_view};

use crate::name::Name;
use crate::path::Path;
use sqlite_items::Items;
use std::alloc::Global;
use tis_base::{NoMemory, Tiles, Value};

/// The two variables of a process.
#[derive(Clone, Copy, Debug, PartialEq, Eq, Hash)]
pub enum Var {
    X,
    Y,
}

/// How a variable is compared with 0.
#[derive(Clone, Copy, Debug, PartialEq, Eq, Hash)]
pub enum Test {
    Zero,
    NotZero,
    Negative,
    Positive,
    NotPositive,
    NotNegative,
}

/// What a process does next.
#[cycle(tree)]
#[derive(Drop)]
pub enum Statement {
    /// Reads a value into a variable.
    Get(Name, Var),
    /// Reads a value and adds it to a variable.
    GetAdd(Name, Var),
    /// Reads a value and subtracts it from a variable.
    GetSub(Name, Var),
    /// Sends the value of a variable.
    Put(Name, Var),
    /// Sends a number.
    PutNumber(Name, Value),
    /// Reads a value from the first name and sends it on the second.
    Move(Name, Name),
    /// The number becomes the value of the variable.
    Set(Var, Value),
    /// Adds the number to the variable.
    Add(Var, Value),
    /// Subtracts the number from the variable.
    Sub(Var, Value),
    /// Turns the sign of the variable.
    Neg(Var),
    /// Adds the variable to itself.
    Double(Var),
    /// The first variable gets the value of the second.
    Copy(Var, Var),
    /// The variables exchange their values.
    Swap,
    /// Does the first block where the variable passes the test, and the second one where it doesn't.
    If(Var, Test, Block, Block),
    /// Tests, and where the variable passes does the block and tests again.
    While(Var, Test, Block),
    /// Where the variable is positive does the block, takes 1 from the variable, and looks again.
    Count(Var, Block),
}

/// A statement and the number of its line.
#[cycle(tree)]
#[derive(Drop)]
pub(crate) struct Numbered {
    pub(crate) statement: Statement,
    pub(crate) line: usize,
}

/// Statements in order.
#[cycle(tree)]
#[derive(Drop)]
pub struct Block {
    pub(crate) statements: Items<Numbered>,
}

/// An input or an output at a position, and the tiles that its link passes, where it is pinned.
#[derive(Debug, Drop)]
pub struct PortLine {
    pub name: Name,
    pub position: u8,
    pub via: Option<Path>,
    pub line: usize,
}

/// A channel, and the tiles that its link passes, where it is pinned.
#[derive(Debug, Drop)]
pub struct ChannelLine {
    pub name: Name,
    pub via: Option<Path>,
    pub line: usize,
}

/// A process, its tile, where it is pinned, and what it does round after round.
#[derive(Drop)]
pub struct ProcessText {
    pub name: Name,
    pub at: Option<u8>,
    pub body: Block,
    pub line: usize,
}

/// A network: the version of its text, its tiles, its inputs and outputs, its channels and its processes.
#[derive(Drop)]
pub struct Net {
    pub version: u8,
    pub tiles: Tiles,
    pub inputs: Vec<PortLine>,
    pub outputs: Vec<PortLine>,
    pub channels: Vec<ChannelLine>,
    pub processes: Vec<ProcessText>,
}

impl Block {
    /// The block without a statement. It takes no memory.
    pub fn new(alloc: Global) -> Block
        ensures { block_view result ≡ Empty }
    {
        Block {
            statements: Items::new(alloc),
        }
    }

    /// One more statement at the end. Want of memory leaves the block as it was.
    pub fn push(&mut self, statement: Statement, line: usize) -> Result<(), NoMemory>
        ensures ok { OnOk result (block_view self.new ≡ with_last (block_view self.old) line (statement_view statement)) }
        ensures err { OnErr result (block_view self.new ≡ block_view self.old) }
    {
        self.statements.push(Numbered { statement, line })?;
        Ok(())
    }

    /// How many statements there are, without those in their blocks.
    pub fn len(&self) -> usize
        ensures { result ≡ length (statements_of (block_view self.now)) }
    {
        self.statements.len()
    }

    /// The statement at an index from 0 on.
    pub fn at(&self, index: usize) -> &Statement
        requires { index < length (statements_of (block_view self.now)) }
        ensures { option_map (λ s. s.1) (slice_get (statements_of (block_view self.now)) index) ≡ Some (statement_view result.now) }
    {
        &self.statements.as_slice()[index].statement
    }

    /// The number of the line of the statement at an index from 0 on.
    pub fn line(&self, index: usize) -> usize
        requires { index < length (statements_of (block_view self.now)) }
        ensures { option_map (λ s. s.0) (slice_get (statements_of (block_view self.now)) index) ≡ Some result }
    {
        self.statements.as_slice()[index].line
    }

    /// The same block again: the same statements on the same lines.
    #[cycle(copy)]
    pub fn copy(&self, alloc: Global) -> Result<Block, NoMemory>
        ensures { Gives block_view result (block_view self.now) }
    {
        let mut copy = Block::new(alloc);
        'statements: for numbered in self.statements.as_slice() {
            copy.push(numbered.statement.copy(alloc)?, numbered.line)?;
        }
        Ok(copy)
    }
}

impl Statement {
    // The same statement again.
    #[cycle(copy)]
    fn copy(&self, alloc: Global) -> Result<Statement, NoMemory>
        ensures { Gives statement_view result (statement_view self.now) }
    {
        match self {
            Statement::Get(name, var) => Ok(Statement::Get(name.copied(), *var)),
            Statement::GetAdd(name, var) => Ok(Statement::GetAdd(name.copied(), *var)),
            Statement::GetSub(name, var) => Ok(Statement::GetSub(name.copied(), *var)),
            Statement::Put(name, var) => Ok(Statement::Put(name.copied(), *var)),
            Statement::PutNumber(name, number) => Ok(Statement::PutNumber(name.copied(), *number)),
            Statement::Move(read, written) => Ok(Statement::Move(read.copied(), written.copied())),
            Statement::Set(var, number) => Ok(Statement::Set(*var, *number)),
            Statement::Add(var, number) => Ok(Statement::Add(*var, *number)),
            Statement::Sub(var, number) => Ok(Statement::Sub(*var, *number)),
            Statement::Neg(var) => Ok(Statement::Neg(*var)),
            Statement::Double(var) => Ok(Statement::Double(*var)),
            Statement::Copy(to, from) => Ok(Statement::Copy(*to, *from)),
            Statement::Swap => Ok(Statement::Swap),
            Statement::If(var, test, first, second) => Ok(Statement::If(
                *var,
                *test,
                first.copy(alloc)?,
                second.copy(alloc)?,
            )),
            Statement::While(var, test, body) => {
                Ok(Statement::While(*var, *test, body.copy(alloc)?))
            }
            Statement::Count(var, body) => Ok(Statement::Count(*var, body.copy(alloc)?)),
        }
    }
}
