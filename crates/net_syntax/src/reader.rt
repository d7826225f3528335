//! The text of a network is read line by line.
ghost use Rattle.std.specs.Prelude.{◌≡◌, ◌+◌, ◌<◌, ◌^◌, option_map, MatchOption, [], Some, None, Ok, Err};
ghost use Rattle.net_syntax.specs.ReaderView.{Answers, IsError, configuration_view, open_process_view, open_statement_view, role_view};
ghost use Rattle.net_syntax.specs.FormView.{form_view};
ghost use Rattle.net_tree.specs.View.{net_view, block_view, statement_view};
ghost use Rattle.net_syntax.specs.Reading.{Configuration as Seen, after_line as line_after, line_inside, line_outside, statement_with as statement_of, with_statement as more_statements, with_open_block as opens, refusal_of, after_else as else_after, after_end as end_after, net_at_end as net_of_end, innermost_line as line_of_innermost};
ghost use Rattle.net_syntax.specs.Grammar.{bare_net};

use crate::error::NetError;
use crate::form::LineForm;
use net_tree::{Block, ChannelLine, Name, Net, PortLine, ProcessText, Statement, Test, Var};
use std::alloc::Global;
use tis_base::Tiles;

/// What an open block is part of.
#[derive(Drop)]
pub(crate) enum BlockRole {
    FirstOf(Var, Test),
    SecondOf(Var, Test, Block),
    WhileOf(Var, Test),
    CountOf(Var),
}

/// A statement that is still open: the line that opened it, what its block is, and the statements
/// before it.
#[derive(Drop)]
pub(crate) struct OpenStatement {
    line: usize,
    role: BlockRole,
    before: Block,
}

/// A process that is still open: the statements of its innermost open block so far, and the open
/// statements around that block, innermost last.
#[derive(Drop)]
pub(crate) struct OpenProcess {
    name: Name,
    at: Option<u8>,
    line: usize,
    block: Block,
    around: Vec<OpenStatement>,
}

/// The network so far, and the process that is open.
#[derive(Drop)]
pub(crate) struct Configuration {
    net: Net,
    open_process: Option<OpenProcess>,
}

// The statement whose last block this is.
fn statement_with(alloc: Global, role: BlockRole, block: Block) -> Statement
    ensures { statement_view result ≡ statement_of (role_view role) (block_view block) }
{
    match role {
        BlockRole::FirstOf(var, test) => Statement::If(var, test, block, Block::new(alloc)),
        BlockRole::SecondOf(var, test, first) => Statement::If(var, test, first, block),
        BlockRole::WhileOf(var, test) => Statement::While(var, test, block),
        BlockRole::CountOf(var) => Statement::Count(var, block),
    }
}

// The refusal of a line that can't stand where it stands.
pub(crate) fn refusal(line: usize, form: &LineForm) -> NetError
    ensures { IsError {Y = Seen} result (Err (refusal_of line (form_view form.now))) }
{
    match form {
        LineForm::End | LineForm::Else => NetError::StrayEnd { line },
        _ => NetError::BadLine { line },
    }
}

// One more statement in the innermost open block.
fn with_statement(
    opened: OpenProcess,
    line: usize,
    statement: Statement,
) -> Result<OpenProcess, NetError>
    ensures { Answers open_process_view result (Ok (more_statements (open_process_view opened) line (statement_view statement))) }
{
    let mut opened = opened;
    opened.block.push(statement, line)?;
    Ok(opened)
}

// One more open block, where fewer than sixteen are open.
fn with_open_block(
    alloc: Global,
    opened: OpenProcess,
    line: usize,
    role: BlockRole,
) -> Result<OpenProcess, NetError>
    ensures { Answers open_process_view result (opens (open_process_view opened) line (role_view role)) }
{
    let OpenProcess {
        name,
        at,
        line: first,
        block: before,
        mut around,
    } = opened;
    if 16 <= around.len() {
        return Err(NetError::TooDeep { line });
    }
    around.push(OpenStatement { line, role, before })?;
    Ok(OpenProcess {
        name,
        at,
        line: first,
        block: Block::new(alloc),
        around,
    })
}

// The second block of the innermost open `if` begins.
fn after_else(alloc: Global, opened: OpenProcess, line: usize) -> Result<OpenProcess, NetError>
    ensures { let seen = open_process_view opened in Answers open_process_view result (else_after seen line seen.around) }
{
    let OpenProcess {
        name,
        at,
        line: first,
        block,
        mut around,
    } = opened;
    let Some(inner) = around.pop() else {
        return Err(NetError::StrayEnd { line });
    };
    let BlockRole::FirstOf(var, test) = inner.role else {
        return Err(NetError::StrayEnd { line });
    };
    around.push(OpenStatement {
        line: inner.line,
        role: BlockRole::SecondOf(var, test, block),
        before: inner.before,
    })?;
    Ok(OpenProcess {
        name,
        at,
        line: first,
        block: Block::new(alloc),
        around,
    })
}

// What is open innermost is whole.
fn after_end(alloc: Global, net: Net, opened: OpenProcess) -> Result<Configuration, NetError>
    ensures { let seen = open_process_view opened in Answers configuration_view result (end_after (net_view net) seen seen.around) }
{
    let OpenProcess {
        name,
        at,
        line,
        block,
        mut around,
    } = opened;
    let mut net = net;
    let Some(inner) = around.pop() else {
        net.processes.push(ProcessText {
            name,
            at,
            body: block,
            line,
        })?;
        return Ok(Configuration {
            net,
            open_process: None,
        });
    };
    let mut whole = inner.before;
    whole.push(statement_with(alloc, inner.role, block), inner.line)?;
    Ok(Configuration {
        net,
        open_process: Some(OpenProcess {
            name,
            at,
            line,
            block: whole,
            around,
        }),
    })
}

// A line inside of a process.
fn inside(
    alloc: Global,
    net: Net,
    opened: OpenProcess,
    line: usize,
    form: LineForm,
) -> Result<Configuration, NetError>
    ensures { Answers configuration_view result (line_inside (net_view net) (open_process_view opened) line (form_view form)) }
{
    let opened = match form {
        LineForm::Simple(statement) => with_statement(opened, line, statement)?,
        LineForm::OpensIf(var, test) => with_open_block(
            alloc,
            opened,
            line,
            BlockRole::FirstOf(var, test),
        )?,
        LineForm::OpensWhile(var, test) => with_open_block(
            alloc,
            opened,
            line,
            BlockRole::WhileOf(var, test),
        )?,
        LineForm::OpensCount(var) => with_open_block(alloc, opened, line, BlockRole::CountOf(var))?,
        LineForm::Else => after_else(alloc, opened, line)?,
        LineForm::End => return after_end(alloc, net, opened),
        _ => return Err(NetError::BadLine { line }),
    };
    Ok(Configuration {
        net,
        open_process: Some(opened),
    })
}

// A line outside of a process.
fn outside(alloc: Global, net: Net, line: usize, form: LineForm) -> Result<Configuration, NetError>
    ensures { Answers configuration_view result (line_outside (net_view net) line (form_view form)) }
{
    let mut net = net;
    match form {
        LineForm::Input(name, position, via) => net.inputs.push(PortLine {
            name,
            position,
            via,
            line,
        })?,
        LineForm::Output(name, position, via) => net.outputs.push(PortLine {
            name,
            position,
            via,
            line,
        })?,
        LineForm::Channel(name, via) => net.channels.push(ChannelLine { name, via, line })?,
        LineForm::Process(name, at) => {
            let opened = OpenProcess {
                name,
                at,
                line,
                block: Block::new(alloc),
                around: Vec::new(alloc),
            };
            return Ok(Configuration {
                net,
                open_process: Some(opened),
            });
        }
        other => return Err(refusal(line, &other)),
    };
    Ok(Configuration {
        net,
        open_process: None,
    })
}

// What one more line makes of the lines before it.
pub(crate) fn after_line(
    alloc: Global,
    sofar: Configuration,
    line: usize,
    form: LineForm,
) -> Result<Configuration, NetError>
    ensures { let seen = configuration_view sofar in Answers configuration_view result (line_after seen.net seen.open_process line (form_view form)) }
{
    let Configuration { net, open_process } = sofar;
    match open_process {
        None => outside(alloc, net, line, form),
        Some(opened) => inside(alloc, net, opened, line, form),
    }
}

impl Configuration {
    /// The network that has these tiles and nothing else so far.
    pub(crate) fn new(alloc: Global, tiles: Tiles) -> Configuration
        ensures { configuration_view result ≡ record { net = bare_net tiles; open_process = None } }
    {
        let net = Net {
            version: 1,
            tiles,
            inputs: Vec::new(alloc),
            outputs: Vec::new(alloc),
            channels: Vec::new(alloc),
            processes: Vec::new(alloc),
        };
        Configuration {
            net,
            open_process: None,
        }
    }
}

// The line of what is open innermost.
fn innermost_line(opened: &OpenProcess) -> usize
    ensures { let seen = open_process_view opened.now in result ≡ line_of_innermost seen seen.around }
{
    match opened.around.last() {
        Some(inner) => inner.line,
        None => opened.line,
    }
}

/// The network, where no process is open at its end.
pub(crate) fn net_at_end(sofar: Configuration) -> Result<Net, NetError>
    ensures { let seen = configuration_view sofar in Answers net_view result (net_of_end seen.net seen.open_process) }
{
    let Configuration { net, open_process } = sofar;
    match open_process {
        None => Ok(net),
        Some(opened) => Err(NetError::Unclosed {
            line: innermost_line(&opened),
        }),
    }
}
