//! Reading a text, token by token.
ghost use Rattle.std.specs.Prelude.{◌≡◌, ◌++◌, ◌<◌, OnOk, IfOk, length, true};
ghost use Rattle.lua_syntax.specs.Reading as spec;
ghost use Rattle.lua_syntax.specs.Steps.{Steps};

use crate::building::Building;
use crate::stack::Stack;
use lua_grammar::{Body, Row, Symbol, operand_row, row};
use lua_tokens::{Kind, Token};
use lua_tree::Text;
use std::alloc::Global;
use tis_base::NoMemory;

// How many may be open at once.
const MOST_OPEN: usize = 64;

/// What a token led to.
#[derive(Clone, Copy)]
pub enum Led {
    On,
    /// The token can't come.
    Wrong,
    /// One too many is open.
    Deep,
}

/// Puts symbols on a stack, the last first.
fn push_all(stack: &mut Stack<Symbol>, body: &Body) -> Result<(), NoMemory>
    ensures { OnOk result (stack.new ≡ body.now ++ stack.old) }
{
    let symbols = body.symbols();
    let mut at = symbols.len();
    while at > 0 {
        at -= 1;
        stack.push(symbols[at])?;
    }
    Ok(())
}

fn keep_text(parts: &mut Building, kind: Kind, text: Text) -> Result<(), NoMemory>
    ensures { OnOk result (parts.new ≡ spec.keeps_text kind text parts.old) }
{
    match kind {
        Kind::Name(_) | Kind::Str => parts.texts.push(text),
        _ => Ok(()),
    }
}

fn take(
    stack: &mut Stack<Symbol>,
    parts: &mut Building,
    body: &Body,
    token: Token,
) -> Result<Led, NoMemory>
    ensures { Steps result stack.new parts.new (spec.taken (body.now ++ stack.old) token parts.old) }
{
    push_all(stack, body)?;
    keep_text(parts, token.kind, token.text)?;
    Ok(Led::On)
}

fn open(
    stack: &mut Stack<Symbol>,
    parts: &mut Building,
    body: &Body,
    token: Token,
) -> Result<Led, NoMemory>
    ensures { Steps result stack.new parts.new (spec.opened (body.now ++ stack.old) token parts.old) }
{
    if parts.opened >= MOST_OPEN {
        return Ok(Led::Deep);
    }
    parts.opened += 1;
    take(stack, parts, body, token)
}

fn begin(
    stack: &mut Stack<Symbol>,
    parts: &mut Building,
    behind: &Body,
    token: Token,
) -> Result<Led, NoMemory>
    ensures { Steps result stack.new parts.new (spec.begun (behind.now ++ stack.old) token parts.old) }
{
    push_all(stack, behind)?;
    match operand_row(parts.opened, token.kind, token.line) {
        Row::Takes(body) => take(stack, parts, &body, token),
        Row::Opens(body) => open(stack, parts, &body, token),
        _ => Ok(Led::Wrong),
    }
}

/// The step of a stack before a token.
pub fn step(
    alloc: Global,
    stack: &mut Stack<Symbol>,
    parts: &mut Building,
    token: Token,
) -> Result<Led, NoMemory>
    ensures { Steps result stack.new parts.new (spec.step stack.old token parts.old) }
{
    while let Some(symbol) = stack.pop() {
        match row(symbol, parts.opened, token.kind, token.line) {
            Row::Takes(body) => return take(stack, parts, &body, token),
            Row::Opens(body) => return open(stack, parts, &body, token),
            Row::Begins(behind) => return begin(stack, parts, &behind, token),
            Row::Passes(action) => parts.act(alloc, action)?,
            Row::Refuses => return Ok(Led::Wrong),
        }
    }
    Ok(Led::Wrong)
}
