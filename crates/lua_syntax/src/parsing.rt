//! Texts to chunks.
ghost use Rattle.std.specs.Prelude.{◌≡◌, ◌<◌, ◌≤◌, ◌+◌, [], ◌∷◌, ◌++◌, length, take, drop, Ok, Err, IfOk, IfErr, OnOk};
ghost use Rattle.lua_tree.specs.Plain.{plain_items};
ghost use Rattle.lua_syntax.specs.Reading.{tree_of, run};
ghost use Rattle.lua_syntax.specs.Steps.{TokenLeadsTo, TokenFailsAt, LeadsTo, FailsAt, AllLeadTo, AllFailAt};
ghost use Rattle.lua_syntax.specs.Refusal.{IsRefused, plain_answer};
ghost use Rattle.lua_tokens.specs.Tokens as spec;

use crate::building::Building;
use crate::error::LuaSyntax;
use crate::reading::{Led, step};
use crate::stack::Stack;
use lua_grammar::Symbol;
use lua_tokens::{Kind, Piece, Token, byte, piece};
use lua_tree::{Chunk, Text};
use std::alloc::Global;

// How many line ends there are.
fn line_ends(z: &[u8]) -> usize
    ensures value { result ≡ spec.line_ends z.now }
    ensures within { result ≤ length z.now }
{
    z.iter().filter(|b| **b == b'\n').count()
}

fn is_blank(kind: Kind) -> bool
    ensures { result ≡ spec.is_blank kind }
{
    match kind {
        Kind::Blank => true,
        _ => false,
    }
}

// The step before a token.
#[tactic(auto, unfolding(crate::specs::Reading::run))]
fn feed_token(
    alloc: Global,
    stack: &mut Stack<Symbol>,
    parts: &mut Building,
    token: Token,
) -> Result<(), LuaSyntax>
    ensures ok { OnOk result (TokenLeadsTo stack.old parts.old token stack.new parts.new) }
    ensures err { IfErr result (λ e. TokenFailsAt stack.old parts.old token e) }
{
    let line = token.line;
    match step(alloc, stack, parts, token)? {
        Led::On => Ok(()),
        Led::Wrong => Err(LuaSyntax::Syntax { line }),
        Led::Deep => Err(LuaSyntax::TooDeep { line }),
    }
}

// The step before a piece, which is none where the piece is no token.
fn feed(
    alloc: Global,
    stack: &mut Stack<Symbol>,
    parts: &mut Building,
    piece: Piece,
    line: usize,
) -> Result<(), LuaSyntax>
    ensures ok { OnOk result (LeadsTo stack.old parts.old piece line stack.new parts.new) }
    ensures err { IfErr result (λ e. FailsAt stack.old parts.old piece line e) }
{
    if is_blank(piece.kind) {
        return Ok(());
    }
    let Piece { kind, text, .. } = piece;
    feed_token(alloc, stack, parts, Token { kind, line, text })
}

// The last line of a text.
fn last_line(z: &[u8]) -> usize
    ensures { result ≡ spec.last_line z.now }
{
    let count = line_ends(z);
    if byte(z, z.len().saturating_sub(1)) == b'\n' {
        count
    } else {
        count + 1
    }
}

fn behind(z: &[u8], at: usize) -> &[u8]
    requires { at ≤ length z.now }
    ensures { result.now ≡ drop at z.now }
{
    &z[at..]
}

fn front(z: &[u8], len: usize) -> &[u8]
    requires { len ≤ length z.now }
    ensures { result.now ≡ take len z.now }
{
    &z[..len]
}

// Reads the tokens of a text up to its end.
fn feed_all(
    alloc: Global,
    stack: &mut Stack<Symbol>,
    parts: &mut Building,
    bytes: &[u8],
) -> Result<(), LuaSyntax>
    ensures ok { OnOk result (AllLeadTo stack.old parts.old bytes.now stack.new parts.new) }
    ensures err { IfErr result (λ e. AllFailAt stack.old parts.old bytes.now e) }
{
    let mut at = 0;
    let mut passed = 0;
    while at < bytes.len() {
        let rest = behind(bytes, at);
        let piece = piece(alloc, rest)?;
        let len = piece.len;
        feed(alloc, stack, parts, piece, passed + 1)?;
        passed += line_ends(front(rest, len));
        at += len;
    }
    Ok(())
}

/// The chunk of a text. Without a tree, what is wrong with the text and on which line. Time and memory
/// grow with the text.
#[tactic(auto, unfolding(crate::specs::Reading::tree_of, lua_tokens::specs::Tokens::tokens, crate::specs::Reading::run))]
pub fn parse(alloc: Global, bytes: &[u8]) -> Result<Chunk, LuaSyntax>
    ensures tree { IfOk result (λ chunk. tree_of bytes.now ≡ Ok chunk) }
    ensures plain { IfOk result (λ chunk. plain_answer (tree_of bytes.now) ≡ Ok (plain_items chunk)) }
    ensures refused { IfErr result (λ e. IsRefused e (tree_of bytes.now)) }
{
    let mut stack = Stack::new(alloc);
    stack.push(Symbol::Chunk)?;
    let mut parts = Building::new(alloc);
    feed_all(alloc, &mut stack, &mut parts, bytes)?;
    let end = Token {
        kind: Kind::EndOfText,
        line: last_line(bytes),
        text: Text::new(alloc),
    };
    feed_token(alloc, &mut stack, &mut parts, end)?;
    let Building { items, .. } = parts;
    Ok(Chunk::new(items))
}
