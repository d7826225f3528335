//! Cutting the piece at the front of a text.
ghost use Rattle.std.specs.Prelude.{◌≡◌, ◌<◌, ◌≤◌, ◌+◌, length, slice_index, drop, IfOk, IfSome, true};
ghost use Rattle.lua_tokens.specs.Tokens as spec;

use crate::kind::Kind;
use crate::pieces::Piece;
use crate::strings::quoted;
use crate::words::{Class, byte, is_in, numeral_kind, past, word_kind};
use lua_tree::{BinaryOp, Text};
use std::alloc::Global;
use tis_base::NoMemory;

fn plain(alloc: Global, kind: Kind, len: usize) -> Piece
    ensures { result ≡ spec.plain kind len }
{
    let text = Text::new(alloc);
    Piece { kind, text, len }
}

#[tactic(auto, unfolding(crate::specs::Tokens::word_piece))]
fn word_piece(alloc: Global, z: &[u8]) -> Result<Piece, NoMemory>
    requires { spec.is_in Class.Word (slice_index z.now 0) ≡ true }
    ensures value { IfOk result (λ p. p ≡ spec.word_piece z.now) }
    ensures within { IfOk result (λ p. p.len ≤ length z.now) }
    ensures some { IfOk result (λ p. 1 ≤ p.len) }
{
    let len = past(Class::Word, z, 0);
    let word = &z[..len];
    let kind = word_kind(word);
    match kind {
        Kind::Name(_) => {
            let text = Text::from_slice(alloc, word)?;
            Ok(Piece { kind, text, len })
        }
        _ => Ok(plain(alloc, kind, len)),
    }
}

#[tactic(auto, unfolding(crate::specs::Tokens::numeral_piece))]
fn numeral_piece(alloc: Global, z: &[u8]) -> Piece
    requires { spec.is_in Class.Digit (slice_index z.now 0) ≡ true }
    ensures value { result ≡ spec.numeral_piece z.now }
    ensures within { result.len ≤ length z.now }
    ensures some { 1 ≤ result.len }
{
    let len = past(Class::Digit, z, 0);
    plain(alloc, numeral_kind(&z[..len]), len)
}

#[tactic(auto, unfolding(crate::specs::Tokens::string_piece))]
fn string_piece(alloc: Global, z: &[u8]) -> Result<Piece, NoMemory>
    requires { 0 < length z.now }
    ensures value { IfOk result (λ p. p ≡ spec.string_piece z.now) }
    ensures within { IfOk result (λ p. p.len ≤ length z.now) }
    ensures some { IfOk result (λ p. 1 ≤ p.len) }
{
    match quoted(alloc, z[0], &z[1..])? {
        None => Ok(plain(alloc, Kind::Bad, 1)),
        Some((text, count)) => Ok(Piece {
            kind: Kind::Str,
            text,
            len: count + 1,
        }),
    }
}

/// How many bytes there are up to and with the first `]]`.
fn closing(z: &[u8]) -> Option<usize>
    ensures value { result ≡ spec.closing z.now }
    ensures within { IfSome result (λ n. n ≤ length z.now) }
{
    let mut at = 0;
    while at < z.len() {
        if z[at] == b']' && byte(z, at + 1) == b']' {
            return Some(at + 2);
        }
        at += 1;
    }
    None
}

#[tactic(auto, unfolding(crate::specs::Tokens::comment_piece))]
fn comment_piece(alloc: Global, z: &[u8]) -> Piece
    requires { 2 ≤ length z.now }
    ensures value { result ≡ spec.comment_piece z.now }
    ensures within { result.len ≤ length z.now }
    ensures some { 1 ≤ result.len }
{
    if byte(z, 2) == b'[' && byte(z, 3) == b'[' {
        match closing(&z[4..]) {
            None => plain(alloc, Kind::Bad, 1),
            Some(count) => plain(alloc, Kind::Blank, count + 4),
        }
    } else {
        plain(alloc, Kind::Blank, past(Class::Line, z, 2))
    }
}

// A sign of one byte, or of two with `=`.
fn with_equals(alloc: Global, next: u8, double: BinaryOp, single: Kind) -> Piece
    ensures value { result ≡ spec.with_equals next (Kind.Operator double) single }
    ensures within { next ≡ 61 → result.len ≤ 2 }
    ensures alone { (next ≡ 61 → ⊥) → result.len ≡ 1 }
    ensures some { 1 ≤ result.len }
{
    if next == b'=' {
        plain(alloc, Kind::Operator(double), 2)
    } else {
        plain(alloc, single, 1)
    }
}

fn carriage_return(alloc: Global, z: &[u8]) -> Piece
    ensures value { result ≡ spec.carriage_return z.now }
    ensures len { result.len ≡ 1 }
{
    if byte(z, 1) == b'\n' || z.len() == 1 {
        plain(alloc, Kind::Blank, 1)
    } else {
        plain(alloc, Kind::Bad, 1)
    }
}

fn sign_kind(b: u8) -> Kind
    ensures { spec.plain_sign b ≡ spec.plain result 1 }
{
    match b {
        b'+' => Kind::Operator(BinaryOp::Plus),
        b'*' => Kind::Operator(BinaryOp::Times),
        b'/' => Kind::Operator(BinaryOp::Over),
        b'%' => Kind::Operator(BinaryOp::Mod),
        b'#' => Kind::Hash,
        b'(' => Kind::LeftParen,
        b')' => Kind::RightParen,
        b'{' => Kind::LeftBrace,
        b'}' => Kind::RightBrace,
        b'[' => Kind::LeftBracket,
        b']' => Kind::RightBracket,
        b';' => Kind::Semicolon,
        b',' => Kind::Comma,
        _ => Kind::Bad,
    }
}

// A sign that may be the front of a longer one.
fn two_byte_sign(alloc: Global, b: u8, next: u8) -> Piece
    ensures value { result ≡ spec.two_byte_sign b next }
    ensures within { result.len ≤ 2 }
    ensures alone { next ≡ 0 → result.len ≡ 1 }
    ensures some { 1 ≤ result.len }
{
    match b {
        b'.' if next == b'.' => plain(alloc, Kind::Operator(BinaryOp::Join), 2),
        b'.' => plain(alloc, Kind::Dot, 1),
        b'=' => with_equals(alloc, next, BinaryOp::Equal, Kind::Assign),
        b'<' => with_equals(
            alloc,
            next,
            BinaryOp::LessEqual,
            Kind::Operator(BinaryOp::Less),
        ),
        b'>' => with_equals(
            alloc,
            next,
            BinaryOp::GreaterEqual,
            Kind::Operator(BinaryOp::Greater),
        ),
        b'~' => with_equals(alloc, next, BinaryOp::NotEqual, Kind::Bad),
        _ => plain(alloc, sign_kind(b), 1),
    }
}

#[tactic(auto, unfolding(crate::specs::Tokens::sign_piece))]
fn sign_piece(alloc: Global, z: &[u8]) -> Piece
    requires { 0 < length z.now }
    ensures value { result ≡ spec.sign_piece z.now }
    ensures within { result.len ≤ length z.now }
    ensures some { 1 ≤ result.len }
{
    let b = z[0];
    let next = byte(z, 1);
    if b == b' ' || b == b'\t' || b == b'\n' {
        return plain(alloc, Kind::Blank, 1);
    }
    if b == b'\r' {
        return carriage_return(alloc, z);
    }
    if b == b'-' {
        if next == b'-' {
            return comment_piece(alloc, z);
        }
        return plain(alloc, Kind::Minus, 1);
    }
    two_byte_sign(alloc, b, next)
}

/// The piece at the front of what isn't empty.
#[tactic(auto, unfolding(crate::specs::Tokens::piece))]
pub fn piece(alloc: Global, z: &[u8]) -> Result<Piece, NoMemory>
    requires { 0 < length z.now }
    ensures value { IfOk result (λ p. p ≡ spec.piece z.now) }
    ensures within { IfOk result (λ p. p.len ≤ length z.now) }
    ensures some { IfOk result (λ p. 1 ≤ p.len) }
{
    let b = z[0];
    if is_in(Class::Letter, b) {
        return word_piece(alloc, z);
    }
    if is_in(Class::Digit, b) {
        return Ok(numeral_piece(alloc, z));
    }
    if b == b'"' || b == b'\'' {
        return string_piece(alloc, z);
    }
    Ok(sign_piece(alloc, z))
}
