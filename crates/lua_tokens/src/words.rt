//! Runs of bytes, words and numerals.
ghost use Rattle.std.specs.Prelude.{◌≡◌, ◌≢◌, ◌<◌, ◌≤◌, ◌+◌, ◌-◌, ◌^◌, length, map, slice_index, true};
ghost use Rattle.lua_tokens.specs.Tokens as spec;

use crate::kind::{Kind, Role};
use lua_tree::BinaryOp;

/// What a run of bytes is made of.
#[derive(Clone, Copy)]
pub enum Class {
    Letter,
    Digit,
    Word,
    Line,
}

pub fn is_in(class: Class, b: u8) -> bool
    ensures { result ≡ spec.is_in class b }
{
    match class {
        Class::Letter => b.is_ascii_alphabetic() || b == b'_',
        Class::Digit => b.is_ascii_digit(),
        Class::Word => b.is_ascii_alphanumeric() || b == b'_',
        Class::Line => b != b'\n',
    }
}

/// The byte at a place, and 0 past the end.
pub fn byte(z: &[u8], at: usize) -> u8
    ensures value { result ≡ slice_index z.now at }
    ensures within { result ≢ 0 → at < length z.now }
{
    if at < z.len() { z[at] } else { 0 }
}

/// The first place from one on whose byte isn't of the class.
pub fn past(class: Class, z: &[u8], at: usize) -> usize
    requires { at ≤ length z.now }
    ensures value { result ≡ spec.past class z.now at }
    ensures within { (at ≤ result) × (result ≤ length z.now) }
    ensures moves { at < length z.now → spec.is_in class (slice_index z.now at) ≡ true → at < result }
{
    let mut end = at;
    while end < z.len() && is_in(class, z[end]) {
        end += 1;
    }
    end
}

const WORDS: [(&[u8], Kind); 24] = [
    (b"and", Kind::Operator(BinaryOp::And)),
    (b"break", Kind::Break),
    (b"do", Kind::Do),
    (b"else", Kind::Else),
    (b"elseif", Kind::ElseIf),
    (b"end", Kind::End),
    (b"false", Kind::False),
    (b"for", Kind::For),
    (b"function", Kind::Function),
    (b"goto", Kind::Goto),
    (b"if", Kind::If),
    (b"in", Kind::In),
    (b"local", Kind::Local),
    (b"nil", Kind::Nil),
    (b"not", Kind::Not),
    (b"or", Kind::Operator(BinaryOp::Or)),
    (b"repeat", Kind::Repeat),
    (b"return", Kind::Return),
    (b"then", Kind::Then),
    (b"true", Kind::True),
    (b"until", Kind::Until),
    (b"while", Kind::While),
    (b"math", Kind::Name(Role::Math)),
    (b"table", Kind::Name(Role::Table)),
];

fn lookup(mut table: &[(&[u8], Kind)], word: &[u8]) -> Kind
    ensures { result ≡ spec.lookup (map (λ k. (k.0.now, k.1)) table.entry.now) word.now }
{
    while let [entry, rest @ ..] = table {
        if entry.0 == word {
            return entry.1;
        }
        table = rest;
    }
    Kind::Name(Role::Plain)
}

/// What a word is.
pub fn word_kind(word: &[u8]) -> Kind
    ensures { result ≡ spec.word_kind word.now }
{
    lookup(&WORDS, word)
}

// A numeral's value, where numbers from the bound on are all the same.
const BOUND: u64 = 9_007_199_254_740_993;

fn value(digits: &[u8]) -> u64
    ensures value { result ≡ spec.held_value digits.now }
    ensures small { result ≤ BOUND }
{
    let mut n = 0;
    for b in digits {
        n = (10 * n + u64::from(b.saturating_sub(b'0'))).min(BOUND);
    }
    n
}

/// What a numeral is.
pub fn numeral_kind(digits: &[u8]) -> Kind
    ensures { result ≡ spec.numeral_kind digits.now }
{
    let n = value(digits);
    if n < BOUND {
        Kind::Number(n as i64)
    } else {
        Kind::Bad
    }
}
