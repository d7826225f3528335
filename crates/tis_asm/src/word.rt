//! What a word of code is.
ghost use Rattle.std.specs.Prelude.{◌≡◌, ◌≤◌, ℕ, pos, neg_ℤ, min, option_map, IfSome};
ghost use Rattle.std.specs.List.{list_all};
ghost use Rattle.tis_asm.specs.Assembling.{dir_of_word, dest_of_word, source_of_word, source_of_dest, jump_of_word, number_of_digits, number_of_word, is_label_byte, is_label};
ghost use Rattle.tis_asm.specs.Held.{Found, digit_of};

use crate::instr::{Dest, Jump, Source};
use crate::words::is;
use tis_base::{Dir, Value};

// The direction that a word names.
fn dir_named(word: &[u8]) -> Option<Dir>
    ensures { result ≡ dir_of_word word.now }
{
    if is(word, b"LEFT") {
        Some(Dir::Left)
    } else if is(word, b"RIGHT") {
        Some(Dir::Right)
    } else if is(word, b"UP") {
        Some(Dir::Up)
    } else if is(word, b"DOWN") {
        Some(Dir::Down)
    } else {
        None
    }
}

/// The destination that a word names.
pub(crate) fn dest_named(word: &[u8]) -> Option<Dest>
    ensures { result ≡ dest_of_word word.now }
{
    if is(word, b"ACC") {
        Some(Dest::Acc)
    } else if is(word, b"NIL") {
        Some(Dest::Nil)
    } else if is(word, b"ANY") {
        Some(Dest::Any)
    } else if is(word, b"LAST") {
        Some(Dest::Last)
    } else {
        Some(Dest::Port(dir_named(word)?))
    }
}

// The source that is named like a destination.
fn source_like(dest: Dest) -> Source
    ensures { result ≡ source_of_dest dest }
{
    match dest {
        Dest::Acc => Source::Acc,
        Dest::Nil => Source::Nil,
        Dest::Port(dir) => Source::Port(dir),
        Dest::Any => Source::Any,
        Dest::Last => Source::Last,
    }
}

// What a digit stands for.
fn digit_value(byte: u8) -> Option<u16>
    ensures { result ≡ digit_of byte }
{
    if byte.is_ascii_digit() {
        Some(u16::from(byte - b'0'))
    } else {
        None
    }
}

// The number that digits spell, or 999 where it is greater.
fn digits_number(digits: &[u8]) -> Option<u16>
    ensures number { result ≡ option_map (min 999) (number_of_digits digits.now) }
    ensures bound { IfSome result (λ n. n ≤ 999) }
{
    if digits.is_empty() {
        return None;
    }
    let mut number: u16 = 0;
    for byte in digits {
        number = (number * 10 + digit_value(*byte)?).min(999);
    }
    Some(number)
}

// The number that a word spells.
fn number_named(word: &[u8]) -> Option<Value>
    ensures { Found (λ v. v) result (number_of_word word.now) }
{
    match word {
        [] => None,
        [b'-', digits @ ..] => Some(Value::clamp(-i64::from(digits_number(digits)?))),
        [b'+', digits @ ..] => Some(Value::clamp(i64::from(digits_number(digits)?))),
        [_, ..] => Some(Value::clamp(i64::from(digits_number(word)?))),
    }
}

/// The source that a word names.
pub(crate) fn source_named(word: &[u8]) -> Option<Source>
    ensures { result ≡ source_of_word word.now }
{
    match dest_named(word) {
        Some(dest) => Some(source_like(dest)),
        None => Some(Source::Number(number_named(word)?)),
    }
}

/// The jump that a word names.
pub(crate) fn jump_named(word: &[u8]) -> Option<Jump>
    ensures { result ≡ jump_of_word word.now }
{
    if is(word, b"JMP") {
        Some(Jump::Always)
    } else if is(word, b"JEZ") {
        Some(Jump::IfZero)
    } else if is(word, b"JNZ") {
        Some(Jump::IfNotZero)
    } else if is(word, b"JGZ") {
        Some(Jump::IfPositive)
    } else if is(word, b"JLZ") {
        Some(Jump::IfNegative)
    } else {
        None
    }
}

// Whether a byte can stand in a label.
fn can_stand_in_label(byte: u8) -> bool
    ensures { result ≡ is_label_byte byte }
{
    let visible = 33 <= byte && byte <= 126;
    let sign = byte == b',' || byte == b':' || byte == b'#' || byte == b'!';
    visible && !sign
}

// Whether each byte can stand in a label.
fn can_all_stand_in_label(word: &[u8]) -> bool
    ensures { result ≡ list_all is_label_byte word.now }
{
    word.iter().all(|byte| can_stand_in_label(*byte))
}

/// Whether a word is a label.
pub(crate) fn is_label_word(word: &[u8]) -> bool
    ensures { result ≡ is_label word.now }
{
    match word {
        [] => false,
        [_, ..] => can_all_stand_in_label(word),
    }
}
