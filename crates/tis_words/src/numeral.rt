//! Numbers as words.
ghost use Rattle.std.specs.Prelude.{◌≡◌, ◌≤◌, ◌+◌, ◌*◌, IfSome};
ghost use Rattle.tis_words.specs.Reads.{Found};
ghost use Rattle.tis_words.specs.Numerals.{digit, at_most, number_of as spelled_number, value_of as spelled_value};

use tis_base::Value;

// What a digit stands for.
fn digit_of(byte: u8) -> Option<u64>
    ensures { result ≡ digit byte }
{
    if byte.is_ascii_digit() {
        Some(u64::from(byte - b'0'))
    } else {
        None
    }
}

// The number with one more digit at its end, where it isn't greater than this one.
fn with_digit(number: u64, value: u64, most: u64) -> Option<u64>
    ensures { result ≡ at_most most (number * 10 + value) }
{
    let whole = number.checked_mul(10)?.checked_add(value)?;
    if whole <= most { Some(whole) } else { None }
}

/// The number that a word of digits spells, or None where the word is none or the number is greater
/// than this one. A word may have any number of digits.
pub fn number_of(word: &[u8], most: u64) -> Option<u64>
    ensures number { result ≡ spelled_number most word.now }
    ensures bound { IfSome result (λ n. n ≤ most) }
{
    if word.is_empty() {
        return None;
    }
    let mut number = 0;
    for byte in word {
        number = with_digit(number, digit_of(*byte)?, most)?;
    }
    Some(number)
}

// The number that digits spell, where it is at most 999.
fn small_number(digits: &[u8]) -> Option<u16>
    ensures number { result ≡ spelled_number 999 digits.now }
    ensures bound { IfSome result (λ n. n ≤ 999) }
{
    Some(number_of(digits, 999)? as u16)
}

/// The value that a word spells: digits, which a `-` may stand before.
#[tactic(auto, unfolding(crate::specs::Numerals::value_of))]
pub fn value_of(word: &[u8]) -> Option<Value>
    ensures { Found (λ v. v) result (spelled_value word.now) }
{
    match word {
        [] => None,
        [b'-', digits @ ..] => Some(Value::clamp(-i64::from(small_number(digits)?))),
        [_, ..] => Some(Value::clamp(i64::from(small_number(word)?))),
    }
}
