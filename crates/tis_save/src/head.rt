//! The line before a block.
ghost use Rattle.std.specs.Prelude.{◌≡◌, ◌≤◌, ◌<◌, ◌+◌, ◌-◌, ◌*◌, ◌&&◌, length, nat_le, Some, None, IfSome, if◌then◌else◌};
ghost use Rattle.std.specs.List.{take_while};
ghost use Rattle.tis_asm.specs.Assembling.{is_blank, is_digit, is_filled, digits_number};
ghost use Rattle.tis_save.specs.Reading.{is_head as begins_with_at, head_number, number_of_head as number_in_head};

/// Whether a line begins with `@`.
pub(crate) fn is_head(line: &[u8]) -> bool
    ensures { result ≡ begins_with_at line.now }
{
    match line {
        [first, ..] => *first == b'@',
        [] => false,
    }
}

/// Whether nothing but blanks stands in a line.
pub(crate) fn is_blank_line(line: &[u8]) -> bool
    ensures { result ≡ is_blank line.now }
{
    line.iter().all(|byte| *byte == b' ' || *byte == b'\t')
}

// How many digits stand in front.
fn digit_count(bytes: &[u8]) -> usize
    ensures { result ≡ length (take_while is_digit bytes.now) }
{
    bytes
        .iter()
        .take_while(|byte| byte.is_ascii_digit())
        .count()
}

// The number that the digits so far, and then this one, write.
fn number_with(number: u16, digit: u8) -> Option<u16>
    requires { number < 1000 }
    ensures number { result ≡ (if is_digit digit then Some (10 * number + (digit - 48)) else None) }
    ensures small { IfSome result (λ n. n < 10 * number + 10) }
{
    if digit.is_ascii_digit() {
        Some(10 * number + u16::from(digit - b'0'))
    } else {
        None
    }
}

// The number that one to three digits write.
fn number_of(digits: &[u8]) -> Option<u16>
    ensures number { result ≡ (if is_filled digits.now && nat_le (length digits.now) 3 then digits_number 0 digits.now else None) }
    ensures small { IfSome result (λ n. n < 1000) }
{
    match digits {
        [one] => number_with(0, *one),
        [ten, one] => number_with(number_with(0, *ten)?, *one),
        [hundred, ten, one] => { number_with(number_with(number_with(0, *hundred)?, *ten)?, *one) }
        _ => None,
    }
}

// The number of a head, by what stands behind its `@`.
fn number_behind_at(bytes: &[u8]) -> Option<u16>
    ensures number { result ≡ head_number bytes.now }
    ensures small { IfSome result (λ n. n < 1000) }
{
    let (digits, rest) = bytes.split_at(digit_count(bytes));
    if is_blank_line(rest) {
        number_of(digits)
    } else {
        None
    }
}

/// The number of a head.
pub(crate) fn number_of_head(line: &[u8]) -> Option<u16>
    ensures number { result ≡ number_in_head line.now }
    ensures small { IfSome result (λ n. n < 1000) }
{
    match line {
        [] => None,
        [_, behind @ ..] => number_behind_at(behind),
    }
}
