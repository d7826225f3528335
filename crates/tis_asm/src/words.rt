//! A line of code is cut: at its comment, at a colon, and into its words.
ghost use Rattle.std.specs.Prelude.{◌≡◌, ◌∷◌, [], length, drop, not, ◌==◌, MatchOption};
ghost use Rattle.std.specs.List.{take_while, list_all};
ghost use Rattle.std.specs.Str.{bytes_eq};
ghost use Rattle.tis_base.specs.Lines.{pieces_where};
ghost use Rattle.tis_asm.specs.Assembling.{is_gap, words_of, without_comment as comment_dropped, without_gaps as gaps_dropped, capital, is_blank};

// Whether a byte stands between words.
fn is_gap_byte(byte: u8) -> bool
    ensures { result ≡ is_gap byte }
{
    byte == b' ' || byte == b'\t' || byte == b','
}

// How many gaps stand in front.
fn gap_length(bytes: &[u8]) -> usize
    ensures { result ≡ length (take_while is_gap bytes.now) }
{
    bytes.iter().take_while(|byte| is_gap_byte(**byte)).count()
}

// How many bytes of a word stand in front.
fn word_length(bytes: &[u8]) -> usize
    ensures { result ≡ length (take_while (λ byte. not (is_gap byte)) bytes.now) }
{
    bytes.iter().take_while(|byte| !is_gap_byte(**byte)).count()
}

/// The first word of a line, and what stands behind it; or None where there is no word.
pub(crate) fn first_word(bytes: &[u8]) -> Option<(&[u8], &[u8])>
    ensures { MatchOption result (words_of bytes.now ≡ []) (λ cut. words_of bytes.now ≡ cut.0.now ∷ words_of cut.1.now) }
{
    let (_, line) = bytes.split_at(gap_length(bytes));
    let (word, rest) = line.split_at(word_length(line));
    if word.is_empty() {
        return None;
    }
    Some((word, rest))
}

/// The line behind the gaps in front of it.
pub(crate) fn without_gaps(bytes: &[u8]) -> &[u8]
    ensures { result.now ≡ gaps_dropped bytes.now }
{
    let (_, line) = bytes.split_at(gap_length(bytes));
    line
}

// How many bytes stand before the comment.
fn length_before_comment(line: &[u8]) -> usize
    ensures { result ≡ length (take_while (λ byte. not (byte == 35)) line.now) }
{
    line.iter().take_while(|byte| **byte != b'#').count()
}

/// What stands in a line before its comment.
pub(crate) fn without_comment(line: &[u8]) -> &[u8]
    ensures { result.now ≡ comment_dropped line.now }
{
    let (front, _) = line.split_at(length_before_comment(line));
    front
}

/// What stands behind the first byte.
pub(crate) fn behind_first(bytes: &[u8]) -> &[u8]
    ensures { result.now ≡ drop 1 bytes.now }
{
    match bytes {
        [_, behind @ ..] => behind,
        [] => bytes,
    }
}

// How many bytes stand before the first colon.
fn length_before_colon(line: &[u8]) -> usize
    ensures { result ≡ length (take_while (λ byte. not (byte == 58)) line.now) }
{
    line.iter().take_while(|byte| **byte != b':').count()
}

/// What stands before the first colon, and what stands behind it; or None where there is no colon.
pub(crate) fn at_colon(line: &[u8]) -> Option<(&[u8], &[u8])>
    ensures { MatchOption result (pieces_where (λ byte. byte == 58) line.now ≡ line.now ∷ []) (λ cut. pieces_where (λ byte. byte == 58) line.now ≡ cut.0.now ∷ pieces_where (λ byte. byte == 58) cut.1.now) }
{
    let (front, back) = line.split_at(length_before_colon(line));
    if back.is_empty() {
        return None;
    }
    Some((front, behind_first(back)))
}

/// Whether a word is exactly this text.
pub(crate) fn is(word: &[u8], text: &[u8]) -> bool
    ensures { result ≡ bytes_eq word.now text.now }
{
    word == text
}

/// A small letter as a capital one.
pub(crate) fn capital_of(byte: u8) -> u8
    ensures { result ≡ capital byte }
{
    if b'a' <= byte && byte <= b'z' {
        byte - 32
    } else {
        byte
    }
}

/// Whether nothing but blanks stands in a line.
pub(crate) fn is_blank_line(line: &[u8]) -> bool
    ensures { result ≡ is_blank line.now }
{
    line.iter().all(|byte| *byte == b' ' || *byte == b'\t')
}
