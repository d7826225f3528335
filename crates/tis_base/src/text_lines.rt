//! The lines of a text.
ghost use Rattle.std.specs.Prelude.{◌≡◌, ◌<◌, ◌==◌, ◌∷◌, length, position};
ghost use Rattle.std.specs.List.{before_first, after_first};
ghost use Rattle.std.specs.Iterator.{YieldsFirstRef, item_count};
ghost use Rattle.tis_base.specs.Lines.{text_lines};
ghost use Rattle.tis_base.specs.Lines as line;

use std::marker::Model;

/// The lines of a text that are left, each a part of it, from the first to the last.
#[derive(Drop)]
pub struct TextLines<'a> {
    rest: &'a [u8],
}

impl<'a> Model for TextLines<'a> {
    ghost use Rattle.std.specs.Prelude.{ℕ, List};
    ghost use Rattle.tis_base.specs.Lines.{text_lines};

    ghost Value = { List (List ℕ) };

    ghost view = { λ lines. text_lines lines.rest.now };
}

/// The lines of a text: it is cut at each LF, and a CR at the end of a piece is dropped. No line
/// follows the last LF.
pub fn lines<'a>(text: &'a [u8]) -> TextLines<'a>
    ensures { result ≡ text_lines text.now }
{
    TextLines { rest: text }
}

// The index of the first LF.
fn first_lf(text: &[u8]) -> Option<usize>
    ensures { result ≡ position (λ byte. byte == 10) text.now }
{
    text.iter().position(|byte| *byte == b'\n')
}

// What stands before the first LF, and what stands behind it.
fn first_piece<'a>(text: &'a [u8]) -> (&'a [u8], &'a [u8])
    ensures before { result.0.now ≡ before_first (λ byte. byte == 10) text.now }
    ensures after { result.1.now ≡ after_first (λ byte. byte == 10) text.now }
{
    match first_lf(text) {
        Some(end) => (&text[..end], &text[end + 1..]),
        None => (text, &[]),
    }
}

// The piece without one CR at its end.
fn without_cr<'a>(piece: &'a [u8]) -> &'a [u8]
    ensures { result.now ≡ line.without_cr piece.now }
{
    match piece.split_last() {
        Some((last, before)) => { if *last == b'\r' { before } else { piece } }
        None => piece,
    }
}

// The first line of a text that isn't empty, and what stands behind it.
fn first_line<'a>(text: &'a [u8]) -> (&'a [u8], &'a [u8])
    requires { 0 < length text.now }
    ensures { text_lines text.now ≡ result.0.now ∷ text_lines result.1.now }
{
    let (piece, rest) = first_piece(text);
    (without_cr(piece), rest)
}

impl<'a> Iterator for TextLines<'a> {
    type Item = &'a [u8];

    ghost next_gives = { YieldsFirstRef (λ lines. lines) };

    ghost remaining = { item_count (λ lines. lines) };

    fn next(&mut self) -> Option<&'a [u8]> {
        if self.rest.is_empty() {
            return None;
        }
        let (line, rest) = first_line(self.rest);
        self.rest = rest;
        Some(line)
    }
}
