//! The lines of a text that aren't blank, one after the other.
ghost use Rattle.std.specs.Prelude.{◌≡◌, ◌∷◌, [], length, IfSome, MatchOption};
ghost use Rattle.tis_base.specs.Lines.{text_lines};
ghost use Rattle.tis_words.specs.Words.{words_in};
ghost use Rattle.tis_words.specs.Lines.{non_blank_lines};
ghost use Rattle.tis_words.specs.Reads.{IsMore};

use crate::comments::{Comments, without_comment};
use crate::words::has_words;
use std::marker::Model;
use tis_base::{TextLines, lines};

/// The lines of a text that aren't blank and are left to read.
#[derive(Drop)]
pub struct NonBlankLines<'a> {
    left: TextLines<'a>,
    passed: usize,
    comments: Comments,
}

impl<'a> Model for NonBlankLines<'a> {
    ghost use Rattle.std.specs.Prelude.{List, ◌+◌, ◌^◌, ◌<◌, length};
    ghost use Rattle.tis_words.specs.Lines.{NonBlank, non_blank_from};

    ghost Value = { List NonBlank };

    ghost view = { λ l. non_blank_from l.comments (l.passed + 1) l.left };

    ghost invariant = { λ l. l.passed + length l.left < 2 ^ 64 };
}

/// How many lines a text has, blank ones too.
pub fn line_count(text: &[u8]) -> usize
    ensures { result ≡ length (text_lines text.now) }
{
    let mut count = 0;
    for _ in lines(text) {
        count += 1;
    }
    count
}

impl<'a> NonBlankLines<'a> {
    /// The lines of a text that aren't blank.
    pub fn new(text: &'a [u8], comments: Comments) -> NonBlankLines<'a>
        ensures { result ≡ non_blank_lines comments text.now }
    {
        NonBlankLines {
            left: lines(text),
            passed: 0,
            comments,
        }
    }

    /// The next line: its number, counted from 1 over all lines of the text, and what stands in it
    /// before its comment. None where no such line is left.
    pub fn next(&mut self) -> Option<(usize, &'a [u8])>
        ensures line { MatchOption result ((self.old ≡ []) × (self.new ≡ [])) (λ line. self.old ≡ record { number = line.0; words = words_in line.1.now } ∷ self.new) }
        ensures filled { IfSome result (λ line. IsMore (words_in line.1.now)) }
    {
        'lines: while let Some(line) = self.left.next() {
            self.passed += 1;
            let said = without_comment(line, self.comments);
            if has_words(said) {
                return Some((self.passed, said));
            }
        }
        None
    }
}
