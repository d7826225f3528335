//! The words of a line, read from left to right.
ghost use Rattle.std.specs.Prelude.{◌≡◌, ◌≤◌, ◌∷◌, [], length, not, IfSome, MatchOption};
ghost use Rattle.std.specs.Bool.{MatchBool};
ghost use Rattle.std.specs.List.{take_while};
ghost use Rattle.std.specs.Str.{bytes_eq};
ghost use Rattle.tis_words.specs.Words.{is_blank_byte, words_in};
ghost use Rattle.tis_words.specs.Numerals.{number_of as spelled_number, value_of as spelled_value};
ghost use Rattle.tis_words.specs.Parts.{exactly, next_word};
ghost use Rattle.tis_words.specs.Reads.{Reads, Passes, IsMore};

use crate::numeral::{number_of, value_of};
use std::marker::Model;
use tis_base::Value;

/// The words of a line that are left to read.
#[derive(Debug, Drop)]
pub struct Words<'a> {
    rest: &'a [u8],
}

impl<'a> Model for Words<'a> {
    ghost use Rattle.std.specs.Prelude.{List, ℕ};
    ghost use Rattle.tis_words.specs.Words.{words_in};

    ghost Value = { List (List ℕ) };

    ghost view = { λ w. words_in w.rest.now };
}

// Whether a byte stands between words.
fn is_blank(byte: u8) -> bool
    ensures { result ≡ is_blank_byte byte }
{
    byte == b' ' || byte == b'\t'
}

// How many blanks stand in front.
fn blank_length(bytes: &[u8]) -> usize
    ensures { result ≡ length (take_while is_blank_byte bytes.now) }
{
    bytes.iter().take_while(|byte| is_blank(**byte)).count()
}

// How many bytes of a word stand in front.
fn word_length(bytes: &[u8]) -> usize
    ensures { result ≡ length (take_while (λ byte. not (is_blank_byte byte)) bytes.now) }
{
    bytes.iter().take_while(|byte| !is_blank(**byte)).count()
}

// The first word of a line, and what stands behind it; or None where there is no word.
fn first_word(bytes: &[u8]) -> Option<(&[u8], &[u8])>
    ensures { MatchOption result (words_in bytes.now ≡ []) (λ cut. words_in bytes.now ≡ cut.0.now ∷ words_in cut.1.now) }
{
    let (_, line) = bytes.split_at(blank_length(bytes));
    let (word, rest) = line.split_at(word_length(line));
    if word.is_empty() {
        return None;
    }
    Some((word, rest))
}

/// Whether a line has words.
pub(crate) fn has_words(line: &[u8]) -> bool
    ensures { MatchBool result (IsMore (words_in line.now)) (words_in line.now ≡ []) }
{
    match first_word(line) {
        Some(_) => true,
        None => false,
    }
}

/// Whether a word is exactly this text.
pub fn is(word: &[u8], text: &[u8]) -> bool
    ensures { result ≡ bytes_eq word.now text.now }
{
    word == text
}

impl<'a> Words<'a> {
    /// The words of a line, of which the comment was dropped.
    pub fn new(line: &'a [u8]) -> Words<'a>
        ensures { result ≡ words_in line.now }
    {
        Words { rest: line }
    }

    /// The next word, or None where none is left.
    pub fn next(&mut self) -> Option<&'a [u8]>
        ensures { MatchOption result ((self.old ≡ []) × (self.new ≡ [])) (λ word. self.old ≡ word.now ∷ self.new) }
    {
        let (word, rest) = first_word(self.rest)?;
        self.rest = rest;
        Some(word)
    }

    /// The next word is exactly this text, or the answer is None.
    #[tactic(auto, unfolding(crate::specs::Parts::next_word))]
    pub fn next_exactly(&mut self, text: &[u8]) -> Option<()>
        ensures { Passes result self.new text.now (next_word (exactly text.now) self.old) }
    {
        let word = self.next()?;
        if is(word, text) { Some(()) } else { None }
    }

    /// The next word spells this number of digits alone, or the answer is None.
    #[tactic(auto, unfolding(crate::specs::Parts::next_word))]
    pub fn next_number(&mut self, most: u64) -> Option<u64>
        ensures read { Reads (λ number. number) result self.new (next_word (spelled_number most) self.old) }
        ensures bound { IfSome result (λ number. number ≤ most) }
    {
        number_of(self.next()?, most)
    }

    /// The next word spells this value, or the answer is None.
    #[tactic(auto, unfolding(crate::specs::Parts::next_word))]
    pub fn next_value(&mut self) -> Option<Value>
        ensures { Reads (λ value. value) result self.new (next_word spelled_value self.old) }
    {
        value_of(self.next()?)
    }

    /// No word is left, or the answer is None.
    pub fn end(&mut self) -> Option<()>
        ensures { MatchOption result (IsMore self.old) (λ _. self.old ≡ []) }
    {
        match self.next() {
            Some(_) => None,
            None => Some(()),
        }
    }
}
