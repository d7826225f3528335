//! Names with how their links go, or where they stand.
ghost use Rattle.std.specs.Prelude.{◌≡◌};
ghost use Rattle.tis_words.specs.Reads.{Reads, Found};
ghost use Rattle.tis_words.specs.Numerals.{number_of as spelled_number};
ghost use Rattle.tis_words.specs.Parts.{next_word};
ghost use Rattle.net_syntax.specs.Forms.{via_of as via_said, path_of as path_said, at_of as at_said, port_of as port_said, channel_of as channel_said, process_of as process_said};

use crate::operands::next_name;
use net_tree::{Name, Path};
use tis_words::{Words, is, number_of};

// The tiles of a path, up to the end of the line.
fn path_of(words: &mut Words<'_>) -> Option<Path>
    ensures { Found (λ path. path) result (path_said words.old) }
{
    let mut path = Path::new();
    'tiles: while let Some(word) = words.next() {
        let tile = number_of(word, 99)?;
        if !path.push(tile as u8) {
            return None;
        }
    }
    Some(path)
}

// Nothing, or `via` and a path.
#[tactic(auto, unfolding(crate::specs::Forms::via_of))]
fn via_of(words: &mut Words<'_>) -> Option<Option<Path>>
    ensures { Found (λ via. via) result (via_said words.old) }
{
    match words.next() {
        None => Some(None),
        Some(word) => {
            if is(word, b"via") {
                Some(Some(path_of(words)?))
            } else {
                None
            }
        }
    }
}

// Nothing, or `at` and a tile.
#[tactic(auto, unfolding(crate::specs::Forms::at_of, tis_words::specs::Parts::followed_by, tis_words::specs::Parts::next_word, tis_words::specs::Parts::at_end))]
fn at_of(words: &mut Words<'_>) -> Option<Option<u8>>
    ensures { Found (λ at. at) result (at_said words.old) }
{
    let Some(word) = words.next() else {
        return Some(None);
    };
    if !is(word, b"at") {
        return None;
    }
    let tile = number_of(words.next()?, 99)?;
    words.end()?;
    Some(Some(tile as u8))
}

// The next word is a position.
#[tactic(auto, unfolding(tis_words::specs::Parts::next_word))]
fn next_position(words: &mut Words<'_>) -> Option<u8>
    ensures { Reads (λ position. position) result words.new (next_word (spelled_number 3) words.old) }
{
    let position = words.next_number(3)?;
    Some(position as u8)
}

// A name, `at` and a position, and how the link goes.
#[tactic(auto, unfolding(crate::specs::Forms::port_of, tis_words::specs::Parts::followed_by))]
pub(crate) fn port_of(words: &mut Words<'_>) -> Option<(Name, u8, Option<Path>)>
    ensures { Found (λ p. p) result (port_said words.old) }
{
    let name = next_name(words)?;
    words.next_exactly(b"at")?;
    let position = next_position(words)?;
    let via = via_of(words)?;
    Some((name, position, via))
}

// A name, and how the link goes.
#[tactic(auto, unfolding(crate::specs::Forms::channel_of, tis_words::specs::Parts::followed_by))]
pub(crate) fn channel_of(words: &mut Words<'_>) -> Option<(Name, Option<Path>)>
    ensures { Found (λ p. p) result (channel_said words.old) }
{
    let name = next_name(words)?;
    let via = via_of(words)?;
    Some((name, via))
}

// A name, and where the process stands.
#[tactic(auto, unfolding(crate::specs::Forms::process_of, tis_words::specs::Parts::followed_by))]
pub(crate) fn process_of(words: &mut Words<'_>) -> Option<(Name, Option<u8>)>
    ensures { Found (λ p. p) result (process_said words.old) }
{
    let name = next_name(words)?;
    let at = at_of(words)?;
    Some((name, at))
}
