//! The text of an order of events.
ghost use Rattle.std.specs.Prelude.{◌≡◌};
ghost use Rattle.tis_words.specs.Words.{words_in};
ghost use Rattle.tis_words.specs.Numerals.{number_of as spelled_number};
ghost use Rattle.tis_grid_text.specs.EventsText.{dir_of, tile_of, single_event, place_of, event_towards, directed_event, event_of, events_of};
ghost use Rattle.tis_grid_text.specs.Answering.{AnswersEvents};

use crate::error::EventsError;
use std::alloc::Global;
use tis_base::{Dir, Tile};
use tis_grid::Event;
use tis_words::{Comments, NonBlankLines, Words, is_in_either_case, number_of};

// The direction that a word names.
fn dir(word: &[u8]) -> Option<Dir>
    ensures { result ≡ dir_of word.now }
{
    if is_in_either_case(word, b"LEFT") {
        Some(Dir::Left)
    } else if is_in_either_case(word, b"RIGHT") {
        Some(Dir::Right)
    } else if is_in_either_case(word, b"UP") {
        Some(Dir::Up)
    } else if is_in_either_case(word, b"DOWN") {
        Some(Dir::Down)
    } else {
        None
    }
}

// The tile that a word names.
fn tile(word: &[u8]) -> Option<Tile>
    ensures { result ≡ tile_of word.now }
{
    match number_of(word, 47) {
        Some(number) => Some(Tile {
            number: number as u8,
        }),
        None => None,
    }
}

// The position that a word names.
fn position(word: &[u8]) -> Option<u8>
    ensures { result ≡ spelled_number 7 word.now }
{
    match number_of(word, 7) {
        Some(number) => Some(number as u8),
        None => None,
    }
}

// An event of a tile alone, or of an input or an output.
fn single(name: &[u8], number: &[u8]) -> Option<Event>
    ensures { result ≡ single_event name.now number.now }
{
    if is_in_either_case(name, b"LOCAL") {
        match tile(number) {
            Some(tile) => Some(Event::Local(tile)),
            None => None,
        }
    } else if is_in_either_case(name, b"IN") {
        match position(number) {
            Some(position) => Some(Event::In(position)),
            None => None,
        }
    } else if is_in_either_case(name, b"OUT") {
        match position(number) {
            Some(position) => Some(Event::Out(position)),
            None => None,
        }
    } else {
        None
    }
}

// A tile and a direction.
fn place(number: &[u8], word: &[u8]) -> Option<(Tile, Dir)>
    ensures { result ≡ place_of number.now word.now }
{
    match (tile(number), dir(word)) {
        (Some(tile), Some(dir)) => Some((tile, dir)),
        _ => None,
    }
}

// An event of a tile in a direction.
fn toward(name: &[u8], tile: Tile, dir: Dir) -> Option<Event>
    ensures { result ≡ event_towards name.now tile dir }
{
    if is_in_either_case(name, b"MEET") {
        Some(Event::Meet(tile, dir))
    } else if is_in_either_case(name, b"PUSH") {
        Some(Event::Push(tile, dir))
    } else if is_in_either_case(name, b"POP") {
        Some(Event::Pop(tile, dir))
    } else {
        None
    }
}

// An event of a tile in a direction, by its words.
fn directed(name: &[u8], number: &[u8], word: &[u8]) -> Option<Event>
    ensures { result ≡ directed_event name.now number.now word.now }
{
    match place(number, word) {
        Some((tile, dir)) => toward(name, tile, dir),
        None => None,
    }
}

// The event that the words of a line name.
fn event(line: &[u8]) -> Option<Event>
    ensures { result ≡ event_of (words_in line.now) }
{
    let mut words = Words::new(line);
    let name = words.next()?;
    let number = words.next()?;
    match words.next() {
        None => single(name, number),
        Some(word) => match words.next() {
            None => directed(name, number, word),
            Some(_) => None,
        },
    }
}

/// The events of a text: one a line, where lines that are blank are passed. A line that names no event is
/// refused by its number; the first such line is.
pub fn read_events(alloc: Global, text: &[u8]) -> Result<Vec<Event>, EventsError>
    ensures { AnswersEvents result (events_of text.now) }
{
    let mut events = Vec::new(alloc);
    let mut lines = NonBlankLines::new(text, Comments::Never);
    'lines: while let Some((number, line)) = lines.next() {
        match event(line) {
            Some(event) => events.push(event)?,
            None => return Err(EventsError::Bad { line: number }),
        }
    }
    Ok(events)
}
