//! The text of a script.
ghost use Rattle.std.specs.Prelude.{◌≡◌};
ghost use Rattle.tis_words.specs.Words.{words_in};
ghost use Rattle.tis_debug.specs.Scripts.{count_of, index_of, alone as alone_action, with_count as action_with_count, with_place as action_with_place, action_of, script_of};
ghost use Rattle.tis_debug.specs.Held.{AnswersScript};

use crate::error::ScriptError;
use std::alloc::Global;
use tis_words::{Comments, NonBlankLines, Words, is, number_of};

/// A command of a script.
#[derive(Clone, Copy, Debug, PartialEq, Eq, Hash)]
pub enum Action {
    /// Does so many cycles.
    Step(u64),
    /// Does cycles until something stops it.
    Go,
    /// Marks an instruction of a tile.
    Break { tile: u8, instruction: u8 },
    /// Takes so many cycles back.
    Back(u64),
    /// Shows where the session stands.
    Show,
}

// How many cycles a word tells.
fn count(word: &[u8]) -> Option<u64>
    ensures { result ≡ count_of word.now }
{
    number_of(word, 1_000_000)
}

// The number of a tile or of an instruction that a word tells.
fn index(word: &[u8]) -> Option<u8>
    ensures { result ≡ index_of word.now }
{
    match number_of(word, 255) {
        Some(number) => Some(number as u8),
        None => None,
    }
}

// A command of one word.
fn alone(name: &[u8]) -> Option<Action>
    ensures { result ≡ alone_action name.now }
{
    if is(name, b"go") {
        Some(Action::Go)
    } else if is(name, b"show") {
        Some(Action::Show)
    } else {
        None
    }
}

// A command with a count of cycles.
fn with_count(name: &[u8], word: &[u8]) -> Option<Action>
    ensures { result ≡ action_with_count name.now word.now }
{
    if is(name, b"step") {
        Some(Action::Step(count(word)?))
    } else if is(name, b"back") {
        Some(Action::Back(count(word)?))
    } else {
        None
    }
}

// A command with a tile and an instruction.
fn with_place(name: &[u8], tile: &[u8], instruction: &[u8]) -> Option<Action>
    ensures { result ≡ action_with_place name.now tile.now instruction.now }
{
    if is(name, b"break") {
        Some(Action::Break {
            tile: index(tile)?,
            instruction: index(instruction)?,
        })
    } else {
        None
    }
}

// The command that the words of a line are.
fn action_in(line: &[u8]) -> Option<Action>
    ensures { result ≡ action_of (words_in line.now) }
{
    let mut words = Words::new(line);
    let name = words.next()?;
    match words.next() {
        None => alone(name),
        Some(first) => match words.next() {
            None => with_count(name, first),
            Some(second) => match words.next() {
                None => with_place(name, first, second),
                Some(_) => None,
            },
        },
    }
}

/// The commands of a script: one a line, where lines that are blank are passed. A line that is no command is refused
/// by its number; the first such line is.
pub fn read_script(alloc: Global, text: &[u8]) -> Result<Vec<Action>, ScriptError>
    ensures { AnswersScript result (script_of text.now) }
{
    let mut actions = Vec::new(alloc);
    let mut lines = NonBlankLines::new(text, Comments::Never);
    'lines: while let Some((number, line)) = lines.next() {
        match action_in(line) {
            Some(action) => actions.push(action)?,
            None => return Err(ScriptError::Bad { line: number }),
        }
    }
    Ok(actions)
}
