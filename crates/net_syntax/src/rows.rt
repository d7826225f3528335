//! The tiles of a network.
ghost use Rattle.std.specs.Prelude.{◌≡◌, ◌++◌, Some};
ghost use Rattle.tis_words.specs.Reads.{Reads, Found};
ghost use Rattle.net_syntax.specs.FormView.{row_view};
ghost use Rattle.tis_words.specs.Parts.{next_word};
ghost use Rattle.net_syntax.specs.Forms.{row_of as row_said, tiles_of as tiles_said, kind_of as kind_said};

use tis_base::{Shape, TileKind, Tiles};
use tis_words::Words;

// What a letter of the tiles stands for.
fn kind_of(letter: u8) -> Option<TileKind>
    ensures { result ≡ kind_said letter }
{
    match letter {
        b'C' => Some(TileKind::Compute),
        b'M' => Some(TileKind::Memory),
        b'D' => Some(TileKind::Damaged),
        _ => None,
    }
}

// A row of the tiles.
#[derive(Clone, Copy, Debug)]
pub(crate) struct Row {
    first: TileKind,
    second: TileKind,
    third: TileKind,
    fourth: TileKind,
}

// What the letters of a word of four stand for.
#[tactic(auto, unfolding(crate::specs::Forms::row_of, tis_words::specs::Parts::followed_by))]
fn row_of(word: &[u8]) -> Option<Row>
    ensures { Found row_view result (row_said word.now) }
{
    match word {
        [a, b, c, d] => {
            let first = kind_of(*a)?;
            let second = kind_of(*b)?;
            let third = kind_of(*c)?;
            let fourth = kind_of(*d)?;
            Some(Row {
                first,
                second,
                third,
                fourth,
            })
        }
        _ => None,
    }
}

// The next word is a row of tiles.
#[tactic(auto, unfolding(tis_words::specs::Parts::next_word))]
fn next_row(words: &mut Words<'_>) -> Option<Row>
    ensures { Reads row_view result words.new (next_word row_said words.old) }
{
    row_of(words.next()?)
}

// The tiles of three rows.
fn tiles_with(first: Row, second: Row, third: Row) -> Option<Tiles>
    ensures { Found (λ t. t) result (Some (record { shape = record { columns = 4; rows = 3 }; kinds = row_view first ++ row_view second ++ row_view third })) }
{
    let kinds = [
        first.first,
        first.second,
        first.third,
        first.fourth,
        second.first,
        second.second,
        second.third,
        second.fourth,
        third.first,
        third.second,
        third.third,
        third.fourth,
    ];
    Tiles::new(
        Shape {
            columns: 4,
            rows: 3,
        },
        &kinds,
    )
}

// Three rows of four tiles.
#[tactic(auto, unfolding(crate::specs::Forms::tiles_of, tis_words::specs::Parts::followed_by, tis_words::specs::Parts::at_end))]
pub(crate) fn tiles_of(words: &mut Words<'_>) -> Option<Tiles>
    ensures { Found (λ t. t) result (tiles_said words.old) }
{
    let first = next_row(words)?;
    let second = next_row(words)?;
    let third = next_row(words)?;
    words.end()?;
    tiles_with(first, second, third)
}
