use crate::{PuzzleError, read_layout, read_streams};
use lua_plain::{Plain, Plains};
use lua_tree::Text;
use std::alloc::Global;
use std::test::Fail;
use tis_base::{Tile, TileKind};
use tis_grid::Puzzle;

// A list of so many times a number.
fn numbers(alloc: Global, number: i64, count: usize) -> Result<Plain, PuzzleError> {
    let mut list = Plains::new(alloc);
    for _ in 0..count {
        list.push(Plain::Number(number))?;
    }
    Ok(Plain::List(list))
}

// An entry of a kind, at a position, with so many times a number.
#[derive(Clone, Copy)]
struct Row {
    kind: i64,
    position: i64,
    number: i64,
    count: usize,
}

// The puzzle of two entries.
fn puzzle(alloc: Global, rows: [Row; 2]) -> Result<Puzzle, PuzzleError> {
    let mut streams = Plains::new(alloc);
    for row in rows {
        let mut entry = Plains::new(alloc);
        entry.push(Plain::Number(row.kind))?;
        entry.push(Plain::Text(Text::new(alloc)))?;
        entry.push(Plain::Number(row.position))?;
        entry.push(numbers(alloc, row.number, row.count)?)?;
        streams.push(Plain::List(entry))?;
    }
    read_streams(alloc, &Plain::List(streams))
}

// Why two entries are no streams.
fn refusal(alloc: Global, rows: [Row; 2]) -> Option<PuzzleError> {
    match puzzle(alloc, rows) {
        Ok(_) => None,
        Err(error) => Some(error),
    }
}

const INPUT: Row = Row {
    kind: 0,
    position: 3,
    number: -999,
    count: 39,
};

const IMAGE: Row = Row {
    kind: 2,
    position: 3,
    number: 4,
    count: 540,
};

#[test]
fn streams_are_read(rt: HostRuntime) -> Result<(), Fail> {
    let puzzle = puzzle(rt.alloc(), [INPUT, IMAGE])?;
    assert_eq!(rt; puzzle.inputs.len(), 1);
    assert_eq!(rt; puzzle.inputs[0].position, 3);
    assert_eq!(rt; puzzle.inputs[0].values.len(), 39);
    assert_eq!(rt; puzzle.inputs[0].values.at(38).get(), -999);
    assert_eq!(rt; puzzle.outputs.len(), 1);
    assert_eq!(rt; puzzle.outputs[0].expected.len(), 540);
    Ok(())
}

#[test]
fn the_first_wrong_entry_is_named(rt: HostRuntime) {
    let first = PuzzleError::BadStreams { index: 1 };
    let second = PuzzleError::BadStreams { index: 2 };
    let taken = PuzzleError::SamePlace { index: 2 };
    for (rows, error) in [
        ([INPUT, INPUT], taken),
        (
            [
                IMAGE,
                Row {
                    kind: 1,
                    count: 2,
                    ..IMAGE
                },
            ],
            taken,
        ),
        ([INPUT, Row { count: 40, ..INPUT }], second),
        (
            [
                INPUT,
                Row {
                    number: -1000,
                    ..INPUT
                },
            ],
            second,
        ),
        ([INPUT, Row { kind: 3, ..INPUT }], second),
        (
            [
                Row {
                    position: 4,
                    ..INPUT
                },
                INPUT,
            ],
            first,
        ),
        (
            [
                Row {
                    position: -1,
                    ..INPUT
                },
                INPUT,
            ],
            first,
        ),
        ([INPUT, Row { number: 5, ..IMAGE }], second),
        (
            [
                INPUT,
                Row {
                    count: 539,
                    ..IMAGE
                },
            ],
            second,
        ),
    ] {
        assert_eq!(rt; refusal(rt.alloc(), rows), Some(error));
    }
}

#[test]
fn layouts_are_read_or_the_first_other_value_is_named(rt: HostRuntime) -> Result<(), Fail> {
    for (number, count, answer) in [
        (0, 12, Ok(TileKind::Compute)),
        (1, 12, Ok(TileKind::Memory)),
        (2, 12, Ok(TileKind::Damaged)),
        (3, 12, Err(1)),
        (-1, 12, Err(1)),
        (0, 11, Err(0)),
        (0, 13, Err(0)),
    ] {
        let list = numbers(rt.alloc(), number, count)?;
        match read_layout(&list) {
            Ok(tiles) => assert_eq!(rt; Ok(tiles.kind(Tile { number: 11 })), answer),
            Err(index) => assert_eq!(rt; Err(index), answer),
        }
    }
    assert_eq!(rt; read_layout(&Plain::Deep).is_err(), true);
    Ok(())
}
