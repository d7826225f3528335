use crate::{EventsError, GridTextError, read_events, read_grid};
use std::alloc::Global;
use std::test::Fail;
use tis_base::{Dir, Tile, TileKind};
use tis_grid::{Event, OutKind};

#[test]
fn grids_are_read(rt: HostRuntime) -> Result<(), Fail> {
    let text =
        "# a grid\n\ngrid 1 \r\n\ttiles CCCM CDCC CCCC # rows\nimage 2\ninput 1 5 -007 # two\noutput 1 999\n";
    let puzzle = read_grid(rt.alloc(), text.as_bytes())?;
    assert_eq!(rt; puzzle.tiles.kind(Tile { number: 3 }), TileKind::Memory);
    assert_eq!(rt; puzzle.tiles.kind(Tile { number: 5 }), TileKind::Damaged);
    assert_eq!(rt; puzzle.inputs.len(), 1);
    assert_eq!(rt; puzzle.inputs[0].position, 1);
    assert_eq!(rt; puzzle.inputs[0].values.len(), 2);
    assert_eq!(rt; puzzle.inputs[0].values.at(1).get(), -7);
    assert_eq!(rt; puzzle.outputs.len(), 2);
    assert_eq!(rt; puzzle.outputs[0].kind, OutKind::Image);
    assert_eq!(rt; puzzle.outputs[0].expected.len(), 540);
    assert_eq!(rt; puzzle.outputs[1].kind, OutKind::Stream);
    Ok(())
}

// Why a text is no grid.
fn refusal(alloc: Global, text: &str) -> Option<GridTextError> {
    match read_grid(alloc, text.as_bytes()) {
        Ok(_) => None,
        Err(error) => Some(error),
    }
}

#[test]
fn the_first_wrong_line_of_a_grid_is_named(rt: HostRuntime) {
    for (text, error) in [
        ("", GridTextError::BadLine { line: 1 }),
        ("grid 1\n", GridTextError::BadLine { line: 2 }),
        ("grid 1\n\n# x\n", GridTextError::BadLine { line: 4 }),
        ("grid 01\n", GridTextError::BadLine { line: 1 }),
        (
            "grid 1\ntiles CCCC CCCC CCC\n",
            GridTextError::BadLine { line: 2 },
        ),
        (
            "grid 1\ntiles CCCC CCCC CCCC\ninput 1 5 7\noutput 1 5 7\ninput 1 9\n",
            GridTextError::SamePlace { line: 5 },
        ),
        (
            "grid 1\ntiles CCCC CCCC CCCC\ninput 1\ninput 1 1000\n",
            GridTextError::BadLine { line: 4 },
        ),
        (
            "grid 1\ntiles CCCC CCCC CCCC\noutput 3\nimage 3\n",
            GridTextError::SamePlace { line: 4 },
        ),
        (
            "grid 1\ntiles CCCC CCCC CCCC\nimage 0 1\n",
            GridTextError::BadLine { line: 3 },
        ),
        (
            "grid 1\ntiles CCCC CCCC CCCC\ninput 4\n",
            GridTextError::BadLine { line: 3 },
        ),
        (
            "grid 1\ntiles CCCC CCCC CCCC\ninput 1 +1\n",
            GridTextError::BadLine { line: 3 },
        ),
    ] {
        assert_eq!(rt; refusal(rt.alloc(), text), Some(error), "{text}");
    }
}

#[test]
fn events_are_read(rt: HostRuntime) -> Result<(), Fail> {
    let tile = Tile { number: 47 };
    let text = "Local 047\n\n meet 47\tLEFT\r\nin 7\nOUT 0\npush 47 up\npop 47 down";
    let events = read_events(rt.alloc(), text.as_bytes())?;
    let wanted = [
        Event::Local(tile),
        Event::Meet(tile, Dir::Left),
        Event::In(7),
        Event::Out(0),
        Event::Push(tile, Dir::Up),
        Event::Pop(tile, Dir::Down),
    ];
    assert_eq!(rt; events.as_slice(), wanted.as_slice());
    Ok(())
}

// Why a text has no events.
fn events_refusal(alloc: Global, text: &str) -> Option<EventsError> {
    match read_events(alloc, text.as_bytes()) {
        Ok(_) => None,
        Err(error) => Some(error),
    }
}

#[test]
fn the_first_wrong_line_of_events_is_named(rt: HostRuntime) {
    for (text, line) in [
        ("in 9\n", 1),
        ("in 1\n\n# x\n", 3),
        ("local 48\n", 1),
        ("meet 0\n", 1),
        ("out 1 2\n", 1),
        ("local 1\nmeet 0 upp\n", 2),
    ] {
        assert_eq!(rt;
            events_refusal(rt.alloc(), text),
            Some(EventsError::Bad { line }),
            "{text}"
        );
    }
}
