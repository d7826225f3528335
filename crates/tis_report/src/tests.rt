use crate::{ended_report, not_enabled_report, replayed_report};
use std::alloc::Global;
use std::test::Fail;
use tis_asm::{Programs, assemble};
use tis_base::{Shape, Tile, TileKind, Tiles, Values};
use tis_grid::{Ended, Event, Grid, OutKind, OutputAt, Puzzle};

#[test]
fn a_report_tells_the_outputs_by_position(rt: HostRuntime) -> Result<(), Fail> {
    let alloc = rt.alloc();
    let kinds = [TileKind::Compute; 12];
    let shape = Shape {
        columns: 4,
        rows: 3,
    };
    let tiles = Tiles::new(shape, &kinds).ok_or("no tiles")?;
    let mut outputs = Vec::new(alloc);
    outputs.push(OutputAt {
        position: 3,
        kind: OutKind::Image,
        expected: Values::new(alloc),
    })?;
    outputs.push(OutputAt {
        position: 1,
        kind: OutKind::Stream,
        expected: Values::new(alloc),
    })?;
    let puzzle = Puzzle {
        tiles,
        inputs: Vec::new(alloc),
        outputs,
    };
    let mut programs = Programs::empty(alloc, tiles)?;
    let Ok(code) = assemble(alloc, b"mov -7 down") else {
        return Err("no program".into());
    };
    programs.set(Tile { number: 9 }, code);
    let grid = Grid::new(puzzle, programs);
    let mut state = grid.start(alloc)?;
    let events = [Event::Local(Tile { number: 9 }), Event::Out(1)];
    assert!(rt; grid.run_order(&mut state, &events).is_ok());
    let text = replayed_report(alloc, 2, grid.puzzle(), &state)?;
    assert!(rt; text.starts_with(b"events 2\nout 1 -7\nimage 3\n000000000000000000000000000000\n"));
    assert_eq!(rt; text.len(), 26 + 18 * 31);
    let text = not_enabled_report(alloc, 0, grid.puzzle(), &state)?;
    assert!(rt; text.starts_with(b"not enabled 0\nout 1 -7\nimage 3\n0"));
    let text = ended_report(alloc, Ended::Limit { done: 2 }, grid.puzzle(), &state)?;
    assert!(rt; text.starts_with(b"limit 2\nout 1 -7\nimage 3\n0"));
    Ok(())
}
