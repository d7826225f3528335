use crate::{SaveError, read_save, write_save};
use std::alloc::Global;
use std::test::Fail;
use tis_asm::AsmError;
use tis_base::{Shape, TileKind, Tiles};

// Four columns and three rows of compute tiles, but for this one, which is a memory tile.
fn tiles_but(memory: usize) -> Option<Tiles> {
    let mut kinds = [TileKind::Compute; 12];
    if memory < 12 {
        kinds[memory] = TileKind::Memory;
    }
    let shape = Shape {
        columns: 4,
        rows: 3,
    };
    Tiles::new(shape, &kinds)
}

#[test]
fn a_text_is_read_and_written_as_a_save(rt: HostRuntime) -> Result<(), Fail> {
    for (memory, text, want) in [
        (12, b"".as_slice(), b"".as_slice()),
        (
            12,
            b"@1\r\nmov up,down # in\r\n\r\n@9\r\nstart: mov up down\r\n".as_slice(),
            b"@1\nMOV UP, DOWN\n\n@9\nMOV UP, DOWN\n\n".as_slice(),
        ),
        (
            5,
            b" \n@010 \t\nend:\njmp END\n@5\n,\n@0\n!swp".as_slice(),
            b"@0\n!SWP\n\n@10\nL0: JMP L0\n\n".as_slice(),
        ),
    ] {
        let tiles = tiles_but(memory).ok_or("no tiles")?;
        let programs = match read_save(rt.alloc(), text, tiles) {
            Ok(programs) => programs,
            Err(_) => return Err("refused".into()),
        };
        assert_eq!(rt; programs.tiles(), tiles);
        assert_eq!(rt; write_save(rt.alloc(), &programs)?.as_slice(), want);
    }
    Ok(())
}

// An error in the code of a block.
fn code(block: u8, error: AsmError) -> SaveError {
    SaveError::Asm { block, error }
}

#[test]
fn a_text_is_refused_by_its_first_wrong_line_and_then_by_its_code(
    rt: HostRuntime,
) -> Result<(), Fail> {
    let sixteen = b"@3\n\n\n\n\n\n\n\n\n\n\n\n\n\n\n\nNOP";
    // A comment of 81 bytes, on the first line of a block and on the last.
    let long =
        b"@0\n# a comment of eighty-one bytes is one byte too long for a line of code to be rea\n@1\nFOO";
    let long_at_end =
        b"@11\n\n\n\n\n\n\n\n\n\n\n\n\n\n\n# a comment of eighty-one bytes is one byte too long for a line of code to be rea";
    let tiles = tiles_but(12).ok_or("no tiles")?;
    for (text, want) in [
        (b"@x\n".as_slice(), SaveError::BadHead { line: 1 }),
        (
            b"@0\nFOO\n@1 NOP".as_slice(),
            SaveError::BadHead { line: 3 },
        ),
        (b"@12\n".as_slice(), SaveError::UnknownBlock { line: 1 }),
        (
            b"@0\nFOO\n@999".as_slice(),
            SaveError::UnknownBlock { line: 3 },
        ),
        (b"@1\n@1\n".as_slice(), SaveError::RepeatedBlock { line: 2 }),
        (
            b"@1\nNOP\n@001".as_slice(),
            SaveError::RepeatedBlock { line: 3 },
        ),
        (b"NOP\n".as_slice(), SaveError::StrayCode { line: 1 }),
        (b"\n\r\n#".as_slice(), SaveError::StrayCode { line: 3 }),
        (
            b"@0\nJMP A\n".as_slice(),
            code(0, AsmError::UnknownLabel { line: 1 }),
        ),
        (
            b"@11\nNOP\n@2\nNOP\nFOO".as_slice(),
            code(2, AsmError::BadLine { line: 2 }),
        ),
        (
            b"@11\nA:\n\nA:\n@2\nFOO".as_slice(),
            code(11, AsmError::RepeatedLabel { line: 3 }),
        ),
        (long.as_slice(), code(0, AsmError::LongLine { line: 1 })),
        (
            long_at_end.as_slice(),
            code(11, AsmError::LongLine { line: 15 }),
        ),
        (sixteen.as_slice(), code(3, AsmError::TooManyLines)),
    ] {
        assert!(rt; matches!(read_save(rt.alloc(), text, tiles), Err(error) if error == want));
    }
    Ok(())
}
