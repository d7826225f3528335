use crate::{AsmError, Dest, Instr, Jump, Program, Programs, Source, assemble, print};
use std::alloc::Global;
use std::test::Fail;
use tis_base::{Dir, Shape, Tile, TileKind, Tiles, Value};

// A move between two ports.
fn moves(from: Dir, to: Dir) -> Instr {
    Instr::Mov(Source::Port(from), Dest::Port(to))
}

#[test]
fn a_program_takes_fifteen_lines_and_prints_them(rt: HostRuntime) -> Result<(), Fail> {
    let mut program = Program::new();
    assert!(rt; program.is_empty());
    assert_eq!(rt; print(rt.alloc(), &program)?.as_slice(), b"".as_slice());
    for (instr, mark, text) in [
        (Instr::default(), false, b"MOV UP, DOWN\n".as_slice()),
        (
            moves(Dir::Left, Dir::Right),
            true,
            b"!MOV LEFT, RIGHT\n".as_slice(),
        ),
        (
            moves(Dir::Down, Dir::Left),
            false,
            b"MOV DOWN, LEFT\n".as_slice(),
        ),
        (
            moves(Dir::Right, Dir::Up),
            true,
            b"!MOV RIGHT, UP\n".as_slice(),
        ),
    ] {
        let mut alone = Program::new();
        assert!(rt; alone.push(instr, mark));
        assert!(rt; program.push(instr, mark));
        let last = program.len() - 1;
        assert_eq!(rt; program.at(last), instr);
        assert_eq!(rt; program.marked(last), mark);
        assert_eq!(rt; print(rt.alloc(), &alone)?.as_slice(), text);
    }
    for len in 5..16 {
        assert!(rt; program.push(Instr::default(), false));
        assert_eq!(rt; program.len(), len);
    }
    let before = print(rt.alloc(), &program)?;
    assert!(rt; !program.push(moves(Dir::Left, Dir::Left), true));
    assert_eq!(rt; program.len(), 15);
    assert_eq!(rt; print(rt.alloc(), &program)?, before);
    assert!(rt;
        before.starts_with(b"MOV UP, DOWN\n!MOV LEFT, RIGHT\nMOV DOWN, LEFT\n!MOV RIGHT, UP\nMOV")
    );
    Ok(())
}

#[test]
fn each_instruction_is_printed_in_capitals(rt: HostRuntime) -> Result<(), Fail> {
    let mut program = Program::new();
    for (instr, mark) in [
        (Instr::Mov(Source::Any, Dest::Last), false),
        (Instr::Jump(Jump::IfPositive, 3), true),
        (Instr::Swp, false),
        (Instr::Jro(Source::Number(Value::clamp(-1))), true),
        (Instr::Jump(Jump::Always, 0), false),
        (Instr::Mov(Source::Last, Dest::Any), false),
        (Instr::Mov(Source::Nil, Dest::Nil), false),
        (Instr::Mov(Source::Acc, Dest::Acc), false),
        (Instr::Nop, false),
        (Instr::Sav, false),
        (Instr::Neg, false),
        (Instr::Jump(Jump::IfZero, 10), false),
        (Instr::Jump(Jump::IfNotZero, 0), false),
        (Instr::Jump(Jump::IfNegative, 0), false),
    ] {
        assert!(rt; program.push(instr, mark));
    }
    let want =
        b"L0: MOV ANY, LAST\n!JGZ L3\nSWP\nL3: !JRO -1\nJMP L0\nMOV LAST, ANY\nMOV NIL, NIL\nMOV ACC, ACC\nNOP\nSAV\nL10: NEG\nJEZ L10\nJNZ L0\nJLZ L0\n";
    assert_eq!(rt; print(rt.alloc(), &program)?.as_slice(), want.as_slice());
    Ok(())
}

#[test]
fn each_tile_has_its_own_program(rt: HostRuntime) -> Result<(), Fail> {
    let mut kinds = [TileKind::Compute; 12];
    kinds[3] = TileKind::Memory;
    let shape = Shape {
        columns: 4,
        rows: 3,
    };
    let tiles = Tiles::new(shape, &kinds).ok_or("no tiles")?;
    let mut programs = Programs::empty(rt.alloc(), tiles)?;
    let mut program = Program::new();
    assert!(rt; program.push(Instr::default(), false));
    programs.set(Tile { number: 11 }, program);
    for number in 0..12 {
        let want = if number == 11 { 1 } else { 0 };
        assert_eq!(rt; programs.of(Tile { number }).len(), want, "at {number}");
    }
    assert_eq!(rt; programs.tiles(), tiles);
    Ok(())
}

// The canonical text of the program that a text spells.
#[test]
fn a_text_is_read_as_its_program(rt: HostRuntime) -> Result<(), Fail> {
    for (text, want) in [
        (b"".as_slice(), b"".as_slice()),
        (b"JMP B\nB:\n".as_slice(), b"L0: JMP L0\n".as_slice()),
        (
            b"a:\r\n! mov 1000,acc # x\n\njro -7\n".as_slice(),
            b"!MOV 999, ACC\nJRO -7\n".as_slice(),
        ),
    ] {
        let program = match assemble(rt.alloc(), text) {
            Ok(program) => program,
            Err(_) => return Err("refused".into()),
        };
        assert_eq!(rt; print(rt.alloc(), &program)?.as_slice(), want);
    }
    Ok(())
}

#[test]
fn a_text_is_refused_by_its_first_fault(rt: HostRuntime) -> Result<(), Fail> {
    let sixteen = b"\n\n\n\n\n\n\n\n\n\n\n\n\n\n\nNOP";
    // A comment of 81 bytes.
    let long = b"# a comment of eighty-one bytes is one byte too long for a line of code to be rea";
    let long_at_end =
        b"\n\n\n\n\n\n\n\n\n\n\n\n\n\n# a comment of eighty-one bytes is one byte too long for a line of code to be rea";
    for (text, want) in [
        (sixteen.as_slice(), AsmError::TooManyLines),
        (long.as_slice(), AsmError::LongLine { line: 1 }),
        (long_at_end.as_slice(), AsmError::LongLine { line: 15 }),
        (b"MOV 5 6".as_slice(), AsmError::BadLine { line: 1 }),
        (
            b"\n\n\n\n\n\n\n\n\n\n\n\n\n\nMOV 5 6".as_slice(),
            AsmError::BadLine { line: 15 },
        ),
        (
            b"A:\nA: NOP\n".as_slice(),
            AsmError::RepeatedLabel { line: 2 },
        ),
        (
            b"A:\n\n\n\n\n\n\n\n\n\n\n\n\n\na:".as_slice(),
            AsmError::RepeatedLabel { line: 15 },
        ),
        (b"JMP B".as_slice(), AsmError::UnknownLabel { line: 1 }),
        (
            b"A: JMP A\n\n\n\n\n\n\n\n\n\n\n\n\n\nJEZ B".as_slice(),
            AsmError::UnknownLabel { line: 15 },
        ),
    ] {
        assert!(rt; matches!(assemble(rt.alloc(), text), Err(error) if error == want));
    }
    Ok(())
}
