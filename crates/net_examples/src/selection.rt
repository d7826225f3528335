//! The code of processes, worked out by hand.
use net_rules::{check, is_small};
use net_select::{Ports, SelectError, lines_of, select};
use net_syntax::read_net;
use std::alloc::Global;
use std::test::Fail;
use tis_asm::print;
use tis_base::Dir;

const HEAD: &[u8] = b"net 1\ntiles CCCC CCCC CCCC\ninput a at 1\noutput o at 1\nprocess p\n";

// What is selected for a process: the text of its code, and how many lines it has.
#[derive(Drop)]
struct Selected {
    text: Vec<u8>,
    lines: u64,
}

// A process that reads a from above and writes o in this direction.
fn selection_of(alloc: Global, body: &[u8], dir: Dir) -> Result<Selected, Fail> {
    let mut text = HEAD.to_vec(alloc)?;
    text.extend_from_slice(body)?;
    text.extend_from_slice(b"end\n")?;
    let net = read_net(alloc, &text)?;
    if !is_small(&net) {
        return Err(Fail::new("a small network"));
    }
    let checked = check(alloc, &net)?;
    if checked.len() == 0 {
        return Err(Fail::new("a process"));
    }
    let mut ports = Ports::new();
    ports.set(0, Dir::Up);
    ports.set(1, dir);
    let lines = lines_of(&checked, 0);
    match select(&checked, 0, &ports) {
        Ok(program) => Ok(Selected {
            text: print(alloc, &program)?,
            lines,
        }),
        Err(SelectError::TooLong { lines: told }) => {
            if told != lines {
                return Err(Fail::new("another number of lines"));
            }
            Ok(Selected {
                text: b"too long\n".to_vec(alloc)?,
                lines,
            })
        }
    }
}

// Each statement without blocks, on x and on y, between a read and a write.
const STATEMENTS: [(&[u8], &[u8]); 25] = [
    (
        b"get a x\nget a x\nput o x\n",
        b"MOV UP, ACC\nMOV UP, ACC\nMOV ACC, DOWN\n",
    ),
    (
        b"get a x\nget a y\nput o x\n",
        b"MOV UP, ACC\nSWP\nMOV UP, ACC\nSWP\nMOV ACC, DOWN\n",
    ),
    (
        b"get a x\ngetadd a x\nput o x\n",
        b"MOV UP, ACC\nADD UP\nMOV ACC, DOWN\n",
    ),
    (
        b"get a x\ngetadd a y\nput o x\n",
        b"MOV UP, ACC\nSWP\nADD UP\nSWP\nMOV ACC, DOWN\n",
    ),
    (
        b"get a x\ngetsub a x\nput o x\n",
        b"MOV UP, ACC\nSUB UP\nMOV ACC, DOWN\n",
    ),
    (
        b"get a x\ngetsub a y\nput o x\n",
        b"MOV UP, ACC\nSWP\nSUB UP\nSWP\nMOV ACC, DOWN\n",
    ),
    (
        b"get a x\nput o x\nput o x\n",
        b"MOV UP, ACC\nMOV ACC, DOWN\nMOV ACC, DOWN\n",
    ),
    (
        b"get a x\nput o y\nput o x\n",
        b"MOV UP, ACC\nSWP\nMOV ACC, DOWN\nSWP\nMOV ACC, DOWN\n",
    ),
    (
        b"get a x\nput o -999\nput o x\n",
        b"MOV UP, ACC\nMOV -999, DOWN\nMOV ACC, DOWN\n",
    ),
    (
        b"get a x\nmove a o\nput o x\n",
        b"MOV UP, ACC\nMOV UP, DOWN\nMOV ACC, DOWN\n",
    ),
    (
        b"get a x\nset x 999\nput o x\n",
        b"MOV UP, ACC\nMOV 999, ACC\nMOV ACC, DOWN\n",
    ),
    (
        b"get a x\nset y 0\nput o x\n",
        b"MOV UP, ACC\nSWP\nMOV 0, ACC\nSWP\nMOV ACC, DOWN\n",
    ),
    (
        b"get a x\nadd x 1\nput o x\n",
        b"MOV UP, ACC\nADD 1\nMOV ACC, DOWN\n",
    ),
    (
        b"get a x\nadd y -1\nput o x\n",
        b"MOV UP, ACC\nSWP\nADD -1\nSWP\nMOV ACC, DOWN\n",
    ),
    (
        b"get a x\nsub x 1\nput o x\n",
        b"MOV UP, ACC\nSUB 1\nMOV ACC, DOWN\n",
    ),
    (
        b"get a x\nsub y 1\nput o x\n",
        b"MOV UP, ACC\nSWP\nSUB 1\nSWP\nMOV ACC, DOWN\n",
    ),
    (
        b"get a x\nneg x\nput o x\n",
        b"MOV UP, ACC\nNEG\nMOV ACC, DOWN\n",
    ),
    (
        b"get a x\nneg y\nput o x\n",
        b"MOV UP, ACC\nSWP\nNEG\nSWP\nMOV ACC, DOWN\n",
    ),
    (
        b"get a x\ndouble x\nput o x\n",
        b"MOV UP, ACC\nADD ACC\nMOV ACC, DOWN\n",
    ),
    (
        b"get a x\ndouble y\nput o x\n",
        b"MOV UP, ACC\nSWP\nADD ACC\nSWP\nMOV ACC, DOWN\n",
    ),
    (
        b"get a x\ncopy x y\nput o x\n",
        b"MOV UP, ACC\nSWP\nSAV\nMOV ACC, DOWN\n",
    ),
    (
        b"get a x\ncopy y x\nput o x\n",
        b"MOV UP, ACC\nSAV\nMOV ACC, DOWN\n",
    ),
    (
        b"get a x\ncopy x x\nput o x\n",
        b"MOV UP, ACC\nMOV ACC, DOWN\n",
    ),
    (
        b"get a x\ncopy y y\nput o x\n",
        b"MOV UP, ACC\nMOV ACC, DOWN\n",
    ),
    (
        b"get a x\nswap\nput o x\n",
        b"MOV UP, ACC\nSWP\nMOV ACC, DOWN\n",
    ),
];

// Each test on x and on y, in an `if` and in a `while`.
const TESTS: [(&[u8], &[u8]); 24] = [
    (
        b"get a x\nif x = 0\nput o 1\nelse\nput o 2\nend\nput o x\n",
        b"MOV UP, ACC\nJNZ L4\nMOV 1, DOWN\nJMP L5\nL4: MOV 2, DOWN\nL5: MOV ACC, DOWN\n",
    ),
    (
        b"get a x\nif x != 0\nput o 1\nelse\nput o 2\nend\nput o x\n",
        b"MOV UP, ACC\nJEZ L4\nMOV 1, DOWN\nJMP L5\nL4: MOV 2, DOWN\nL5: MOV ACC, DOWN\n",
    ),
    (
        b"get a x\nif x >= 0\nput o 1\nelse\nput o 2\nend\nput o x\n",
        b"MOV UP, ACC\nJLZ L4\nMOV 1, DOWN\nJMP L5\nL4: MOV 2, DOWN\nL5: MOV ACC, DOWN\n",
    ),
    (
        b"get a x\nif x <= 0\nput o 1\nelse\nput o 2\nend\nput o x\n",
        b"MOV UP, ACC\nJGZ L4\nMOV 1, DOWN\nJMP L5\nL4: MOV 2, DOWN\nL5: MOV ACC, DOWN\n",
    ),
    (
        b"get a x\nif x > 0\nput o 1\nelse\nput o 2\nend\nput o x\n",
        b"MOV UP, ACC\nJGZ L4\nMOV 2, DOWN\nJMP L5\nL4: MOV 1, DOWN\nL5: MOV ACC, DOWN\n",
    ),
    (
        b"get a x\nif x < 0\nput o 1\nelse\nput o 2\nend\nput o x\n",
        b"MOV UP, ACC\nJLZ L4\nMOV 2, DOWN\nJMP L5\nL4: MOV 1, DOWN\nL5: MOV ACC, DOWN\n",
    ),
    (
        b"get a x\nwhile x = 0\nget a x\nend\nput o x\n",
        b"MOV UP, ACC\nL1: JNZ L4\nMOV UP, ACC\nJMP L1\nL4: MOV ACC, DOWN\n",
    ),
    (
        b"get a x\nwhile x != 0\nget a x\nend\nput o x\n",
        b"MOV UP, ACC\nL1: JEZ L4\nMOV UP, ACC\nJMP L1\nL4: MOV ACC, DOWN\n",
    ),
    (
        b"get a x\nwhile x >= 0\nget a x\nend\nput o x\n",
        b"MOV UP, ACC\nL1: JLZ L4\nMOV UP, ACC\nJMP L1\nL4: MOV ACC, DOWN\n",
    ),
    (
        b"get a x\nwhile x <= 0\nget a x\nend\nput o x\n",
        b"MOV UP, ACC\nL1: JGZ L4\nMOV UP, ACC\nJMP L1\nL4: MOV ACC, DOWN\n",
    ),
    (
        b"get a x\nwhile x > 0\nget a x\nend\nput o x\n",
        b"MOV UP, ACC\nL1: JGZ L3\nJMP L5\nL3: MOV UP, ACC\nJMP L1\nL5: MOV ACC, DOWN\n",
    ),
    (
        b"get a x\nwhile x < 0\nget a x\nend\nput o x\n",
        b"MOV UP, ACC\nL1: JLZ L3\nJMP L5\nL3: MOV UP, ACC\nJMP L1\nL5: MOV ACC, DOWN\n",
    ),
    (
        b"get a x\nif y = 0\nput o 1\nelse\nput o 2\nend\nput o x\n",
        b"MOV UP, ACC\nSWP\nJNZ L6\nSWP\nMOV 1, DOWN\nJMP L8\nL6: SWP\nMOV 2, DOWN\nL8: MOV ACC, DOWN\n",
    ),
    (
        b"get a x\nif y != 0\nput o 1\nelse\nput o 2\nend\nput o x\n",
        b"MOV UP, ACC\nSWP\nJEZ L6\nSWP\nMOV 1, DOWN\nJMP L8\nL6: SWP\nMOV 2, DOWN\nL8: MOV ACC, DOWN\n",
    ),
    (
        b"get a x\nif y >= 0\nput o 1\nelse\nput o 2\nend\nput o x\n",
        b"MOV UP, ACC\nSWP\nJLZ L6\nSWP\nMOV 1, DOWN\nJMP L8\nL6: SWP\nMOV 2, DOWN\nL8: MOV ACC, DOWN\n",
    ),
    (
        b"get a x\nif y <= 0\nput o 1\nelse\nput o 2\nend\nput o x\n",
        b"MOV UP, ACC\nSWP\nJGZ L6\nSWP\nMOV 1, DOWN\nJMP L8\nL6: SWP\nMOV 2, DOWN\nL8: MOV ACC, DOWN\n",
    ),
    (
        b"get a x\nif y > 0\nput o 1\nelse\nput o 2\nend\nput o x\n",
        b"MOV UP, ACC\nSWP\nJGZ L6\nSWP\nMOV 2, DOWN\nJMP L8\nL6: SWP\nMOV 1, DOWN\nL8: MOV ACC, DOWN\n",
    ),
    (
        b"get a x\nif y < 0\nput o 1\nelse\nput o 2\nend\nput o x\n",
        b"MOV UP, ACC\nSWP\nJLZ L6\nSWP\nMOV 2, DOWN\nJMP L8\nL6: SWP\nMOV 1, DOWN\nL8: MOV ACC, DOWN\n",
    ),
    (
        b"get a x\nwhile y = 0\nget a x\nend\nput o x\n",
        b"MOV UP, ACC\nL1: SWP\nJNZ L6\nSWP\nMOV UP, ACC\nJMP L1\nL6: SWP\nMOV ACC, DOWN\n",
    ),
    (
        b"get a x\nwhile y != 0\nget a x\nend\nput o x\n",
        b"MOV UP, ACC\nL1: SWP\nJEZ L6\nSWP\nMOV UP, ACC\nJMP L1\nL6: SWP\nMOV ACC, DOWN\n",
    ),
    (
        b"get a x\nwhile y >= 0\nget a x\nend\nput o x\n",
        b"MOV UP, ACC\nL1: SWP\nJLZ L6\nSWP\nMOV UP, ACC\nJMP L1\nL6: SWP\nMOV ACC, DOWN\n",
    ),
    (
        b"get a x\nwhile y <= 0\nget a x\nend\nput o x\n",
        b"MOV UP, ACC\nL1: SWP\nJGZ L6\nSWP\nMOV UP, ACC\nJMP L1\nL6: SWP\nMOV ACC, DOWN\n",
    ),
    (
        b"get a x\nwhile y > 0\nget a x\nend\nput o x\n",
        b"MOV UP, ACC\nL1: SWP\nJGZ L5\nSWP\nJMP L8\nL5: SWP\nMOV UP, ACC\nJMP L1\nL8: MOV ACC, DOWN\n",
    ),
    (
        b"get a x\nwhile y < 0\nget a x\nend\nput o x\n",
        b"MOV UP, ACC\nL1: SWP\nJLZ L5\nSWP\nJMP L8\nL5: SWP\nMOV UP, ACC\nJMP L1\nL8: MOV ACC, DOWN\n",
    ),
];

// Loops that count, blocks without code, blocks in blocks, and jumps to the end.
const BLOCKS: [(&[u8], &[u8]); 10] = [
    (
        b"get a x\ncount x\nput o 7\nend\nput o x\n",
        b"MOV UP, ACC\nL1: JGZ L3\nJMP L6\nL3: MOV 7, DOWN\nSUB 1\nJMP L1\nL6: MOV ACC, DOWN\n",
    ),
    (
        b"get a y\ncount y\nput o 7\nend\n",
        b"L0: SWP\nMOV UP, ACC\nSWP\nL3: SWP\nJGZ L7\nSWP\nJMP L0\nL7: SWP\nMOV 7, DOWN\nSWP\nSUB 1\nSWP\nJMP L3\n",
    ),
    (
        b"get a x\nwhile x != 0\nput o x\nget a x\nend\nput o -1\n",
        b"MOV UP, ACC\nL1: JEZ L5\nMOV ACC, DOWN\nMOV UP, ACC\nJMP L1\nL5: MOV -1, DOWN\n",
    ),
    (
        b"get a y\nif y > 0\nput o 1\nend\nput o y\n",
        b"SWP\nMOV UP, ACC\nSWP\nSWP\nJGZ L7\nSWP\nJMP L9\nL7: SWP\nMOV 1, DOWN\nL9: SWP\nMOV ACC, DOWN\nSWP\n",
    ),
    (
        b"get a x\nif x = 0\nput o 1\nend\n",
        b"L0: MOV UP, ACC\nJNZ L0\nMOV 1, DOWN\n",
    ),
    (
        b"get a x\nif x > 0\nput o 1\nend\n",
        b"L0: MOV UP, ACC\nJGZ L3\nJMP L0\nL3: MOV 1, DOWN\n",
    ),
    (
        b"get a x\nif x < 0\nelse\nput o 1\nend\n",
        b"L0: MOV UP, ACC\nJLZ L0\nMOV 1, DOWN\n",
    ),
    (
        b"get a x\nif x != 0\nelse\nput o 1\nend\n",
        b"L0: MOV UP, ACC\nJEZ L3\nJMP L0\nL3: MOV 1, DOWN\n",
    ),
    (
        b"get a x\nif x > 0\nwhile x = 0\nget a x\nend\nelse\ncount x\nput o x\nend\nend\n",
        b"L0: MOV UP, ACC\nJGZ L8\nL2: JGZ L4\nJMP L7\nL4: MOV ACC, DOWN\nSUB 1\nJMP L2\nL7: JMP L0\nL8: JNZ L0\nMOV UP, ACC\nJMP L8\n",
    ),
    (
        b"get a x\nif x >= 0\nif x != 0\ncopy x x\nelse\nput o 0\nend\nend\n",
        b"L0: MOV UP, ACC\nJLZ L0\nJEZ L4\nJMP L0\nL4: MOV 0, DOWN\n",
    ),
];

// Each body of a table has the code beside it, which has as many lines as told.
fn have_this_code(alloc: Global, rows: &[(&[u8], &[u8])]) -> Result<bool, Fail> {
    for (body, code) in rows {
        let found = selection_of(alloc, body, Dir::Down)?;
        let lines = code.iter().filter(|byte| **byte == b'\n').count();
        if found.text.as_slice() != *code || found.lines != lines as u64 {
            return Ok(false);
        }
    }
    Ok(true)
}

// A body of a read, so many of this statement, and a write.
fn body_of(alloc: Global, statement: &[u8], count: u32) -> Result<Vec<u8>, Fail> {
    let mut body = b"get a x\n".to_vec(alloc)?;
    for _ in 0..count {
        body.extend_from_slice(statement)?;
    }
    body.extend_from_slice(b"put o x\n")?;
    Ok(body)
}

#[test]
fn each_statement_has_its_code(rt: HostRuntime) -> Result<(), Fail> {
    let alloc = rt.alloc();
    assert!(&rt; have_this_code(alloc, &STATEMENTS)?);
    assert!(&rt; have_this_code(alloc, &TESTS)?);
    assert!(&rt; have_this_code(alloc, &BLOCKS)?);
    let right = selection_of(alloc, b"get a x\ndouble x\nput o x\n", Dir::Right)?;
    assert_eq!(&rt;
        right.text.as_slice(),
        b"MOV UP, ACC\nADD ACC\nMOV ACC, RIGHT\n".as_slice()
    );
    for (statement, count, lines) in [
        (b"add x 1\n".as_slice(), 13, 15),
        (b"add x 1\n".as_slice(), 14, 16),
        (b"copy x x\n".as_slice(), 20, 2),
        (b"neg y\n".as_slice(), 1000, 3002),
        (b"copy x y\n".as_slice(), 7, 16),
    ] {
        let found = selection_of(alloc, &body_of(alloc, statement, count)?, Dir::Down)?;
        assert_eq!(&rt; found.lines, lines);
        assert_eq!(&rt;
            found.text.as_slice() == b"too long\n".as_slice(),
            lines > 15
        );
    }
    Ok(())
}

#[test]
fn eight_numbers_have_a_direction(rt: HostRuntime) {
    let mut ports = Ports::new();
    for number in 0..8 {
        assert!(&rt; ports.set(number * 1000, Dir::Left));
    }
    assert!(&rt; !ports.set(1, Dir::Left));
    assert!(&rt; ports.set(7000, Dir::Up));
    assert!(&rt; !ports.set(8000, Dir::Up));
}
