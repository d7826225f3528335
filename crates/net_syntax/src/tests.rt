//! Texts that are networks, and texts that aren't.
use crate::{Block, Name, NetError, Path, Statement, Test, Var, read_net, write_net};
use std::alloc::Global;
use std::test::Fail;

const HEAD: &[u8] =
    b"net 1\ntiles CCCC CCCC CCCC\ninput a at 1 via\noutput o at 1 via 5 9\nprocess p at 1\n";

// The refusal of a text, or None where it is a network.
fn refusal(alloc: Global, text: &[u8]) -> Option<NetError> {
    match read_net(alloc, text) {
        Ok(_) => None,
        Err(error) => Some(error),
    }
}

// The refusal of a process with these lines.
fn body_refusal(alloc: Global, body: &[u8]) -> Result<Option<NetError>, Fail> {
    let mut text = HEAD.to_vec(alloc)?;
    text.extend_from_slice(body)?;
    Ok(refusal(alloc, &text))
}

#[test]
fn each_wrong_line_is_named(rt: HostRuntime) -> Result<(), Fail> {
    let alloc = rt.alloc();
    let rows: [(&[u8], Option<NetError>); 14] = [
        (b"move a o\nend\n", None),
        (b"move a o\n", Some(NetError::Unclosed { line: 5 })),
        (
            b"move a o\nend\nend\n",
            Some(NetError::StrayEnd { line: 8 }),
        ),
        (b"get abcdefghijklmnop x\nend\n", None),
        (
            b"get abcdefghijklmnopq x\nend\n",
            Some(NetError::BadLine { line: 6 }),
        ),
        (b"put o 999\nput o -999\nend\n", None),
        (b"put o 1000\nend\n", Some(NetError::BadLine { line: 6 })),
        (b"put o -1000\nend\n", Some(NetError::BadLine { line: 6 })),
        (
            b"while x = 0\nelse\nend\nend\n",
            Some(NetError::StrayEnd { line: 7 }),
        ),
        (
            b"if x = 0\nelse\nelse\nend\nend\n",
            Some(NetError::StrayEnd { line: 8 }),
        ),
        (
            b"\n# c\nif x = 0\n\nelse\nfoo\n",
            Some(NetError::BadLine { line: 11 }),
        ),
        (b"if x >= 0\nelse\n", Some(NetError::Unclosed { line: 6 })),
        (b"end\ninput b at 4\n", Some(NetError::BadLine { line: 7 })),
        (b"end\r\nchannel c via 0 99\r\n", None),
    ];
    for (body, expected) in &rows {
        assert_eq!(&rt; body_refusal(alloc, body)?, *expected);
    }
    assert_eq!(&rt; refusal(alloc, b""), Some(NetError::BadLine { line: 1 }));
    assert_eq!(&rt;
        refusal(alloc, b"net 1\n\n# x\n"),
        Some(NetError::BadLine { line: 4 })
    );
    Ok(())
}

// The first two lines of a text, and then so many inputs.
fn inputs(alloc: Global, count: u32) -> Result<Vec<u8>, Fail> {
    let mut text = b"net 1\ntiles CCCC CCCC CCCC\n".to_vec(alloc)?;
    for _ in 0..count {
        text.extend_from_slice(b"input a at 0\n")?;
    }
    Ok(text)
}

#[test]
fn more_lines_than_a_network_may_have_are_wrong(rt: HostRuntime) -> Result<(), Fail> {
    let alloc = rt.alloc();
    assert_eq!(&rt; refusal(alloc, &inputs(alloc, 65_533)?), None);
    assert_eq!(&rt;
        refusal(alloc, &inputs(alloc, 65_534)?),
        Some(NetError::BadLine { line: 65_536 })
    );
    Ok(())
}

// A process of so many blocks inside each other.
fn nested(alloc: Global, depth: u32) -> Result<Vec<u8>, Fail> {
    let mut text = HEAD.to_vec(alloc)?;
    for _ in 0..depth {
        text.extend_from_slice(b"if x = 0\n")?;
    }
    for _ in 0..depth {
        text.extend_from_slice(b"end\n")?;
    }
    text.extend_from_slice(b"end\n")?;
    Ok(text)
}

#[test]
fn sixteen_blocks_may_be_open_and_no_more(rt: HostRuntime) -> Result<(), Fail> {
    let alloc = rt.alloc();
    assert_eq!(&rt; refusal(alloc, &nested(alloc, 16)?), None);
    assert_eq!(&rt;
        refusal(alloc, &nested(alloc, 17)?),
        Some(NetError::TooDeep { line: 22 })
    );
    Ok(())
}

#[test]
fn a_tree_is_built_statement_by_statement(rt: HostRuntime) -> Result<(), Fail> {
    let alloc = rt.alloc();
    let name = Name::new(b"a").ok_or("a name")?;
    assert_eq!(&rt; name.bytes(), b"a".as_slice());
    let mut block = Block::new(alloc);
    block.push(Statement::Get(name, Var::Y), 6)?;
    block.push(Statement::While(Var::X, Test::Zero, Block::new(alloc)), 7)?;
    assert_eq!(&rt; block.len(), 2);
    assert_eq!(&rt; block.line(1), 7);
    let is_while = match block.at(1) {
        Statement::While(_, _, _) => true,
        _ => false,
    };
    assert!(&rt; is_while);
    let mut path = Path::new();
    assert!(&rt; path.push(9));
    assert_eq!(&rt; path.len(), 1);
    assert_eq!(&rt; path.at(0), 9);
    Ok(())
}

#[test]
fn a_network_is_written_as_its_canonical_text(rt: HostRuntime) -> Result<(), Fail> {
    let alloc = rt.alloc();
    let text: &[u8] =
        b"net 1\ntiles CCCC CMDC CCCC\ninput a at 1\noutput o at 1 via 5 9\nchannel c via\nprocess p at 1\nif x >= 0\nput o -7\nelse\nmove a o\nend\nwhile y != 0\ncount x\nend\nend\nend\n";
    let net = read_net(alloc, text)?;
    assert_eq!(&rt; write_net(alloc, &net)?.as_slice(), text);
    let process = net.processes.get(0).ok_or("a process")?;
    let copy = process.body.copy(alloc)?;
    assert_eq!(&rt; copy.len(), 2);
    assert_eq!(&rt; copy.line(1), 12);
    Ok(())
}
