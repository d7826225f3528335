//! Bodies that keep the rule of sure reads, and bodies that don't, and one whole network.
use crate::{
    RuleError, check, first_loop_without_read, is_small, sure_read_fault, sure_reads, surely_reads,
};
use net_tree::{Block, Name, Net, PortLine, ProcessText, Statement, Test, Var};
use std::alloc::Global;
use std::test::Fail;
use tis_base::{Shape, TileKind, Tiles, Value};

// `while x != 0`, `set x 0`, `end`, from this line on.
fn idle_loop(alloc: Global, line: u8) -> Result<Statement, Fail> {
    let mut inside = Block::new(alloc);
    inside.push(
        Statement::Set(Var::X, Value::clamp(0)),
        usize::from(line) + 1,
    )?;
    Ok(Statement::While(Var::X, Test::NotZero, inside))
}

#[test]
fn the_first_loop_without_a_read_is_named(rt: HostRuntime) -> Result<(), Fail> {
    let alloc = rt.alloc();
    let mut body = Block::new(alloc);
    assert_eq!(&rt;
        sure_read_fault(3, &body),
        Some(RuleError::NoSureRead { process: 3 })
    );
    body.push(idle_loop(alloc, 9)?, 9)?;
    assert!(&rt; !surely_reads(&body));
    let name = Name::new(b"a").ok_or("a name")?;
    body.push(Statement::Get(name, Var::Y), 12)?;
    assert!(&rt; surely_reads(&body));
    assert_eq!(&rt; first_loop_without_read(&body), Some(9));
    body.push(idle_loop(alloc, 5)?, 5)?;
    assert_eq!(&rt;
        sure_read_fault(0, &body),
        Some(RuleError::LoopWithoutRead { line: 5 })
    );
    assert_eq!(&rt; sure_reads(&[]), None);
    Ok(())
}

// An input or an output of this name, on this line.
fn port(name: &[u8], line: usize) -> Result<PortLine, Fail> {
    Ok(PortLine {
        name: Name::new(name).ok_or("a name")?,
        position: 0,
        via: None,
        line,
    })
}

// A network of one process, which moves what comes in on a to this name.
fn one_move(alloc: Global, written: &[u8]) -> Result<Net, Fail> {
    let shape = Shape {
        columns: 4,
        rows: 3,
    };
    let mut body = Block::new(alloc);
    let read = Name::new(b"a").ok_or("a name")?;
    let sent = Name::new(written).ok_or("a name")?;
    body.push(Statement::Move(read, sent), 6)?;
    let mut net = Net {
        version: 1,
        tiles: Tiles::new(shape, &[TileKind::Compute; 12]).ok_or("tiles")?,
        inputs: Vec::new(alloc),
        outputs: Vec::new(alloc),
        channels: Vec::new(alloc),
        processes: Vec::new(alloc),
    };
    net.inputs.push(port(b"a", 3)?)?;
    net.outputs.push(port(b"o", 4)?)?;
    net.processes.push(ProcessText {
        name: Name::new(b"p").ok_or("a name")?,
        at: None,
        body,
        line: 5,
    })?;
    Ok(net)
}

#[test]
fn a_network_is_checked(rt: HostRuntime) -> Result<(), Fail> {
    let alloc = rt.alloc();
    let net = one_move(alloc, b"o")?;
    assert!(&rt; is_small(&net));
    match check(alloc, &net) {
        Ok(checked) => {
            let name = Name::new(b"o").ok_or("a name")?;
            assert_eq!(&rt; checked.number(&name), Some(1));
            assert_eq!(&rt; checked.len(), 1);
            assert_eq!(&rt; checked.net().inputs.len(), 1);
        }
        Err(error) => assert_eq!(&rt; Some(error), None),
    }
    let wrong = one_move(alloc, b"c")?;
    assert!(&rt; is_small(&wrong));
    assert_eq!(&rt;
        check(alloc, &wrong).err(),
        Some(RuleError::Unknown { line: 6 })
    );
    Ok(())
}
