use super::*;
use std::test::Fail;
use tis_base::{Dir, Value};

#[test]
fn a_node_offers_what_it_writes(rt: HostRuntime) -> Result<(), Fail> {
    let mut node = Node::fresh();
    assert_eq!(rt; node.offers(Dir::Up), None);
    node.mode = Mode::Writing {
        value: Value::clamp(7),
        to: Toward::One(Dir::Down),
    };
    assert_eq!(rt; node.offers(Dir::Up), None);
    assert_eq!(rt; node.offers(Dir::Down), Some(Value::clamp(7)));
    Ok(())
}
