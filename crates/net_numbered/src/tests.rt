//! A body of two statements.
use crate::{NumberedBlock, NumberedStatement};
use net_tree::Var;
use std::test::Fail;

#[test]
fn what_was_pushed_is_there(rt: HostRuntime) -> Result<(), Fail> {
    let mut body = NumberedBlock::new(rt.alloc());
    body.push(NumberedStatement::Get(4, Var::X), 7)?;
    body.push(NumberedStatement::Swap, 8)?;
    assert_eq!(&rt; body.len(), 2);
    assert!(&rt; matches!(body.at(0), NumberedStatement::Get(4, Var::X)));
    assert_eq!(&rt; body.line(1), 8);
    Ok(())
}
