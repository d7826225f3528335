//! A script as a caller reads it. What a session does is shown by the examples of the command `debug`.
use crate::{Action, ScriptError, read_script};
use std::test::Fail;

#[test]
fn a_script_is_read_line_by_line(rt: HostRuntime) -> Result<(), Fail> {
    let actions = match read_script(rt.alloc(), b"step 2\n\nbreak 5 0\r\nshow") {
        Ok(actions) => actions,
        Err(_) => return Err("refused".into()),
    };
    let wanted = [
        Action::Step(2),
        Action::Break {
            tile: 5,
            instruction: 0,
        },
        Action::Show,
    ];
    assert_eq!(rt; actions.as_slice(), wanted.as_slice());
    assert!(rt;
        matches!(read_script(rt.alloc(), b"go\n# show"), Err(error) if error == ScriptError::Bad { line: 2 })
    );
    Ok(())
}
