use super::*;
use std::test::Fail;
use tis_base::Value;

#[test]
fn the_newest_value_is_popped_first(rt: HostRuntime) -> Result<(), Fail> {
    let mut stack = Stack::new();
    assert!(rt; stack.is_empty());
    for number in 0..15 {
        assert!(rt; !stack.is_full());
        stack.push(Value::clamp(number));
    }
    assert!(rt; stack.is_full());
    assert_eq!(rt; stack.at(0).get(), 0);
    assert_eq!(rt; stack.pop().get(), 14);
    assert_eq!(rt; stack.len(), 14);
    Ok(())
}

// The console after these values.
fn console_of(numbers: &[i64]) -> Console {
    let mut console = Console::new();
    for number in numbers {
        console.paint(Value::clamp(*number));
    }
    console
}

#[test]
fn drawings_paint_their_points(rt: HostRuntime) -> Result<(), Fail> {
    for (numbers, x, y, colour) in [
        // Nothing is drawn.
        ([].as_slice(), 0, 0, 0),
        // The last point, in white.
        ([29, 17, 3, -1].as_slice(), 29, 17, 3),
        // To the right, and what isn't a colour leaves its point black.
        ([3, 2, 1, 9, 4].as_slice(), 3, 2, 1),
        ([3, 2, 1, 9, 4].as_slice(), 4, 2, 0),
        ([3, 2, 1, 9, 4].as_slice(), 5, 2, 4),
        // Behind the last column nothing comes into the next row.
        ([29, 0, 1, 2].as_slice(), 0, 1, 0),
        // A negative value ends a drawing wherever it stands.
        ([5, -1, 7, 8, 2].as_slice(), 7, 8, 2),
        ([-7, 7, -3, 6, 8, 4, -1, 1, 1, 3].as_slice(), 1, 1, 3),
        // What is drawn later covers what was drawn before.
        ([0, 0, 1, 2, -1, 1, 0, 4].as_slice(), 1, 0, 4),
    ] {
        assert_eq!(rt; console_of(numbers).pixel(x, y), colour, "{numbers:?}");
    }
    Ok(())
}
