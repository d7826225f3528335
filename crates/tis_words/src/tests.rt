//! Lines and words as a caller reads them.
use crate::{Comments, NonBlankLines, Words, is_in_either_case, line_count};
use std::test::Fail;

const TEXT: &[u8] = b"# seeds\n\n\tat 007 -3 18446744073709551615\r\n";

#[test]
fn a_line_is_read_word_by_word(rt: HostRuntime) -> Result<(), Fail> {
    assert_eq!(&rt; line_count(TEXT), 3);
    let mut lines = NonBlankLines::new(TEXT, Comments::BehindHash);
    let (number, line) = lines.next().ok_or("a line")?;
    assert_eq!(&rt; number, 3);
    let mut words = Words::new(line);
    assert_eq!(&rt; words.next_exactly(b"at"), Some(()));
    assert_eq!(&rt; words.next_number(99), Some(7));
    assert_eq!(&rt; words.next_value().ok_or("a value")?.get(), -3);
    assert_eq!(&rt; words.next_number(u64::MAX), Some(u64::MAX));
    assert_eq!(&rt; words.end(), Some(()));
    assert!(&rt; lines.next().is_none());
    assert!(&rt; is_in_either_case(b"Left", b"LEFT"));
    assert!(&rt; !is_in_either_case(b"left_", b"LEFT"));
    Ok(())
}
