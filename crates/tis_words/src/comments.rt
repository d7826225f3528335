//! Comments.
ghost use Rattle.std.specs.Prelude.{◌≡◌, length};
ghost use Rattle.tis_words.specs.Words.{before_comment, without_comment as comment_dropped};

/// Whether a text has comments.
#[derive(Clone, Copy, Debug, PartialEq, Eq, Hash)]
pub enum Comments {
    /// What stands in a line from its first `#` on is a comment.
    BehindHash,
    /// There are none.
    Never,
}

// How many bytes stand before the first `#`.
fn length_before_hash(line: &[u8]) -> usize
    ensures { result ≡ length (before_comment line.now) }
{
    line.iter().take_while(|byte| **byte != b'#').count()
}

// What stands before the first `#`.
fn before_hash(line: &[u8]) -> &[u8]
    ensures { result.now ≡ before_comment line.now }
{
    let (front, _) = line.split_at(length_before_hash(line));
    front
}

/// What stands in a line before its comment.
pub fn without_comment(line: &[u8], comments: Comments) -> &[u8]
    ensures { result.now ≡ comment_dropped comments line.now }
{
    match comments {
        Comments::BehindHash => before_hash(line),
        Comments::Never => line,
    }
}
