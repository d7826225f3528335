//! What a grade says.

/// Whether a grid passes its puzzle, and how, or why it doesn't.
#[derive(Clone, Copy, Debug, PartialEq, Eq, Hash)]
pub enum Verdict {
    /// All outputs were as wanted after so many cycles.
    Passed {
        cycles: u64,
    },
    /// The output at a position has another value than is wanted at an index, counted from 0.
    Wrong {
        output: u8,
        index: usize,
        want: i64,
        got: i64,
    },
    /// The output at a position has more values than are wanted.
    Extra {
        output: u8,
    },
    /// Nothing can happen after so many cycles, and the outputs aren't as expected.
    Stuck {
        cycles: u64,
    },
    /// So many cycles weren't enough.
    Late {
        limit: u64,
    },
}
