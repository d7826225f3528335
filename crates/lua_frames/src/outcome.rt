//! How an execution goes on.

/// A byte: where the machine waits, and why it was stopped, is kept in the machine.
#[derive(Clone, Copy)]
pub(crate) enum Outcome {
    Goes,
    Breaks,
    /// With the newest value.
    Returns,
    /// Turns have to be taken before it ends.
    Waits,
    Stopped,
}
