//! How an evaluation goes on.

/// A byte: where the machine waits, and why it was stopped, is kept in the machine.
#[derive(Clone, Copy)]
pub(crate) enum Valued {
    /// The value is there.
    Given,
    /// Turns have to be taken before it is.
    Waits,
    Stopped,
}
