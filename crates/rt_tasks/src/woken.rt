/// What came of a wakeup, as the answer of the kernel's `try_to_wake_up`.
#[derive(Clone, Copy, Debug, PartialEq, Eq)]
pub enum Woken {
    /// The task slept, or was to sleep again, and doesn't any more.
    Woke,
    /// Neither its state nor the saved one was a sleep that this ends.
    Missed,
}
