/// How a call was answered.
#[derive(Clone, Copy, Debug, PartialEq, Eq)]
pub enum Reply {
    /// The lock is the caller's.
    Got,
    /// A call that tries found the lock taken.
    Busy,
    /// The caller holds the lock itself, or waited in a circle that stood when it was looked at, as `-EDEADLK`.
    Deadlock,
    /// A signal ended the wait, as `-EINTR`.
    Interrupted,
    /// A release of a lock that the caller doesn't hold.
    NotOwner,
    /// A call that may sleep in an ordinary state, as an acquire or `schedule`, was made inside a lock of a
    /// spinning kind.
    Nesting,
    /// The caller may not leave its processor.
    Pinned,
    /// The wakeup was a success.
    Woke,
    /// Neither the state nor the saved one was a sleep that this ends.
    Missed,
    /// The call is over.
    Done,
}
