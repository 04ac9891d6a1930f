use rt_base::{Path, Reply, TaskId};

/// How far a call has come.
#[derive(Clone, Copy, Debug, PartialEq, Eq)]
pub enum Phase {
    /// Before the call's first event.
    Start,
    /// A read call that found the write flag.
    Inner,
    /// The task has set the waiters bit, which others may have cleared since, and isn't queued.
    Slow,
    /// It is queued.
    Wait,
    /// A chain walk stands at this task.
    Walk(TaskId, Route),
    /// A full walk came back to its own task, along this path.
    Confirm(Path),
    /// A writer owns the inner lock, and is to remove the bias.
    Unbias,
    /// The bias is removed, and the writer is to try to get in.
    WTry,
    /// The writer sleeps for readers, or was woken from that.
    WWait,
    /// A reader owns the inner lock, and is to get in.
    ReadIn,
    /// The inner lock is to be released.
    Release,
    /// The last reader is to wake whoever owns the inner lock.
    WakeWriter,
}

/// What a chain walk is for.
#[derive(Clone, Copy, Debug, PartialEq, Eq)]
pub enum Route {
    /// A waiting task's walk looks for a cycle, and has followed these links.
    Full(Path),
    /// The call is over but for the walk, and has this answer to come.
    Short(Reply),
}
