use rt_base::{LockId, TaskId};

/// A part of the machine's state that an event can touch.
#[derive(Clone, Copy, Debug, PartialEq, Eq)]
pub enum Obj {
    /// Owner, waiters bit, rows and next ticket of a lock.
    OwnerPart(LockId),
    /// Bias, write flag and count of a reader/writer lock.
    ReaderPart(LockId),
    /// The public part of a task.
    Task(TaskId),
    /// The private part of a task's thread.
    Thread(TaskId),
}
