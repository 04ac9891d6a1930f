use rt_base::{LockId, TaskId};

/// What a name stands for.
#[derive(Clone, Copy, Debug)]
pub(crate) enum Named {
    Task(TaskId),
    Lock(LockId),
}
