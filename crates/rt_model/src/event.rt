use crate::EventKind;
use rt_base::{LockId, Path, Prio, Reply, TaskId};

/// One atomic event of a task.
#[derive(Clone, Copy, Debug, PartialEq, Eq)]
pub struct Event {
    /// The task that acts.
    pub task: TaskId,
    /// What it does.
    pub kind: EventKind,
    /// The lock that it acts on.
    pub lock: Option<LockId>,
    /// Another task that it acts on: a walk's cursor, a wakeup's target.
    pub other: Option<TaskId>,
    /// The lock's owner before the event, where it has one and the event tells it; a writer that has slept
    /// names itself.
    pub owner: Option<TaskId>,
    /// The task that a lock wakeup went to.
    pub woken: Option<TaskId>,
    /// 0, 1, 2 for a state R, S, D; 1 for a signal or a reader; a new priority; 0 else.
    pub value: u8,
    /// The path that was looked at whole.
    pub path: Path,
    /// The one task whose effective priority changed, with the new one.
    pub boost: Option<(TaskId, Prio)>,
    /// The answer of the call, where the event gives one.
    pub reply: Option<Reply>,
}
