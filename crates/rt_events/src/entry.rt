ghost use Rattle.std.specs.Prelude.{◌≡◌};
ghost use Rattle.rt_events.specs.Entry.{entry, told_path};

use rt_base::{LockId, Path, Prio, Reply, TaskId};
use rt_model::{Event, EventKind};

/// An event as a line of a journal tells it.
#[derive(Clone, Copy, Debug, PartialEq, Eq)]
pub struct Entry {
    /// The number of its line. A journal counts from 1.
    pub number: u64,
    /// The task that acts.
    pub task: TaskId,
    /// What it does.
    pub kind: EventKind,
    /// The lock that it acts on.
    pub lock: Option<LockId>,
    /// Another task that it acts on.
    pub other: Option<TaskId>,
    /// The task that a lock wakeup went to.
    pub woken: Option<TaskId>,
    /// The number that the event carries.
    pub value: u8,
    /// The path that was found to be a cycle.
    pub path: Path,
    /// The one task whose effective priority changed, with the new one.
    pub boost: Option<(TaskId, Prio)>,
    /// The answer of the call, where the event gives one.
    pub reply: Option<Reply>,
}

/// An event as the journal tells it, under its number. The lock's owner is left out, and so is the path
/// of a restart, whose line tells the broken link alone.
pub fn entry_of(number: u64, e: &Event) -> Entry
    ensures { result ≡ entry number e.now }
{
    Entry {
        number,
        task: e.task,
        kind: e.kind,
        lock: e.lock,
        other: e.other,
        woken: e.woken,
        value: e.value,
        path: told_path(e.kind, e.path),
        boost: e.boost,
        reply: e.reply,
    }
}

// The path that the journal keeps.
fn told_path(kind: EventKind, path: Path) -> Path
    ensures { result ≡ told_path kind path }
{
    match kind {
        EventKind::Restart => Path::empty(),
        _ => path,
    }
}
