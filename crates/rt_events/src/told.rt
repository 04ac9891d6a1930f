// What a line tells of an event.
ghost use Rattle.std.specs.Prelude.{◌≡◌};
ghost use Rattle.rt_events.specs.Entry.{entry, told_path};
ghost use Rattle.rt_events.specs.Told.{as_entry};

use crate::entry::Entry;
use rt_base::{LockId, Path, Prio, Reply, TaskId};
use rt_model::{Event, EventKind};

/// An event or an entry as its line tells it. The path stays where it is.
#[derive(Drop)]
pub(crate) struct Told<'a> {
    pub(crate) number: u64,
    pub(crate) task: TaskId,
    pub(crate) kind: EventKind,
    pub(crate) lock: Option<LockId>,
    pub(crate) other: Option<TaskId>,
    pub(crate) woken: Option<TaskId>,
    pub(crate) value: u8,
    pub(crate) path: &'a Path,
    pub(crate) boost: Option<(TaskId, Prio)>,
    pub(crate) reply: Option<Reply>,
}

impl<'a> Told<'a> {
    /// What is told of an event under a number.
    pub(crate) fn of_event(number: u64, e: &'a Event) -> Told<'a>
        ensures { as_entry result ≡ entry number e.now }
    {
        Told {
            number,
            task: e.task,
            kind: e.kind,
            lock: e.lock,
            other: e.other,
            woken: e.woken,
            value: e.value,
            path: &e.path,
            boost: e.boost,
            reply: e.reply,
        }
    }

    /// What is told of an entry, which keeps no path that its line doesn't tell.
    pub(crate) fn of_entry(n: &'a Entry) -> Told<'a>
        requires { told_path n.now.kind n.now.path ≡ n.now.path }
        ensures { as_entry result ≡ n.now }
    {
        Told {
            number: n.number,
            task: n.task,
            kind: n.kind,
            lock: n.lock,
            other: n.other,
            woken: n.woken,
            value: n.value,
            path: &n.path,
            boost: n.boost,
            reply: n.reply,
        }
    }
}
