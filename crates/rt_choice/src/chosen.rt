ghost use Rattle.std.specs.Prelude.{◌≡◌, Some};

use rt_base::{LockId, Path, Prio, Reply, TaskId};
use rt_model::{Event, EventKind};
use std::marker::Model;

/// An event that is chosen, but for its path, which is empty: small enough to be handed from call to call.
#[derive(Clone, Copy)]
pub struct Chosen {
    /// The task that acts.
    pub task: TaskId,
    /// What it does.
    pub kind: EventKind,
    /// The lock that it acts on.
    pub lock: Option<LockId>,
    /// Another task that it acts on: a walk's cursor, a wakeup's target.
    pub other: Option<TaskId>,
    /// The lock's owner before the event, where the event looks at that task.
    pub owner: Option<TaskId>,
    /// The task that a lock wakeup goes to.
    pub woken: Option<TaskId>,
    /// 0, 1, 2 for a state R, S, D; 1 for a signal or a reader; a new priority; 0 else.
    pub value: u8,
    /// The one task whose effective priority changes, with the new one.
    pub boost: Option<(TaskId, Prio)>,
    /// The answer of the call, where the event gives one.
    pub reply: Option<Reply>,
}

impl Model for Chosen {
    ghost use Rattle.std.specs.Prelude.{[]};
    ghost use Rattle.rt_model.specs.declared.event.Event.{Event as Told};

    ghost Value = { Told };

    ghost view = { λ c. record { task = c.task; kind = c.kind; lock = c.lock; other = c.other; owner = c.owner; woken = c.woken; value = c.value; path = []; boost = c.boost; reply = c.reply } };

    ghost inverse = { λ e. record { task = e.task; kind = e.kind; lock = e.lock; other = e.other; owner = e.owner; woken = e.woken; value = e.value; boost = e.boost; reply = e.reply } };
}

/// The event that was chosen, where one was, handed out with its path.
pub fn event_of(chosen: Option<Chosen>) -> Option<Event>
    ensures { result ≡ chosen }
{
    let c = chosen?;
    Some(Event {
        task: c.task,
        kind: c.kind,
        lock: c.lock,
        other: c.other,
        owner: c.owner,
        woken: c.woken,
        value: c.value,
        path: Path::empty(),
        boost: c.boost,
        reply: c.reply,
    })
}

/// An event that was chosen by a look at a whole path, handed out with that path.
pub fn along_path(chosen: Chosen, path: &Path) -> Option<Event>
    ensures { result ≡ Some (record chosen { path = path.now }) }
{
    let event = event_of(Some(chosen))?;
    Some(Event {
        path: *path,
        ..event
    })
}
