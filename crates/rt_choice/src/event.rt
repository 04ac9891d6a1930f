// Words of which the choice of an event is made.
ghost use Rattle.std.specs.Prelude.{◌≡◌, Some};
ghost use Rattle.rt_model.specs.Choice.{bare, boost_of};
ghost use Rattle.rt_model.specs.steps.Chain.{is_old};
ghost use Rattle.rt_model.specs.steps.Thread.{got_answer, released_answer};

use crate::chosen::Chosen;
use rt_base::{Call, LockId, Prio, Reply, TaskId};
use rt_model::EventKind;
use rt_tasks::TaskCell;

/// An event that names nothing but its task.
pub fn bare(task: TaskId, kind: EventKind) -> Chosen
    ensures { result ≡ bare task kind }
{
    Chosen {
        task,
        kind,
        lock: None,
        other: None,
        owner: None,
        woken: None,
        value: 0,
        boost: None,
        reply: None,
    }
}

/// An event on a lock that tells nothing else.
pub fn on_lock(t: TaskId, kind: EventKind, l: LockId) -> Chosen
    ensures { result ≡ record (bare t kind) { lock = Some l } }
{
    Chosen {
        lock: Some(l),
        ..bare(t, kind)
    }
}

/// The change of a task's effective priority, where it changes.
pub fn boost_of(t: TaskId, before: Prio, after: Prio) -> Option<(TaskId, Prio)>
    ensures { result ≡ boost_of t before after }
{
    if before == after {
        None
    } else {
        Some((t, after))
    }
}

/// The answer of a call that has acquired an owner part: none yet for a reader, which gets in next, and for a
/// writer, which removes the bias.
pub fn got_answer(call: &Call) -> Option<Reply>
    ensures { result ≡ got_answer (Some call.now) }
{
    match call {
        Call::Read(_) | Call::Write(_) | Call::TryWrite(_) => None,
        _ => Some(Reply::Got),
    }
}

/// The answer of a call that ends with the release of an owner part: a reader has got in before that, a
/// writer that only tried hasn't, and any other call is done.
pub fn released_answer(call: &Call) -> Reply
    ensures { result ≡ released_answer (Some call.now) }
{
    match call {
        Call::Read(_) => Reply::Got,
        Call::TryWrite(_) => Reply::Busy,
        _ => Reply::Done,
    }
}

/// Whether a task is queued with an old key, one that isn't this priority.
pub fn is_old(task: &TaskCell, prio: Prio) -> bool
    ensures { result ≡ is_old task.now.blocked prio }
{
    match task.blocked_at() {
        Some((_, key)) => key != prio,
        None => false,
    }
}
