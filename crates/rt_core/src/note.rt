ghost use Rattle.std.specs.Prelude.{◌≡◌};
ghost use Rattle.rt_core.specs.Report.{blocked_note, readers_note};

use rt_base::{LockId, Prio, TaskId};

/// Where a task stands, as the report tells it.
#[derive(Clone, Copy, Debug, PartialEq, Eq)]
pub enum Note {
    /// At the end of its calls.
    End,
    /// In a chain walk that stands at this task.
    Walk(TaskId),
    /// Its chain walk came back to it, and is to be confirmed.
    Confirm,
    /// It has a next event.
    Ready,
    /// It waits in the queue of this lock, with this key.
    Lock(LockId, Prio),
    /// It waits until this lock has no reader.
    Readers(LockId),
    /// It sleeps until a wakeup.
    Wake,
}

/// Where a queued task stands.
pub fn blocked_note(place: Option<(LockId, Prio)>) -> Note
    ensures { result ≡ blocked_note place }
{
    match place {
        Some((lock, key)) => Note::Lock(lock, key),
        None => Note::Wake,
    }
}

/// Where a writer that waits for readers stands.
pub fn readers_note(lock: Option<LockId>) -> Note
    ensures { result ≡ readers_note lock }
{
    match lock {
        Some(lock) => Note::Readers(lock),
        None => Note::Wake,
    }
}
