// Readers and writers of a reader/writer lock: rin, rout, wwake, unbias, wtake, wsleep, wopen.
ghost use Rattle.std.specs.Prelude.{◌≡◌, if◌then◌else◌};
ghost use Rattle.rt_model.specs.events.Readers.{rin_event, shut_event, read_event, tryread_event};
ghost use Rattle.rt_model.specs.events.Readers.{rout_event, wwake_event, unbias_event, wtake_event};
ghost use Rattle.rt_model.specs.events.Readers.{wsleep_event, wopen_event, held_up_event, writer_event};
ghost use Rattle.rt_model.specs.events.Readers.{awake_writer_event, waiting_writer_event};

use crate::chosen::Chosen;
use crate::event::on_lock;
use rt_base::{Call, LockId, Reply, TaskId, TaskState};
use rt_locks::LockCell;
use rt_model::{EventKind, ReaderCell};
use rt_rwbase::{can_read, can_write, is_last};
use rt_tasks::TaskCell;

/// A reader gets in, with this answer, where it has one by that: `rwbase_read_trylock`, and the slow path of
/// `__rwbase_read_lock`.
pub fn rin_event(t: TaskId, l: LockId, answer: Option<Reply>) -> Chosen
    ensures { result ≡ rin_event t l answer }
{
    Chosen {
        reply: answer,
        ..on_lock(t, EventKind::RIn, l)
    }
}

// Finds the lock closed to readers, the busy of a reader.
fn shut_event(t: TaskId, l: LockId, answer: Option<Reply>) -> Chosen
    ensures { result ≡ shut_event t l answer }
{
    Chosen {
        value: 1,
        reply: answer,
        ..on_lock(t, EventKind::Busy, l)
    }
}

/// The first event of a call that reads and waits: it gets in where no writer is in, and else goes on to the
/// inner lock, `__rwbase_read_lock`.
pub fn read_event(t: TaskId, l: LockId, readers: ReaderCell) -> Chosen
    ensures { result ≡ read_event t l readers }
{
    if can_read(readers) {
        rin_event(t, l, Some(Reply::Got))
    } else {
        shut_event(t, l, None)
    }
}

/// The first event of a call that tries to read: it gets in where no writer has removed the bias, and else is
/// answered that the lock is busy, `rwbase_read_trylock`.
pub fn tryread_event(t: TaskId, l: LockId, readers: ReaderCell) -> Chosen
    ensures { result ≡ tryread_event t l readers }
{
    if readers.bias {
        rin_event(t, l, Some(Reply::Got))
    } else {
        shut_event(t, l, Some(Reply::Busy))
    }
}

/// A reader leaves, `rwbase_read_unlock`. Where it is to wake a writer, its answer comes after that.
pub fn rout_event(t: TaskId, l: LockId, readers: ReaderCell) -> Chosen
    ensures { result ≡ rout_event t l readers }
{
    Chosen {
        reply: if is_last(readers) {
            None
        } else {
            Some(Reply::Done)
        },
        ..on_lock(t, EventKind::ROut, l)
    }
}

/// The last reader wakes whoever owns the inner lock then, `__rwbase_read_unlock`.
pub fn wwake_event(t: TaskId, l: LockId, lock: &LockCell) -> Chosen
    ensures { result ≡ wwake_event t l lock.now.part }
{
    let owner = lock.owner();
    Chosen {
        owner,
        woken: owner,
        reply: Some(Reply::Done),
        ..on_lock(t, EventKind::WWake, l)
    }
}

/// A writer that owns the inner lock removes the bias, the first step after that of `rwbase_write_lock` and
/// `rwbase_write_trylock`.
pub fn unbias_event(t: TaskId, l: LockId) -> Chosen
    ensures { result ≡ unbias_event t l }
{
    on_lock(t, EventKind::Unbias, l)
}

// A writer gets in, `__rwbase_write_trylock` with success. One that has slept is named as the owner.
fn wtake_event(t: TaskId, l: LockId, slept: Option<TaskId>) -> Chosen
    ensures { result ≡ wtake_event t l slept }
{
    Chosen {
        owner: slept,
        reply: Some(Reply::Got),
        ..on_lock(t, EventKind::WTake, l)
    }
}

// A writer sleeps until no reader is left, `rwbase_schedule` in the loop of `rwbase_write_lock`.
fn wsleep_event(t: TaskId, l: LockId) -> Chosen
    ensures { result ≡ wsleep_event t l }
{
    on_lock(t, EventKind::WSleep, l)
}

/// A writer leaves or gives up its way in, `__rwbase_write_unlock`. Where `reader` is true it stays as a
/// reader, `rwbase_write_downgrade`.
pub fn wopen_event(t: TaskId, l: LockId, reader: bool) -> Chosen
    ensures { result ≡ wopen_event t l (if reader then 1 else 0) }
{
    Chosen {
        value: u8::from(reader),
        ..on_lock(t, EventKind::WOpen, l)
    }
}

/// The event of a writer that has removed the bias: it gets in where no reader is, `__rwbase_write_trylock`.
pub fn writer_event(call: &Call, t: TaskId, l: LockId, readers: ReaderCell) -> Chosen
    ensures { result ≡ writer_event (Some call.now) t l readers }
{
    if can_write(readers) {
        wtake_event(t, l, None)
    } else {
        held_up_event(call, t, l)
    }
}

// Readers are in: a writer that only tries gives up, `rwbase_write_trylock`, and another one sleeps.
fn held_up_event(call: &Call, t: TaskId, l: LockId) -> Chosen
    ensures { result ≡ held_up_event (Some call.now) t l }
{
    match call {
        Call::TryWrite(_) => wopen_event(t, l, false),
        _ => wsleep_event(t, l),
    }
}

/// The event of a writer that has slept, one turn of the loop of `rwbase_write_lock`: none while it sleeps.
pub fn waiting_writer_event(
    t: TaskId,
    l: LockId,
    readers: ReaderCell,
    task: &TaskCell,
) -> Option<Chosen>
    ensures { result ≡ waiting_writer_event t l readers task.now }
{
    if task.state() == TaskState::Running {
        Some(awake_writer_event(t, l, readers))
    } else {
        None
    }
}

// The event of a writer that was woken: it gets in, or sleeps again.
fn awake_writer_event(t: TaskId, l: LockId, readers: ReaderCell) -> Chosen
    ensures { result ≡ awake_writer_event t l readers }
{
    if can_write(readers) {
        wtake_event(t, l, Some(t))
    } else {
        wsleep_event(t, l)
    }
}
