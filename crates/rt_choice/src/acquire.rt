// Acquires: fast, mark, take, busy.
ghost use Rattle.std.specs.Prelude.{◌≡◌, Some};
ghost use Rattle.rt_base.specs.declared.kind.Kind.{Kind};
ghost use Rattle.rt_model.specs.Rows.{can_take};
ghost use Rattle.rt_model.specs.events.Acquire.{fast_event, mark_event, is_free, acquire_event};
ghost use Rattle.rt_model.specs.events.Acquire.{take_event, busy_event, try_event};

use crate::chosen::Chosen;
use crate::event::{boost_of, got_answer, on_lock};
use rt_base::{Call, Kind, LockId, Reply, TaskId};
use rt_locks::LockCell;
use rt_model::EventKind;
use rt_tasks::TaskCell;

/// The first event on an owner part of a call that acquires and doesn't try: it gets one with no owner and
/// its bit clear at once, and else sets the bit.
pub fn acquire_event(call: &Call, t: TaskId, l: LockId, lock: &LockCell) -> Chosen
    ensures { result ≡ acquire_event (Some call.now) t l lock.now.part }
{
    if is_free(lock) {
        fast_event(call, t, l)
    } else {
        mark_event(t, l)
    }
}

// Whether a lock has no owner, and its bit is clear.
fn is_free(lock: &LockCell) -> bool
    ensures { result ≡ is_free lock.now.part }
{
    lock.owner().is_none() && !lock.bit()
}

// The fast acquire, `rt_mutex_cmpxchg_acquire`.
fn fast_event(call: &Call, t: TaskId, l: LockId) -> Chosen
    ensures { result ≡ fast_event (Some call.now) t l }
{
    Chosen {
        reply: got_answer(call),
        ..on_lock(t, EventKind::Fast, l)
    }
}

// Sets the waiters bit, `mark_rt_mutex_waiters`.
fn mark_event(t: TaskId, l: LockId) -> Chosen
    ensures { result ≡ mark_event t l }
{
    on_lock(t, EventKind::Mark, l)
}

/// Whether a task may take a lock of this kind.
pub fn can_take(t: TaskId, kind: Kind, lock: &LockCell, task: &TaskCell) -> bool
    ensures { result ≡ can_take t kind lock.now.part task.now }
{
    let key = lock.key_of(t).unwrap_or(task.effective());
    lock.may_take(t, key, kind).is_some()
}

/// Takes a lock, `try_to_take_rt_mutex` with success. The event is the same for each kind of lock.
pub fn take_event(call: &Call, t: TaskId, l: LockId, lock: &LockCell, task: &TaskCell) -> Chosen
    ensures { (kind : Kind) → result ≡ take_event (Some call.now) t l kind lock.now.part task.now }
{
    let after = task.effective_with(l, lock.top_key_without(t));
    Chosen {
        boost: boost_of(t, task.effective(), after),
        reply: got_answer(call),
        ..on_lock(t, EventKind::Take, l)
    }
}

/// The first event of a call that tries for an owner part: it gets a free lock at once, takes one that it may
/// take, and else is answered that the lock is busy, `rt_mutex_slowtrylock`.
pub fn try_event(
    call: &Call,
    t: TaskId,
    l: LockId,
    kind: Kind,
    lock: &LockCell,
    task: &TaskCell,
) -> Chosen
    ensures { result ≡ try_event (Some call.now) t l kind lock.now.part task.now }
{
    if is_free(lock) {
        fast_event(call, t, l)
    } else if can_take(t, kind, lock, task) {
        take_event(call, t, l, lock, task)
    } else {
        busy_event(t, l, lock)
    }
}

// Finds the lock taken.
fn busy_event(t: TaskId, l: LockId, lock: &LockCell) -> Chosen
    ensures { result ≡ busy_event t l lock.now.part }
{
    Chosen {
        owner: lock.owner(),
        reply: Some(Reply::Busy),
        ..on_lock(t, EventKind::Busy, l)
    }
}
