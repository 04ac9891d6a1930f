// Releases: free, give.
ghost use Rattle.std.specs.Prelude.{◌≡◌};
ghost use Rattle.rt_model.specs.events.Release.{free_event, give_event, release_event};

use crate::chosen::Chosen;
use crate::event::{boost_of, on_lock, released_answer};
use rt_base::{Call, LockId, TaskId};
use rt_locks::LockCell;
use rt_model::EventKind;
use rt_tasks::TaskCell;

/// The event of a call that releases an owner part: the fast release, or `rt_mutex_slowunlock` where the bit
/// is set.
pub fn release_event(call: &Call, t: TaskId, l: LockId, lock: &LockCell, task: &TaskCell) -> Chosen
    ensures { result ≡ release_event (Some call.now) t l lock.now.part task.now }
{
    if lock.bit() {
        give_event(call, t, l, lock, task)
    } else {
        free_event(call, t, l)
    }
}

// The fast release, `rt_mutex_cmpxchg_release`.
fn free_event(call: &Call, t: TaskId, l: LockId) -> Chosen
    ensures { result ≡ free_event (Some call.now) t l }
{
    Chosen {
        reply: Some(released_answer(call)),
        ..on_lock(t, EventKind::Free, l)
    }
}

// Gives a lock up and wakes its top waiter, `rt_mutex_slowunlock`.
fn give_event(call: &Call, t: TaskId, l: LockId, lock: &LockCell, task: &TaskCell) -> Chosen
    ensures { result ≡ give_event (Some call.now) t l lock.now.part task.now }
{
    Chosen {
        woken: lock.top_task(),
        boost: boost_of(t, task.effective(), task.effective_with(l, None)),
        reply: Some(released_answer(call)),
        ..on_lock(t, EventKind::Give, l)
    }
}
