// Waits: wait, leave, again.
ghost use Rattle.std.specs.Prelude.{◌≡◌, ◌<◌, length, Some, IfSome};
ghost use Rattle.rt_model.specs.State.{lock_in, task_in, task_at};
ghost use Rattle.rt_model.specs.Parts.{OwnerPart};
ghost use Rattle.rt_model.specs.Rows.{top_key};
ghost use Rattle.rt_model.specs.events.Wait.{owner_boost, wait_event, slow_event, left_event, leave_event};
ghost use Rattle.rt_model.specs.events.Wait.{is_interrupted, is_awake, again_event, refused_event};
ghost use Rattle.rt_model.specs.events.Wait.{awake_event, queued_event};

use crate::acquire::{can_take, take_event};
use crate::chosen::Chosen;
use crate::event::{bare, boost_of, is_old, on_lock};
use rt_base::{Call, Kind, LockId, Prio, Reply, TaskId, TaskState};
use rt_model::EventKind;
use rt_parts::Shared;
use rt_tasks::TaskCell;

/// The event of a call that has set the bit: it takes the lock, of this kind, where it may, and else is
/// queued.
pub fn slow_event(shared: &Shared, t: TaskId, l: LockId, kind: Kind, call: &Call) -> Chosen
    requires task { t.0 < length shared.now.tasks }
    requires lock { l.0 < length shared.now.locks }
    ensures { result ≡ slow_event (Some call.now) t l kind (lock_in shared.now l) (task_in shared.now t)
        (task_at shared.now (lock_in shared.now l).owner) }
{
    let (lock, task) = (shared.lock(l), shared.task(t));
    if can_take(t, kind, lock, task) {
        take_event(call, t, l, lock, task)
    } else {
        wait_event(shared, t, l)
    }
}

// Is queued, `task_blocks_on_rt_mutex`.
fn wait_event(shared: &Shared, t: TaskId, l: LockId) -> Chosen
    requires task { t.0 < length shared.now.tasks }
    requires lock { l.0 < length shared.now.locks }
    ensures { result ≡ wait_event t l (lock_in shared.now l) (task_in shared.now t)
        (task_at shared.now (lock_in shared.now l).owner) }
{
    let lock = shared.lock(l);
    let top = lock.top_key_with(t, shared.task(t).effective());
    Chosen {
        lock: Some(l),
        owner: lock.owner(),
        boost: owner_boost(shared, l, lock.owner(), top),
        ..bare(t, EventKind::Wait)
    }
}

// What a lock with this top key changes of its owner's priority.
fn owner_boost(
    shared: &Shared,
    l: LockId,
    owner: Option<TaskId>,
    top: Prio,
) -> Option<(TaskId, Prio)>
    requires { IfSome owner (λ t. t.0 < length shared.now.tasks) }
    ensures { (lock : OwnerPart) → Some top ≡ top_key lock.rows →
        result ≡ owner_boost l lock owner (task_at shared.now owner) }
{
    let t = owner?;
    let task = shared.task(t);
    boost_of(t, task.effective(), task.effective_with(l, Some(top)))
}

/// What a wait that ends without the lock tells, of a task that leaves the queue with this answer: what
/// that changes of the priority of the lock's owner, and the answer. Where the owner's own key is old
/// then, a short walk begins there, and the answer comes when it ends.
pub fn left_event(
    shared: &Shared,
    t: TaskId,
    kind: EventKind,
    l: LockId,
    owner: Option<TaskId>,
    answer: Reply,
) -> Chosen
    requires lock { l.0 < length shared.now.locks }
    requires owner { IfSome owner (λ o. o.0 < length shared.now.tasks) }
    ensures { result ≡ left_event t kind (Some l) owner answer (lock_in shared.now l)
        (task_at shared.now owner) }
{
    let Some(o) = owner else {
        return Chosen {
            reply: Some(answer),
            ..on_lock(t, kind, l)
        };
    };
    let task = shared.task(o);
    let after = task.effective_with(l, shared.lock(l).top_key_without(t));
    Chosen {
        boost: boost_of(o, task.effective(), after),
        reply: if is_old(task, after) {
            None
        } else {
            Some(answer)
        },
        ..on_lock(t, kind, l)
    }
}

// A signal ends the wait: `remove_waiter`, with the answer `-EINTR` of `rt_mutex_slowlock_block`.
fn leave_event(shared: &Shared, t: TaskId, l: LockId) -> Chosen
    requires { l.0 < length shared.now.locks }
    ensures { result ≡ leave_event t l (lock_in shared.now l)
        (task_at shared.now (lock_in shared.now l).owner) }
{
    let owner = shared.lock(l).owner();
    Chosen {
        owner,
        ..left_event(shared, t, EventKind::Leave, l, owner, Reply::Interrupted)
    }
}

// Whether a signal is pending in a call that it ends, `signal_pending_state`.
fn is_interrupted(call: &Call, task: &TaskCell) -> bool
    ensures { result ≡ is_interrupted (Some call.now) task.now }
{
    matches!(call, Call::LockInt(_)) && task.signalled()
}

/// Whether a queued task does something: it runs, or it is interrupted.
pub fn is_awake(call: &Call, task: &TaskCell) -> bool
    ensures { result ≡ is_awake (Some call.now) task.now }
{
    task.state() == TaskState::Running || is_interrupted(call, task)
}

/// The event of a queued task, one turn of the loop of `rt_mutex_slowlock_block`: none while it sleeps
/// and isn't interrupted; else it takes the lock where it may, or leaves the queue, or sleeps again.
pub fn queued_event(
    shared: &Shared,
    t: TaskId,
    l: LockId,
    kind: Kind,
    call: &Call,
) -> Option<Chosen>
    requires task { t.0 < length shared.now.tasks }
    requires lock { l.0 < length shared.now.locks }
    ensures { result ≡ queued_event (Some call.now) t l kind (lock_in shared.now l) (task_in shared.now t)
        (task_at shared.now (lock_in shared.now l).owner) }
{
    if is_awake(call, shared.task(t)) {
        Some(awake_event(shared, t, l, kind, call))
    } else {
        None
    }
}

// The event of a queued task that runs or is interrupted.
fn awake_event(shared: &Shared, t: TaskId, l: LockId, kind: Kind, call: &Call) -> Chosen
    requires task { t.0 < length shared.now.tasks }
    requires lock { l.0 < length shared.now.locks }
    ensures { result ≡ awake_event (Some call.now) t l kind (lock_in shared.now l) (task_in shared.now t)
        (task_at shared.now (lock_in shared.now l).owner) }
{
    let (lock, task) = (shared.lock(l), shared.task(t));
    if can_take(t, kind, lock, task) {
        take_event(call, t, l, lock, task)
    } else {
        refused_event(shared, t, l, call)
    }
}

// What it does where it may not take the lock.
fn refused_event(shared: &Shared, t: TaskId, l: LockId, call: &Call) -> Chosen
    requires task { t.0 < length shared.now.tasks }
    requires lock { l.0 < length shared.now.locks }
    ensures { result ≡ refused_event (Some call.now) t l (lock_in shared.now l) (task_in shared.now t)
        (task_at shared.now (lock_in shared.now l).owner) }
{
    if is_interrupted(call, shared.task(t)) {
        leave_event(shared, t, l)
    } else {
        again_event(t, l)
    }
}

// Sleeps again.
fn again_event(t: TaskId, l: LockId) -> Chosen
    ensures { result ≡ again_event t l }
{
    on_lock(t, EventKind::Again, l)
}
