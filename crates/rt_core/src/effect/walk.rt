// Chain walks: walk, walkend, restart, cycle.
ghost use Rattle.std.specs.Prelude.{◌≡◌, ◌<◌, [], length, Some, IfSome};
ghost use Rattle.rt_base.specs.declared.id.TaskId.{TaskId};
ghost use Rattle.rt_base.specs.declared.reply.Reply.TheVariants.{Deadlock};
ghost use Rattle.rt_model.specs.declared.phase.Phase.TheVariants.{Walk};
ghost use Rattle.rt_model.specs.declared.phase.Route.TheVariants.{Full, Short};
ghost use Rattle.rt_base.specs.Kind.{spins};
ghost use Rattle.rt_model.specs.Parts.{kind_of};
ghost use Rattle.rt_model.specs.State.{lock_in, task_at};
ghost use Rattle.rt_model.specs.StateAfter.{update, at_task};
ghost use Rattle.rt_model.specs.steps.Chain.{has_old_key, requeued_where_old, rekeyed};
ghost use Rattle.rt_model.specs.steps.Chain.{refreshed_where_changed, goes_on, phase_of_walk};
ghost use Rattle.rt_model.specs.Path.{first_owner};
ghost use Rattle.rt_model.specs.steps.Lock.{left_by};
ghost use Rattle.rt_model.specs.steps.Task.{refreshed, leave_queue, lock_woken};
ghost use Rattle.rt_model.specs.events.Walk.{phase_after_link};
ghost use Rattle.rt_walk.specs.Next.{found};
ghost use Rattle.rt_core.specs.Fits.{IsLink};

use crate::effect::wait::leave_row;
use rt_base::{LockId, Path, Reply, TaskId};
use rt_choice::is_old;
use rt_events::first_owner;
use rt_model::{Event, Phase, Route};
use rt_parts::{Shared, Thread};
use rt_tasks::TaskCell;

/// The cursor is queued anew where its key is old, the lock's owner keeps the key of its top waiter, or that
/// waiter is woken, and the walk goes on or ends.
pub fn walk(shared: &mut Shared, thread: &mut Thread, e: &Event, l: LockId)
    requires lock { l.0 < length shared.old.locks }
    requires named { e.now.lock ≡ Some l }
    requires other { IfSome e.now.other (λ t. t.0 < length shared.old.tasks) }
    requires owner { IfSome e.now.owner (λ t. t.0 < length shared.old.tasks) }
    requires woken { IfSome e.now.woken (λ t. t.0 < length shared.old.tasks) }
    requires kinds { length thread.old.kinds ≡ length shared.old.locks }
    requires link { IsLink e.now shared.old thread.old }
    ensures shared { let requeued = requeued_where_old e.now.other (task_at shared.old e.now.other) in
        let refreshed = at_task shared.old.tasks e.now.owner
        (refreshed_where_changed (Some l) (lock_in shared.old l).rows
        (requeued (lock_in shared.old l)).rows) in
        shared.new ≡ record shared.old {
          locks = update shared.old.locks l.0 requeued;
          tasks = at_task (at_task refreshed e.now.other rekeyed)
              e.now.woken (lock_woken (spins (kind_of thread.old l)));
        } }
    ensures thread { thread.new ≡ record thread.old {
      phase = phase_after_link e.now.task (Some l) e.now.owner
          (task_at shared.new e.now.owner) thread.old.phase;
    } }
{
    let Some(u) = e.other else { return };
    shared.link(u, l);
    shared.lock_wake(e.woken, thread.kind_of(l).spins());
    thread.follow(e.task, l, found(shared, e.owner));
}

/// A link of the path is broken: the walk begins anew at its own task.
pub fn restart(thread: &mut Thread, e: &Event)
    ensures { thread.new ≡ record thread.old { phase = Walk e.now.task (Full []) } }
{
    thread.go_to(Phase::Walk(e.task, Route::Full(Path::empty())));
}

/// Each link of the path stands, which is a deadlock, `rt_mutex_handle_deadlock`: the task leaves the queue
/// of the path's first lock, whose owner is the path's second task.
pub fn cycle(shared: &mut Shared, thread: &mut Thread, e: &Event, l: LockId)
    requires task { e.now.task.0 < length shared.old.tasks }
    requires lock { l.0 < length shared.old.locks }
    requires owner { IfSome (first_owner e.now.path) (λ t. t.0 < length shared.old.tasks) }
    requires kinds { length thread.old.kinds ≡ length shared.old.locks }
    ensures shared { shared.new ≡ record shared.old {
      locks = update shared.old.locks l.0 (left_by e.now.task);
      tasks = at_task (update shared.old.tasks e.now.task.0 (leave_queue (spins (kind_of thread.old l))))
          (first_owner e.now.path) (refreshed (Some l) (left_by e.now.task (lock_in shared.old l)).rows);
    } }
    ensures thread { let owner = first_owner e.now.path in
        thread.new ≡ record thread.old {
          phase = phase_of_walk (goes_on e.now.task (Short Deadlock) owner (task_at shared.new owner));
        } }
{
    let owner = first_owner(&e.path);
    leave_row(shared, thread, e.task, l, owner, Reply::Deadlock);
}

/// The phase in which a call stands that is over but for the priorities along a chain, as at the end of
/// `remove_waiter` and in `rt_mutex_adjust_pi`: where the task from which the chain goes on is queued with an
/// old key, a short walk begins there; else the call's answer follows, which ends the phase.
pub fn first_phase(shared: &Shared, task: Option<TaskId>, answer: Reply) -> Phase
    requires { IfSome task (λ t. t.0 < length shared.now.tasks) }
    ensures { (walker : TaskId)
        → result ≡ phase_of_walk (goes_on walker (Short answer) task (task_at shared.now task)) }
{
    match task {
        Some(u) if has_old_key(shared.task(u)) => Phase::Walk(u, Route::Short(answer)),
        _ => Phase::Wait,
    }
}

// What a walk finds of a lock's owner: who it is, whether it is blocked, and whether its key is right.
fn found(shared: &Shared, owner: Option<TaskId>) -> Option<(TaskId, bool, bool)>
    requires { IfSome owner (λ t. t.0 < length shared.now.tasks) }
    ensures { result ≡ found owner (task_at shared.now owner) }
{
    let t = owner?;
    let task = shared.task(t);
    Some((t, task.blocked().is_some(), !has_old_key(task)))
}

// Whether a task is queued with an old key, one that isn't its effective priority.
fn has_old_key(task: &TaskCell) -> bool
    ensures { result ≡ has_old_key task.now }
{
    is_old(task, task.effective())
}
