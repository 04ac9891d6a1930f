// Waits: wait, again, leave.
ghost use Rattle.std.specs.Prelude.{◌≡◌, ◌<◌, ◌^◌, ◌∷◌, [], length, is_some, None, Some, IfSome};
ghost use Rattle.rt_base.specs.Kind.{spins};
ghost use Rattle.rt_base.specs.declared.reply.Reply.TheVariants.{Interrupted};
ghost use Rattle.rt_model.specs.declared.phase.Route.TheVariants.{Short};
ghost use Rattle.rt_model.specs.Parts.{effective_of, call_of, kind_of};
ghost use Rattle.rt_model.specs.Rows.{row_of};
ghost use Rattle.rt_model.specs.State.{lock_in, task_in, task_at};
ghost use Rattle.rt_model.specs.StateAfter.{update, at_task};
ghost use Rattle.rt_model.specs.steps.Lock.{queued, left_by};
ghost use Rattle.rt_model.specs.steps.Task.{rest_of, blocked_on, refreshed, leave_queue, interrupted};
ghost use Rattle.rt_model.specs.steps.Chain.{goes_on, phase_of_walk};
ghost use Rattle.rt_model.specs.events.Wait.{phase_after_wait};

use crate::effect::walk::first_phase;
use rt_base::limits::{MAX_LOCKS, MAX_TASKS};
use rt_base::{LockId, Path, Reply, TaskId, TaskState};
use rt_model::{Event, Phase, Route};
use rt_parts::{Shared, Thread};

/// The task is queued and blocked, and the lock's owner keeps the key of its top waiter.
pub fn wait(shared: &mut Shared, thread: &mut Thread, e: &Event, l: LockId)
    requires task { e.now.task.0 < length shared.old.tasks }
    requires lock { l.0 < length shared.old.locks }
    requires owner { IfSome e.now.owner (λ t. t.0 < length shared.old.tasks) }
    requires kinds { length thread.old.kinds ≡ length shared.old.locks }
    requires absent { row_of e.now.task (lock_in shared.old l).rows ≡ None }
    requires tickets { (lock_in shared.old l).ticket < 2 ^ 63 }
    ensures shared { let key = effective_of (task_in shared.old e.now.task) in
        let rest = rest_of (kind_of thread.old l) (call_of thread.old) in
        shared.new ≡ record shared.old {
          locks = update shared.old.locks l.0 (queued e.now.task key);
          tasks = at_task (update shared.old.tasks e.now.task.0 (blocked_on (Some l) rest))
              e.now.owner (refreshed (Some l) (queued e.now.task key (lock_in shared.old l)).rows);
        } }
    ensures thread { thread.new ≡ record thread.old {
      phase = phase_after_wait e.now.task (Some l) e.now.owner
          (is_some (task_at shared.old e.now.owner).blocked);
    } }
{
    let phase = phase_after_wait(shared, e.task, l, e.owner);
    let rest = thread.rest_for(l);
    shared.enqueue(l, e.task);
    shared.block(e.task, l, rest);
    shared.refresh(e.owner, l);
    thread.go_to(phase);
}

/// The task goes to this state again.
pub fn again(shared: &mut Shared, e: &Event, rest: TaskState)
    requires { e.now.task.0 < length shared.old.tasks }
    ensures { shared.new ≡ record shared.old {
      tasks = update shared.old.tasks e.now.task.0 (λ task. record task { state = rest });
    } }
{
    shared.rest_again(e.task, rest);
}

/// A signal ends the wait, and isn't pending any more, `clear_tsk_thread_flag`.
pub fn leave(shared: &mut Shared, thread: &mut Thread, e: &Event, l: LockId)
    requires task { e.now.task.0 < length shared.old.tasks }
    requires lock { l.0 < length shared.old.locks }
    requires owner { IfSome e.now.owner (λ t. t.0 < length shared.old.tasks) }
    requires kinds { length thread.old.kinds ≡ length shared.old.locks }
    ensures shared { shared.new ≡ record shared.old {
      locks = update shared.old.locks l.0 (left_by e.now.task);
      tasks = at_task (update shared.old.tasks e.now.task.0 (interrupted (spins (kind_of thread.old l))))
          e.now.owner (refreshed (Some l) (left_by e.now.task (lock_in shared.old l)).rows);
    } }
    ensures thread { thread.new ≡ record thread.old {
      phase = phase_of_walk
          (goes_on e.now.task (Short Interrupted) e.now.owner (task_at shared.new e.now.owner));
    } }
{
    shared.clear_signal(e.task);
    leave_row(shared, thread, e.task, l, e.owner, Reply::Interrupted);
}

/// A wait ends without the lock: the task leaves the queue, `remove_waiter`, and the lock's owner keeps the
/// key of the top waiter that is left. Where the owner's own key is old by that, a short walk begins there,
/// with the answer to come.
pub fn leave_row(
    shared: &mut Shared,
    thread: &mut Thread,
    t: TaskId,
    l: LockId,
    owner: Option<TaskId>,
    answer: Reply,
)
    requires task { t.0 < length shared.old.tasks }
    requires lock { l.0 < length shared.old.locks }
    requires owner { IfSome owner (λ o. o.0 < length shared.old.tasks) }
    requires kinds { length thread.old.kinds ≡ length shared.old.locks }
    ensures shared { shared.new ≡ record shared.old {
      locks = update shared.old.locks l.0 (left_by t);
      tasks = at_task (update shared.old.tasks t.0 (leave_queue (spins (kind_of thread.old l))))
          owner (refreshed (Some l) (left_by t (lock_in shared.old l)).rows);
    } }
    ensures thread { thread.new ≡ record thread.old {
      phase = phase_of_walk (goes_on t (Short answer) owner (task_at shared.new owner));
    } }
{
    shared.remove(l, t);
    shared.leave_queue(t, thread.kind_of(l).spins());
    shared.refresh(owner, l);
    thread.go_to(first_phase(shared, owner, answer));
}

// A task that has been queued waits, and where the lock's owner is itself blocked it walks from there.
fn phase_after_wait(shared: &Shared, t: TaskId, l: LockId, owner: Option<TaskId>) -> Phase
    requires task { t.0 < length shared.now.tasks }
    requires lock { l.0 < length shared.now.locks }
    requires owner { IfSome owner (λ t. t.0 < length shared.now.tasks) }
    ensures { result ≡ phase_after_wait t (Some l) owner (is_some (task_at shared.now owner).blocked) }
{
    let (_task, _lock) = (shared.task(t), shared.lock(l));
    match owner {
        Some(o) if shared.task(o).blocked().is_some() => {
            Phase::Walk(o, Route::Full(first_link(t, l)))
        }
        _ => Phase::Wait,
    }
}

// The path of one link.
fn first_link(t: TaskId, l: LockId) -> Path
    requires task { t.0 < MAX_TASKS }
    requires lock { l.0 < MAX_LOCKS }
    ensures { result ≡ (t.0, l.0) ∷ [] }
{
    let mut path = Path::empty();
    path.push(t, l);
    path
}
