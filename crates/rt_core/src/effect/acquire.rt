// Acquires: fast, mark, take.
ghost use Rattle.std.specs.Prelude.{◌≡◌, ◌<◌, length, true, IsSome, None, Some};
ghost use Rattle.rt_model.specs.declared.phase.Phase.TheVariants.{Slow};
ghost use Rattle.rt_model.specs.Parts.{call_of, kind_of};
ghost use Rattle.rt_model.specs.State.{lock_in};
ghost use Rattle.rt_model.specs.steps.Thread.{phase_after_got, migration_with};
ghost use Rattle.rt_model.specs.StateAfter.{update};
ghost use Rattle.rt_model.specs.steps.Lock.{taken_by};
ghost use Rattle.rt_model.specs.events.Acquire.{taker};
ghost use Rattle.rt_parts.specs.Thread.{IsCounted};

use rt_base::LockId;
use rt_model::Event;
use rt_parts::{Shared, Thread};

/// The task is the owner, and its call has the owner part.
pub fn fast(shared: &mut Shared, thread: &mut Thread, e: &Event, l: LockId)
    requires task { e.now.task.0 < length shared.old.tasks }
    requires lock { l.0 < length shared.old.locks }
    ensures shared { shared.new ≡ record shared.old {
      locks = update shared.old.locks l.0 (λ lock. record lock { owner = Some e.now.task });
    } }
    ensures thread { thread.new ≡ record thread.old {
      phase = phase_after_got (call_of thread.old) thread.old.phase;
    } }
{
    shared.set_owner(l, e.task);
    thread.got();
}

/// The waiters bit is set; a call for a local lock stays on its processor from here on.
pub fn mark(shared: &mut Shared, thread: &mut Thread, l: LockId)
    requires lock { l.0 < length shared.old.locks }
    requires call { IsSome (call_of thread.old) }
    requires counted { IsCounted thread.old }
    ensures shared { shared.new ≡ record shared.old {
      locks = update shared.old.locks l.0 (λ lock. record lock { bit = true });
    } }
    ensures thread { thread.new ≡ record thread.old {
      phase = Slow;
      migration = migration_with thread.old (call_of thread.old) None;
    } }
{
    shared.set_bit(l);
    thread.mark();
}

/// The lock is the task's, which isn't queued any more and keeps the key of the top waiter that is left.
pub fn take(shared: &mut Shared, thread: &mut Thread, e: &Event, l: LockId)
    requires task { e.now.task.0 < length shared.old.tasks }
    requires lock { l.0 < length shared.old.locks }
    requires kinds { l.0 < length thread.old.kinds }
    ensures shared { shared.new ≡ record shared.old {
      locks = update shared.old.locks l.0 (taken_by e.now.task);
      tasks = update shared.old.tasks e.now.task.0
          (taker (Some l) (kind_of thread.old l) (taken_by e.now.task (lock_in shared.old l)));
    } }
    ensures thread { thread.new ≡ record thread.old {
      phase = phase_after_got (call_of thread.old) thread.old.phase;
    } }
{
    shared.take(l, e.task);
    shared.leave_queue(e.task, thread.kind_of(l).spins());
    shared.refresh(Some(e.task), l);
    thread.got();
}
