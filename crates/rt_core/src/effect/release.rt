// Releases: free, give.
ghost use Rattle.std.specs.Prelude.{◌≡◌, ◌<◌, length, None, Some, IfSome};
ghost use Rattle.rt_base.specs.Kind.{spins};
ghost use Rattle.rt_model.specs.StateAfter.{update, at_task};
ghost use Rattle.rt_model.specs.steps.Lock.{given_up};
ghost use Rattle.rt_model.specs.steps.Task.{with_top, lock_woken};

use rt_base::{Kind, LockId};
use rt_model::Event;
use rt_parts::Shared;

/// The lock has no owner.
pub fn free(shared: &mut Shared, l: LockId)
    requires { l.0 < length shared.old.locks }
    ensures { shared.new ≡ record shared.old {
      locks = update shared.old.locks l.0 (λ lock. record lock { owner = None });
    } }
{
    shared.clear_owner(l);
}

/// The lock has no owner, the task keeps nothing of it, and the top waiter is woken.
pub fn give(shared: &mut Shared, e: &Event, l: LockId, kind: Kind)
    requires task { e.now.task.0 < length shared.old.tasks }
    requires lock { l.0 < length shared.old.locks }
    requires woken { IfSome e.now.woken (λ t. t.0 < length shared.old.tasks) }
    ensures { shared.new ≡ record shared.old {
      locks = update shared.old.locks l.0 given_up;
      tasks = at_task (update shared.old.tasks e.now.task.0 (with_top (Some l) None))
          e.now.woken (lock_woken (spins kind));
    } }
{
    shared.give(l);
    shared.drop_top(e.task, l);
    shared.lock_wake(e.woken, kind.spins());
}
