ghost use Rattle.std.specs.Prelude.{◌≡◌, ◌<◌, ◌≤◌, ◌+◌, ◌^◌, length, option_map, is_some, Some, IsSome};
ghost use Rattle.rt_model.specs.Parts.{effective_of};
ghost use Rattle.rt_model.specs.Rows.{top_changed, top_key, top_task, row_of};
ghost use Rattle.rt_model.specs.steps.Chain.{rekeyed, requeued_where_old};
ghost use Rattle.rt_model.specs.steps.Task.{with_top};
ghost use Rattle.rt_walk.specs.Lent.{lent, given_back};
ghost use Rattle.rt_walk.specs.Link.{awaited, owner_linked};
ghost use Rattle.rt_walk.specs.Step.{HasPlace, new_top, changed_to, boosted};

use rt_base::{LockId, Prio, TaskId};
use rt_locks::LockCell;
use rt_tasks::TaskCell;
use rt_waiters::Steps;
use std::sync::ledger::Ledger;

/// What a link of a walk changed, besides the task at which the walk stands.
#[derive(Clone, Copy, Debug, PartialEq, Eq)]
pub struct Step {
    /// The lock's top row is another one now, be it the same task's with another key or ticket.
    pub top_changed: bool,
    /// The task of the top row, where that is another one now.
    pub new_top: Option<TaskId>,
    /// The effective priority of the lock's owner, where there is one and it has another one now.
    pub boosted: Option<Prio>,
}

/// Makes one link of a walk, from the task `u` of this number through the lock on which it is blocked to
/// that lock's owner, where it has one: one turn of `rt_mutex_adjust_prio_chain`, without its wakeup and
/// its choice of the next task. What is counted is comparisons of two rows.
pub fn walk_step<L: Ledger>(
    u: &mut TaskCell,
    id: TaskId,
    lock: &mut LockCell,
    owner: Option<&mut TaskCell>,
    steps: &mut Steps<L>,
) -> Step
    requires blocked { IsSome u.old.blocked }
    requires queued { IsSome (row_of id lock.old.part.rows) }
    requires tickets { lock.old.part.ticket < 2 ^ 63 }
    requires owner { is_some owner ≡ is_some lock.old.part.owner }
    requires place { HasPlace (lent owner) (awaited u.old) }

    // What becomes of the task, the lock and the owner.
    ensures task { u.new ≡ rekeyed u.old }
    ensures lock { lock.new ≡ record lock.old { part = requeued_where_old (Some id) u.old lock.old.part } }
    ensures owner { given_back owner.exit
        ≡ option_map (owner_linked u.old lock.old.part lock.new.part) (lent owner.entry) }

    // What is told of it, and what it costs.
    ensures top_changed { result.top_changed ≡ top_changed lock.old.part.rows lock.new.part.rows }
    ensures new_top { result.new_top ≡ new_top lock.old.part.rows lock.new.part.rows }
    ensures boosted { result.boosted ≡ boosted (lent owner.entry) (given_back owner.exit) }
    ensures cost { steps.new ≤ steps.old + length lock.old.part.rows }
{
    let Some((l, key)) = u.blocked_at() else {
        unreachable!()
    };
    if !requeue_where_old(u, key, id, lock, steps) {
        return Step {
            top_changed: false,
            new_top: None,
            boosted: None,
        };
    }
    let (new_top, top_key) = top_of(lock);
    let boosted = match owner {
        Some(owner) => refresh(owner, l, top_key),
        None => None,
    };
    Step {
        top_changed: true,
        new_top,
        boosted,
    }
}

// Queues a task anew where its key is old, and answers whether the top row is another one now.
fn requeue_where_old<L: Ledger>(
    u: &mut TaskCell,
    key: Prio,
    id: TaskId,
    lock: &mut LockCell,
    steps: &mut Steps<L>,
) -> bool
    requires key { option_map (λ at. at.1) u.old.blocked ≡ Some key }
    requires queued { IsSome (row_of id lock.old.part.rows) }
    requires tickets { lock.old.part.ticket < 2 ^ 63 }
    ensures task { u.new ≡ rekeyed u.old }
    ensures lock { lock.new ≡ record lock.old { part = requeued_where_old (Some id) u.old lock.old.part } }
    ensures top { result ≡ top_changed lock.old.part.rows lock.new.part.rows }
    ensures cost { steps.new ≤ steps.old + length lock.old.part.rows }
{
    let effective = u.effective();
    if key == effective {
        return false;
    }
    u.set_key();
    lock.requeue(id, effective, steps)
}

// The top waiter and its key.
fn top_of(lock: &LockCell) -> (Option<TaskId>, Option<Prio>)
    ensures task { result.0 ≡ top_task lock.now.part.rows }
    ensures key { result.1 ≡ top_key lock.now.part.rows }
{
    match lock.waiters().top() {
        Some(row) => (Some(TaskId(row.who)), Prio::new(row.key)),
        None => (None, None),
    }
}

// The owner keeps the top waiter's key, and its effective priority is answered where it is another one
// now, `rt_mutex_adjust_prio`.
fn refresh(owner: &mut TaskCell, l: LockId, top: Option<Prio>) -> Option<Prio>
    requires { l.0 < length owner.old.kept }
    ensures task { owner.new ≡ with_top (Some l) top owner.old }
    ensures boosted { result ≡ changed_to (effective_of owner.old) (effective_of owner.new) }
{
    let before = owner.effective();
    owner.refresh(l, top);
    let after = owner.effective();
    if after == before { None } else { Some(after) }
}
