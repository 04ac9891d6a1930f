// A link of a chain walk among the shared parts.
ghost use Rattle.std.specs.Prelude.{◌≡◌, ◌≢◌, ◌<◌, length, All, None, Some, IfSome, IsSome};
ghost use Rattle.rt_model.specs.State.{lock_in, task_in};
ghost use Rattle.rt_model.specs.steps.Chain.{rekeyed};
ghost use Rattle.rt_walk.specs.Link.{awaited, owner_linked};
ghost use Rattle.rt_walk.specs.Step.{HasPlace};
ghost use Rattle.rt_parts.specs.Links.{IsQueuedAt, task_among, cell_linked, tasks_linked, linked};

use crate::shared::Shared;
use rt_base::{LockId, TaskId};
use rt_locks::LockCell;
use rt_tasks::TaskCell;
use rt_waiters::Steps;
use rt_walk::walk_step;
use std::marker::Brand;
use std::sync::ledger::{Blank, Ledger};

impl Shared {
    /// Follows the link from a task through the lock on which it is blocked to the lock's owner, one turn of
    /// `rt_mutex_adjust_prio_chain`.
    pub fn link(&mut self, u: TaskId, l: LockId)
        requires task { u.0 < length self.old.tasks }
        requires lock { l.0 < length self.old.locks }
        requires blocked { awaited (task_in self.old u) ≡ Some l }
        requires queued { IsQueuedAt u (task_in self.old u) (lock_in self.old l) }
        ensures { self.new ≡ linked u l self.old }
    {
        let lock = &mut self.locks[l.0 as usize];
        link::<Brand>(self.tasks.as_mut_slice(), u, lock, Blank::new(1));
    }
}

// The link from a task to a lock. Nobody counts the comparisons.
fn link<L: Ledger>(tasks: &mut [TaskCell], u: TaskId, lock: &mut LockCell, blank: Blank)
    requires name { blank.name ≡ L.name }
    requires parts { blank.parts ≡ L.parts }
    requires some { 0 < L.parts }
    requires task { u.0 < length tasks.old }
    requires queued { IsQueuedAt u (task_among tasks.old u) lock.old.part }
    requires owner { IfSome lock.old.part.owner (λ o. o.0 < length tasks.old) }
    requires kept { All (λ task. HasPlace (Some task) (awaited (task_among tasks.old u))) tasks.old }
    ensures lock { lock.new ≡ cell_linked u (task_among tasks.old u) lock.old }
    ensures tasks { tasks.new ≡ tasks_linked u lock.old.part lock.new.part tasks.old }
{
    let mut steps = Steps::<L>::new(blank);
    match lock.owner() {
        Some(o) => link_to(tasks, u, lock, o, &mut steps),
        None => link_to_none(&mut tasks[u.0 as usize], u, lock, &mut steps),
    }
}

// The link to a lock with this owner, another task.
fn link_to<L: Ledger>(
    tasks: &mut [TaskCell],
    u: TaskId,
    lock: &mut LockCell,
    o: TaskId,
    steps: &mut Steps<L>,
)
    requires task { u.0 < length tasks.old }
    requires queued { IsQueuedAt u (task_among tasks.old u) lock.old.part }
    requires owner { lock.old.part.owner ≡ Some o }
    requires there { o.0 < length tasks.old }
    requires other { o.0 ≢ u.0 }
    requires kept { HasPlace (Some (task_among tasks.old o)) (awaited (task_among tasks.old u)) }
    ensures lock { lock.new ≡ cell_linked u (task_among tasks.old u) lock.old }
    ensures tasks { tasks.new ≡ tasks_linked u lock.old.part lock.new.part tasks.old }
{
    let (cursor, owner) = (u.0 as usize, o.0 as usize);
    if cursor < owner {
        let (front, back) = tasks.split_at_mut(owner);
        link_cells(&mut front[cursor], u, lock, &mut back[0], steps);
    } else {
        let (front, back) = tasks.split_at_mut(cursor);
        link_cells(&mut back[0], u, lock, &mut front[owner], steps);
    }
}

// The link between the cells of a task and of the lock's owner.
fn link_cells<L: Ledger>(
    task: &mut TaskCell,
    u: TaskId,
    lock: &mut LockCell,
    owner: &mut TaskCell,
    steps: &mut Steps<L>,
)
    requires queued { IsQueuedAt u task.old lock.old.part }
    requires owner { IsSome lock.old.part.owner }
    requires kept { HasPlace (Some owner.old) (awaited task.old) }
    ensures task { task.new ≡ rekeyed task.old }
    ensures lock { lock.new ≡ cell_linked u task.old lock.old }
    ensures owner { owner.new ≡ owner_linked task.old lock.old.part lock.new.part owner.old }
{
    let _ = walk_step(task, u, lock, Some(owner), steps);
}

// The link to a lock that nobody owns.
fn link_to_none<L: Ledger>(
    task: &mut TaskCell,
    u: TaskId,
    lock: &mut LockCell,
    steps: &mut Steps<L>,
)
    requires queued { IsQueuedAt u task.old lock.old.part }
    requires owner { lock.old.part.owner ≡ None }
    ensures task { task.new ≡ rekeyed task.old }
    ensures lock { lock.new ≡ cell_linked u task.old lock.old }
{
    let _ = walk_step(task, u, lock, None, steps);
}
