// Steps on one lock among the shared parts.
ghost use Rattle.std.specs.Prelude.{◌≡◌, ◌<◌, ◌^◌, length, true, None, Some};
ghost use Rattle.rt_model.specs.Parts.{effective_of};
ghost use Rattle.rt_model.specs.Rows.{row_of};
ghost use Rattle.rt_model.specs.State.{lock_in, task_in};
ghost use Rattle.rt_model.specs.steps.Lock.{queued, left_by, taken_by, given_up};
ghost use Rattle.rt_parts.specs.Steps.{with_lock};

use crate::shared::Shared;
use rt_base::{LockId, Prio, TaskId};
use rt_locks::LockCell;
use rt_waiters::Steps;
use std::marker::Brand;
use std::sync::ledger::{Blank, Ledger};

impl Shared {
    /// Makes a task the owner of a lock.
    pub fn set_owner(&mut self, l: LockId, t: TaskId)
        requires lock { l.0 < length self.old.locks }
        requires task { t.0 < length self.old.tasks }
        ensures { self.new ≡ with_lock self.old l (λ lock. record lock { owner = Some t }) }
    {
        self.locks[l.0 as usize].set_owner(t);
    }

    /// Leaves a lock without owner.
    pub fn clear_owner(&mut self, l: LockId)
        requires { l.0 < length self.old.locks }
        ensures { self.new ≡ with_lock self.old l (λ lock. record lock { owner = None }) }
    {
        self.locks[l.0 as usize].clear_owner();
    }

    /// Sets the waiters bit of a lock.
    pub fn set_bit(&mut self, l: LockId)
        requires { l.0 < length self.old.locks }
        ensures { self.new ≡ with_lock self.old l (λ lock. record lock { bit = true }) }
    {
        self.locks[l.0 as usize].set_bit();
    }

    /// Makes a task, queued or not, the owner of a lock that it takes, `try_to_take_rt_mutex`.
    pub fn take(&mut self, l: LockId, t: TaskId)
        requires lock { l.0 < length self.old.locks }
        requires task { t.0 < length self.old.tasks }
        ensures { self.new ≡ with_lock self.old l (taken_by t) }
    {
        take::<Brand>(&mut self.locks[l.0 as usize], t, Blank::new(1));
    }

    /// Queues a task at a lock with its effective priority, `rt_mutex_enqueue`.
    pub fn enqueue(&mut self, l: LockId, t: TaskId)
        requires lock { l.0 < length self.old.locks }
        requires task { t.0 < length self.old.tasks }
        requires absent { row_of t (lock_in self.old l).rows ≡ None }
        requires tickets { (lock_in self.old l).ticket < 2 ^ 63 }
        ensures { self.new ≡ with_lock self.old l (queued t (effective_of (task_in self.old t))) }
    {
        let key = self.tasks[t.0 as usize].effective();
        enqueue::<Brand>(&mut self.locks[l.0 as usize], t, key, Blank::new(1));
    }

    /// Takes a task's row out of the queue of a lock, `rt_mutex_dequeue`.
    pub fn remove(&mut self, l: LockId, t: TaskId)
        requires { l.0 < length self.old.locks }
        ensures { self.new ≡ with_lock self.old l (left_by t) }
    {
        remove::<Brand>(&mut self.locks[l.0 as usize], t, Blank::new(1));
    }

    /// Gives a lock up, `mark_wakeup_next_waiter`.
    pub fn give(&mut self, l: LockId)
        requires { l.0 < length self.old.locks }
        ensures { self.new ≡ with_lock self.old l given_up }
    {
        let _ = self.locks[l.0 as usize].give();
    }
}

// Makes a task the owner of a lock that it takes. Nobody counts the comparisons.
fn take<L: Ledger>(lock: &mut LockCell, t: TaskId, blank: Blank)
    requires name { blank.name ≡ L.name }
    requires parts { blank.parts ≡ L.parts }
    requires some { 0 < L.parts }
    ensures { lock.new ≡ record lock.old { part = taken_by t lock.old.part } }
{
    let _ = lock.take(t, &mut Steps::<L>::new(blank));
}

// Takes a task's row out of the queue of a lock. Nobody counts the comparisons.
fn remove<L: Ledger>(lock: &mut LockCell, t: TaskId, blank: Blank)
    requires name { blank.name ≡ L.name }
    requires parts { blank.parts ≡ L.parts }
    requires some { 0 < L.parts }
    ensures { lock.new ≡ record lock.old { part = left_by t lock.old.part } }
{
    let _ = lock.remove(t, &mut Steps::<L>::new(blank));
}

// Queues a task with this key. Nobody counts the comparisons.
fn enqueue<L: Ledger>(lock: &mut LockCell, t: TaskId, key: Prio, blank: Blank)
    requires name { blank.name ≡ L.name }
    requires parts { blank.parts ≡ L.parts }
    requires some { 0 < L.parts }
    requires below { t.0 < lock.old.tasks }
    requires absent { row_of t lock.old.part.rows ≡ None }
    requires tickets { lock.old.part.ticket < 2 ^ 63 }
    ensures { lock.new ≡ record lock.old { part = queued t key lock.old.part } }
{
    let _ = lock.enqueue(t, key, &mut Steps::<L>::new(blank));
}
