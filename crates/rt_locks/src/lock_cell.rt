ghost use Rattle.std.specs.Prelude.{◌≡◌, ◌<◌, ◌≤◌, ◌+◌, ◌^◌, length, true, None, Some, IfOk, IfSome, IsSome};
ghost use Rattle.rt_model.specs.State.{free_lock};
ghost use Rattle.rt_model.specs.Rows.{top_waiter, top_key, top_task, top_changed, row_of, queued_key, without, may_take};
ghost use Rattle.rt_model.specs.steps.Lock.{queued, requeued, left_by, taken_by, given_up};
ghost use Rattle.rt_locks.specs.OwnerCell.{HasPriorities};
ghost use Rattle.rt_locks.specs.Top.{is_top};

use crate::reason::reason_among;
use crate::top::{first_other, is_changed, is_first, key_in, task_of_row, top_with};
use rt_base::limits::MAX_PRIO;
use rt_base::{Kind, NoMemory, Prio, TaskId};
use rt_model::{Reason, Row};
use rt_waiters::{Steps, Waiters};
use std::alloc::Global;
use std::marker::Model;
use std::sync::ledger::Ledger;

/// A lock's owner part, as the kernel's `struct rt_mutex_base`: who owns it, whether the waiters bit
/// is set, who waits, and the ticket that the next waiter draws.
#[derive(Drop)]
pub struct LockCell {
    owner: Option<TaskId>,
    bit: bool,
    waiters: Waiters,
    ticket: u64,
}

impl Model for LockCell {
    ghost use Rattle.rt_locks.specs.OwnerCell.{OwnerCell, HasPriorities, HasTickets};

    ghost Value = { OwnerCell };

    ghost view = { λ c. record { part = record { owner = c.owner; bit = c.bit; rows = c.waiters.rows; ticket = c.ticket }; tasks = c.waiters.room } };

    ghost invariant = { λ c. HasPriorities c.waiters.rows × HasTickets c.ticket c.waiters.rows };
}

impl LockCell {
    /// A free lock that nobody waits for, with room for so many tasks.
    pub fn new(alloc: Global, tasks: u32) -> Result<LockCell, NoMemory>
        ensures { IfOk result (λ cell. cell ≡ record { part = free_lock; tasks = tasks }) }
    {
        let waiters = Waiters::with_room(alloc, tasks)?;
        Ok(LockCell {
            owner: None,
            bit: false,
            waiters,
            ticket: 0,
        })
    }

    /// The task that owns the lock, `rt_mutex_owner`.
    pub fn owner(&self) -> Option<TaskId>
        ensures { result ≡ self.now.part.owner }
    {
        self.owner
    }

    /// Whether the waiters bit is set, `RT_MUTEX_HAS_WAITERS`.
    pub fn bit(&self) -> bool
        ensures { result ≡ self.now.part.bit }
    {
        self.bit
    }

    /// The waiter that gets the lock first, `rt_mutex_top_waiter`.
    pub fn top(&self) -> Option<Row>
        ensures top { result ≡ top_waiter self.now.part.rows }
        ensures priority { IfSome result (λ row. row.key ≤ MAX_PRIO) }
    {
        self.waiters.top()
    }

    /// The task of that waiter.
    pub fn top_task(&self) -> Option<TaskId>
        ensures { result ≡ top_task self.now.part.rows }
    {
        task_of_row(self.waiters.top())
    }

    /// The waiters.
    pub fn waiters(&self) -> &Waiters
        ensures rows { result.now.rows ≡ self.now.part.rows }
        ensures room { result.now.room ≡ self.now.tasks }
        ensures priorities { HasPriorities self.now.part.rows }
    {
        &self.waiters
    }

    /// The ticket that the next waiter draws.
    pub fn next_ticket(&self) -> u64
        ensures { result ≡ self.now.part.ticket }
    {
        self.ticket
    }
}

// What a task asks before it changes a lock.
impl LockCell {
    /// Why a task that asks with this priority may take the lock, of this kind, where it may,
    /// `try_to_take_rt_mutex`.
    pub fn may_take(&self, t: TaskId, key: Prio, kind: Kind) -> Option<Reason>
        ensures { result ≡ may_take t key kind self.now.part }
    {
        if self.owner.is_some() {
            return None;
        }
        reason_among(t, key, kind, self.waiters.top())
    }

    /// The priority with which the top waiter is queued.
    pub fn top_key(&self) -> Option<Prio>
        ensures { result ≡ top_key self.now.part.rows }
    {
        key_in(self.waiters.top())
    }

    /// The priority with which a task is queued.
    pub fn key_of(&self, t: TaskId) -> Option<Prio>
        ensures { result ≡ queued_key t self.now.part.rows }
    {
        key_in(self.waiters.row(t.0))
    }

    /// The top waiter's priority once this task's row is gone.
    pub fn top_key_without(&self, t: TaskId) -> Option<Prio>
        ensures { result ≡ top_key (without t self.now.part.rows) }
    {
        key_in(first_other(self.waiters.rows(), t))
    }

    /// The top waiter's priority once this task is queued with this one.
    pub fn top_key_with(&self, t: TaskId, key: Prio) -> Prio
        ensures { Some result ≡ top_key (queued t key self.now.part).rows }
    {
        match self.top_key() {
            Some(top) => key.min(top),
            None => key,
        }
    }

    /// The top waiter once this task is queued anew with this priority and the next ticket, after the
    /// others of that priority.
    pub fn top_requeued(&self, t: TaskId, key: Prio) -> Option<Row>
        ensures top { result ≡ top_waiter (requeued t key self.now.part).rows }
        ensures priority { IfSome result (λ row. row.key ≤ MAX_PRIO) }
    {
        let row = Row {
            key: key.get() as u64,
            ticket: self.ticket,
            who: t.0,
        };
        top_with(self.waiters.rows(), row)
    }
}

// The steps of which events are made. A call counts the comparisons of rows.
impl LockCell {
    /// Makes a task the owner, `rt_mutex_set_owner`. Nothing else changes.
    pub fn set_owner(&mut self, t: TaskId)
        ensures { self.new ≡ record self.old { part = record self.old.part { owner = Some t } } }
    {
        self.owner = Some(t);
    }

    /// Leaves the lock without owner, as `rt_mutex_cmpxchg_release`. Nothing else changes.
    pub fn clear_owner(&mut self)
        ensures { self.new ≡ record self.old { part = record self.old.part { owner = None } } }
    {
        self.owner = None;
    }

    /// Sets the waiters bit, `mark_rt_mutex_waiters`.
    pub fn set_bit(&mut self)
        ensures { self.new ≡ record self.old { part = record self.old.part { bit = true } } }
    {
        self.bit = true;
    }

    /// Makes a task the owner, queued or not, and answers the top waiter that is left,
    /// `try_to_take_rt_mutex` with success.
    pub fn take<L: Ledger>(&mut self, t: TaskId, steps: &mut Steps<L>) -> Option<Row>
        ensures part { self.new ≡ record self.old { part = taken_by t self.old.part } }
        ensures top { result ≡ top_waiter self.new.part.rows }
        ensures cost { steps.new ≤ steps.old + length self.old.part.rows }
    {
        let _taken = self.waiters.remove(t.0, steps);
        let top = self.waiters.top();
        self.owner = Some(t);
        self.bit = top.is_some();
        top
    }

    /// Queues a task, and answers whether it is the top waiter, `task_blocks_on_rt_mutex`.
    pub fn enqueue<L: Ledger>(&mut self, t: TaskId, key: Prio, steps: &mut Steps<L>) -> bool
        requires below { t.0 < self.old.tasks }
        requires absent { row_of t self.old.part.rows ≡ None }
        requires tickets { self.old.part.ticket < 2 ^ 63 }
        ensures part { self.new ≡ record self.old { part = queued t key self.old.part } }
        ensures top { result ≡ is_top t self.new.part.rows }
        ensures cost { steps.new ≤ steps.old + length self.old.part.rows }
    {
        self.waiters
            .insert(key.get() as u64, self.ticket, t.0, steps);
        self.ticket += 1;
        self.bit = true;
        is_first(self.waiters.top(), t)
    }

    /// Queues a queued task anew, with another priority and the next ticket, and answers whether the top
    /// row is another one now, be it only by its ticket, as a link of `rt_mutex_adjust_prio_chain` does.
    pub fn requeue<L: Ledger>(&mut self, t: TaskId, key: Prio, steps: &mut Steps<L>) -> bool
        requires queued { IsSome (row_of t self.old.part.rows) }
        requires tickets { self.old.part.ticket < 2 ^ 63 }
        ensures part { self.new ≡ record self.old { part = requeued t key self.old.part } }
        ensures top { result ≡ top_changed self.old.part.rows self.new.part.rows }
        ensures cost { steps.new ≤ steps.old + length self.old.part.rows }
    {
        let top = self.waiters.top();
        self.waiters
            .requeue(t.0, key.get() as u64, self.ticket, steps);
        self.ticket += 1;
        is_changed(top, self.waiters.top())
    }

    /// Takes a task's row out, and answers whether it was the top waiter, `remove_waiter`.
    pub fn remove<L: Ledger>(&mut self, t: TaskId, steps: &mut Steps<L>) -> bool
        ensures part { self.new ≡ record self.old { part = left_by t self.old.part } }
        ensures top { result ≡ is_top t self.old.part.rows }
        ensures cost { steps.new ≤ steps.old + length self.old.part.rows }
    {
        let was_top = is_first(self.waiters.top(), t);
        let _left = self.waiters.remove(t.0, steps);
        self.bit = self.waiters.top().is_some();
        was_top
    }

    /// Gives the lock up, and answers the task that is to be woken, `mark_wakeup_next_waiter`.
    pub fn give(&mut self) -> Option<TaskId>
        ensures part { self.new ≡ record self.old { part = given_up self.old.part } }
        ensures next { result ≡ top_task self.old.part.rows }
    {
        let top = self.waiters.top();
        self.owner = None;
        self.bit = top.is_some();
        task_of_row(top)
    }
}
