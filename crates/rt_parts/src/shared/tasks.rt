// Steps on one task among the shared parts.
ghost use Rattle.std.specs.Prelude.{◌≡◌, ◌<◌, length, false, None, Some, IfSome};
ghost use Rattle.rt_model.specs.State.{lock_in};
ghost use Rattle.rt_model.specs.steps.Task.{with_top, with_own, refreshed, blocked_on, put_to_rest, restored, leave_queue, woken_up, signalled, lock_woken};
ghost use Rattle.rt_parts.specs.Steps.{with_task, with_task_at};

use crate::shared::Shared;
use rt_base::{LockId, Prio, TaskId, TaskState};

impl Shared {
    /// A task, where one is named, keeps the key of a lock's top waiter, or nothing where nobody waits.
    pub fn refresh(&mut self, t: Option<TaskId>, l: LockId)
        requires task { IfSome t (λ t. t.0 < length self.old.tasks) }
        requires lock { l.0 < length self.old.locks }
        ensures { self.new ≡ with_task_at self.old t (refreshed (Some l) (lock_in self.old l).rows) }
    {
        let top = self.locks[l.0 as usize].top_key();
        if let Some(t) = t {
            self.tasks[t.0 as usize].refresh(l, top);
        }
    }

    /// A task keeps nothing of a lock any more.
    pub fn drop_top(&mut self, t: TaskId, l: LockId)
        requires task { t.0 < length self.old.tasks }
        requires lock { l.0 < length self.old.locks }
        ensures { self.new ≡ with_task self.old t (with_top (Some l) None) }
    {
        self.tasks[t.0 as usize].drop_top(l);
    }

    /// A task has another priority of its own.
    pub fn set_own(&mut self, t: TaskId, prio: Prio)
        requires { t.0 < length self.old.tasks }
        ensures { self.new ≡ with_task self.old t (with_own prio) }
    {
        self.tasks[t.0 as usize].set_own(prio);
    }

    /// A task waits for a lock in this state.
    pub fn block(&mut self, t: TaskId, l: LockId, rest: TaskState)
        requires { t.0 < length self.old.tasks }
        ensures { self.new ≡ with_task self.old t (blocked_on (Some l) rest) }
    {
        self.tasks[t.0 as usize].block(l, rest);
    }

    /// A task goes to rest in this state, and isn't queued.
    pub fn put_to_rest(&mut self, t: TaskId, rest: TaskState)
        requires { t.0 < length self.old.tasks }
        ensures { self.new ≡ with_task self.old t (put_to_rest rest) }
    {
        self.tasks[t.0 as usize].put_to_rest(rest);
    }

    /// The state of a task is restored after a wait, where one is named.
    pub fn restore(&mut self, t: Option<TaskId>, spins: bool)
        requires { IfSome t (λ t. t.0 < length self.old.tasks) }
        ensures { self.new ≡ with_task_at self.old t (restored spins) }
    {
        if let Some(t) = t {
            self.tasks[t.0 as usize].restore(spins);
        }
    }

    /// A task goes to this state again.
    pub fn rest_again(&mut self, t: TaskId, rest: TaskState)
        requires { t.0 < length self.old.tasks }
        ensures { self.new ≡ with_task self.old t (λ task. record task { state = rest }) }
    {
        self.tasks[t.0 as usize].rest_again(rest);
    }

    /// A task goes into a state that it sets itself.
    pub fn set_state(&mut self, t: TaskId, state: TaskState)
        requires { t.0 < length self.old.tasks }
        ensures { self.new ≡ with_task self.old t (λ task. record task { state = state }) }
    {
        self.tasks[t.0 as usize].set_state(state);
    }

    /// A task waits for no lock any more, where it did.
    pub fn leave_queue(&mut self, t: TaskId, spins: bool)
        requires { t.0 < length self.old.tasks }
        ensures { self.new ≡ with_task self.old t (leave_queue spins) }
    {
        self.tasks[t.0 as usize].leave_queue(spins);
    }

    /// The signal of a task isn't pending any more.
    pub fn clear_signal(&mut self, t: TaskId)
        requires { t.0 < length self.old.tasks }
        ensures { self.new ≡ with_task self.old t (λ task. record task { signal = false }) }
    {
        self.tasks[t.0 as usize].clear_signal();
    }

    /// A task gets a wakeup.
    pub fn wake(&mut self, t: TaskId)
        requires { t.0 < length self.old.tasks }
        ensures { self.new ≡ with_task self.old t woken_up }
    {
        let _ = self.tasks[t.0 as usize].wake();
    }

    /// A task gets a signal.
    pub fn signal(&mut self, t: TaskId)
        requires { t.0 < length self.old.tasks }
        ensures { self.new ≡ with_task self.old t signalled }
    {
        let _ = self.tasks[t.0 as usize].signal();
    }

    /// A task, where one is named, gets the wakeup of a lock that is given up, or of a last reader.
    pub fn lock_wake(&mut self, t: Option<TaskId>, spins: bool)
        requires { IfSome t (λ t. t.0 < length self.old.tasks) }
        ensures { self.new ≡ with_task_at self.old t (lock_woken spins) }
    {
        if let Some(t) = t {
            self.tasks[t.0 as usize].lock_wake(spins);
        }
    }
}
