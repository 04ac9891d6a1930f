// What waits for locks, wakeups and signals make of a task's states.
ghost use Rattle.std.specs.Prelude.{◌≡◌, false, Some, IsSome, if◌then◌else◌};
ghost use Rattle.rt_model.specs.steps.Chain.{rekeyed};
ghost use Rattle.rt_model.specs.steps.Task.{blocked_on, put_to_rest, restored, leave_queue, woken_up, signalled, lock_woken, passes};
ghost use Rattle.rt_tasks.specs.Wakeups.{heeds_wake, heeds_signal};

use crate::sleep::{is_interruptible, lock_state_woken, runs, sleeps};
use crate::task_cell::TaskCell;
use crate::woken::Woken;
use rt_base::{LockId, TaskState};

impl TaskCell {
    /// Waits for a lock in this state, queued with its effective priority. Where that is the lock-wait
    /// state, the state before is saved, `current_save_and_set_rtlock_wait_state`.
    pub fn block(&mut self, l: LockId, rest: TaskState)
        ensures { self.new ≡ blocked_on (Some l) rest self.old }
    {
        self.blocked = Some((l, self.effective));
        if rest == TaskState::LockWait {
            self.saved = self.state;
        }
        self.state = rest;
    }

    /// Is queued with its effective priority again, `waiter_update_prio`.
    pub fn set_key(&mut self)
        requires { IsSome self.old.blocked }
        ensures { self.new ≡ rekeyed self.old }
    {
        if let Some((lock, _)) = self.blocked {
            self.blocked = Some((lock, self.effective));
        }
    }

    /// Waits for no lock any more. Its states stay.
    pub fn unblock(&mut self)
        ensures { self.new ≡ record self.old { blocked = None } }
    {
        self.blocked = None;
    }

    /// Saves its state and goes into the lock-wait state, `current_save_and_set_rtlock_wait_state`.
    pub fn save_for_lock(&mut self)
        ensures { self.new ≡ record self.old { saved = self.old.state; state = TaskState.LockWait } }
    {
        self.saved = self.state;
        self.state = TaskState::LockWait;
    }

    /// Goes to rest in this state, queued nowhere, as a writer that sleeps for readers. Where that is the
    /// lock-wait state, the state before is saved, `rwbase_set_and_save_current_state`.
    pub fn put_to_rest(&mut self, rest: TaskState)
        ensures { self.new ≡ put_to_rest rest self.old }
    {
        if rest == TaskState::LockWait {
            self.saved = self.state;
        }
        self.state = rest;
    }

    /// Goes to this state again after a wakeup that came to nothing. The saved state stays.
    pub fn rest_again(&mut self, rest: TaskState)
        ensures { self.new ≡ record self.old { state = rest } }
    {
        self.state = rest;
    }

    /// Goes on after a wait for a lock, `current_restore_rtlock_saved_state` where its kind spins.
    pub fn restore(&mut self, spins: bool)
        ensures { self.new ≡ restored spins self.old }
    {
        if spins {
            self.state = self.saved;
            self.saved = TaskState::Running;
        } else {
            self.state = TaskState::Running;
        }
    }

    /// Goes on where it waited for a lock, which it doesn't any more.
    pub fn leave_queue(&mut self, spins: bool)
        ensures { self.new ≡ leave_queue spins self.old }
    {
        if self.blocked.is_some() {
            self.restore(spins);
            self.unblock();
        }
    }

    /// Goes into a state, `set_current_state`.
    pub fn set_state(&mut self, s: TaskState)
        ensures { self.new ≡ record self.old { state = s } }
    {
        self.state = s;
    }

    /// Whether it doesn't sleep where it gives the processor up: it runs, or a signal is pending in its
    /// interruptible sleep, `signal_pending_state` in `schedule`.
    pub fn passes(&self) -> bool
        ensures { result ≡ passes self.now }
    {
        runs(self.state) || is_interruptible(self.state) && self.signal
    }

    /// Whether a wakeup would end a sleep of it, or one that is saved, `ttwu_state_match`.
    pub fn heeds_wake(&self) -> bool
        ensures { result ≡ heeds_wake self.now }
    {
        sleeps(self.state) || sleeps(self.saved)
    }

    /// Ends a sleep, or one that is saved, `try_to_wake_up`.
    pub fn wake(&mut self) -> Woken
        ensures task { self.new ≡ woken_up self.old }
        ensures woken { result ≡ (if heeds_wake self.old then Woken.Woke else Woken.Missed) }
    {
        if sleeps(self.state) {
            self.state = TaskState::Running;
            Woken::Woke
        } else if sleeps(self.saved) {
            self.saved = TaskState::Running;
            Woken::Woke
        } else {
            Woken::Missed
        }
    }

    /// Whether a signal would end an interruptible sleep of it, or one that is saved, `ttwu_state_match`.
    pub fn heeds_signal(&self) -> bool
        ensures { result ≡ heeds_signal self.now }
    {
        is_interruptible(self.state) || is_interruptible(self.saved)
    }

    /// Sends it a signal, which ends an interruptible sleep, or one that is saved, `signal_wake_up`.
    pub fn signal(&mut self) -> Woken
        ensures task { self.new ≡ signalled self.old }
        ensures woken { result ≡ (if heeds_signal self.old then Woken.Woke else Woken.Missed) }
    {
        self.signal = true;
        if is_interruptible(self.state) {
            self.state = TaskState::Running;
            Woken::Woke
        } else if is_interruptible(self.saved) {
            self.saved = TaskState::Running;
            Woken::Woke
        } else {
            Woken::Missed
        }
    }

    /// Takes the signal, which isn't pending any more, `clear_tsk_thread_flag`.
    pub fn clear_signal(&mut self)
        ensures { self.new ≡ record self.old { signal = false } }
    {
        self.signal = false;
    }

    /// The wakeup of a lock that is given up, `rt_mutex_wake_up_q`, or of a last reader: for a spinning kind it
    /// ends a wait for such a lock alone.
    pub fn lock_wake(&mut self, spins: bool)
        ensures { self.new ≡ lock_woken spins self.old }
    {
        if spins {
            self.state = lock_state_woken(self.state);
        } else {
            let _ = self.wake();
        }
    }
}
