ghost use Rattle.std.specs.Prelude.{◌≡◌, ◌<◌, ◌||◌, length, option_map, is_some, true, false, None, Some, IfOk, IsSome, if◌then◌else◌};
ghost use Rattle.rt_model.specs.Parts.{effective_of};
ghost use Rattle.rt_model.specs.State.{fresh_task};
ghost use Rattle.rt_model.specs.laws.KeptTops.{kept_of};
ghost use Rattle.rt_model.specs.steps.Task.{with_top, with_own};

mod waits;

use crate::kept_tops::KeptTops;
use rt_base::{LockId, NoMemory, Prio, TaskState};
use std::alloc::Global;
use std::marker::Model;

/// A task's public part, as far as the kernel's `task_struct` has it: its own and its effective
/// priority, the kept tops, which are the top waiters of the locks that it owns (`pi_waiters`), the lock
/// that it waits for, its states and its pending signal.
#[derive(Drop)]
pub struct TaskCell {
    own: Prio,
    effective: Prio,
    kept: KeptTops,
    blocked: Option<(LockId, Prio)>,
    state: TaskState,
    saved: TaskState,
    signal: bool,
}

impl Model for TaskCell {
    ghost use Rattle.std.specs.Prelude.{◌≡◌};
    ghost use Rattle.rt_model.specs.Parts.{TaskPart, least, keys_in};

    ghost Value = { TaskPart };

    ghost view = { λ c. record { own = c.own; kept = c.kept; blocked = c.blocked; state = c.state; saved = c.saved; signal = c.signal } };

    ghost invariant = { λ c. c.effective ≡ least c.own (keys_in c.kept) };
}

impl TaskCell {
    /// A running task that keeps no tops, of so many locks, and waits for none.
    pub fn new(alloc: Global, own: Prio, locks: u32) -> Result<TaskCell, NoMemory>
        ensures { IfOk result (λ cell. cell ≡ fresh_task locks own) }
    {
        let kept = KeptTops::new(alloc, locks)?;
        Ok(TaskCell {
            own,
            effective: own,
            kept,
            blocked: None,
            state: TaskState::Running,
            saved: TaskState::Running,
            signal: false,
        })
    }

    /// The priority that it was given, `normal_prio`.
    pub fn own(&self) -> Prio
        ensures { result ≡ self.now.own }
    {
        self.own
    }

    /// The priority that it runs with, `prio`: the best of its own and those of the waiters that it keeps.
    pub fn effective(&self) -> Prio
        ensures { result ≡ effective_of self.now }
    {
        self.effective
    }

    /// The lock that it waits for, `pi_blocked_on`.
    pub fn blocked(&self) -> Option<LockId>
        ensures { result ≡ option_map (λ at. at.0) self.now.blocked }
    {
        match self.blocked {
            Some((lock, _)) => Some(lock),
            None => None,
        }
    }

    /// The lock that it waits for, and the priority that it is queued with.
    pub fn blocked_at(&self) -> Option<(LockId, Prio)>
        ensures { result ≡ self.now.blocked }
    {
        self.blocked
    }

    /// The priority that it is queued with.
    pub fn key(&self) -> Prio
        requires { IsSome self.now.blocked }
        ensures { Some result ≡ option_map (λ at. at.1) self.now.blocked }
    {
        let Some((_, key)) = self.blocked else {
            unreachable!()
        };
        key
    }

    /// What the task is up to.
    pub fn state(&self) -> TaskState
        ensures { result ≡ self.now.state }
    {
        self.state
    }

    /// The state to go back to after a wait for a spinning lock, `saved_state`.
    pub fn saved(&self) -> TaskState
        ensures { result ≡ self.now.saved }
    {
        self.saved
    }

    /// Whether a signal is pending.
    pub fn signalled(&self) -> bool
        ensures { result ≡ self.now.signal }
    {
        self.signal
    }
}

// Priorities: its own, and the tops that it keeps. After each change the effective one is the best of
// them, as `rt_mutex_adjust_prio` makes it.
impl TaskCell {
    /// The key that it keeps of a lock, where it keeps a top of it.
    pub fn kept(&self, l: LockId) -> Option<Prio>
        ensures { result ≡ kept_of self.now l }
    {
        self.kept.get(l)
    }

    /// Whether it keeps a top of a lock.
    pub fn keeps(&self, l: LockId) -> bool
        ensures { result ≡ is_some (kept_of self.now l) }
    {
        self.kept(l).is_some()
    }

    /// The priority that it would run with if it kept this of a lock.
    pub fn effective_with(&self, l: LockId, top: Option<Prio>) -> Prio
        ensures { result ≡ effective_of (with_top (Some l) top self.now) }
    {
        if (l.0 as usize) < self.kept.len() {
            self.effective_after(l, &top)
        } else {
            self.effective
        }
    }

    /// The priority that it would run with if this were its own, `rt_effective_prio`. The best top is
    /// looked for only where the own one set it and gets worse.
    pub fn effective_with_own(&self, p: Prio) -> Prio
        ensures { result ≡ effective_of (with_own p self.now) }
    {
        if p <= self.effective {
            p
        } else if self.own == self.effective {
            self.kept.least(p)
        } else {
            self.effective
        }
    }

    /// Gives it another priority, `__setscheduler_prio`.
    pub fn set_own(&mut self, p: Prio)
        ensures { self.new ≡ record self.old { own = p } }
    {
        self.effective = self.effective_with_own(p);
        self.own = p;
    }

    /// Keeps the priority of a lock's top waiter, `rt_mutex_enqueue_pi`.
    pub fn keep_top(&mut self, l: LockId, key: Prio)
        requires { l.0 < length self.old.kept }
        ensures { self.new ≡ with_top (Some l) (Some key) self.old }
    {
        self.refresh(l, Some(key));
    }

    /// Keeps nothing of a lock any more, `rt_mutex_dequeue_pi`.
    pub fn drop_top(&mut self, l: LockId)
        ensures { self.new ≡ with_top (Some l) None self.old }
    {
        if (l.0 as usize) < self.kept.len() {
            self.refresh(l, None);
        }
    }

    /// Keeps the priority of a lock's top waiter, or nothing where nobody waits.
    pub fn refresh(&mut self, l: LockId, top: Option<Prio>)
        requires { l.0 < length self.old.kept }
        ensures { self.new ≡ with_top (Some l) top self.old }
    {
        self.effective = self.effective_after(l, &top);
        self.kept.put(l, top);
    }

    // What the effective priority becomes where this is kept of a lock. The best of the others is looked
    // for only where the top that set it gets worse or goes.
    fn effective_after(&self, l: LockId, top: &Option<Prio>) -> Prio
        requires { l.0 < length self.now.kept }
        ensures { result ≡ effective_of (with_top (Some l) top.now self.now) }
    {
        match top {
            Some(key) if *key <= self.effective => *key,
            _ if self.is_boosted_by(l) => self.kept.least_with(self.own, l, *top),
            _ => self.effective,
        }
    }

    // Whether the effective priority is what it keeps of a lock, and not its own.
    fn is_boosted_by(&self, l: LockId) -> bool
        ensures { result ≡ false
            → effective_of (with_top (Some l) None self.now) ≡ effective_of self.now }
    {
        self.own != self.effective && self.kept.get(l) == Some(self.effective)
    }
}
