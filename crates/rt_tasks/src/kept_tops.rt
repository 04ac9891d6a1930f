ghost use Rattle.std.specs.Prelude.{◌≡◌, ◌<◌, None, IfOk, length, replicate, slice_set};
ghost use Rattle.rt_model.specs.Parts.{least, keys_in};
ghost use Rattle.rt_tasks.specs.KeptTops.{key_at};

use crate::kept::{better, kept_at, least_in, least_of, least_with};
use crate::lock_set::LockSet;
use rt_base::limits::MAX_LOCKS;
use rt_base::{LockId, NoMemory, Prio};
use std::alloc::Global;
use std::marker::Model;

/// The tops that a task keeps: by lock, the priority of its top waiter, and the set of the locks of which
/// one is kept, so that a search for the best goes over those alone.
#[derive(Drop)]
pub struct KeptTops {
    keys: Vec<Option<Prio>>,
    locks: LockSet,
}

impl Model for KeptTops {
    ghost use Rattle.std.specs.Prelude.{ℕ, List, Option};
    ghost use Rattle.rt_tasks.specs.KeptTops.{AreLocksOf};

    ghost Value = { List (Option ℕ) };

    ghost view = { λ t. t.keys.items };

    ghost invariant = { λ t. AreLocksOf t.keys.items t.locks };
}

impl KeptTops {
    /// Nothing is kept, of so many locks.
    pub fn new(alloc: Global, locks: u32) -> Result<KeptTops, NoMemory>
        ensures { IfOk result (λ tops. tops ≡ replicate locks None) }
    {
        let keys = vec![in alloc; None; locks as usize]?;
        Ok(KeptTops {
            keys,
            locks: LockSet::empty(),
        })
    }

    /// How many locks there are.
    pub fn len(&self) -> usize
        ensures { result ≡ length self.now }
    {
        self.keys.len()
    }

    /// What is kept of a lock.
    pub fn get(&self, l: LockId) -> Option<Prio>
        ensures { result ≡ key_at self.now l.0 }
    {
        kept_at(self.keys.as_slice(), l.0 as usize)
    }

    /// This is kept of a lock from now on.
    pub fn put(&mut self, l: LockId, top: Option<Prio>)
        requires { l.0 < length self.old }
        ensures { self.new ≡ slice_set self.old l.0 top }
    {
        self.locks.put(l, top.is_some());
        self.keys[l.0 as usize] = top;
    }

    /// The best of a priority and what is kept. Of more locks than a set has room for, it goes over all.
    pub fn least(&self, own: Prio) -> Prio
        ensures { result ≡ least own (keys_in self.now) }
    {
        if self.keys.len() <= MAX_LOCKS {
            least_in(own, self.keys.as_slice(), &self.locks)
        } else {
            least_of(own, self.keys.as_slice())
        }
    }

    /// The same with this in place of what is kept of a lock.
    pub fn least_with(&self, own: Prio, l: LockId, top: Option<Prio>) -> Prio
        requires { l.0 < length self.now }
        ensures { result ≡ least own (keys_in (slice_set self.now l.0 top)) }
    {
        if self.keys.len() <= MAX_LOCKS {
            let others = self.locks.without(l);
            better(least_in(own, self.keys.as_slice(), &others), top)
        } else {
            least_with(own, self.keys.as_slice(), l, top)
        }
    }
}
