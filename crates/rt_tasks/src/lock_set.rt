ghost use Rattle.std.specs.Prelude.{◌≡◌, ℕ, ◌<◌, false, nat_eq, slice_index, if◌then◌else◌};
ghost use Rattle.rt_tasks.specs.LockSet.{has, has_bit};

use rt_base::LockId;
use rt_base::limits::MAX_LOCKS;
use std::marker::Model;

/// The words of a set.
pub const WORDS: usize = MAX_LOCKS / 64;

/// A set of locks: bit l % 64 of word l / 64 stands for lock l.
#[derive(Drop)]
pub struct LockSet {
    words: [u64; WORDS],
}

impl Model for LockSet {
    ghost use Rattle.std.specs.Prelude.{ℕ, List};

    ghost Value = { List ℕ };

    ghost view = { λ s. s.words };
}

impl LockSet {
    /// The set of no lock.
    pub fn empty() -> LockSet
        ensures { (m : ℕ) → has result m ≡ false }
    {
        LockSet { words: [0; WORDS] }
    }

    /// The word of the locks from 64 * w on.
    pub fn word(&self, w: usize) -> u64
        requires { w < WORDS }
        ensures { result ≡ slice_index self.now w }
    {
        self.words[w]
    }

    /// A lock is in the set from now on, or isn't. There is no room for those from `MAX_LOCKS` on.
    pub fn put(&mut self, l: LockId, member: bool)
        ensures { (m : ℕ) → m < MAX_LOCKS
            → has self.new m ≡ (if nat_eq l.0 m then member else has self.old m) }
    {
        let w = l.0 as usize / 64;
        if w < WORDS {
            self.words[w] = with_bit(self.words[w], l.0 % 64, member);
        }
    }

    /// The set without a lock.
    pub fn without(&self, l: LockId) -> LockSet
        ensures { (m : ℕ) → m < MAX_LOCKS
            → has result m ≡ (if nat_eq l.0 m then false else has self.now m) }
    {
        let mut others = LockSet { words: self.words };
        others.put(l, false);
        others
    }
}

// The word with a bit set, or cleared.
fn with_bit(word: u64, bit: u32, set: bool) -> u64
    requires { bit < 64 }
    ensures { (b : ℕ) → b < 64 → has_bit result b ≡ (if nat_eq bit b then set else has_bit word b) }
{
    if set {
        word | 1 << bit
    } else {
        word & !(1 << bit)
    }
}
