ghost use Rattle.std.specs.Prelude.{◌≡◌, ℕ, ◌<◌, ◌∷◌, [], length, slice_set, slice_index_or, None};
ghost use Rattle.rt_model.specs.Parts.{least, keys_in};
ghost use Rattle.rt_tasks.specs.KeptTops.{key_at, IsLeastOf};
ghost use Rattle.rt_tasks.specs.LockSet.{IsIn, IsInWord};

use crate::lock_set::{LockSet, WORDS};
use rt_base::{LockId, Prio};

// The best of a priority and what is kept of the locks in a set.
pub fn least_in(prio: Prio, kept: &[Option<Prio>], locks: &LockSet) -> Prio
    ensures { IsLeastOf (IsIn locks.now) prio kept.now result }
{
    let mut best = prio;
    'words: for w in 0..WORDS {
        best = least_of_word(best, kept, locks.word(w), w);
    }
    best
}

// The same of the locks in a word of it.
fn least_of_word(prio: Prio, kept: &[Option<Prio>], word: u64, w: usize) -> Prio
    requires { w < WORDS }
    ensures { IsLeastOf (IsInWord word w) prio kept.now result }
{
    let mut best = prio;
    let mut rest = word;
    'bits: while rest != 0 {
        let bit = rest.trailing_zeros();
        rest &= !(1 << bit);
        best = better(best, kept_at(kept, w * 64 + bit as usize));
    }
    best
}

// The best of a priority and all that is kept.
pub fn least_of(own: Prio, kept: &[Option<Prio>]) -> Prio
    ensures { result ≡ least own (keys_in kept.now) }
{
    let mut best = own;
    for i in 0..kept.len() {
        best = better(best, kept[i]);
    }
    best
}

// The same with this in place of what is kept of a lock.
pub fn least_with(own: Prio, kept: &[Option<Prio>], l: LockId, top: Option<Prio>) -> Prio
    ensures { result ≡ least own (keys_in (slice_set kept.now l.0 top)) }
{
    let mut best = own;
    for i in 0..kept.len() {
        best = better(best, kept_with(kept, i, l, &top));
    }
    best
}

// What is kept at an index, with this in place of what is kept of a lock.
fn kept_with(kept: &[Option<Prio>], i: usize, l: LockId, top: &Option<Prio>) -> Option<Prio>
    requires { i < length kept.now }
    ensures { result ≡ slice_index_or (slice_set kept.now l.0 top.now) i None }
{
    if i == l.0 as usize { *top } else { kept[i] }
}

// What is kept at an index, if it is there.
pub fn kept_at(kept: &[Option<Prio>], i: usize) -> Option<Prio>
    ensures { result ≡ key_at kept.now i }
{
    match kept.get(i) {
        Some(key) => *key,
        None => None,
    }
}

// The better of a priority and a kept key.
pub fn better(prio: Prio, kept: Option<Prio>) -> Prio
    ensures { result ≡ least prio (keys_in (kept ∷ [])) }
{
    match kept {
        Some(key) => key.min(prio),
        None => prio,
    }
}
