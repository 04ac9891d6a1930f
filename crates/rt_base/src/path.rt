ghost use Rattle.std.specs.Prelude.{◌≡◌, ℕ, ◌-◌, ◌<◌, ◌≤◌, ◌↔◌, List, [], ◌∷◌, ◌++◌, length, take, replicate, slice_get, Some, IsTrue};
ghost use Rattle.rt_base.specs.Path.{has_same_links};
ghost use Rattle.rt_base.specs.PathLaws.{has_same_links-equiv};
ghost use Rattle.std.specs.Cmp.{partial_equiv_from_equiv};

use crate::limits::{MAX_LINKS, MAX_LOCKS, MAX_TASKS};
use crate::{LockId, TaskId};
use std::marker::Model;

/// The links that a walk along a chain of locks has followed, in order: at most 64 pairs of a task
/// and the lock on which it is blocked.
#[derive(Clone, Copy, Debug)]
pub struct Path {
    len: u8,
    tasks: [u8; MAX_LINKS],
    locks: [u8; MAX_LINKS],
}

impl Model for Path {
    ghost use Rattle.std.specs.Prelude.{ℕ, List, length, take, map};
    ghost use Rattle.std.specs.List.{zip};
    ghost use Rattle.rt_base.specs.Path.{padded, IsPadded};
    ghost use Rattle.rt_base.specs.PathLaws.{length-zip_padded, padded-firsts, padded-seconds};

    ghost Value = { List (ℕ × ℕ) };

    ghost view = { λ p. zip (take p.len p.tasks) (take p.len p.locks) };

    ghost invariant = { λ p. IsPadded p.len p.tasks × IsPadded p.len p.locks };

    ghost inverse = { λ v. record {
      len = length v;
      tasks = padded (map (λ (l : ℕ × ℕ). l.0) v);
      locks = padded (map (λ (l : ℕ × ℕ). l.1) v);
    } };

    ghost inverse_ok = { λ p h i. record {
      len = length-zip_padded p.len p.tasks p.locks h.0 h.1 i;
      tasks = padded-firsts p.len p.tasks p.locks h.0 h.1 i;
      locks = padded-seconds p.len p.tasks p.locks h.0 h.1 i;
    } };
}

#[tactic(auto, using(crate::proofs::Links::links))]
impl Path {
    /// The path of no link.
    pub fn empty() -> Path
        ensures { result ≡ [] }
    {
        Path {
            len: 0,
            tasks: [0; MAX_LINKS],
            locks: [0; MAX_LINKS],
        }
    }

    /// How many links it has.
    pub fn len(&self) -> usize
        ensures links { result ≡ length self.now }
        ensures within { result ≤ MAX_LINKS }
    {
        self.len as usize
    }

    /// The link at index i, from 0.
    pub fn at(&self, i: usize) -> (TaskId, LockId)
        requires { i < length self.now }
        ensures link { slice_get self.now i ≡ Some (result.0.0, result.1.0) }
        ensures task_within { result.0.0 < 256 }
        ensures lock_within { result.1.0 < 256 }
    {
        (TaskId(self.tasks[i] as u32), LockId(self.locks[i] as u32))
    }

    /// Puts a link after the others.
    pub fn push(&mut self, t: TaskId, l: LockId)
        requires room { length self.old < MAX_LINKS }
        requires task { t.0 < MAX_TASKS }
        requires lock { l.0 < MAX_LOCKS }
        ensures { self.new ≡ self.old ++ (t.0, l.0) ∷ [] }
    {
        let at = self.len as usize;
        self.tasks[at] = t.0 as u8;
        self.locks[at] = l.0 as u8;
        self.len += 1;
    }

    /// Keeps the first n links.
    pub fn cut(&mut self, n: usize)
        requires { n ≤ length self.old }
        ensures { self.new ≡ take n self.old }
    {
        // After its links a path is zero, so that equal paths are equal in all their fields.
        clear_from(&mut self.tasks, n);
        clear_from(&mut self.locks, n);
        self.len = n as u8;
    }
}

impl PartialEq for Path {
    ghost eq = { has_same_links };

    ghost laws = { partial_equiv_from_equiv has_same_links-equiv };

    /// Whether both have the same links in the same order.
    fn eq(&self, other: &Path) -> bool
        ensures value { result ≡ has_same_links self.now other.now }
        ensures same { IsTrue result ↔ (self.now ≡ other.now) }
    {
        (self.len, &self.tasks, &self.locks) == (other.len, &other.tasks, &other.locks)
    }
}

impl Eq for Path {
    ghost laws = { has_same_links-equiv };
}

/// Zeroes the places from n on.
fn clear_from(places: &mut [u8; MAX_LINKS], n: usize)
    requires { n ≤ MAX_LINKS }
    ensures { places.new ≡ take n places.old ++ replicate (MAX_LINKS - n) 0 }
{
    places[n..].fill(0);
}

#[cfg(test)]
mod tests {
    use super::*;

    #[test]
    fn cut_path_equals_one_never_longer(rt: HostRuntime) {
        let mut short = Path::empty();
        short.push(TaskId(0), LockId(0));
        let mut path = short;
        assert_eq!(rt; path.len(), 1);
        path.push(TaskId(63), LockId(255));
        path.push(TaskId(7), LockId(64));
        assert_eq!(rt; path.len(), 3);
        assert_eq!(rt; path.at(0), (TaskId(0), LockId(0)));
        assert_eq!(rt; path.at(1), (TaskId(63), LockId(255)));
        assert_eq!(rt; path.at(2), (TaskId(7), LockId(64)));
        assert_ne!(rt; path, short);
        path.cut(1);
        assert_eq!(rt; path.len(), 1);
        assert_eq!(rt; path, short);
        path.cut(0);
        assert_ne!(rt; path, short);
        assert_eq!(rt; path, Path::empty());
    }
}
