ghost use Rattle.std.specs.Prelude.{◌≡◌, ℕ, ◌<◌, ◌^◌, ◌||◌, false, None, IfSome, nat_eq, if◌then◌else◌};
ghost use Rattle.rt_core.specs.TaskSet.{has, IsLowestIn};

use rt_base::TaskId;
use rt_base::limits::MAX_TASKS;
use std::marker::Model;

/// A set of tasks: bit t of the word stands for task t.
#[derive(Drop)]
pub struct TaskSet {
    word: u64,
}

impl Model for TaskSet {
    ghost use Rattle.std.specs.Prelude.{ℕ};

    ghost Value = { ℕ };

    ghost view = { λ s. s.word };
}

impl TaskSet {
    /// The set of no task.
    pub fn empty() -> TaskSet
        ensures { (u : ℕ) → has result u ≡ false }
    {
        TaskSet { word: 0 }
    }

    /// Whether a task is in the set.
    pub fn contains(&self, t: TaskId) -> bool
        requires { t.0 < MAX_TASKS }
        ensures { result ≡ has self.now t.0 }
    {
        (self.word >> t.0) & 1 == 1
    }

    /// The lowest task of the set.
    pub fn lowest(&self) -> Option<TaskId>
        ensures some { IfSome result (λ t. IsLowestIn self.now t.0) }
        ensures within { IfSome result (λ t. t.0 < MAX_TASKS) }
        ensures none { result ≡ None → (u : ℕ) → has self.now u ≡ false }
    {
        if self.word == 0 {
            None
        } else {
            Some(TaskId(lowest_bit(self.word)))
        }
    }

    /// A task is in the set from now on, or isn't.
    pub fn put(&mut self, t: TaskId, member: bool)
        requires { t.0 < MAX_TASKS }
        ensures { (u : ℕ) → u < MAX_TASKS
            → has self.new u ≡ (if nat_eq t.0 u then member else has self.old u) }
    {
        let bit = 1 << t.0;
        if member {
            self.word |= bit;
        } else {
            self.word &= !bit;
        }
    }

    /// Puts a task that isn't in the set into it. The word grows.
    pub fn add(&mut self, t: TaskId)
        requires task { t.0 < MAX_TASKS }
        requires absent { has self.old t.0 ≡ false }
        ensures member { (u : ℕ) → u < MAX_TASKS → has self.new u ≡ (nat_eq t.0 u || has self.old u) }
        ensures more { self.old < self.new }
        ensures fits { self.new < 2 ^ 64 }
    {
        self.word |= 1 << t.0;
    }

    /// Puts all tasks of another set into this one.
    pub fn join(&mut self, other: &TaskSet)
        ensures { (u : ℕ) → has self.new u ≡ (has self.old u || has other.now u) }
    {
        self.word |= other.word;
    }
}

// The place of the lowest bit that is set.
fn lowest_bit(word: u64) -> u32
    requires { 0 < word }
    ensures lowest { IsLowestIn word result }
    ensures within { result < MAX_TASKS }
{
    word.trailing_zeros()
}
