ghost use Rattle.std.specs.Prelude.{◌≡◌, length};
ghost use Rattle.rt_base.specs.Text.{state_word};

/// What a task is up to, as the kernel's `task_struct::__state`.
#[derive(Clone, Copy, Debug, PartialEq, Eq)]
pub enum TaskState {
    /// `TASK_RUNNING`, written R.
    Running,
    /// `TASK_INTERRUPTIBLE`, written S: wakeups and signals end it.
    Interruptible,
    /// `TASK_UNINTERRUPTIBLE`, written D: wakeups end it.
    Uninterruptible,
    /// `TASK_RTLOCK_WAIT`, written L: only a lock wakeup of a spinning kind ends it.
    LockWait,
}

impl TaskState {
    /// The letter that scripts, journals and reports have for the state.
    pub fn letter(self) -> &'static str
        ensures word { result.now ≡ state_word self }
        ensures one { length result.now ≡ 1 }
    {
        match self {
            TaskState::Running => "R",
            TaskState::Interruptible => "S",
            TaskState::Uninterruptible => "D",
            TaskState::LockWait => "L",
        }
    }
}
