ghost use Rattle.std.specs.Prelude.{◌≡◌};
ghost use Rattle.rt_model.specs.steps.Task.{runs, sleeps, is_interruptible, lock_state_woken};

use rt_base::TaskState;

// Whether the task runs.
pub fn runs(state: TaskState) -> bool
    ensures { result ≡ runs state }
{
    matches!(state, TaskState::Running)
}

// Whether it is one of the two ordinary sleeps.
pub fn sleeps(state: TaskState) -> bool
    ensures { result ≡ sleeps state }
{
    matches!(state, TaskState::Interruptible | TaskState::Uninterruptible)
}

// Whether a signal ends this sleep.
pub fn is_interruptible(state: TaskState) -> bool
    ensures { result ≡ is_interruptible state }
{
    matches!(state, TaskState::Interruptible)
}

// The state after the wait for a spinning lock has ended.
pub fn lock_state_woken(state: TaskState) -> TaskState
    ensures { result ≡ lock_state_woken state }
{
    match state {
        TaskState::LockWait => TaskState::Running,
        _ => state,
    }
}
