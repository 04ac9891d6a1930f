// The numbers by which events tell the state that a task sets itself.
ghost use Rattle.std.specs.Prelude.{◌≡◌};
ghost use Rattle.rt_model.specs.steps.Task.{state_number, state_numbered};

use rt_base::TaskState;

/// The number of a state in the `value` of a `state` event: 0 for R, 1 for S, 2 for D. A task doesn't
/// set itself into the lock-wait state; that one has D's number.
pub fn state_number(state: TaskState) -> u8
    ensures { result ≡ state_number state }
{
    match state {
        TaskState::Running => 0,
        TaskState::Interruptible => 1,
        _ => 2,
    }
}

/// The state of a number: the one that `set_current_state` is called with. Every number but 0 and 1 is
/// D's.
pub fn state_numbered(value: u8) -> TaskState
    ensures { result ≡ state_numbered value }
{
    match value {
        0 => TaskState::Running,
        1 => TaskState::Interruptible,
        _ => TaskState::Uninterruptible,
    }
}
