// States, wakeups, priorities: state, sched, wake, setprio.
ghost use Rattle.std.specs.Prelude.{◌≡◌};
ghost use Rattle.rt_model.specs.events.Wakeups.{state_event, schedule_event, sched_event, wake_event, signal_event, setprio_event};

use crate::chosen::Chosen;
use crate::event::{bare, boost_of, is_old};
use rt_base::{Prio, Reply, TaskId, TaskState};
use rt_events::state_number;
use rt_model::EventKind;
use rt_tasks::TaskCell;

/// Sets the state of the task itself, `set_current_state`.
pub fn state_event(t: TaskId, state: TaskState) -> Chosen
    ensures { result ≡ state_event t state }
{
    Chosen {
        value: state_number(state),
        reply: Some(Reply::Done),
        ..bare(t, EventKind::State)
    }
}

/// Goes on after the processor was given up, `schedule`: none while the task sleeps.
pub fn schedule_event(t: TaskId, task: &TaskCell) -> Option<Chosen>
    ensures { result ≡ schedule_event t task.now }
{
    if task.passes() {
        Some(sched_event(t))
    } else {
        None
    }
}

// Goes on.
fn sched_event(t: TaskId) -> Chosen
    ensures { result ≡ sched_event t }
{
    Chosen {
        reply: Some(Reply::Done),
        ..bare(t, EventKind::Sched)
    }
}

/// Wakes a task, `wake_up_process`. The answer says whether it ends a sleep, or one that is saved.
pub fn wake_event(t: TaskId, u: TaskId, task: &TaskCell) -> Chosen
    ensures { result ≡ wake_event t u task.now }
{
    let wakes = task.heeds_wake();
    Chosen {
        other: Some(u),
        reply: Some(if wakes { Reply::Woke } else { Reply::Missed }),
        ..bare(t, EventKind::Wake)
    }
}

/// Sends a task a signal, `signal_wake_up`. The answer says whether it ends a sleep, or one that
/// is saved.
pub fn signal_event(t: TaskId, u: TaskId, task: &TaskCell) -> Chosen
    ensures { result ≡ signal_event t u task.now }
{
    let wakes = task.heeds_signal();
    Chosen {
        other: Some(u),
        value: 1,
        reply: Some(if wakes { Reply::Woke } else { Reply::Missed }),
        ..bare(t, EventKind::Wake)
    }
}

/// Sets the priority of a task, `__sched_setscheduler`. Where that task is queued with a key that is old
/// then, a short walk begins there, and the answer comes when it ends, `rt_mutex_adjust_pi`.
pub fn setprio_event(t: TaskId, u: TaskId, prio: Prio, task: &TaskCell) -> Chosen
    ensures { result ≡ setprio_event t u prio task.now }
{
    let after = task.effective_with_own(prio);
    let walks = is_old(task, after);
    Chosen {
        other: Some(u),
        value: prio.get(),
        boost: boost_of(u, task.effective(), after),
        reply: if walks { None } else { Some(Reply::Done) },
        ..bare(t, EventKind::SetPrio)
    }
}
