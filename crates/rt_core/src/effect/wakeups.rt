// States, wakeups, priorities: state, sched, wake, setprio.
ghost use Rattle.std.specs.Prelude.{◌≡◌, ◌<◌, length, Some, IfSome};
ghost use Rattle.rt_base.specs.declared.reply.Reply.TheVariants.{Done};
ghost use Rattle.rt_base.specs.declared.state.TaskState.TheVariants.{Running};
ghost use Rattle.rt_model.specs.declared.phase.Route.TheVariants.{Short};
ghost use Rattle.rt_model.specs.State.{task_at};
ghost use Rattle.rt_model.specs.StateAfter.{update, at_task};
ghost use Rattle.rt_model.specs.steps.Chain.{goes_on, phase_of_walk};
ghost use Rattle.rt_model.specs.steps.Task.{with_own, woken_by, state_numbered};
ghost use Rattle.rt_core.specs.Fits.{IsPriority};

use crate::effect::walk::first_phase;
use rt_base::{Prio, Reply, TaskState};
use rt_events::state_numbered;
use rt_model::Event;
use rt_parts::{Shared, Thread};

/// The task goes into the state of this number, `set_current_state`.
pub fn state(shared: &mut Shared, e: &Event)
    requires { e.now.task.0 < length shared.old.tasks }
    ensures { shared.new ≡ record shared.old {
      tasks = update shared.old.tasks e.now.task.0
          (λ task. record task { state = state_numbered e.now.value });
    } }
{
    shared.set_state(e.task, state_numbered(e.value));
}

/// The task runs, once it has given the processor up.
pub fn sched(shared: &mut Shared, e: &Event)
    requires { e.now.task.0 < length shared.old.tasks }
    ensures { shared.new ≡ record shared.old {
      tasks = update shared.old.tasks e.now.task.0 (λ task. record task { state = Running });
    } }
{
    shared.set_state(e.task, TaskState::Running);
}

/// The other task gets a signal, `signal_wake_up`, or a wakeup, `try_to_wake_up`, by the number that tells
/// them apart.
pub fn wake(shared: &mut Shared, e: &Event)
    requires { IfSome e.now.other (λ t. t.0 < length shared.old.tasks) }
    ensures { shared.new ≡ record shared.old {
      tasks = at_task shared.old.tasks e.now.other (woken_by e.now.value);
    } }
{
    let Some(u) = e.other else { return };
    match e.value {
        0 => shared.wake(u),
        _ => shared.signal(u),
    }
}

/// The other task has another priority of its own, `__setscheduler_prio`, and where it is queued with a key
/// that is old now, a short walk begins there.
pub fn setprio(shared: &mut Shared, thread: &mut Thread, e: &Event)
    requires other { IfSome e.now.other (λ t. t.0 < length shared.old.tasks) }
    requires set { IsPriority e.now }
    ensures shared { shared.new ≡ record shared.old {
      tasks = at_task shared.old.tasks e.now.other (with_own e.now.value);
    } }
    ensures thread { thread.new ≡ record thread.old {
      phase = phase_of_walk (goes_on e.now.task (Short Done) e.now.other (task_at shared.new e.now.other));
    } }
{
    let (Some(u), Some(prio)) = (e.other, Prio::new(e.value as u64)) else {
        return;
    };
    shared.set_own(u, prio);
    thread.go_to(first_phase(shared, e.other, Reply::Done));
}
