ghost use Rattle.std.specs.Prelude.{◌≡◌, ◌≤◌, ◌<◌, false, ◌&&◌, length, nat_eq, Some, IfSome};
ghost use Rattle.rt_model.specs.Order.{in_walk};
ghost use Rattle.rt_model.specs.declared.phase.Phase.TheVariants.{Start};
ghost use Rattle.rt_model.specs.Choice.{called_lock};
ghost use Rattle.rt_model.specs.Parts.{TaskPart, call_of};
ghost use Rattle.rt_model.specs.CanMove.{has_first, can_go_on, can_in, can_move};
ghost use Rattle.rt_model.specs.CanMove.{IsOther, target_of, IsUninvolved};
ghost use Rattle.rt_model.specs.CallKinds.{IsServed};
ghost use Rattle.rt_core.specs.Core.{with_threads};
ghost use Rattle.rt_core.specs.Enabled.{IsKeptAt, AreKept};

use crate::task_set::TaskSet;
use rt_base::limits::MAX_TASKS;
use rt_base::{Call, TaskId, TaskState};
use rt_choice::{is_awake, own_answer};
use rt_model::{Event, EventKind, Phase};
use rt_parts::{Shared, Thread};
use rt_tasks::TaskCell;

/// Which tasks have a next event, and which of those are in an unfinished chain walk, kept from event to
/// event, so that nobody goes through all tasks to find one.
#[derive(Drop)]
pub struct Enabled {
    pub all: TaskSet,
    pub walking: TaskSet,
}

impl Enabled {
    /// The sets of these tasks.
    pub fn of(shared: &Shared, threads: &[Thread]) -> Enabled
        requires tasks { length shared.now.tasks ≡ length threads.now }
        requires few { length threads.now ≤ MAX_TASKS }
        ensures { AreKept (with_threads shared.now threads.now) result }
    {
        let mut enabled = Enabled {
            all: TaskSet::empty(),
            walking: TaskSet::empty(),
        };
        for t in 0..threads.len() as u32 {
            enabled.look_at(shared, threads, TaskId(t));
        }
        enabled
    }

    /// Looks anew at the tasks that an event involves, once it is made.
    pub fn look_after(&mut self, shared: &Shared, threads: &[Thread], e: &Event)
        requires tasks { length shared.now.tasks ≡ length threads.now }
        requires task { e.now.task.0 < length threads.now }
        requires woken { IfSome e.now.woken (λ t. t.0 < length threads.now) }
        requires target { IfSome (target_of e.now) (λ t. t.0 < length threads.now) }
        ensures { (u : TaskId) → u.0 < MAX_TASKS
            → (IsUninvolved u e.now → IsKeptAt (with_threads shared.now threads.now) self.old u.0)
            → IsKeptAt (with_threads shared.now threads.now) self.new u.0 }
    {
        self.look_at(shared, threads, e.task);
        self.look_at_named(shared, threads, e.woken);
        self.look_at_named(shared, threads, wakeup_target(e));
    }

    // Looks anew at a task, where one is named.
    fn look_at_named(&mut self, shared: &Shared, threads: &[Thread], t: Option<TaskId>)
        requires tasks { length shared.now.tasks ≡ length threads.now }
        requires task { IfSome t (λ t. t.0 < length threads.now) }
        ensures { (u : TaskId) → u.0 < MAX_TASKS
            → (IsOther u t → IsKeptAt (with_threads shared.now threads.now) self.old u.0)
            → IsKeptAt (with_threads shared.now threads.now) self.new u.0 }
    {
        if let Some(t) = t {
            self.look_at(shared, threads, t);
        }
    }

    // Looks anew at a task.
    fn look_at(&mut self, shared: &Shared, threads: &[Thread], t: TaskId)
        requires tasks { length shared.now.tasks ≡ length threads.now }
        requires task { t.0 < length threads.now }
        ensures { (u : TaskId) → u.0 < MAX_TASKS
            → (nat_eq t.0 u.0 ≡ false → IsKeptAt (with_threads shared.now threads.now) self.old u.0)
            → IsKeptAt (with_threads shared.now threads.now) self.new u.0 }
    {
        let thread = &threads[t.0 as usize];
        let enabled = can_move(thread, shared.task(t));
        self.all.put(t, enabled);
        self.walking.put(t, is_walking(thread, enabled));
    }
}

// Whom a wakeup or a signal goes to.
fn wakeup_target(e: &Event) -> Option<TaskId>
    ensures { result ≡ target_of e.now }
{
    match e.kind {
        EventKind::Wake => e.other,
        _ => None,
    }
}

// Whether a thread's chain walk is unfinished and it has a next event, where it is known whether it has one.
fn is_walking(thread: &Thread, enabled: bool) -> bool
    ensures { result ≡ (in_walk thread.now.phase && enabled) }
{
    thread.is_in_walk() && enabled
}

// Whether the task of this thread has a next event.
fn can_move(thread: &Thread, task: &TaskCell) -> bool
    ensures { result ≡ can_move thread.now task.now }
{
    let Some(call) = thread.call() else {
        return false;
    };
    match thread.phase() {
        Phase::Start => can_start(thread, task, &call),
        phase => can_go_on(phase, thread, task, &call),
    }
}

// Whether a call has a first event.
fn can_start(thread: &Thread, task: &TaskCell, call: &Call) -> bool
    requires { IsServed MAX_TASKS (length thread.now.kinds) call.now }
    ensures { result ≡ can_in Start thread.now task.now call.now }
{
    has_first(call, task) || own_answer(thread, call).is_some()
}

// Whether a call that isn't answered by its thread alone has a first event: a `schedule` has none while its
// task sleeps.
fn has_first(call: &Call, task: &TaskCell) -> bool
    ensures { result ≡ has_first call.now task.now }
{
    match call {
        Call::Move(_) => false,
        Call::Schedule => task.passes(),
        _ => true,
    }
}

// Whether a call goes on that has made its first event: one that is queued where its task is awake, a
// writer that sleeps for readers where its task runs.
fn can_go_on(phase: &Phase, thread: &Thread, task: &TaskCell, call: &Call) -> bool
    requires call { call_of thread.now ≡ Some call.now }
    requires known { IsServed MAX_TASKS (length thread.now.kinds) call.now }
    ensures { result ≡ can_go_on phase.now thread.now task.now (called_lock call.now) }
{
    match (phase, thread.called_lock(call)) {
        (Phase::Walk(..) | Phase::Confirm(_), _) => true,
        (Phase::Start, _) | (_, None) => false,
        (Phase::Wait, Some(_)) => is_awake(call, task),
        (Phase::WWait, Some(_)) => task.state() == TaskState::Running,
        (_, Some(_)) => true,
    }
}
