// The one event that a task may make next, of the shared parts and its own thread alone.
ghost use Rattle.std.specs.Prelude.{◌≡◌, ◌<◌, length, Some, IfSome};
ghost use Rattle.rt_model.specs.Parts.{call_of, kind_of};
ghost use Rattle.rt_model.specs.Choice.{called_lock};
ghost use Rattle.rt_model.specs.CallKinds.{IsServed};
ghost use Rattle.rt_model.specs.events.Own.{own_answer};
ghost use Rattle.rt_model.specs.NextEvent.{first_event, answered_or, later_event, next_of};
ghost use Rattle.rt_model.specs.laws.Keys.{IsConfirming};
ghost use Rattle.rt_choice.specs.Walking.{FindsCursor};

use crate::acquire::{acquire_event, try_event};
use crate::chosen::Chosen;
use crate::own::{own_answer, own_event};
use crate::readers::{
    read_event, rin_event, rout_event, tryread_event, unbias_event, waiting_writer_event,
    wopen_event, writer_event, wwake_event,
};
use crate::release::release_event;
use crate::wait::{queued_event, slow_event};
use crate::wakeups::{schedule_event, setprio_event, signal_event, state_event, wake_event};
use crate::walk::cursor_event;
use rt_base::limits::MAX_TASKS;
use rt_base::{Call, TaskId};
use rt_model::Phase;
use rt_parts::{Shared, Thread};

/// The event of a task with this thread, where it has one, in a phase in which no path is to be confirmed: so
/// it has no path.
pub fn next_of(shared: &Shared, t: TaskId, thread: &Thread) -> Option<Chosen>
    requires task { t.0 < length shared.now.tasks }
    requires kinds { length thread.now.kinds ≡ length shared.now.locks }
    requires served { IfSome (call_of thread.now)
        (IsServed (length shared.now.tasks) (length shared.now.locks)) }
    requires cursor { FindsCursor shared.now thread.now.phase }
    requires other { IsConfirming thread.now.phase → ⊥ }
    ensures { result ≡ next_of shared.now t thread.now }
{
    let call = thread.call()?;
    match thread.phase() {
        Phase::Start => start_event(shared, t, thread, &call),
        phase => later_event(phase, shared, t, thread, &call),
    }
}

// The event of a call in phase Start: the answer that its thread gives at once, or its first event.
fn start_event(shared: &Shared, t: TaskId, thread: &Thread, call: &Call) -> Option<Chosen>
    requires task { t.0 < length shared.now.tasks }
    requires kinds { length thread.now.kinds ≡ length shared.now.locks }
    requires call { call_of thread.now ≡ Some call.now }
    requires known { IsServed MAX_TASKS (length thread.now.kinds) call.now }
    requires served { IsServed (length shared.now.tasks) (length shared.now.locks) call.now }
    ensures { result ≡ answered_or (first_event shared.now t thread.now call.now) t
        (called_lock call.now) (own_answer thread.now call.now) }
{
    match own_answer(thread, call) {
        Some(answer) => Some(own_event(t, thread.called_lock(call), answer)),
        None => first_event(shared, t, thread, call),
    }
}

// The first event of a call that isn't answered by its thread alone, as every `move` is.
fn first_event(shared: &Shared, t: TaskId, thread: &Thread, call: &Call) -> Option<Chosen>
    requires task { t.0 < length shared.now.tasks }
    requires kinds { length thread.now.kinds ≡ length shared.now.locks }
    requires call { call_of thread.now ≡ Some call.now }
    requires served { IsServed (length shared.now.tasks) (length shared.now.locks) call.now }
    ensures { result ≡ first_event shared.now t thread.now call.now }
{
    match call {
        Call::Lock(l) | Call::LockInt(l) | Call::Spin(l) | Call::Write(l) | Call::Local(l) => {
            Some(acquire_event(call, t, *l, shared.lock(*l)))
        }
        Call::TryLock(l) | Call::TrySpin(l) | Call::TryWrite(l) => {
            let kind = thread.kind_of(*l);
            Some(try_event(call, t, *l, kind, shared.lock(*l), shared.task(t)))
        }
        Call::Unlock(l) | Call::Unspin(l) | Call::Unlocal(l) => {
            Some(release_event(call, t, *l, shared.lock(*l), shared.task(t)))
        }
        Call::Read(l) => Some(read_event(t, *l, shared.readers(*l))),
        Call::TryRead(l) => Some(tryread_event(t, *l, shared.readers(*l))),
        Call::Unread(l) => Some(rout_event(t, *l, shared.readers(*l))),
        Call::Unwrite(l) => Some(wopen_event(t, *l, false)),
        Call::Downgrade(l) => Some(wopen_event(t, *l, true)),
        Call::State(state) => Some(state_event(t, *state)),
        Call::Schedule => schedule_event(t, shared.task(t)),
        Call::Wake(u) => Some(wake_event(t, *u, shared.task(*u))),
        Call::Signal(u) => Some(signal_event(t, *u, shared.task(*u))),
        Call::SetPrio(u, prio) => Some(setprio_event(t, *u, *prio, shared.task(*u))),
        Call::Move(_) => None,
    }
}

// The event of a call that isn't in its first phase.
fn later_event(
    phase: &Phase,
    shared: &Shared,
    t: TaskId,
    thread: &Thread,
    call: &Call,
) -> Option<Chosen>
    requires task { t.0 < length shared.now.tasks }
    requires kinds { length thread.now.kinds ≡ length shared.now.locks }
    requires call { call_of thread.now ≡ Some call.now }
    requires known { IsServed MAX_TASKS (length thread.now.kinds) call.now }
    requires cursor { FindsCursor shared.now phase.now }
    requires other { IsConfirming phase.now → ⊥ }
    ensures { result ≡ later_event phase.now shared.now t thread.now (called_lock call.now) }
{
    match (phase, thread.called_lock(call)) {
        (Phase::Inner, Some(l)) => Some(acquire_event(call, t, l, shared.lock(l))),
        (Phase::Slow, Some(l)) => Some(slow_event(shared, t, l, thread.kind_of(l), call)),
        (Phase::Wait, Some(l)) => queued_event(shared, t, l, thread.kind_of(l), call),
        (Phase::Walk(cursor, route), _) => Some(cursor_event(shared, t, route, *cursor)),
        (Phase::ReadIn, Some(l)) => Some(rin_event(t, l, None)),
        (Phase::Unbias, Some(l)) => Some(unbias_event(t, l)),
        (Phase::WTry, Some(l)) => Some(writer_event(call, t, l, shared.readers(l))),
        (Phase::WWait, Some(l)) => { waiting_writer_event(t, l, shared.readers(l), shared.task(t)) }
        (Phase::Release, Some(l)) => {
            Some(release_event(call, t, l, shared.lock(l), shared.task(t)))
        }
        (Phase::WakeWriter, Some(l)) => Some(wwake_event(t, l, shared.lock(l))),
        _ => None,
    }
}
