// Own: what a thread answers a call at once, by what it knows itself.
ghost use Rattle.std.specs.Prelude.{◌≡◌, ◌≤◌, ◌<◌, length, Some, IfSome, option_map};
ghost use Rattle.rt_model.specs.Parts.{kind_of};
ghost use Rattle.rt_model.specs.CallKinds.{IsServed};
ghost use Rattle.rt_model.specs.Choice.{called_lock};
ghost use Rattle.rt_model.specs.events.Own.{refusal_on, own_answer, own_event};

use crate::chosen::Chosen;
use crate::event::bare;
use rt_base::limits::MAX_TASKS;
use rt_base::{Call, Kind, LockId, Reply, TaskId};
use rt_local::refuses;
use rt_model::EventKind;
use rt_parts::Thread;

/// The answer that a thread gives a call at once, where it does: a refusal, or that a `move` is done.
pub fn own_answer(thread: &Thread, call: &Call) -> Option<Reply>
    requires { IsServed MAX_TASKS (length thread.now.kinds) call.now }
    ensures { result ≡ own_answer thread.now call.now }
{
    match (call, refusal(thread, call)) {
        (Call::Move(_), None) => Some(Reply::Done),
        (_, refusal) => refusal,
    }
}

// What a thread refuses a call with, where it does.
fn refusal(thread: &Thread, call: &Call) -> Option<Reply>
    requires { IsServed MAX_TASKS (length thread.now.kinds) call.now }
    ensures { result ≡ refusal_on thread.now call.now (called_lock call.now) }
{
    let lock = thread.called_lock(call);
    let held = thread.is_held(call, lock);
    refuses(
        *call,
        called_kind(thread, lock),
        thread.spinning_holds(),
        held,
        thread.migration(),
    )
}

/// That answer's event.
pub fn own_event(t: TaskId, lock: Option<LockId>, answer: Reply) -> Chosen
    ensures { result ≡ own_event t lock answer }
{
    Chosen {
        lock,
        reply: Some(answer),
        ..bare(t, EventKind::Own)
    }
}

// The kind of the lock that a call is about.
fn called_kind(thread: &Thread, lock: Option<LockId>) -> Option<Kind>
    requires { IfSome lock (λ l. l.0 < length thread.now.kinds) }
    ensures { result ≡ option_map (kind_of thread.now) lock }
{
    match lock {
        Some(l) => Some(thread.kind_of(l)),
        None => None,
    }
}
