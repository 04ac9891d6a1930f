// Whether a task waits for a lock of a spinning kind.
ghost use Rattle.std.specs.Prelude.{◌≡◌, ◌<◌, ◌||◌, ℕ, length, Option, option_map, IfSome};
ghost use Rattle.rt_base.specs.declared.id.LockId.{LockId as LockNumber};
ghost use Rattle.rt_model.specs.Parts.{kind_named};
ghost use Rattle.rt_model.specs.Choice.{present_lock};
ghost use Rattle.rt_model.specs.laws.States.{spins_at, sleeps_spinning, waits_spinning};

use rt_base::{Kind, LockId};
use rt_model::Phase;
use rt_parts::Thread;
use rt_tasks::TaskCell;

/// Whether the task of this thread waits for a lock of a spinning kind: queued, or asleep for its readers.
pub fn waits_spinning(thread: &Thread, task: &TaskCell) -> bool
    requires { IfSome task.now.blocked (λ at. at.0.0 < length thread.now.kinds) }
    ensures { result ≡ waits_spinning thread.now task.now }
{
    spins_at(thread, task.blocked()) || sleeps_spinning(thread)
}

// Whether the lock on which a task is blocked, where it is, is of a spinning kind, as this thread knows it.
fn spins_at(thread: &Thread, lock: Option<LockId>) -> bool
    requires { IfSome lock (λ l. l.0 < length thread.now.kinds) }
    ensures { (blocked : Option (LockNumber × ℕ)) → lock ≡ option_map (λ at. at.0) blocked
        → result ≡ spins_at thread.now blocked }
{
    match lock {
        Some(l) => thread.kind_of(l).spins(),
        None => false,
    }
}

// Whether a thread's writer sleeps for the readers of a lock of a spinning kind.
fn sleeps_spinning(thread: &Thread) -> bool
    ensures { result ≡ sleeps_spinning thread.now.phase (kind_named thread.now (present_lock thread.now)) }
{
    matches!(thread.phase(), Phase::WWait) && present_kind(thread).spins()
}

// The kind of the lock that a thread's call is about, where it is about one.
fn present_kind(thread: &Thread) -> Kind
    ensures { result ≡ kind_named thread.now (present_lock thread.now) }
{
    let Some(call) = thread.call() else {
        return Kind::Mutex;
    };
    match thread.called_lock(&call) {
        Some(l) => thread.kind_of(l),
        None => Kind::Mutex,
    }
}
