// What a thread's calls count in its migration count.
ghost use Rattle.std.specs.Prelude.{◌≡◌, ◌≤◌, ◌<◌, ◌+◌, ◌^◌};
ghost use Rattle.rt_model.specs.steps.Thread.{rwlock_pins, pins_added, pins_taken, migration_after};

use rt_base::{Call, Kind, Reply};

/// A thread's migration count, the kernel's `migration_disabled`, after an event of its call. `kind` is the kind of the
/// lock that the call is about, `first` says whether the event is the call's first one, and `reply` is what it
/// answers. Who has a spinlock or an `rwlock_t`, or waits for a local lock or has one, stays on its processor:
/// `migrate_disable` and `migrate_enable` in `rt_spin_lock`, `rt_read_lock`, `rt_write_lock`, `local_lock` and
/// their unlocks.
pub fn migration_after(
    call: Call,
    kind: Option<Kind>,
    first: bool,
    reply: Option<Reply>,
    before: u32,
) -> u32
    requires counted { pins_taken call kind first reply ≤ before }
    requires room { before + pins_added call kind first reply < 2 ^ 32 }
    ensures { result ≡ migration_after call kind first reply before }
{
    before + pins_added(&call, kind, first, reply) - pins_taken(&call, kind, first, reply)
}

// What an event adds: a lock that was got, and the first event of a call for a local lock.
fn pins_added(call: &Call, kind: Option<Kind>, first: bool, reply: Option<Reply>) -> u32
    ensures { result ≡ pins_added call.now kind first reply }
{
    match (call, reply) {
        (Call::Spin(_) | Call::TrySpin(_), Some(Reply::Got)) => 1,
        (Call::Read(_) | Call::TryRead(_) | Call::Write(_) | Call::TryWrite(_), Some(Reply::Got)) =>
            rwlock_pins(kind),
        (Call::Local(_), Some(Reply::Got)) if first => 2,
        (Call::Local(_), Some(Reply::Got)) => 1,
        (Call::Local(_), None) if first => 1,
        _ => 0,
    }
}

// What an event takes: a lock that was given back, and a call for a local lock that gives up.
fn pins_taken(call: &Call, kind: Option<Kind>, first: bool, reply: Option<Reply>) -> u32
    ensures { result ≡ pins_taken call.now kind first reply }
{
    match (call, reply) {
        (Call::Unspin(_), Some(Reply::Done)) => 1,
        (Call::Unread(_) | Call::Unwrite(_), Some(Reply::Done)) => rwlock_pins(kind),
        (Call::Local(_), Some(Reply::Deadlock)) if !first => 1,
        (Call::Unlocal(_), Some(Reply::Done)) => 2,
        _ => 0,
    }
}

// What a hold of a reader/writer lock counts.
fn rwlock_pins(kind: Option<Kind>) -> u32
    ensures { result ≡ rwlock_pins kind }
{
    match kind {
        Some(Kind::RwLock) => 1,
        _ => 0,
    }
}
