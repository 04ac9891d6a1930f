// Whether an entry is well formed: what its kind's line prints is there, and nothing else.
ghost use Rattle.std.specs.Prelude.{◌≡◌, ◌↔◌, ◌≤◌, None, IsTrue, IsSomeAnd, IfSome, All};
ghost use Rattle.rt_events.specs.WellFormed.{IsTaskIn, IsLockIn, IsLinkIn, HasLock, HasOther, HasWoken, HasValue, HasPath, IsWellFormed};

use crate::entry::Entry;
use crate::first_link::first_lock;
use rt_base::limits::MAX_PRIO;
use rt_base::{LockId, Path, Prio, TaskId};
use rt_model::EventKind;
use rt_script::Script;

/// Whether an entry is well formed for a script, as the writer of its line wants it.
pub fn is_well_formed(script: &Script, n: &Entry) -> bool
    ensures { IsTrue result ↔ IsWellFormed script.now n.now }
{
    let _number = n.number;
    if !is_task_in(script, n.task) || !has_boost(script, n.boost) {
        return false;
    }
    if !has_lock(script, n) || !has_other(script, n) || !has_woken(script, n) {
        return false;
    }
    has_value(n.kind, n.value) && has_path(script, n.kind, &n.path)
}

fn is_task_in(script: &Script, t: TaskId) -> bool
    ensures { IsTrue result ↔ IsTaskIn script.now t }
{
    t.0 < script.tasks()
}

fn is_lock_in(script: &Script, l: LockId) -> bool
    ensures { IsTrue result ↔ IsLockIn script.now l }
{
    l.0 < script.locks()
}

// A task that has to be there.
fn is_task(script: &Script, task: Option<TaskId>) -> bool
    ensures { IsTrue result ↔ IsSomeAnd task (IsTaskIn script.now) }
{
    match task {
        Some(t) => is_task_in(script, t),
        None => false,
    }
}

// A task that may be there.
fn may_be_task(script: &Script, task: Option<TaskId>) -> bool
    ensures { IsTrue result ↔ IfSome task (IsTaskIn script.now) }
{
    match task {
        Some(t) => is_task_in(script, t),
        None => true,
    }
}

// A lock that has to be there.
fn is_lock(script: &Script, lock: Option<LockId>) -> bool
    ensures { IsTrue result ↔ IsSomeAnd lock (IsLockIn script.now) }
{
    match lock {
        Some(l) => is_lock_in(script, l),
        None => false,
    }
}

// A lock that may be there.
fn may_be_lock(script: &Script, lock: Option<LockId>) -> bool
    ensures { IsTrue result ↔ IfSome lock (IsLockIn script.now) }
{
    match lock {
        Some(l) => is_lock_in(script, l),
        None => true,
    }
}

fn has_lock(script: &Script, n: &Entry) -> bool
    ensures { IsTrue result ↔ HasLock n.now.kind script.now n.now }
{
    match n.kind {
        EventKind::WalkEnd
        | EventKind::State
        | EventKind::Sched
        | EventKind::Wake
        | EventKind::SetPrio => n.lock.is_none(),
        EventKind::Cycle => n.lock == first_lock(&n.path),
        EventKind::Own => may_be_lock(script, n.lock),
        _ => is_lock(script, n.lock),
    }
}

fn has_other(script: &Script, n: &Entry) -> bool
    ensures { IsTrue result ↔ HasOther n.now.kind script.now n.now }
{
    match n.kind {
        EventKind::Walk
        | EventKind::WalkEnd
        | EventKind::Restart
        | EventKind::Wake
        | EventKind::SetPrio => is_task(script, n.other),
        _ => n.other.is_none(),
    }
}

fn has_woken(script: &Script, n: &Entry) -> bool
    ensures { IsTrue result ↔ HasWoken n.now.kind script.now n.now }
{
    match n.kind {
        EventKind::Walk | EventKind::Give | EventKind::WWake => may_be_task(script, n.woken),
        _ => n.woken.is_none(),
    }
}

fn has_value(kind: EventKind, value: u8) -> bool
    ensures { IsTrue result ↔ HasValue kind value }
{
    match kind {
        EventKind::Busy | EventKind::WOpen | EventKind::Wake => value <= 1,
        EventKind::State => value <= 2,
        EventKind::SetPrio => value <= MAX_PRIO,
        _ => value == 0,
    }
}

fn has_path(script: &Script, kind: EventKind, path: &Path) -> bool
    ensures { IsTrue result ↔ HasPath kind script.now path.now }
{
    match kind {
        EventKind::Cycle => path.len() > 0 && has_links(script, path),
        _ => path.len() == 0,
    }
}

// Whether each link is one of the script's tasks and locks.
fn has_links(script: &Script, path: &Path) -> bool
    ensures { IsTrue result ↔ All (IsLinkIn script.now) path.now }
{
    for i in 0..path.len() {
        let (t, l) = path.at(i);
        if !is_task_in(script, t) || !is_lock_in(script, l) {
            return false;
        }
    }
    true
}

fn has_boost(script: &Script, boost: Option<(TaskId, Prio)>) -> bool
    ensures { IsTrue result ↔ IfSome boost (λ to. IsTaskIn script.now to.0 × (to.1 ≤ MAX_PRIO)) }
{
    match boost {
        Some((t, prio)) => is_task_in(script, t) && prio.get() <= MAX_PRIO,
        None => true,
    }
}
