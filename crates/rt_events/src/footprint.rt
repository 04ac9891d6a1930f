// What an event touches, and whether two events touch an object together.
ghost use Rattle.std.specs.Prelude.{◌≡◌, ◌↔◌, true, false, None, List, [], ◌++◌, map, IsTrue};
ghost use Rattle.std.specs.List.{list_any};
ghost use Rattle.rt_model.specs.Footprint.{same_object, owner_parts, reader_parts, tasks_of, along, objects_of, footprint, touches};
ghost use Rattle.rt_model.specs.Rules.{touched};
ghost use Rattle.rt_model.specs.Path.{first_owner};
ghost use Rattle.rt_model.specs.events.Acquire.{busy_touched};
ghost use Rattle.rt_model.specs.declared.obj.Obj.{Obj};
ghost use Rattle.rt_events.specs.Touched.{path_tasks, walked_tasks, TellsAny};

use crate::first_link::first_owner;
use crate::writer::slept;
use rt_base::{LockId, Path, TaskId};
use rt_model::{Event, EventKind, Obj};

/// Whether an object is in an event's footprint: whether the event may read or write it.
pub fn touches(e: &Event, o: Obj) -> bool
    ensures { result ≡ touches e.now o }
{
    any_object(e, &|other| same_object(o, other))
}

/// Whether two events touch no object together.
pub fn disjoint(a: &Event, b: &Event) -> bool
    ensures { IsTrue result ↔ ((o : Obj) → touches a.now o ≡ true → touches b.now o ≡ false) }
{
    !meets(a, b)
}

// Whether an event touches an object of another's footprint.
fn meets(a: &Event, b: &Event) -> bool
    ensures { result ≡ list_any (touches b.now) (footprint a.now) }
{
    any_object(a, &|o| touches(b, o))
}

// Whether both are one object.
fn same_object(o: Obj, other: Obj) -> bool
    ensures { result ≡ same_object o other }
{
    match (o, other) {
        (Obj::OwnerPart(l), Obj::OwnerPart(m)) => l.0 == m.0,
        (Obj::ReaderPart(l), Obj::ReaderPart(m)) => l.0 == m.0,
        (Obj::Task(t), Obj::Task(u)) => t.0 == u.0,
        (Obj::Thread(t), Obj::Thread(u)) => t.0 == u.0,
        _ => false,
    }
}

// Whether some object of an event's footprint passes a test.
fn any_object<F: Fn(Obj) -> bool>(e: &Event, test: &F) -> bool
    requires { F.IsAlwaysCallable test.now }
    ensures { TellsAny (F.post test.now) (footprint e.now) result }
{
    test(Obj::Thread(e.task)) || any_besides(e, test)
}

// Whether some object passes a test, of those that an event touches besides its thread.
fn any_besides<F: Fn(Obj) -> bool>(e: &Event, test: &F) -> bool
    requires { F.IsAlwaysCallable test.now }
    ensures { TellsAny (F.post test.now) (objects_of (touched e.now.kind e.now)) result }
{
    let own = Some(e.task);
    match e.kind {
        EventKind::Fast | EventKind::Free | EventKind::Mark => any_owner_part(e.lock, test),
        EventKind::Take | EventKind::Again => any_owner_part(e.lock, test) || any_task(own, test),
        EventKind::Wait | EventKind::Leave => {
            any_owner_part(e.lock, test) || any_task(own, test) || any_task(e.owner, test)
        }
        EventKind::Give => {
            any_owner_part(e.lock, test) || any_task(own, test) || any_task(e.woken, test)
        }
        EventKind::Walk => any_owner_part(e.lock, test) || any_walked(e, test),
        EventKind::WWake => any_owner_part(e.lock, test) || any_task(e.woken, test),
        EventKind::Busy => any_looked_at(e, test),
        EventKind::RIn | EventKind::ROut | EventKind::Unbias | EventKind::WOpen => {
            any_reader_part(e.lock, test)
        }
        EventKind::WTake => any_reader_part(e.lock, test) || any_task(slept(e), test),
        EventKind::WSleep => any_reader_part(e.lock, test) || any_task(own, test),
        EventKind::Restart => any_along(&e.path, test),
        EventKind::Cycle => {
            any_owner_part(e.lock, test) || any_task(own, test) || any_of_cycle(&e.path, test)
        }
        EventKind::State | EventKind::Sched => any_task(own, test),
        EventKind::WalkEnd | EventKind::Wake | EventKind::SetPrio => any_task(e.other, test),
        EventKind::Own => false,
    }
}

// Whether a task of a walk passes a test: its cursor, the lock's owner, or the one that is woken.
fn any_walked<F: Fn(Obj) -> bool>(e: &Event, test: &F) -> bool
    requires { F.IsAlwaysCallable test.now }
    ensures { TellsAny (F.post test.now) (walked_tasks e.now) result }
{
    any_task(e.owner, test) || any_task(e.other, test) || any_task(e.woken, test)
}

// Whether a task of a cycle's path passes a test, the owner of its first lock before the others, or that
// lock.
fn any_of_cycle<F: Fn(Obj) -> bool>(path: &Path, test: &F) -> bool
    requires { F.IsAlwaysCallable test.now }
    ensures { TellsAny (F.post test.now) (tasks_of (first_owner path.now) ++ along path.now) result }
{
    any_task(first_owner(path), test) || any_along(path, test)
}

// Whether what a busy call looks at passes a test: the reader part where it reads; else the owner part,
// and where that has no owner its own task.
fn any_looked_at<F: Fn(Obj) -> bool>(e: &Event, test: &F) -> bool
    requires { F.IsAlwaysCallable test.now }
    ensures { TellsAny (F.post test.now) (objects_of (busy_touched e.now.value e.now)) result }
{
    if e.value > 0 {
        any_reader_part(e.lock, test)
    } else if e.owner.is_some() {
        any_owner_part(e.lock, test)
    } else {
        any_owner_part(e.lock, test) || any_task(Some(e.task), test)
    }
}

// Whether a lock's owner part passes a test.
fn any_owner_part<F: Fn(Obj) -> bool>(lock: Option<LockId>, test: &F) -> bool
    requires { F.IsAlwaysCallable test.now }
    ensures { TellsAny (F.post test.now) (owner_parts lock) result }
{
    match lock {
        Some(l) => test(Obj::OwnerPart(l)),
        None => false,
    }
}

// Whether a lock's reader part passes a test.
fn any_reader_part<F: Fn(Obj) -> bool>(lock: Option<LockId>, test: &F) -> bool
    requires { F.IsAlwaysCallable test.now }
    ensures { TellsAny (F.post test.now) (reader_parts lock) result }
{
    match lock {
        Some(l) => test(Obj::ReaderPart(l)),
        None => false,
    }
}

// Whether a task passes a test.
fn any_task<F: Fn(Obj) -> bool>(task: Option<TaskId>, test: &F) -> bool
    requires { F.IsAlwaysCallable test.now }
    ensures { TellsAny (F.post test.now) (tasks_of task) result }
{
    match task {
        Some(t) => test(Obj::Task(t)),
        None => false,
    }
}

// Whether the first lock or a task of a path passes a test.
fn any_along<F: Fn(Obj) -> bool>(path: &Path, test: &F) -> bool
    requires { F.IsAlwaysCallable test.now }
    ensures { TellsAny (F.post test.now) (along path.now) result }
{
    if path.len() == 0 {
        return false;
    }
    let (_, lock) = path.at(0);
    test(Obj::OwnerPart(lock)) || any_on_path(path, test)
}

// Whether a task of a path passes a test.
fn any_on_path<F: Fn(Obj) -> bool>(path: &Path, test: &F) -> bool
    requires { F.IsAlwaysCallable test.now }
    ensures { TellsAny (F.post test.now) (path_tasks path.now) result }
{
    for i in 0..path.len() {
        let (t, _) = path.at(i);
        if test(Obj::Task(t)) {
            return true;
        }
    }
    false
}
