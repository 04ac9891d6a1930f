// A full walk that came back to its own task looks at its whole path at once: restart, cycle.
ghost use Rattle.std.specs.Prelude.{◌≡◌, ◌<◌, [], length, Some};
ghost use Rattle.rt_base.specs.declared.reply.Reply.TheVariants.{Deadlock};
ghost use Rattle.rt_model.specs.declared.event_kind.EventKind.TheVariants.{Cycle};
ghost use Rattle.rt_model.specs.State.{lock_at, task_at};
ghost use Rattle.rt_model.specs.Path.{first_lock, first_owner, first_broken, stands};
ghost use Rattle.rt_model.specs.events.Wait.{left_event};
ghost use Rattle.rt_model.specs.events.Walk.{restart_event, confirmed_event};
ghost use Rattle.rt_walk.specs.Link.{link_at};
ghost use Rattle.rt_choice.specs.Walking.{CanConfirm};

use crate::chosen::{Chosen, along_path};
use crate::event::bare;
use crate::wait::left_event;
use rt_base::{LockId, Path, Reply, TaskId};
use rt_model::{Event, EventKind};
use rt_parts::Shared;
use std::marker::Model;

// A link of a path: a task, the lock for which it waits, and the task to which that leads.
#[derive(Clone, Copy)]
struct Link {
    from: TaskId,
    lock: LockId,
    to: TaskId,
}

impl Model for Link {
    ghost use Rattle.rt_model.specs.Path.{Link as Told};

    ghost Value = { Told };

    ghost view = { λ link. record { from = link.from; lock = link.lock; to = link.to } };

    ghost inverse = { λ link. record { from = link.from; lock = link.lock; to = link.to } };
}

/// The event of a full walk that came back to its own task: where a link of its path is broken by now it
/// begins anew, and where each stands there is a deadlock.
pub fn confirmed_event(shared: &Shared, t: TaskId, path: &Path) -> Option<Event>
    requires { CanConfirm shared.now path.now }
    ensures { result ≡ Some (confirmed_event shared.now t path.now (first_broken shared.now path.now)) }
{
    match first_broken(shared, path) {
        Some(link) => along_path(restart_event(t, &link), path),
        None => along_path(cycle_event(shared, t, path), path),
    }
}

// Begins the walk anew, as this link doesn't stand.
fn restart_event(t: TaskId, link: &Link) -> Chosen
    ensures { result ≡ restart_event t [] link.now }
{
    Chosen {
        lock: Some(link.lock),
        other: Some(link.from),
        ..bare(t, EventKind::Restart)
    }
}

// Leaves the queue of the path's first lock, for the deadlock that `rt_mutex_adjust_prio_chain` found:
// `remove_waiter`, with the answer `-EDEADLK`, and then `rt_mutex_handle_deadlock`.
fn cycle_event(shared: &Shared, t: TaskId, path: &Path) -> Chosen
    requires { CanConfirm shared.now path.now }
    ensures { result ≡ left_event t Cycle (first_lock path.now) (first_owner path.now) Deadlock
        (lock_at shared.now (first_lock path.now)) (task_at shared.now (first_owner path.now)) }
{
    let first = link_at(path, 0);
    left_event(
        shared,
        t,
        EventKind::Cycle,
        first.lock,
        Some(first.to),
        Reply::Deadlock,
    )
}

// The first link of a path that doesn't stand.
fn first_broken(shared: &Shared, path: &Path) -> Option<Link>
    requires { CanConfirm shared.now path.now }
    ensures { result ≡ first_broken shared.now path.now }
{
    for i in 0..path.len() {
        let link = link_at(path, i);
        if !stands(shared, path, i, &link) {
            return Some(link);
        }
    }
    None
}

// Whether link i of a path stands.
fn stands(shared: &Shared, path: &Path, i: usize, link: &Link) -> bool
    requires place { i < length path.now }
    requires link { link.now ≡ link_at path.now i }
    requires from { link.now.from.0 < length shared.now.tasks }
    requires to { link.now.to.0 < length shared.now.tasks }
    ensures { result ≡ stands shared.now link.now }
{
    let blocked = shared.task(link.from).blocked();
    rt_walk::link(path, i, blocked, shared.task(link.to).keeps(link.lock))
}

// Link i of a path.
fn link_at(path: &Path, i: usize) -> Link
    requires { i < length path.now }
    ensures { result ≡ link_at path.now i }
{
    let (from, lock) = path.at(i);
    let len = path.len();
    if i + 1 < len {
        let (to, _) = path.at(i + 1);
        Link { from, lock, to }
    } else {
        let (to, _) = path.at(0);
        Link { from, lock, to }
    }
}
