// Chain walks: walk, walkend.
ghost use Rattle.std.specs.Prelude.{◌≡◌, ◌<◌, ◌≤◌, length, None, Some, IfSome, option_map, if◌then◌else◌};
ghost use Rattle.rt_model.specs.Parts.{effective_of};
ghost use Rattle.rt_model.specs.Rows.{task_of, top_waiter};
ghost use Rattle.rt_model.specs.State.{lock_in, task_in, task_at};
ghost use Rattle.rt_model.specs.Choice.{boost_of};
ghost use Rattle.rt_model.specs.steps.Chain.{is_old, requeued_where_old, answer_of_walk};
ghost use Rattle.rt_model.specs.steps.Task.{with_top};
ghost use Rattle.rt_model.specs.events.Walk.{walkend_event, walk_event, cursor_event};
ghost use Rattle.rt_choice.specs.Walking.{IsOnChain};

use crate::chosen::Chosen;
use crate::event::{bare, boost_of, is_old, on_lock};
use rt_base::limits::MAX_PRIO;
use rt_base::{LockId, Prio, Reply, TaskId};
use rt_locks::{LockCell, key_in, task_of_row};
use rt_model::{EventKind, Route, Row};
use rt_parts::Shared;
use rt_tasks::TaskCell;

/// The event of a walk on this route that stands at this cursor: a link where that is blocked, and else
/// the walk's end.
pub fn cursor_event(shared: &Shared, t: TaskId, route: &Route, u: TaskId) -> Chosen
    requires { IsOnChain shared.now u }
    ensures { result
        ≡ cursor_event shared.now t route.now u (task_in shared.now u) (task_in shared.now u).blocked }
{
    match shared.task(u).blocked_at() {
        Some((l, _)) => walk_event(shared, t, route, u, l),
        None => walkend_event(t, route, u),
    }
}

// The walk ends.
fn walkend_event(t: TaskId, route: &Route, u: TaskId) -> Chosen
    ensures { result ≡ walkend_event t route.now u }
{
    Chosen {
        other: Some(u),
        reply: last_answer(route),
        ..bare(t, EventKind::WalkEnd)
    }
}

// The answer of a walk that ends: a short one has one to come.
fn last_answer(route: &Route) -> Option<Reply>
    ensures { result ≡ answer_of_walk route.now None }
{
    match route {
        Route::Short(answer) => Some(*answer),
        Route::Full(_) => None,
    }
}

// A link through a lock, one turn of the loop of `rt_mutex_adjust_prio_chain`.
fn walk_event(shared: &Shared, t: TaskId, route: &Route, u: TaskId, l: LockId) -> Chosen
    requires task { u.0 < length shared.now.tasks }
    requires lock { l.0 < length shared.now.locks }
    ensures { result ≡ walk_event t route.now u l (lock_in shared.now l) (task_in shared.now u)
        (task_at shared.now (lock_in shared.now l).owner) }
{
    let lock = shared.lock(l);
    let top = top_after(lock, u, shared.task(u));
    let changed = lock.top() != top;
    let link = Chosen {
        other: Some(u),
        ..on_lock(t, EventKind::Walk, l)
    };
    match lock.owner() {
        Some(o) => {
            let owner = shared.task(o);
            to_owner(
                link,
                route,
                o,
                owner,
                effective_after(owner, l, changed, top),
            )
        }
        None => to_nobody(link, route, changed, top),
    }
}

// The top waiter of a lock once the cursor of a walk is queued there with its effective priority.
fn top_after(lock: &LockCell, u: TaskId, cursor: &TaskCell) -> Option<Row>
    ensures top { result ≡ top_waiter (requeued_where_old (Some u) cursor.now lock.now.part).rows }
    ensures priority { IfSome result (λ row. row.key ≤ MAX_PRIO) }
{
    let prio = cursor.effective();
    if is_old(cursor, prio) {
        lock.top_requeued(u, prio)
    } else {
        lock.top()
    }
}

// The priority that a lock's owner runs with after a link, where it is told whether the top waiter is
// another one then.
fn effective_after(owner: &TaskCell, l: LockId, changed: bool, top: Option<Row>) -> Prio
    requires { IfSome top (λ row. row.key ≤ MAX_PRIO) }
    ensures { result ≡ effective_of
        (if changed then with_top (Some l) (option_map (λ row. row.key) top) owner.now else owner.now) }
{
    if changed {
        owner.effective_with(l, key_in(top))
    } else {
        owner.effective()
    }
}

// A link to a lock's owner, which runs with this priority after it: a short walk ends there where the
// owner's key isn't old then.
fn to_owner(link: Chosen, route: &Route, o: TaskId, owner: &TaskCell, after: Prio) -> Chosen
    ensures { result ≡ record link {
      owner = Some o;
      boost = boost_of o (effective_of owner.now) after;
      reply = (if is_old owner.now.blocked after then None else answer_of_walk route.now None);
    } }
{
    let old = is_old(owner, after);
    Chosen {
        owner: Some(o),
        boost: boost_of(o, owner.effective(), after),
        reply: if old { None } else { last_answer(route) },
        ..link
    }
}

// A link to a lock that nobody owns, where the walk ends: a new top waiter is woken, as it may take the
// lock.
fn to_nobody(link: Chosen, route: &Route, changed: bool, top: Option<Row>) -> Chosen
    ensures { result ≡ record link {
      woken = (if changed then option_map task_of top else None);
      reply = answer_of_walk route.now None;
    } }
{
    Chosen {
        woken: if changed { task_of_row(top) } else { None },
        reply: last_answer(route),
        ..link
    }
}
