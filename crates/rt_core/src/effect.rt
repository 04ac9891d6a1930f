// What an event leaves of the shared parts and of its own thread.
ghost use Rattle.std.specs.Prelude.{◌≡◌, ◌≢◌, ◌<◌, length, Some};
ghost use Rattle.rt_model.specs.declared.event_kind.EventKind.TheVariants.{WalkEnd, Restart, Own};
ghost use Rattle.rt_model.specs.declared.event_kind.EventKind.TheVariants.{State, Sched, Wake};
ghost use Rattle.rt_model.specs.declared.event_kind.EventKind.TheVariants.{SetPrio};
ghost use Rattle.rt_model.specs.StateAfter.{shared_after, thread_after};
ghost use Rattle.rt_core.specs.Fits.{Fits, thread_moved};

mod acquire;
mod readers;
mod release;
mod wait;
mod wakeups;
mod walk;

use rt_base::LockId;
use rt_model::{Event, EventKind};
use rt_parts::{Shared, Thread};

/// Makes an event of this thread.
pub fn make(shared: &mut Shared, thread: &mut Thread, e: &Event)
    requires { Fits e.now shared.old thread.old }
    ensures shared { shared.new ≡ shared_after shared.old thread.old e.now }
    ensures thread { thread.new ≡ thread_after shared.old thread.old e.now }
{
    make_unanswered(shared, thread, e);
    if let Some(reply) = e.reply {
        thread.answer(reply);
    }
}

// Makes an event, but for its answer.
fn make_unanswered(shared: &mut Shared, thread: &mut Thread, e: &Event)
    requires { Fits e.now shared.old thread.old }
    ensures shared { shared.new ≡ shared_after shared.old thread.old e.now }
    ensures thread { thread.new ≡ thread_moved shared.old thread.old e.now }
{
    match e.kind {
        EventKind::WalkEnd => thread.end_walk(),
        EventKind::Restart => walk::restart(thread, e),
        EventKind::Own => {}
        EventKind::State => wakeups::state(shared, e),
        EventKind::Sched => wakeups::sched(shared, e),
        EventKind::Wake => wakeups::wake(shared, e),
        EventKind::SetPrio => wakeups::setprio(shared, thread, e),
        _ => {
            // Each other event is on a lock, which the condition says.
            let Some(l) = e.lock else { return };
            make_on_lock(shared, thread, e, l);
        }
    }
}

// Makes an event on a lock, but for its answer.
fn make_on_lock(shared: &mut Shared, thread: &mut Thread, e: &Event, l: LockId)
    requires fits { Fits e.now shared.old thread.old }
    requires not_end { e.now.kind ≢ WalkEnd }
    requires not_restart { e.now.kind ≢ Restart }
    requires not_own { e.now.kind ≢ Own }
    requires not_state { e.now.kind ≢ State }
    requires not_sched { e.now.kind ≢ Sched }
    requires not_wake { e.now.kind ≢ Wake }
    requires not_set { e.now.kind ≢ SetPrio }
    requires named { e.now.lock ≡ Some l }
    requires lock { l.0 < length shared.old.locks }
    ensures shared { shared.new ≡ shared_after shared.old thread.old e.now }
    ensures thread { thread.new ≡ thread_moved shared.old thread.old e.now }
{
    match e.kind {
        EventKind::Fast => acquire::fast(shared, thread, e, l),
        EventKind::Mark => acquire::mark(shared, thread, l),
        EventKind::Take => acquire::take(shared, thread, e, l),
        EventKind::Busy => thread.found_busy(),
        EventKind::Wait => wait::wait(shared, thread, e, l),
        EventKind::Again => wait::again(shared, e, thread.rest_for(l)),
        EventKind::Leave => wait::leave(shared, thread, e, l),
        EventKind::Walk => walk::walk(shared, thread, e, l),
        EventKind::Cycle => walk::cycle(shared, thread, e, l),
        EventKind::Free => release::free(shared, l),
        EventKind::Give => release::give(shared, e, l, thread.kind_of(l)),
        EventKind::RIn => readers::rin(shared, thread, l),
        EventKind::ROut => readers::rout(shared, thread, l),
        EventKind::Unbias => readers::unbias(shared, thread, l),
        EventKind::WTake => readers::wtake(shared, e, l, thread.kind_of(l)),
        EventKind::WSleep => readers::wsleep(shared, thread, e, l),
        EventKind::WOpen => readers::wopen(shared, thread, e, l),
        EventKind::WWake => readers::wwake(shared, e, thread.kind_of(l)),
        // The kinds that are no event on a lock.
        _ => {}
    }
}
