// Readers and writers: rin, rout, unbias, wtake, wsleep, wopen, wwake.
ghost use Rattle.std.specs.Prelude.{◌≡◌, ◌<◌, false, length, nat_eq, if◌then◌else◌, IfSome};
ghost use Rattle.rt_base.specs.Kind.{spins};
ghost use Rattle.rt_model.specs.declared.event_kind.EventKind.TheVariants as kinds;
ghost use Rattle.rt_model.specs.declared.phase.Phase.TheVariants.{WTry, WWait, Release, WakeWriter};
ghost use Rattle.rt_model.specs.Parts.{call_of, kind_of};
ghost use Rattle.rt_model.specs.State.{readers_in};
ghost use Rattle.rt_model.specs.StateAfter.{update, at_task};
ghost use Rattle.rt_model.specs.steps.Readers.{CanStep, with_reader, without_reader, wakes_writer};
ghost use Rattle.rt_model.specs.steps.Readers.{unbiased, with_writer, without_writer};
ghost use Rattle.rt_model.specs.steps.Task.{rest_of, restored, lock_woken};
ghost use Rattle.rt_model.specs.events.Readers.{phase_after_rin, where_slept, writer_rests};

use rt_base::{Kind, LockId};
use rt_events::slept;
use rt_model::{Event, Phase};
use rt_parts::{Shared, Thread};

/// A reader is in; one that has the inner lock is to release it.
pub fn rin(shared: &mut Shared, thread: &mut Thread, l: LockId)
    requires lock { l.0 < length shared.old.locks }
    requires can { CanStep kinds.RIn 0 (readers_in shared.old l) }
    ensures shared { shared.new ≡ record shared.old { readers = update shared.old.readers l.0 with_reader } }
    ensures thread { thread.new ≡ record thread.old { phase = phase_after_rin thread.old.phase } }
{
    shared.read_in(l);
    thread.read_in();
}

/// A reader is out; the last one, where a writer has removed the bias, is to wake the inner lock's owner.
pub fn rout(shared: &mut Shared, thread: &mut Thread, l: LockId)
    requires lock { l.0 < length shared.old.locks }
    requires can { CanStep kinds.ROut 0 (readers_in shared.old l) }
    ensures shared { shared.new ≡ record shared.old {
      readers = update shared.old.readers l.0 without_reader;
    } }
    ensures thread { thread.new ≡ record thread.old {
      phase = if wakes_writer (readers_in shared.new l) then WakeWriter else thread.old.phase;
    } }
{
    if shared.read_out(l) {
        thread.go_to(Phase::WakeWriter);
    }
}

/// The bias is off, and the writer tries to get in.
pub fn unbias(shared: &mut Shared, thread: &mut Thread, l: LockId)
    requires lock { l.0 < length shared.old.locks }
    requires can { CanStep kinds.Unbias 0 (readers_in shared.old l) }
    ensures shared { shared.new ≡ record shared.old { readers = update shared.old.readers l.0 unbiased } }
    ensures thread { thread.new ≡ record thread.old { phase = WTry } }
{
    shared.unbias(l);
    thread.go_to(Phase::WTry);
}

/// A writer is in; where it has slept, its state is restored.
pub fn wtake(shared: &mut Shared, e: &Event, l: LockId, kind: Kind)
    requires task { e.now.task.0 < length shared.old.tasks }
    requires lock { l.0 < length shared.old.locks }
    requires can { CanStep kinds.WTake 0 (readers_in shared.old l) }
    ensures { shared.new ≡ record shared.old {
      readers = update shared.old.readers l.0 with_writer;
      tasks = at_task shared.old.tasks (where_slept e.now.task e.now.owner) (restored (spins kind));
    } }
{
    shared.write_in(l);
    shared.restore(slept(e), kind.spins());
}

/// A writer sleeps for readers, or sleeps again.
pub fn wsleep(shared: &mut Shared, thread: &mut Thread, e: &Event, l: LockId)
    requires task { e.now.task.0 < length shared.old.tasks }
    requires kinds { l.0 < length thread.old.kinds }
    ensures shared { shared.new ≡ record shared.old {
      tasks = update shared.old.tasks e.now.task.0
          (writer_rests thread.old.phase (rest_of (kind_of thread.old l) (call_of thread.old)));
    } }
    ensures thread { thread.new ≡ record thread.old { phase = WWait } }
{
    let rest = thread.rest_for(l);
    match thread.phase() {
        Phase::WWait => shared.rest_again(e.task, rest),
        _ => shared.put_to_rest(e.task, rest),
    }
    thread.go_to(Phase::WWait);
}

/// A writer has left, or given up its way in, or stays as a reader; it is to release the inner lock.
pub fn wopen(shared: &mut Shared, thread: &mut Thread, e: &Event, l: LockId)
    requires lock { l.0 < length shared.old.locks }
    requires can { CanStep kinds.WOpen e.now.value (readers_in shared.old l) }
    ensures shared { shared.new ≡ record shared.old {
      readers = update shared.old.readers l.0 (without_writer (nat_eq e.now.value 1));
    } }
    ensures thread { thread.new ≡ record thread.old { phase = Release } }
{
    shared.write_out(l, e.value == 1);
    thread.go_to(Phase::Release);
}

/// The owner of the inner lock, where it has one, gets a lock wakeup.
pub fn wwake(shared: &mut Shared, e: &Event, kind: Kind)
    requires { IfSome e.now.woken (λ t. t.0 < length shared.old.tasks) }
    ensures { shared.new ≡ record shared.old {
      tasks = at_task shared.old.tasks e.now.woken (lock_woken (spins kind));
    } }
{
    shared.lock_wake(e.woken, kind.spins());
}
