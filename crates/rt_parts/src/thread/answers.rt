// What its call's events do to a thread's count, and an answer to the rest of it.
ghost use Rattle.std.specs.Prelude.{◌≡◌, ◌<◌, ◌≤◌, length, slice_set, option_map, IfSome, IsSome, None, Some};
ghost use Rattle.rt_model.specs.declared.phase.Phase.TheVariants.{Slow};
ghost use Rattle.rt_model.specs.Parts.{call_of, hold_of, kind_of};
ghost use Rattle.rt_model.specs.CallKinds.{IsServed};
ghost use Rattle.rt_model.specs.events.Own.{spinning_hold};
ghost use Rattle.rt_model.specs.steps.Thread.{answered_with, holds_after, migration_with, cpu_after, with_hold, with_read, without_read, downgraded};
ghost use Rattle.rt_parts.specs.Steps.{with_migration};
ghost use Rattle.rt_parts.specs.Thread.{CanReadMore, HasRead, HasPins, IsCounted, CanAnswer};

use crate::thread::{Thread, call_at};
use rt_base::limits::MAX_TASKS;
use rt_base::{Call, Kind, LockId, Reply};
use rt_local::migration_after;
use rt_model::{Hold, Phase};

impl Thread {
    /// Its call has set the bit of its lock, and goes on by the slow path. A call for a local lock counts one from this
    /// first event of it on.
    pub fn mark(&mut self)
        requires call { IsSome (call_of self.old) }
        requires counted { IsCounted self.old }
        ensures { self.new ≡ record self.old { phase = Slow; migration = migration_with self.old (call_of self.old) None } }
    {
        let Some(call) = self.call() else { return };
        self.count_event(&call, None);
        self.phase = Phase::Slow;
    }

    /// The call that it is at has this answer, and it goes to the start of the next one.
    pub fn answer(&mut self, reply: Reply)
        requires call { IsSome (call_of self.old) }
        requires can { CanAnswer self.old (call_of self.old) reply }
        ensures { self.new ≡ answered_with self.old (Some reply) }
    {
        let Some(call) = self.call() else { return };
        self.count_event(&call, Some(reply));
        self.go_where_moved(&call, reply);
        self.answered += 1;
        self.call = call_at(self.calls.as_slice(), self.answered, self.cpu);
        self.phase = Phase::Start;
        self.note_answer(&call, reply);
    }

    // Holds what an acquire got, and no longer what a release gave back; a writer that downgrades stays as a
    // reader.
    fn note_answer(&mut self, call: &Call, reply: Reply)
        requires served { IsServed MAX_TASKS (length self.old.kinds) call.now }
        requires reads { CanReadMore self.old }
        requires read { HasRead self.old (Some call.now) reply }
        ensures { self.new ≡ record self.old { holds = holds_after self.old (Some call.now) reply } }
    {
        match (call, reply) {
            (
                Call::Lock(l)
                | Call::LockInt(l)
                | Call::TryLock(l)
                | Call::Spin(l)
                | Call::TrySpin(l)
                | Call::Write(l)
                | Call::TryWrite(l)
                | Call::Local(l),
                Reply::Got,
            ) => self.set_owns(*l, true),
            (
                Call::Unlock(l) | Call::Unspin(l) | Call::Unwrite(l) | Call::Unlocal(l),
                Reply::Done,
            ) => self.set_owns(*l, false),
            (Call::Read(l) | Call::TryRead(l), Reply::Got) => self.read_more(*l),
            (Call::Unread(l), Reply::Done) => self.read_less(*l),
            (Call::Downgrade(l), Reply::Done) => self.downgrade(*l),
            _ => {}
        }
    }

    // Its migration count after an event of its call, which gives this answer, where it gives one.
    fn count_event(&mut self, call: &Call, reply: Option<Reply>)
        requires served { IsServed MAX_TASKS (length self.old.kinds) call.now }
        requires pins { HasPins self.old (Some call.now) reply }
        requires counted { IsCounted self.old }
        ensures { self.new ≡ with_migration self.old (migration_with self.old (Some call.now) reply) }
    {
        let kind = self.kind_at(self.called_lock(call));
        let first = matches!(self.phase, Phase::Start);
        self.migration = migration_after(*call, kind, first, reply, self.migration);
    }

    // The kind of a lock that may not be named.
    fn kind_at(&self, lock: Option<LockId>) -> Option<Kind>
        requires { IfSome lock (λ l. l.0 < length self.now.kinds) }
        ensures { result ≡ option_map (kind_of self.now) lock }
    {
        Some(self.kind_of(lock?))
    }

    // Its call, where it is a `move` that is done, has brought it to another processor.
    fn go_where_moved(&mut self, call: &Call, reply: Reply)
        requires { call_of self.old ≡ Some call.now }
        ensures { self.new ≡ record self.old { cpu = cpu_after (Some call.now) reply self.old.cpu } }
    {
        if let (Call::Move(to), Reply::Done) = (call, reply) {
            self.cpu = *to;
        }
    }

    // Owns a lock, or no longer does.
    fn set_owns(&mut self, l: LockId, owns: bool)
        requires { l.0 < length self.old.kinds }
        ensures { self.new ≡ record self.old { holds = with_hold self.old l owns } }
    {
        let before = self.holds[l.0 as usize];
        self.set_hold(l, Hold { owns, ..before });
    }

    // Reads a lock once more.
    fn read_more(&mut self, l: LockId)
        requires lock { l.0 < length self.old.kinds }
        requires room { (hold_of self.old l).reads < self.old.answered }
        ensures { self.new ≡ record self.old { holds = with_read self.old l } }
    {
        let before = self.holds[l.0 as usize];
        self.set_hold(
            l,
            Hold {
                reads: before.reads + 1,
                ..before
            },
        );
    }

    // Reads a lock once less.
    fn read_less(&mut self, l: LockId)
        requires lock { l.0 < length self.old.kinds }
        requires some { 0 < (hold_of self.old l).reads }
        ensures { self.new ≡ record self.old { holds = without_read self.old l } }
    {
        let before = self.holds[l.0 as usize];
        self.set_hold(
            l,
            Hold {
                reads: before.reads - 1,
                ..before
            },
        );
    }

    // Reads a lock that it wrote.
    fn downgrade(&mut self, l: LockId)
        requires lock { l.0 < length self.old.kinds }
        requires room { (hold_of self.old l).reads < self.old.answered }
        ensures { self.new ≡ record self.old { holds = downgraded self.old l } }
    {
        let before = self.holds[l.0 as usize];
        self.set_hold(
            l,
            Hold {
                owns: false,
                reads: before.reads + 1,
            },
        );
    }

    // Holds this of a lock, which is counted where its kind spins.
    fn set_hold(&mut self, l: LockId, hold: Hold)
        requires lock { l.0 < length self.old.kinds }
        requires reads { hold.reads ≤ self.old.answered }
        ensures { self.new ≡ record self.old { holds = slice_set self.old.holds l.0 hold } }
    {
        let kind = self.kinds[l.0 as usize];
        let before = self.holds[l.0 as usize];
        self.spinning -= spinning_hold(kind, &before);
        self.spinning += spinning_hold(kind, &hold);
        self.holds[l.0 as usize] = hold;
    }
}

// One where something is held of a lock of a spinning kind.
fn spinning_hold(kind: Kind, hold: &Hold) -> u32
    ensures { result ≡ spinning_hold kind hold.now }
{
    let held = hold.owns || hold.reads > 0;
    if kind.spins() && held { 1 } else { 0 }
}
