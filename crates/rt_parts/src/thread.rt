ghost use Rattle.std.specs.Prelude.{◌≡◌, ◌≤◌, ◌<◌, length, slice_get, option_map, IfOk, IfSome};
ghost use Rattle.rt_model.specs.Parts.{call_of, kind_of, made_on};
ghost use Rattle.rt_model.specs.State.{fresh_thread};
ghost use Rattle.rt_model.specs.CallKinds.{IsServed};
ghost use Rattle.rt_model.specs.laws.Shape.{IsThread};
ghost use Rattle.rt_model.specs.Choice.{called_lock};
ghost use Rattle.rt_model.specs.events.Own.{is_held, spinning_holds};
ghost use Rattle.rt_model.specs.steps.Task.{rest_of, sleep_of};
ghost use Rattle.rt_model.specs.steps.Thread.{phase_after_got, phase_after_busy};
ghost use Rattle.rt_model.specs.events.Readers.{phase_after_rin};
ghost use Rattle.rt_model.specs.Run.{is_at_end};
ghost use Rattle.rt_model.specs.Order.{in_walk};
ghost use Rattle.rt_parts.specs.Steps.{with_phase};
ghost use Rattle.rt_parts.specs.Thread.{HasLockOn};

mod answers;
mod walk;

use rt_base::limits::{MAX_LOCKS, MAX_TASKS};
use rt_base::{Call, Cpu, Kind, LockId, NoMemory, TaskState};
use rt_local::made_on;
use rt_model::{Hold, Phase};
use std::alloc::Global;
use std::marker::Model;

// No hold of a lock.
const NOTHING: Hold = Hold {
    owns: false,
    reads: 0,
};

/// A thread's private part: what it knows of the script, which are the kinds of all locks and its own
/// calls, how far it has come, what it holds, with how many locks of a spinning kind that is of, its migration count, and
/// its processor. The call that it is at is kept as it makes it there, so that no event works it out anew.
#[derive(Drop)]
pub struct Thread {
    kinds: Vec<Kind>,
    calls: Vec<Call>,
    answered: u32,
    call: Option<Call>,
    phase: Phase,
    holds: Vec<Hold>,
    spinning: u32,
    migration: u32,
    cpu: Cpu,
}

impl Model for Thread {
    ghost use Rattle.std.specs.Prelude.{◌≡◌};
    ghost use Rattle.rt_model.specs.Parts.{ThreadPart};

    ghost Value = { ThreadPart };

    ghost view = { λ t. record { kinds = t.kinds.items; calls = t.calls.items; answered = t.answered; phase = t.phase; holds = t.holds.items; migration = t.migration; cpu = t.cpu } };

    ghost use Rattle.std.specs.Prelude.{◌≤◌, length};
    ghost use Rattle.rt_parts.specs.Thread.{IsPrivate};

    ghost invariant = { λ t. IsPrivate t.kinds.items t.calls.items t.answered t.holds.items t.spinning t.cpu t.call };
}

impl Thread {
    /// A thread that has made none of its calls and holds nothing, where the locks are of these kinds.
    pub fn new(alloc: Global, kinds: &[Kind], calls: &[Call], cpu: Cpu) -> Result<Thread, NoMemory>
        requires few_locks { length kinds.now ≤ MAX_LOCKS }
        requires calls { IsThread calls.now 0 cpu MAX_TASKS (length kinds.now) }
        ensures { IfOk result (λ thread. thread ≡ fresh_thread kinds.now calls.now cpu) }
    {
        let holds = vec![in alloc; NOTHING; kinds.len()]?;
        Ok(Thread {
            kinds: Vec::from_slice(alloc, kinds)?,
            calls: Vec::from_slice(alloc, calls)?,
            answered: 0,
            call: call_at(calls, 0, cpu),
            phase: Phase::Start,
            holds,
            spinning: 0,
            migration: 0,
            cpu,
        })
    }

    /// The call that the thread is at, as it makes it on its processor, and `None` at the end of its calls.
    pub fn call(&self) -> Option<Call>
        ensures call { result ≡ call_of self.now }
        ensures served { IfSome result (IsServed MAX_TASKS (length self.now.kinds)) }
    {
        self.call
    }

    /// Whether it is at the end of its calls.
    pub fn is_at_end(&self) -> bool
        ensures { result ≡ is_at_end self.now }
    {
        self.call().is_none()
    }

    /// How many of its calls are answered.
    pub fn answered(&self) -> u32
        ensures { result ≡ self.now.answered }
    {
        self.answered
    }

    /// How many calls it makes.
    pub fn calls(&self) -> usize
        ensures { result ≡ length self.now.calls }
    {
        self.calls.len()
    }

    /// How far its call has come.
    pub fn phase(&self) -> &Phase
        ensures { result.now ≡ self.now.phase }
    {
        &self.phase
    }

    /// Whether its chain walk is unfinished.
    pub fn is_in_walk(&self) -> bool
        ensures { result ≡ in_walk self.now.phase }
    {
        matches!(self.phase, Phase::Walk(..) | Phase::Confirm(_))
    }

    /// Its migration count, as the kernel's `migration_disabled`.
    pub fn migration(&self) -> u32
        ensures { result ≡ self.now.migration }
    {
        self.migration
    }

    /// The kind of a lock.
    pub fn kind_of(&self, l: LockId) -> Kind
        requires { l.0 < length self.now.kinds }
        ensures { result ≡ kind_of self.now l }
    {
        self.kinds[l.0 as usize]
    }

    /// How many locks of a spinning kind it holds.
    pub fn spinning_holds(&self) -> u32
        ensures { result ≡ spinning_holds self.now.kinds self.now.holds }
    {
        self.spinning
    }

    /// The lock that a call is about.
    pub fn called_lock(&self, call: &Call) -> Option<LockId>
        requires { IsServed MAX_TASKS (length self.now.kinds) call.now }
        ensures lock { result ≡ called_lock call.now }
        ensures within { IfSome result (λ l. l.0 < length self.now.kinds) }
    {
        match call {
            Call::Lock(l)
            | Call::LockInt(l)
            | Call::TryLock(l)
            | Call::Unlock(l)
            | Call::Spin(l)
            | Call::TrySpin(l)
            | Call::Unspin(l)
            | Call::Read(l)
            | Call::TryRead(l)
            | Call::Unread(l)
            | Call::Write(l)
            | Call::TryWrite(l)
            | Call::Unwrite(l)
            | Call::Downgrade(l)
            | Call::Local(l)
            | Call::Unlocal(l) => Some(*l),
            _ => None,
        }
    }

    /// Whether the thread has the hold that a call on this lock is about.
    pub fn is_held(&self, call: &Call, lock: Option<LockId>) -> bool
        requires { IfSome lock (λ l. l.0 < length self.now.kinds) }
        ensures { result ≡ is_held self.now call.now lock }
    {
        let Some(l) = lock else { return false };
        let hold = self.holds[l.0 as usize];
        match call {
            Call::Unread(_) => hold.reads > 0,
            _ => hold.owns,
        }
    }
}

// What an event asks of its thread, and in which phase it leaves it.
impl Thread {
    /// The state in which its call waits for a lock.
    pub fn rest_for(&self, l: LockId) -> TaskState
        requires { l.0 < length self.now.kinds }
        ensures { result ≡ rest_of (kind_of self.now l) (call_of self.now) }
    {
        if self.kind_of(l).spins() {
            TaskState::LockWait
        } else {
            sleep_of(self.call())
        }
    }

    /// Its call has the owner part of its lock: a reader gets in next, a writer removes the bias, and any other
    /// call is to be answered.
    pub fn got(&mut self)
        ensures { self.new ≡ with_phase self.old (phase_after_got (call_of self.old) self.old.phase) }
    {
        match self.call() {
            Some(Call::Read(_)) => self.phase = Phase::ReadIn,
            Some(Call::Write(_) | Call::TryWrite(_)) => self.phase = Phase::Unbias,
            _ => {}
        }
    }

    /// Its call finds the lock taken: a reader that waits goes on to the inner lock.
    pub fn found_busy(&mut self)
        ensures { self.new ≡ with_phase self.old (phase_after_busy (call_of self.old) self.old.phase) }
    {
        if let Some(Call::Read(_)) = self.call() {
            self.phase = Phase::Inner;
        }
    }

    /// Its reader is in: one that has the inner lock is to release it.
    pub fn read_in(&mut self)
        ensures { self.new ≡ with_phase self.old (phase_after_rin self.old.phase) }
    {
        if let Phase::ReadIn = self.phase {
            self.phase = Phase::Release;
        }
    }

    /// Its call goes on in this phase.
    pub fn go_to(&mut self, phase: Phase)
        ensures { self.new ≡ with_phase self.old phase }
    {
        self.phase = phase;
    }
}

// The call at this place, as it is made on this processor, and `None` at the end of the calls.
fn call_at(calls: &[Call], at: u32, cpu: Cpu) -> Option<Call>
    requires { IfSome (slice_get calls.now at) (HasLockOn cpu) }
    ensures { result ≡ option_map (made_on cpu) (slice_get calls.now at) }
{
    let call = calls.get(at as usize)?;
    Some(made_on(cpu, *call))
}

// The state in which a call sleeps in an ordinary way.
fn sleep_of(call: Option<Call>) -> TaskState
    ensures { result ≡ sleep_of call }
{
    match call {
        Some(Call::LockInt(_)) => TaskState::Interruptible,
        _ => TaskState::Uninterruptible,
    }
}
