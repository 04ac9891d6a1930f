// The calls that call lines make.
ghost use Rattle.std.specs.Prelude.{◌≡◌, IfOk};
ghost use Rattle.rt_base.specs.Script.{IsCallOf};
ghost use Rattle.rt_script.specs.CallForms.{seen_form, IsSettable};
ghost use Rattle.rt_script.specs.Calls.{reading_call, call_on, lock_call, call_in};
ghost use Rattle.rt_script.specs.Results.{Gives};

use super::Draft;
use crate::call_form::CallForm;
use crate::fault::Why;
use crate::line_error::LineError;
use crate::spelling::{cpu_spelled, prio_spelled};
use crate::verb::LockVerb;
use rt_base::{Call, Kind, LockId};

impl Draft {
    /// The call that a form makes, its words from left to right.
    pub(super) fn call_in(&self, form: CallForm<&[u8]>) -> Result<Call, LineError>
        requires { IsSettable form }
        ensures call { Gives (λ call. call) result (call_in self.now.script (seen_form form.entry)) }
        ensures fits { IfOk result (IsCallOf self.now.script) }
    {
        match form {
            CallForm::OnLock(verb, lock) => self.lock_call(verb, lock),
            CallForm::State(state) => Ok(Call::State(state)),
            CallForm::Schedule => Ok(Call::Schedule),
            CallForm::Wake(task) => Ok(Call::Wake(self.task_named(task)?)),
            CallForm::Signal(task) => Ok(Call::Signal(self.task_named(task)?)),
            CallForm::SetPrio(task, prio) => {
                let t = self.task_named(task)?;
                Ok(Call::SetPrio(t, prio_spelled(prio)?))
            }
            CallForm::Move(cpu) => Ok(Call::Move(cpu_spelled(self.script(), cpu)?)),
        }
    }

    /// A call on a lock.
    fn lock_call(&self, verb: LockVerb, lock: &[u8]) -> Result<Call, LineError>
        ensures call { Gives (λ call. call) result (lock_call self.now.script verb lock.now) }
        ensures fits { IfOk result (IsCallOf self.now.script) }
    {
        let lock = self.lock_named(lock)?;
        let there = lock.0 < self.script().locks();
        prove!(there);
        match call_on(self.script().kind(lock), verb, lock) {
            Some(call) => Ok(call),
            None => Err(LineError::Fault(Why::WrongKind)),
        }
    }
}

/// A call of a lock of that kind.
fn call_on(kind: Kind, verb: LockVerb, lock: LockId) -> Option<Call>
    ensures { result ≡ call_on kind verb lock }
{
    match (kind, verb) {
        (Kind::Mutex, LockVerb::Lock) => Some(Call::Lock(lock)),
        (Kind::Mutex, LockVerb::LockInt) => Some(Call::LockInt(lock)),
        (Kind::Mutex, LockVerb::TryLock) => Some(Call::TryLock(lock)),
        (Kind::Mutex, LockVerb::Unlock) => Some(Call::Unlock(lock)),
        (Kind::Spin, LockVerb::Spin) => Some(Call::Spin(lock)),
        (Kind::Spin, LockVerb::TrySpin) => Some(Call::TrySpin(lock)),
        (Kind::Spin, LockVerb::Unspin) => Some(Call::Unspin(lock)),
        (Kind::RwLock | Kind::RwSem, verb) => reading_call(verb, lock),
        (Kind::Local, LockVerb::Local) => Some(Call::Local(lock)),
        (Kind::Local, LockVerb::Unlocal) => Some(Call::Unlocal(lock)),
        _ => None,
    }
}

/// A call of a reader/writer lock.
fn reading_call(verb: LockVerb, lock: LockId) -> Option<Call>
    ensures { result ≡ reading_call verb lock }
{
    match verb {
        LockVerb::Read => Some(Call::Read(lock)),
        LockVerb::TryRead => Some(Call::TryRead(lock)),
        LockVerb::Unread => Some(Call::Unread(lock)),
        LockVerb::Write => Some(Call::Write(lock)),
        LockVerb::TryWrite => Some(Call::TryWrite(lock)),
        LockVerb::Unwrite => Some(Call::Unwrite(lock)),
        LockVerb::Downgrade => Some(Call::Downgrade(lock)),
        _ => None,
    }
}
