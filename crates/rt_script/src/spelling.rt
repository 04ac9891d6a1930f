// What words spell: numbers in their ranges, and the words that are fixed.
ghost use Rattle.std.specs.Prelude.{◌≡◌, ◌≢◌, ◌<◌, ◌≤◌, IfOk, IfSome};
ghost use Rattle.rt_base.specs.declared.state.TaskState.TheVariants.{LockWait};
ghost use Rattle.rt_script.specs.Judging.{need};
ghost use Rattle.rt_script.specs.Results.{Gives};
ghost use Rattle.rt_script.specs.Spelling.{cpu_spelled, cpus_spelled, kind_spelled, state_spelled};
ghost use Rattle.rt_script.specs.Words.{number_upto};
ghost use Rattle.rt_script.specs.declared.fault.Why.TheVariants.{BadNumber};

use crate::fault::Why;
use crate::line_error::LineError;
use crate::numeral::number;
use crate::script::Script;
use rt_base::limits::{MAX_CPU, MAX_CPUS, MAX_PRIO};
use rt_base::{Cpu, Kind, Prio, TaskState};

/// The priority that a word spells.
pub(crate) fn prio_spelled(word: &[u8]) -> Result<Prio, LineError>
    ensures value { Gives (λ prio. prio) result (need BadNumber (number_upto MAX_PRIO word.now)) }
    ensures within { IfOk result (λ prio. prio ≤ MAX_PRIO) }
{
    let Some(n) = number(word, MAX_PRIO as u64) else {
        return Err(LineError::Fault(Why::BadNumber));
    };
    match Prio::new(n) {
        Some(prio) => Ok(prio),
        None => Err(LineError::Fault(Why::BadNumber)),
    }
}

/// The number of processors that a word spells.
pub(crate) fn cpus_spelled(word: &[u8]) -> Result<u8, LineError>
    ensures value { Gives (λ n. n) result (need BadNumber (cpus_spelled word.now)) }
    ensures within { IfOk result (λ n. (1 ≤ n) × (n ≤ MAX_CPUS)) }
{
    match number(word, MAX_CPUS as u64) {
        Some(n) if n > 0 => Ok(n as u8),
        _ => Err(LineError::Fault(Why::BadNumber)),
    }
}

/// The processor of the script that a word spells.
pub(crate) fn cpu_spelled(script: &Script, word: &[u8]) -> Result<Cpu, LineError>
    ensures value { Gives (λ cpu. cpu) result (need BadNumber (cpu_spelled script.now word.now)) }
    ensures within { IfOk result (λ cpu. cpu.0 < script.now.cpus) }
{
    match number(word, MAX_CPU as u64) {
        Some(n) if n < script.cpus() as u64 => Ok(Cpu(n as u8)),
        _ => Err(LineError::Fault(Why::BadNumber)),
    }
}

/// The kind of lock that a word names.
pub(crate) fn kind_spelled(word: &[u8]) -> Option<Kind>
    ensures { result ≡ kind_spelled word.now }
{
    if word == b"mutex".as_slice() {
        Some(Kind::Mutex)
    } else if word == b"spin".as_slice() {
        Some(Kind::Spin)
    } else if word == b"rwlock".as_slice() {
        Some(Kind::RwLock)
    } else if word == b"rwsem".as_slice() {
        Some(Kind::RwSem)
    } else if word == b"local".as_slice() {
        Some(Kind::Local)
    } else {
        None
    }
}

/// The state that a word names.
pub(crate) fn state_spelled(word: &[u8]) -> Option<TaskState>
    ensures state { result ≡ state_spelled word.now }
    ensures settable { IfSome result (λ state. state ≢ LockWait) }
{
    if word == b"R".as_slice() {
        Some(TaskState::Running)
    } else if word == b"S".as_slice() {
        Some(TaskState::Interruptible)
    } else if word == b"D".as_slice() {
        Some(TaskState::Uninterruptible)
    } else {
        None
    }
}
