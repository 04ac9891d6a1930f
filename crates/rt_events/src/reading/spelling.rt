// The kinds, answers and states that words stand for, and whom a word names where there may be nobody.
ghost use Rattle.std.specs.Prelude.{◌≡◌, IfSome};
ghost use Rattle.rt_events.specs.reading.Spelling.{HasKindValue, kind_in, reply_in, state_in, task_or_dash_in};

use rt_base::{Reply, TaskId};
use rt_model::EventKind;
use rt_script::Script;

/// The kind of that word, and the number that the word tells.
pub(crate) fn kind_in(word: &[u8]) -> Option<(EventKind, u8)>
    ensures kind { result ≡ kind_in word.now }
    ensures value { IfSome result (λ k. HasKindValue k.0 k.1) }
{
    if word == b"fast".as_slice() {
        Some((EventKind::Fast, 0))
    } else if word == b"free".as_slice() {
        Some((EventKind::Free, 0))
    } else if word == b"mark".as_slice() {
        Some((EventKind::Mark, 0))
    } else if word == b"take".as_slice() {
        Some((EventKind::Take, 0))
    } else if word == b"wait".as_slice() {
        Some((EventKind::Wait, 0))
    } else if word == b"walk".as_slice() {
        Some((EventKind::Walk, 0))
    } else if word == b"walkend".as_slice() {
        Some((EventKind::WalkEnd, 0))
    } else if word == b"restart".as_slice() {
        Some((EventKind::Restart, 0))
    } else if word == b"cycle".as_slice() {
        Some((EventKind::Cycle, 0))
    } else if word == b"again".as_slice() {
        Some((EventKind::Again, 0))
    } else if word == b"leave".as_slice() {
        Some((EventKind::Leave, 0))
    } else if word == b"give".as_slice() {
        Some((EventKind::Give, 0))
    } else if word == b"rin".as_slice() {
        Some((EventKind::RIn, 0))
    } else if word == b"rout".as_slice() {
        Some((EventKind::ROut, 0))
    } else if word == b"unbias".as_slice() {
        Some((EventKind::Unbias, 0))
    } else if word == b"wtake".as_slice() {
        Some((EventKind::WTake, 0))
    } else if word == b"wsleep".as_slice() {
        Some((EventKind::WSleep, 0))
    } else if word == b"wopen".as_slice() {
        Some((EventKind::WOpen, 0))
    } else if word == b"wwake".as_slice() {
        Some((EventKind::WWake, 0))
    } else if word == b"busy".as_slice() {
        Some((EventKind::Busy, 0))
    } else if word == b"state".as_slice() {
        Some((EventKind::State, 0))
    } else if word == b"sched".as_slice() {
        Some((EventKind::Sched, 0))
    } else if word == b"wake".as_slice() {
        Some((EventKind::Wake, 0))
    } else if word == b"signal".as_slice() {
        Some((EventKind::Wake, 1))
    } else if word == b"setprio".as_slice() {
        Some((EventKind::SetPrio, 0))
    } else if word == b"own".as_slice() {
        Some((EventKind::Own, 0))
    } else {
        None
    }
}

/// The answer of that word.
pub(crate) fn reply_in(word: &[u8]) -> Option<Reply>
    ensures { result ≡ reply_in word.now }
{
    if word == b"got".as_slice() {
        Some(Reply::Got)
    } else if word == b"busy".as_slice() {
        Some(Reply::Busy)
    } else if word == b"deadlock".as_slice() {
        Some(Reply::Deadlock)
    } else if word == b"interrupted".as_slice() {
        Some(Reply::Interrupted)
    } else if word == b"notowner".as_slice() {
        Some(Reply::NotOwner)
    } else if word == b"nesting".as_slice() {
        Some(Reply::Nesting)
    } else if word == b"pinned".as_slice() {
        Some(Reply::Pinned)
    } else if word == b"woke".as_slice() {
        Some(Reply::Woke)
    } else if word == b"missed".as_slice() {
        Some(Reply::Missed)
    } else if word == b"done".as_slice() {
        Some(Reply::Done)
    } else {
        None
    }
}

/// The number of the state of that letter, of those that a task can be put into.
pub(crate) fn state_in(word: &[u8]) -> Option<u8>
    ensures { result ≡ state_in word.now }
{
    if word == b"R".as_slice() {
        Some(0)
    } else if word == b"S".as_slice() {
        Some(1)
    } else if word == b"D".as_slice() {
        Some(2)
    } else {
        None
    }
}

/// A task by its name, or nobody by a dash.
pub(crate) fn task_or_dash_in(script: &Script, word: &[u8]) -> Option<Option<TaskId>>
    ensures { result ≡ task_or_dash_in script.now word.now }
{
    if word == b"-".as_slice() {
        return Some(None);
    }
    let t = script.task_named(word)?;
    Some(Some(t))
}
