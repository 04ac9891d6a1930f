// The end of a line: the boost and the answer.
ghost use Rattle.std.specs.Prelude.{◌≡◌};
ghost use Rattle.rt_events.specs.reading.Tail.{answer_in, boost_in, tail_in};

use super::line_words::LineWords;
use super::spelling::reply_in;
use rt_base::limits::MAX_PRIO;
use rt_base::{Prio, Reply, TaskId};
use rt_script::{Pieces, Script, number};

// A boost and an answer, each of which may be there or not.
pub(crate) fn tail_in(
    script: &Script,
    words: &mut LineWords,
) -> Option<(Option<(TaskId, Prio)>, Option<Reply>)>
    ensures { result ≡ tail_in script.now words.old }
{
    let Some(word) = words.peek() else {
        return Some((None, None));
    };
    if word == b"->".as_slice() {
        let reply = answer(words)?;
        return Some((None, reply));
    }
    let boost = boost(script, word)?;
    words.next();
    let reply = answer(words)?;
    Some((Some(boost), reply))
}

// A task and its priority, with a `=` between them.
fn boost(script: &Script, word: &[u8]) -> Option<(TaskId, Prio)>
    ensures { result ≡ boost_in script.now word.now }
{
    let mut parts = Pieces::new(word, b'=');
    let (task, prio) = (parts.next()?, parts.next()?);
    if parts.next().is_some() {
        return None;
    }
    let t = script.task_named(task)?;
    let prio = Prio::new(number(prio, MAX_PRIO as u64)?)?;
    Some((t, prio))
}

// An arrow and an answer, or nothing.
fn answer(words: &mut LineWords) -> Option<Option<Reply>>
    ensures { result ≡ answer_in words.old }
{
    let Some(word) = words.next() else {
        return Some(None);
    };
    if word != b"->".as_slice() {
        return None;
    }
    let reply = reply_in(words.next()?)?;
    if words.next().is_some() {
        return None;
    }
    Some(Some(reply))
}
