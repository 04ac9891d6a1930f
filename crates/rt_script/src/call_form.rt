ghost use Rattle.std.specs.Prelude.{◌≡◌, IfSome, option_map};
ghost use Rattle.rt_script.specs.CallForms.{seen_form, IsSettable};
ghost use Rattle.rt_script.specs.Calls.{call_form};

use crate::pieces::Pieces;
use crate::spelling::state_spelled;
use crate::verb::{LockVerb, Verb};
use rt_base::TaskState;

/// A call as its words give it, with words for the names and numbers that are still to be looked up.
#[derive(Clone, Copy)]
pub(crate) enum CallForm<W> {
    OnLock(LockVerb, W),
    State(TaskState),
    Schedule,
    Wake(W),
    Signal(W),
    SetPrio(W, W),
    Move(W),
}

/// The call that the words after a task's name have the form of.
pub(crate) fn call_form<'a>(mut words: Pieces<'a>) -> Option<CallForm<&'a [u8]>>
    ensures form { option_map seen_form result ≡ call_form words.entry }
    ensures settable { IfSome result IsSettable }
{
    let verb = Verb::read(words.next()?)?;
    match (verb, words.next(), words.next(), words.next()) {
        (Verb::OnLock(verb), Some(lock), None, None) => Some(CallForm::OnLock(verb, lock)),
        (Verb::State, Some(word), None, None) => Some(CallForm::State(state_spelled(word)?)),
        (Verb::Schedule, None, None, None) => Some(CallForm::Schedule),
        (Verb::Wake, Some(task), None, None) => Some(CallForm::Wake(task)),
        (Verb::Signal, Some(task), None, None) => Some(CallForm::Signal(task)),
        (Verb::SetPrio, Some(task), Some(prio), None) => Some(CallForm::SetPrio(task, prio)),
        (Verb::Move, Some(cpu), None, None) => Some(CallForm::Move(cpu)),
        _ => None,
    }
}
