// What the line of each kind tells besides who did what, its words from left to right.
ghost use Rattle.std.specs.Prelude.{◌≡◌, IfSome};
ghost use Rattle.rt_events.specs.reading.Operands.{number_alone, at_end, first, wakes_in, reader_in, lock_operand, maybe_lock_operand, lock_and_reader, lock_and_woken, task_operand, task_and_prio, link_operands, walk_operands, operands_in};
ghost use Rattle.rt_events.specs.reading.Spelling.{HasKindValue, state_in};
ghost use Rattle.rt_events.specs.reading.Tail.{plain_front, plain_rest};

use super::line_words::LineWords;
use super::links::path_operands;
use super::locks::lock_in;
use super::operands::Operands;
use super::spelling::{state_in, task_or_dash_in};
use rt_base::TaskId;
use rt_base::limits::MAX_PRIO;
use rt_model::EventKind;
use rt_script::{Script, number};

// What a kind tells, where its word tells this number.
pub(crate) fn operands_in(
    script: &Script,
    kind: EventKind,
    value: u8,
    words: &mut LineWords,
) -> Option<Operands>
    requires value { HasKindValue kind value }
    ensures told { result ≡ operands_in kind script.now value (plain_front words.old) }
    ensures rest { IfSome result (λ o. words.new ≡ plain_rest words.old) }
{
    match kind {
        EventKind::Walk => walk_operands(script, value, words),
        EventKind::WalkEnd | EventKind::Wake => task_operand(script, value, words),
        EventKind::Restart => link_operands(script, value, words),
        EventKind::Cycle => path_operands(script, words),
        EventKind::Give | EventKind::WWake => lock_and_woken(script, value, words),
        EventKind::Busy | EventKind::WOpen => lock_and_reader(script, words),
        EventKind::State => state(words),
        EventKind::Sched => none(value, words),
        EventKind::SetPrio => task_and_prio(script, words),
        EventKind::Own => maybe_lock_operand(script, value, words),
        _ => lock_operand(script, value, words),
    }
}

// The lock alone.
fn lock_operand(script: &Script, value: u8, words: &mut LineWords) -> Option<Operands>
    ensures told { result ≡ lock_operand script.now value (plain_front words.old) }
    ensures rest { IfSome result (λ o. words.new ≡ plain_rest words.old) }
{
    let l = lock_in(script, words.next_plain()?)?;
    if words.next_plain().is_some() {
        return None;
    }
    Some(Operands {
        lock: Some(l),
        ..Operands::number_alone(value)
    })
}

// The lock, where there is one.
fn maybe_lock_operand(script: &Script, value: u8, words: &mut LineWords) -> Option<Operands>
    ensures told { result ≡ maybe_lock_operand script.now value (plain_front words.old) }
    ensures rest { IfSome result (λ o. words.new ≡ plain_rest words.old) }
{
    let Some(word) = words.next_plain() else {
        return Some(Operands::number_alone(value));
    };
    let l = lock_in(script, word)?;
    if words.next_plain().is_some() {
        return None;
    }
    Some(Operands {
        lock: Some(l),
        ..Operands::number_alone(value)
    })
}

// The lock, and whether it was a reader.
fn lock_and_reader(script: &Script, words: &mut LineWords) -> Option<Operands>
    ensures told { result ≡ lock_and_reader script.now (plain_front words.old) }
    ensures rest { IfSome result (λ o. words.new ≡ plain_rest words.old) }
{
    let l = lock_in(script, words.next_plain()?)?;
    let value = reader_in(words)?;
    Some(Operands {
        lock: Some(l),
        ..Operands::number_alone(value)
    })
}

// The lock, and whom it was handed to.
fn lock_and_woken(script: &Script, value: u8, words: &mut LineWords) -> Option<Operands>
    ensures told { result ≡ lock_and_woken script.now value (plain_front words.old) }
    ensures rest { IfSome result (λ o. words.new ≡ plain_rest words.old) }
{
    let l = lock_in(script, words.next_plain()?)?;
    let woken = task_or_dash_in(script, words.next_plain()?)?;
    if words.next_plain().is_some() {
        return None;
    }
    Some(Operands {
        lock: Some(l),
        woken,
        ..Operands::number_alone(value)
    })
}

// A walk's cursor, its lock, and whom it woke.
fn walk_operands(script: &Script, value: u8, words: &mut LineWords) -> Option<Operands>
    ensures told { result ≡ walk_operands script.now value (plain_front words.old) }
    ensures rest { IfSome result (λ o. words.new ≡ plain_rest words.old) }
{
    let t = script.task_named(words.next_plain()?)?;
    let l = lock_in(script, words.next_plain()?)?;
    let woken = wakes_in(script, words)?;
    Some(Operands {
        other: Some(t),
        lock: Some(l),
        woken,
        ..Operands::number_alone(value)
    })
}

// The other task alone.
fn task_operand(script: &Script, value: u8, words: &mut LineWords) -> Option<Operands>
    ensures told { result ≡ task_operand script.now value (plain_front words.old) }
    ensures rest { IfSome result (λ o. words.new ≡ plain_rest words.old) }
{
    let t = script.task_named(words.next_plain()?)?;
    if words.next_plain().is_some() {
        return None;
    }
    Some(Operands {
        other: Some(t),
        ..Operands::number_alone(value)
    })
}

// The task and the lock of a link.
fn link_operands(script: &Script, value: u8, words: &mut LineWords) -> Option<Operands>
    ensures told { result ≡ link_operands script.now value (plain_front words.old) }
    ensures rest { IfSome result (λ o. words.new ≡ plain_rest words.old) }
{
    let t = script.task_named(words.next_plain()?)?;
    let l = lock_in(script, words.next_plain()?)?;
    if words.next_plain().is_some() {
        return None;
    }
    Some(Operands {
        other: Some(t),
        lock: Some(l),
        ..Operands::number_alone(value)
    })
}

// The task and its new priority.
fn task_and_prio(script: &Script, words: &mut LineWords) -> Option<Operands>
    ensures told { result ≡ task_and_prio script.now (plain_front words.old) }
    ensures rest { IfSome result (λ o. words.new ≡ plain_rest words.old) }
{
    let t = script.task_named(words.next_plain()?)?;
    let prio = number(words.next_plain()?, MAX_PRIO as u64)?;
    if words.next_plain().is_some() {
        return None;
    }
    Some(Operands {
        other: Some(t),
        ..Operands::number_alone(prio as u8)
    })
}

// The letter of a state.
fn state(words: &mut LineWords) -> Option<Operands>
    ensures told { result ≡ first state_in (λ state. at_end (number_alone state)) (plain_front words.old) }
    ensures rest { IfSome result (λ o. words.new ≡ plain_rest words.old) }
{
    let value = state_in(words.next_plain()?)?;
    if words.next_plain().is_some() {
        return None;
    }
    Some(Operands::number_alone(value))
}

// Nothing.
fn none(value: u8, words: &mut LineWords) -> Option<Operands>
    ensures told { result ≡ at_end (number_alone value) (plain_front words.old) }
    ensures rest { IfSome result (λ o. words.new ≡ plain_rest words.old) }
{
    if words.next_plain().is_some() {
        return None;
    }
    Some(Operands::number_alone(value))
}

// `wakes` and a task, or nothing.
fn wakes_in(script: &Script, words: &mut LineWords) -> Option<Option<TaskId>>
    ensures told { result ≡ wakes_in script.now (plain_front words.old) }
    ensures rest { IfSome result (λ o. words.new ≡ plain_rest words.old) }
{
    let Some(word) = words.next_plain() else {
        return Some(None);
    };
    if word != b"wakes".as_slice() {
        return None;
    }
    let t = script.task_named(words.next_plain()?)?;
    if words.next_plain().is_some() {
        return None;
    }
    Some(Some(t))
}

// `reader`, or nothing.
fn reader_in(words: &mut LineWords) -> Option<u8>
    ensures told { result ≡ reader_in (plain_front words.old) }
    ensures rest { IfSome result (λ o. words.new ≡ plain_rest words.old) }
{
    let Some(word) = words.next_plain() else {
        return Some(0);
    };
    if word != b"reader".as_slice() || words.next_plain().is_some() {
        return None;
    }
    Some(1)
}
