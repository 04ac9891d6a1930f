// What the line of each kind tells besides who did what.
ghost use Rattle.std.specs.Prelude.{◌≡◌, ◌+◌, ◌<◌, ◌≤◌, ◌∷◌, ◌++◌, length, flat_map, vec_len, All, IfSome};
ghost use Rattle.std.specs.Vec.{vec_capacity};
ghost use Rattle.rt_events.specs.Told.{as_entry};
ghost use Rattle.rt_events.specs.Words.{spaced};
ghost use Rattle.rt_events.specs.Line.{lock_words, task_words, wakes_words, reader_words, link_words, operands};
ghost use Rattle.rt_events.specs.WellFormed.{IsTaskIn, IsLockIn, IsLinkIn, IsNamedIn};

use crate::appending::{push_number, push_word};
use crate::state_numbers::state_numbered;
use crate::told::Told;
use crate::words::{WORD_ROOM, push_lock, push_task, push_task_or_dash};
use rt_base::limits::MAX_TASKS;
use rt_base::{LockId, Path, TaskId};
use rt_model::EventKind;
use rt_script::Script;

// The most bytes of a link and the space before it.
const LINK_ROOM: usize = 38;

/// The most bytes of all that a kind tells.
pub const OPERANDS_ROOM: usize = MAX_TASKS * LINK_ROOM;

/// Appends what the kind tells.
pub(crate) fn push_operands(script: &Script, n: &Told, out: &mut Vec<u8>)
    requires named { IsNamedIn script.now (as_entry n.now) }
    requires room { vec_len out.old + OPERANDS_ROOM ≤ vec_capacity out.old }
    ensures text { out.new.items ≡ out.old.items ++ spaced (operands script.now n.now.kind (as_entry n.now)) }
    ensures grows { vec_len out.new ≤ vec_len out.old + OPERANDS_ROOM }
    ensures capacity { vec_capacity out.old ≤ vec_capacity out.new }
{
    match n.kind {
        EventKind::Walk => {
            push_other(script, n.other, out);
            push_lock_operand(script, n.lock, out);
            push_wakes(script, n.woken, out);
        }
        EventKind::Restart => {
            push_other(script, n.other, out);
            push_lock_operand(script, n.lock, out);
        }
        EventKind::Cycle => push_path(script, n.path, out),
        EventKind::Give | EventKind::WWake => {
            push_lock_operand(script, n.lock, out);
            push_task_or_dash(script, n.woken, out);
        }
        EventKind::Busy | EventKind::WOpen => {
            push_lock_operand(script, n.lock, out);
            push_reader(n.value, out);
        }
        EventKind::State => push_word(out, state_numbered(n.value).letter()),
        EventKind::Sched => {}
        EventKind::WalkEnd | EventKind::Wake => push_other(script, n.other, out),
        EventKind::SetPrio => {
            push_other(script, n.other, out);
            push_number(out, n.value as u64);
        }
        _ => push_lock_operand(script, n.lock, out),
    }
}

// Appends the lock that the event acted on, where it names one.
fn push_lock_operand(script: &Script, lock: Option<LockId>, out: &mut Vec<u8>)
    requires lock { IfSome lock (IsLockIn script.now) }
    requires room { vec_len out.old + WORD_ROOM ≤ vec_capacity out.old }
    ensures text { out.new.items ≡ out.old.items ++ spaced (lock_words script.now lock) }
    ensures grows { vec_len out.new ≤ vec_len out.old + WORD_ROOM }
    ensures capacity { vec_capacity out.old ≤ vec_capacity out.new }
{
    if let Some(l) = lock {
        push_lock(script, l, out);
    }
}

// Appends the other task, where the event names one.
fn push_other(script: &Script, other: Option<TaskId>, out: &mut Vec<u8>)
    requires other { IfSome other (IsTaskIn script.now) }
    requires room { vec_len out.old + WORD_ROOM ≤ vec_capacity out.old }
    ensures text { out.new.items ≡ out.old.items ++ spaced (task_words script.now other) }
    ensures grows { vec_len out.new ≤ vec_len out.old + WORD_ROOM }
    ensures capacity { vec_capacity out.old ≤ vec_capacity out.new }
{
    if let Some(t) = other {
        push_task(script, t, out);
    }
}

// Appends whom a walk woke, where it woke a task.
fn push_wakes(script: &Script, woken: Option<TaskId>, out: &mut Vec<u8>)
    requires woken { IfSome woken (IsTaskIn script.now) }
    requires room { vec_len out.old + WORD_ROOM ≤ vec_capacity out.old }
    ensures text { out.new.items ≡ out.old.items ++ spaced (wakes_words script.now woken) }
    ensures grows { vec_len out.new ≤ vec_len out.old + WORD_ROOM }
    ensures capacity { vec_capacity out.old ≤ vec_capacity out.new }
{
    if let Some(t) = woken {
        push_word(out, "wakes");
        push_task(script, t, out);
    }
}

// Appends that it was a reader, where the number says so.
fn push_reader(value: u8, out: &mut Vec<u8>)
    requires room { vec_len out.old + WORD_ROOM ≤ vec_capacity out.old }
    ensures text { out.new.items ≡ out.old.items ++ spaced (reader_words value) }
    ensures grows { vec_len out.new ≤ vec_len out.old + WORD_ROOM }
    ensures capacity { vec_capacity out.old ≤ vec_capacity out.new }
{
    if value == 1 {
        push_word(out, "reader");
    }
}

// Appends the links of a path in order.
fn push_path(script: &Script, path: &Path, out: &mut Vec<u8>)
    requires links { All (IsLinkIn script.now) path.now }
    requires room { vec_len out.old + OPERANDS_ROOM ≤ vec_capacity out.old }
    ensures text { out.new.items ≡ out.old.items ++ spaced (flat_map (link_words script.now) path.now) }
    ensures grows { vec_len out.new ≤ vec_len out.old + OPERANDS_ROOM }
    ensures capacity { vec_capacity out.old ≤ vec_capacity out.new }
{
    for i in 0..path.len() {
        let (t, l) = path.at(i);
        push_link(script, t, l, out);
    }
}

// Appends a task and the lock that it waits for.
fn push_link(script: &Script, t: TaskId, l: LockId, out: &mut Vec<u8>)
    requires task { IsTaskIn script.now t }
    requires lock { IsLockIn script.now l }
    requires room { vec_len out.old + LINK_ROOM ≤ vec_capacity out.old }
    ensures text { out.new.items ≡ out.old.items ++ spaced (link_words script.now (t.0, l.0)) }
    ensures grows { vec_len out.new ≤ vec_len out.old + LINK_ROOM }
    ensures capacity { vec_capacity out.old ≤ vec_capacity out.new }
{
    push_task(script, t, out);
    push_lock(script, l, out);
}
