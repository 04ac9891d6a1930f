ghost use Rattle.std.specs.Prelude.{◌≡◌, ◌+◌, ◌<◌, ◌≤◌, ◌∷◌, ◌++◌, length, vec_len, Option, IfSome};
ghost use Rattle.std.specs.Vec.{vec_capacity};
ghost use Rattle.rt_events.specs.Words.{wake_word, kind_word, reply_word, end_word, task_word, task_or_dash, cell_word, lock_word};
ghost use Rattle.rt_base.specs.Script.{lock_line};

use crate::appending::{push_byte, push_small, push_word};
use rt_base::{Cpu, Ended, LockId, Reply, TaskId};
use rt_model::EventKind;
use rt_script::Script;

/// The most bytes of a word and the space before it.
pub const WORD_ROOM: usize = 48;

// The word for a wakeup, which is a signal's where it carries 1.
fn wake_text(value: u8) -> &'static str
    ensures word { result.now ≡ wake_word value }
    ensures short { length result.now ≤ 16 }
{
    if value == 1 { "signal" } else { "wake" }
}

/// The word of a kind of event in a journal, where the event carries this number: a wakeup that carries 1
/// is a signal's.
pub fn kind_text(kind: EventKind, value: u8) -> &'static str
    ensures word { result.now ≡ kind_word kind value }
    ensures short { length result.now ≤ 16 }
{
    match kind {
        EventKind::Fast => "fast",
        EventKind::Free => "free",
        EventKind::Mark => "mark",
        EventKind::Take => "take",
        EventKind::Wait => "wait",
        EventKind::Walk => "walk",
        EventKind::WalkEnd => "walkend",
        EventKind::Restart => "restart",
        EventKind::Cycle => "cycle",
        EventKind::Again => "again",
        EventKind::Leave => "leave",
        EventKind::Give => "give",
        EventKind::RIn => "rin",
        EventKind::ROut => "rout",
        EventKind::Unbias => "unbias",
        EventKind::WTake => "wtake",
        EventKind::WSleep => "wsleep",
        EventKind::WOpen => "wopen",
        EventKind::WWake => "wwake",
        EventKind::Busy => "busy",
        EventKind::State => "state",
        EventKind::Sched => "sched",
        EventKind::Wake => wake_text(value),
        EventKind::SetPrio => "setprio",
        EventKind::Own => "own",
    }
}

/// The word of an answer in a journal, as behind the arrow of its line.
pub fn reply_text(reply: Reply) -> &'static str
    ensures word { result.now ≡ reply_word reply }
    ensures short { length result.now ≤ 16 }
{
    match reply {
        Reply::Got => "got",
        Reply::Busy => "busy",
        Reply::Deadlock => "deadlock",
        Reply::Interrupted => "interrupted",
        Reply::NotOwner => "notowner",
        Reply::Nesting => "nesting",
        Reply::Pinned => "pinned",
        Reply::Woke => "woke",
        Reply::Missed => "missed",
        Reply::Done => "done",
    }
}

// The word for how a run ended.
pub(crate) fn end_text(ended: Ended) -> &'static str
    ensures word { result.now ≡ end_word ended }
    ensures short { length result.now ≤ 16 }
{
    match ended {
        Ended::Done => "done",
        Ended::Stuck => "stuck",
        Ended::Limit => "limit",
    }
}

// The name of a task, which has at most 16 bytes.
fn task_text(script: &Script, t: TaskId) -> &str
    requires { t.0 < length script.now.tasks }
    ensures word { result.now ≡ task_word script.now t }
    ensures short { length result.now ≤ 16 }
{
    script.task_name(t)
}

/// Appends a space and the name of a task.
pub fn push_task(script: &Script, t: TaskId, out: &mut Vec<u8>)
    requires task { t.0 < length script.now.tasks }
    requires room { vec_len out.old + 17 ≤ vec_capacity out.old }
    ensures text { out.new.items ≡ out.old.items ++ 32 ∷ task_word script.now t }
    ensures grows { vec_len out.new ≤ vec_len out.old + 17 }
    ensures capacity { vec_capacity out.old ≤ vec_capacity out.new }
{
    push_word(out, task_text(script, t));
}

/// Appends a space and the name of a task, or a dash where there is none.
pub fn push_task_or_dash(script: &Script, t: Option<TaskId>, out: &mut Vec<u8>)
    requires task { IfSome t (λ t. t.0 < length script.now.tasks) }
    requires room { vec_len out.old + 17 ≤ vec_capacity out.old }
    ensures text { out.new.items ≡ out.old.items ++ 32 ∷ task_or_dash script.now t }
    ensures grows { vec_len out.new ≤ vec_len out.old + 17 }
    ensures capacity { vec_capacity out.old ≤ vec_capacity out.new }
{
    match t {
        Some(t) => push_task(script, t, out),
        None => push_word(out, "-"),
    }
}

// The name of a lock, which has at most 16 bytes.
fn lock_text(script: &Script, l: LockId) -> &str
    requires { l.0 < length script.now.locks }
    ensures name { result.now ≡ (lock_line script.now l).name }
    ensures short { length result.now ≤ 16 }
{
    script.lock_name(l)
}

// Appends the processor of a local lock's cell, and nothing for another lock.
fn push_cell(cell: Option<Cpu>, out: &mut Vec<u8>)
    requires room { vec_len out.old + 4 ≤ vec_capacity out.old }
    ensures text { out.new.items ≡ out.old.items ++ cell_word cell }
    ensures grows { vec_len out.new ≤ vec_len out.old + 4 }
    ensures capacity { vec_capacity out.old ≤ vec_capacity out.new }
{
    if let Some(cpu) = cell {
        push_byte(out, b'.');
        push_small(out, cpu.0);
    }
}

/// Appends a space and what a lock is told by.
pub fn push_lock(script: &Script, l: LockId, out: &mut Vec<u8>)
    requires lock { l.0 < length script.now.locks }
    requires room { vec_len out.old + 21 ≤ vec_capacity out.old }
    ensures text { out.new.items ≡ out.old.items ++ 32 ∷ lock_word script.now l }
    ensures grows { vec_len out.new ≤ vec_len out.old + 21 }
    ensures capacity { vec_capacity out.old ≤ vec_capacity out.new }
{
    push_word(out, lock_text(script, l));
    push_cell(script.cell_of(l), out);
}
