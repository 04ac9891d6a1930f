ghost use Rattle.std.specs.Prelude.{◌≡◌, ◌+◌, ◌*◌, ◌^◌, ◌<◌, ◌≤◌, ◌∷◌, ◌++◌, length, map, vec_len};
ghost use Rattle.std.specs.Prelude.{All, IfSome};
ghost use Rattle.std.specs.Vec.{vec_capacity};
ghost use Rattle.rt_model.specs.Parts.{effective_of};
ghost use Rattle.rt_events.specs.Words.{spaced};
ghost use Rattle.rt_core.specs.Report.{bit_word, priority_words, progress_words, note_words};
ghost use Rattle.rt_core.specs.Report.{note_key, task_line_of, owner_words, reader_part_words};
ghost use Rattle.rt_core.specs.Report.{row_word, lock_line_of, IsNoteWithin};

use crate::note::Note;
use rt_base::limits::{LINE_LIMIT, MAX_PRIO, MAX_TASKS};
use rt_base::{Kind, LockId, TaskId};
use rt_events::{
    WORD_ROOM, append, push_byte, push_digits, push_lock, push_number, push_task,
    push_task_or_dash, push_word,
};
use rt_locks::LockCell;
use rt_model::{ReaderCell, Row};
use rt_parts::Thread;
use rt_script::Script;
use rt_tasks::TaskCell;

/// Writes a task's line of the report, shorter than `LINE_LIMIT`.
pub(crate) fn write_task_line(
    script: &Script,
    t: TaskId,
    cell: &TaskCell,
    thread: &Thread,
    note: Note,
    out: &mut Vec<u8>,
)
    requires task { t.0 < length script.now.tasks }
    requires note { IsNoteWithin (length script.now.tasks) (length script.now.locks) note }
    requires room { vec_len out.old + LINE_LIMIT ≤ vec_capacity out.old }
    ensures text { out.new.items ≡ out.old.items ++ task_line_of script.now t cell.now thread.now note }
    ensures short { length (task_line_of script.now t cell.now thread.now note) < LINE_LIMIT }
    ensures capacity { vec_capacity out.old ≤ vec_capacity out.new }
{
    let named = t.0 < script.tasks();
    prove!(named);
    append(out, b"task");
    push_priorities(script, t, cell, out);
    push_progress(cell, thread, out);
    push_note(script, note, out);
    push_byte(out, b'\n');
}

// Appends a task's name, its own and its effective priority.
fn push_priorities(script: &Script, t: TaskId, cell: &TaskCell, out: &mut Vec<u8>)
    requires task { t.0 < length script.now.tasks }
    requires room { vec_len out.old + 3 * WORD_ROOM ≤ vec_capacity out.old }
    ensures text { out.new.items ≡ out.old.items ++ spaced (priority_words script.now t cell.now) }
    ensures own { cell.now.own ≤ MAX_PRIO }
    ensures effective { effective_of cell.now ≤ MAX_PRIO }
    ensures grows { vec_len out.new ≤ vec_len out.old + 3 * WORD_ROOM }
    ensures capacity { vec_capacity out.old ≤ vec_capacity out.new }
{
    push_task(script, t, out);
    push_number(out, cell.own().get() as u64);
    push_number(out, cell.effective().get() as u64);
}

// Appends a task's states, and how many of its calls are answered.
fn push_progress(cell: &TaskCell, thread: &Thread, out: &mut Vec<u8>)
    requires room { vec_len out.old + 3 * WORD_ROOM ≤ vec_capacity out.old }
    ensures text { out.new.items ≡ out.old.items ++ spaced (progress_words cell.now thread.now) }
    ensures answered { thread.now.answered < 2 ^ 32 }
    ensures calls { length thread.now.calls < 2 ^ 64 }
    ensures grows { vec_len out.new ≤ vec_len out.old + 3 * WORD_ROOM }
    ensures capacity { vec_capacity out.old ≤ vec_capacity out.new }
{
    push_word(out, cell.state().letter());
    push_word(out, cell.saved().letter());
    push_number(out, thread.answered() as u64);
    push_byte(out, b'/');
    push_digits(out, thread.calls() as u64);
}

// Appends where a task stands.
fn push_note(script: &Script, note: Note, out: &mut Vec<u8>)
    requires note { IsNoteWithin (length script.now.tasks) (length script.now.locks) note }
    requires room { vec_len out.old + 3 * WORD_ROOM ≤ vec_capacity out.old }
    ensures text { out.new.items ≡ out.old.items ++ spaced (note_words script.now note) }
    ensures key { note_key note ≤ MAX_PRIO }
    ensures grows { vec_len out.new ≤ vec_len out.old + 3 * WORD_ROOM }
    ensures capacity { vec_capacity out.old ≤ vec_capacity out.new }
{
    match note {
        Note::End => push_word(out, "end"),
        Note::Walk(cursor) => {
            push_word(out, "walk");
            push_task(script, cursor, out);
        }
        Note::Confirm => push_word(out, "confirm"),
        Note::Ready => push_word(out, "ready"),
        Note::Lock(l, key) => {
            push_word(out, "lock");
            push_lock(script, l, out);
            push_number(out, key.get() as u64);
        }
        Note::Readers(l) => {
            push_word(out, "readers");
            push_lock(script, l, out);
        }
        Note::Wake => push_word(out, "wake"),
    }
}

/// Writes a lock's line of the report, shorter than `LINE_LIMIT`.
pub(crate) fn write_lock_line(
    script: &Script,
    l: LockId,
    cell: &LockCell,
    readers: ReaderCell,
    out: &mut Vec<u8>,
)
    requires lock { l.0 < length script.now.locks }
    requires owner { IfSome cell.now.part.owner (λ t. t.0 < length script.now.tasks) }
    requires rows { All (λ row. row.who < length script.now.tasks) cell.now.part.rows }
    requires few { cell.now.tasks ≤ MAX_TASKS }
    requires room { vec_len out.old + LINE_LIMIT ≤ vec_capacity out.old }
    ensures text { out.new.items ≡ out.old.items ++ lock_line_of script.now l cell.now.part readers }
    ensures short { length (lock_line_of script.now l cell.now.part readers) < LINE_LIMIT }
    ensures capacity { vec_capacity out.old ≤ vec_capacity out.new }
{
    let named = l.0 < script.locks();
    prove!(named);
    append(out, b"lock");
    push_owner(script, l, cell, out);
    push_readers(script.kind(l), readers, out);
    push_rows(script, cell.waiters().rows(), out);
    push_byte(out, b'\n');
}

// A bit as a digit.
fn bit_text(bit: bool) -> &'static str
    ensures word { result.now ≡ bit_word bit }
    ensures short { length result.now ≤ 16 }
{
    if bit { "1" } else { "0" }
}

// Appends a lock's name, its owner and its waiters bit.
fn push_owner(script: &Script, l: LockId, cell: &LockCell, out: &mut Vec<u8>)
    requires lock { l.0 < length script.now.locks }
    requires owner { IfSome cell.now.part.owner (λ t. t.0 < length script.now.tasks) }
    requires room { vec_len out.old + 3 * WORD_ROOM ≤ vec_capacity out.old }
    ensures text { out.new.items ≡ out.old.items ++ spaced (owner_words script.now l cell.now.part) }
    ensures grows { vec_len out.new ≤ vec_len out.old + 3 * WORD_ROOM }
    ensures capacity { vec_capacity out.old ≤ vec_capacity out.new }
{
    push_lock(script, l, out);
    push_task_or_dash(script, cell.owner(), out);
    push_word(out, bit_text(cell.bit()));
}

// Appends the reader part of a reader/writer lock, and nothing for another kind.
fn push_readers(kind: Kind, readers: ReaderCell, out: &mut Vec<u8>)
    requires room { vec_len out.old + 3 * WORD_ROOM ≤ vec_capacity out.old }
    ensures text { out.new.items ≡ out.old.items ++ spaced (reader_part_words kind readers) }
    ensures count { readers.count < 2 ^ 32 }
    ensures grows { vec_len out.new ≤ vec_len out.old + 3 * WORD_ROOM }
    ensures capacity { vec_capacity out.old ≤ vec_capacity out.new }
{
    match kind {
        Kind::RwLock | Kind::RwSem => {
            push_word(out, bit_text(readers.bias));
            push_word(out, bit_text(readers.writer));
            push_number(out, readers.count as u64);
        }
        Kind::Mutex | Kind::Spin | Kind::Local => {}
    }
}

// Appends the waiters in order, each with its key.
fn push_rows(script: &Script, rows: &[Row], out: &mut Vec<u8>)
    requires rows { All (λ row. row.who < length script.now.tasks) rows.now }
    requires few { length rows.now ≤ MAX_TASKS }
    requires room { vec_len out.old + MAX_TASKS * WORD_ROOM ≤ vec_capacity out.old }
    ensures text { out.new.items ≡ out.old.items ++ spaced (map (row_word script.now) rows.now) }
    ensures grows { vec_len out.new ≤ vec_len out.old + MAX_TASKS * WORD_ROOM }
    ensures capacity { vec_capacity out.old ≤ vec_capacity out.new }
{
    for row in rows {
        push_row(script, row, out);
    }
}

// Appends a waiter and its key.
fn push_row(script: &Script, row: &Row, out: &mut Vec<u8>)
    requires task { row.now.who < length script.now.tasks }
    requires room { vec_len out.old + WORD_ROOM ≤ vec_capacity out.old }
    ensures text { out.new.items ≡ out.old.items ++ 32 ∷ row_word script.now row.now }
    ensures grows { vec_len out.new ≤ vec_len out.old + WORD_ROOM }
    ensures capacity { vec_capacity out.old ≤ vec_capacity out.new }
{
    push_task(script, TaskId(row.who), out);
    push_byte(out, b':');
    push_digits(out, row.key);
}
