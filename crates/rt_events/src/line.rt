ghost use Rattle.std.specs.Prelude.{◌≡◌, ◌+◌, ◌<◌, ◌≤◌, ◌++◌, length, vec_len, IfSome};
ghost use Rattle.std.specs.Vec.{vec_capacity};
ghost use Rattle.rt_events.specs.Entry.{entry};
ghost use Rattle.rt_events.specs.Told.{as_entry};
ghost use Rattle.rt_events.specs.Words.{spaced};
ghost use Rattle.rt_events.specs.Line.{boost_words, reply_words, line_of};
ghost use Rattle.rt_events.specs.WellFormed.{IsTaskIn, IsNamedIn, IsWellFormed};

use crate::appending::{push_byte, push_digits, push_word};
use crate::entry::Entry;
use crate::operands::push_operands;
use crate::told::Told;
use crate::words::{WORD_ROOM, kind_text, push_task, reply_text};
use rt_base::limits::LINE_LIMIT;
use rt_base::{Prio, Reply, TaskId};
use rt_model::Event;
use rt_script::Script;

/// Writes the line of a journal that tells an entry, of less than 4,096 bytes: the number, the task, the
/// kind, what the kind tells, the boost and the answer.
pub fn write_line(script: &Script, n: &Entry, out: &mut Vec<u8>)
    requires entry { IsWellFormed script.now n.now }
    requires room { vec_len out.old + LINE_LIMIT ≤ vec_capacity out.old }
    ensures text { out.new.items ≡ out.old.items ++ line_of script.now n.now }
    ensures short { length (line_of script.now n.now) < LINE_LIMIT }
    ensures capacity { vec_capacity out.old ≤ vec_capacity out.new }
{
    write_told(script, &Told::of_entry(n), out);
}

/// Writes the line that tells an event under a number: what `write_line` writes of its entry, which isn't
/// made for it.
pub fn write_event(script: &Script, number: u64, e: &Event, out: &mut Vec<u8>)
    requires entry { IsWellFormed script.now (entry number e.now) }
    requires room { vec_len out.old + LINE_LIMIT ≤ vec_capacity out.old }
    ensures text { out.new.items ≡ out.old.items ++ line_of script.now (entry number e.now) }
    ensures short { length (line_of script.now (entry number e.now)) < LINE_LIMIT }
    ensures capacity { vec_capacity out.old ≤ vec_capacity out.new }
{
    write_told(script, &Told::of_event(number, e), out);
}

// Writes the line of what is told.
fn write_told(script: &Script, n: &Told, out: &mut Vec<u8>)
    requires entry { IsWellFormed script.now (as_entry n.now) }
    requires room { vec_len out.old + LINE_LIMIT ≤ vec_capacity out.old }
    ensures text { out.new.items ≡ out.old.items ++ line_of script.now (as_entry n.now) }
    ensures short { length (line_of script.now (as_entry n.now)) < LINE_LIMIT }
    ensures capacity { vec_capacity out.old ≤ vec_capacity out.new }
{
    let named = n.task.0 < script.tasks();
    prove!(named);
    push_parts(script, n, out);
}

// Writes the line of what is told, where its names are the script's.
fn push_parts(script: &Script, n: &Told, out: &mut Vec<u8>)
    requires named { IsNamedIn script.now (as_entry n.now) }
    requires room { vec_len out.old + LINE_LIMIT ≤ vec_capacity out.old }
    ensures text { out.new.items ≡ out.old.items ++ line_of script.now (as_entry n.now) }
    ensures capacity { vec_capacity out.old ≤ vec_capacity out.new }
{
    push_digits(out, n.number);
    push_task(script, n.task, out);
    push_word(out, kind_text(n.kind, n.value));
    push_operands(script, n, out);
    push_boost(script, n.boost, out);
    push_reply(n.reply, out);
    push_byte(out, b'\n');
}

// Appends the task whose effective priority changed, with the new one.
fn push_boost(script: &Script, boost: Option<(TaskId, Prio)>, out: &mut Vec<u8>)
    requires task { IfSome boost (λ boost. IsTaskIn script.now boost.0) }
    requires room { vec_len out.old + WORD_ROOM ≤ vec_capacity out.old }
    ensures text { out.new.items ≡ out.old.items ++ spaced (boost_words script.now boost) }
    ensures grows { vec_len out.new ≤ vec_len out.old + WORD_ROOM }
    ensures capacity { vec_capacity out.old ≤ vec_capacity out.new }
{
    if let Some((t, prio)) = boost {
        push_task(script, t, out);
        push_byte(out, b'=');
        push_digits(out, prio.get() as u64);
    }
}

// Appends an arrow and the answer, where there is one.
fn push_reply(reply: Option<Reply>, out: &mut Vec<u8>)
    requires room { vec_len out.old + WORD_ROOM ≤ vec_capacity out.old }
    ensures text { out.new.items ≡ out.old.items ++ spaced (reply_words reply) }
    ensures grows { vec_len out.new ≤ vec_len out.old + WORD_ROOM }
    ensures capacity { vec_capacity out.old ≤ vec_capacity out.new }
{
    if let Some(reply) = reply {
        push_word(out, "->");
        push_word(out, reply_text(reply));
    }
}
