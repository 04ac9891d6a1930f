// The lines of events, and the end line after them.
ghost use Rattle.std.specs.Prelude.{◌≡◌, ◌≢◌, ◌↔◌, ◌+◌, ◌<◌, ◌≤◌, ◌^◌, ◌++◌, ℕ, List, length, None, Some, IsTrue, IfOk, IfErr, IfSome, MatchOption};
ghost use Rattle.std.specs.Vec.{vec_capacity};
ghost use Rattle.rt_model.specs.declared.event.Event.{Event};
ghost use Rattle.rt_model.specs.State.{start};
ghost use Rattle.rt_model.specs.NextEvent.{next_event};
ghost use Rattle.rt_model.specs.Run.{ended_of};
ghost use Rattle.rt_model.specs.laws.Shape.{IsOf};
ghost use Rattle.rt_script.specs.Names.{task_named};
ghost use Rattle.rt_events.specs.Entry.{entry};
ghost use Rattle.rt_events.specs.Journal.{end_line};
ghost use Rattle.rt_events.specs.Line.{line_of};
ghost use Rattle.rt_events.specs.WellFormed.{IsWellFormed};
ghost use Rattle.rt_check.specs.Place.{first_line, at_event};
ghost use Rattle.rt_check.specs.MayStand.{IsEndLine, IsWhy};
ghost use Rattle.rt_check.specs.Why.{why_number};
ghost use Rattle.rt_check.specs.Judging.{Plays, PlaysNone, IsPlayed};

use crate::front::{after_front, first_line, second_word};
use crate::why::{Why, Wrong};
use rt_base::TaskId;
use rt_base::limits::LINE_LIMIT;
use rt_core::Core;
use rt_events::{read_line, write_end_line, write_event};
use rt_model::Event;
use rt_script::Script;

// The task of that name. The one that moved last mostly goes on, so its name is looked at first.
fn task_called(script: &Script, name: &[u8], last: Option<TaskId>) -> Option<TaskId>
    requires { IfSome last (λ t. t.0 < length script.now.tasks) }
    ensures task { result ≡ task_named script.now name.now }
    ensures within { IfSome result (λ t. t.0 < length script.now.tasks) }
{
    let _valid = script.tasks();
    if let Some(t) = last {
        if script.task_name(t).as_bytes() == name {
            return Some(t);
        }
    }
    script.task_named(name)
}

// The next event of the task that the text's second word names, where there is one.
fn named_event(script: &Script, core: &Core, text: &[u8], last: Option<TaskId>) -> Option<Event>
    requires script { IsOf script.now core.now.state }
    requires last { IfSome last (λ t. t.0 < length script.now.tasks) }
    ensures task { IfSome result (λ e. e.task.0 < length script.now.tasks) }
    ensures next { IfSome result (λ e. next_event core.now.state e.task ≡ Some e) }
    ensures told { IfSome result (λ e. (number : ℕ) → number < 2 ^ 64 → IsWellFormed script.now (entry number e)) }

    // It is the one whose line the text begins with, if there is such an event.
    ensures only { (e : Event) (number : ℕ) (more : List ℕ) → number < 2 ^ 64 → next_event core.now.state e.task ≡ Some e
        → text.now ≡ line_of script.now (entry number e) ++ more → result ≡ Some e }
{
    let same = core.tasks() == script.tasks();
    prove!(same);
    let t: TaskId = task_called(script, second_word(text)?, last)?;
    core.next(t)
}

// What stands after the line of the next event, where the text begins with it.
fn after_line<'a>(
    script: &Script,
    core: &Core,
    e: &Event,
    text: &'a [u8],
    buf: &mut Vec<u8>,
) -> Option<&'a [u8]>
    requires entry { IsWellFormed script.now (entry (core.now.made + 1) e.now) }
    requires made { core.now.made < 2 ^ 62 }
    requires room { LINE_LIMIT ≤ vec_capacity buf.old }
    ensures parts { MatchOption result ((more : List ℕ) → text.now ≢ line_of script.now (entry (core.now.made + 1) e.now) ++ more)
        (λ more. text.now ≡ line_of script.now (entry (core.now.made + 1) e.now) ++ more.now) }
    ensures capacity { vec_capacity buf.old ≤ vec_capacity buf.new }
{
    buf.clear();
    write_event(script, core.made() + 1, e, buf);
    after_front(text, buf.as_slice())
}

// Makes the next event whose line the text begins with, where there is one, and answers what stands after it, and
// who moved.
fn play_line<'a>(
    script: &Script,
    core: &mut Core,
    text: &'a [u8],
    last: Option<TaskId>,
    buf: &mut Vec<u8>,
) -> Option<(&'a [u8], TaskId)>
    requires script { IsOf script.now core.old.state }
    requires made { core.old.made < 2 ^ 62 }
    requires last { IfSome last (λ t. t.0 < length script.now.tasks) }
    requires room { LINE_LIMIT ≤ vec_capacity buf.old }
    ensures plays { MatchOption result ((core.new ≡ core.old) × PlaysNone script.now core.old text.now)
        (λ played. Plays script.now core.old text.now core.new played.0.now) }
    ensures task { IfSome result (λ played. played.1.0 < length script.now.tasks) }
    ensures script { IsOf script.now core.new.state }
    ensures capacity { vec_capacity buf.old ≤ vec_capacity buf.new }
{
    let next = named_event(script, core, text, last);
    let Some(e) = &next else {
        return None;
    };
    let more = after_line(script, core, e, text, buf)?;
    core.apply(e);
    Some((more, e.task))
}

/// Makes the events whose lines the text begins with, each the next one of its task, and answers what stands
/// after these lines.
pub(crate) fn play_lines<'a>(
    script: &Script,
    core: &mut Core,
    text: &'a [u8],
    buf: &mut Vec<u8>,
) -> &'a [u8]
    requires start { core.old ≡ record { state = start script.now; made = 0 } }
    requires script { IsOf script.now core.old.state }
    requires few { length text.now < 2 ^ 62 }
    requires room { LINE_LIMIT ≤ vec_capacity buf.old }
    ensures played { IsPlayed script.now text.now core.new result.now }
    ensures long { core.new.made + length result.now ≤ length text.now }
    ensures none { PlaysNone script.now core.new result.now }
    ensures script { IsOf script.now core.new.state }
    ensures capacity { vec_capacity buf.old ≤ vec_capacity buf.new }
{
    let mut rest = text;
    let mut last = None;
    'lines: while let Some((more, t)) = play_line(script, core, rest, last, buf) {
        rest = more;
        last = Some(t);
    }
    rest
}

/// What stands after the state's end line, where the text begins with it; else what is wrong with the text's
/// first line, which has this number and isn't that of a next event.
pub(crate) fn judge_end<'a>(
    script: &Script,
    core: &Core,
    line: u32,
    text: &'a [u8],
    buf: &mut Vec<u8>,
) -> Result<&'a [u8], Wrong>
    requires room { LINE_LIMIT ≤ vec_capacity buf.old }
    ensures ok { IfOk result (λ more. text.now ≡ end_line (ended_of core.now.state) ++ more.now) }
    ensures shorter { IfOk result (λ more. length more.now < length text.now) }
    ensures wrong { IfErr result (λ wrong. (more : List ℕ) → text.now ≢ end_line (ended_of core.now.state) ++ more) }
    ensures line { IfErr result (λ wrong. wrong.line ≡ line) }
    ensures cause { IfErr result (λ wrong. (events : List Event) →
        IsWhy script.now (first_line text.now) (at_event events) (why_number wrong.why)) }
    ensures capacity { vec_capacity buf.old ≤ vec_capacity buf.new }
{
    buf.clear();
    write_end_line(core.ended(), buf);
    match after_front(text, buf.as_slice()) {
        Some(more) => Ok(more),
        None => Err(Wrong {
            line,
            why: why_not_due(script, first_line(text)),
        }),
    }
}

// What is wrong with a line where an event or the end line is due.
fn why_not_due(script: &Script, line: &[u8]) -> Why
    ensures { (events : List Event) → IsWhy script.now line.now (at_event events) (why_number result) }
{
    if is_end_line(line) {
        return Why::OtherEnd;
    }
    match read_line(script, line) {
        Ok(_) => Why::OtherEvent,
        Err(_) => Why::NoLine,
    }
}

// Whether it is one of the three end lines.
fn is_end_line(line: &[u8]) -> bool
    ensures { IsTrue result ↔ IsEndLine line.now }
{
    line == b"end done\n".as_slice()
        || line == b"end stuck\n".as_slice()
        || line == b"end limit\n".as_slice()
}
