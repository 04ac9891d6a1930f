// The summary of a replay: how many events of each kind it has, and how many give each reply.
ghost use Rattle.std.specs.Prelude.{◌≡◌, ◌++◌, List, flat_map, IfOk, OnOk};
ghost use Rattle.rt_model.specs.declared.event.Event.{Event};
ghost use Rattle.rt_events.specs.Journal.{end_line};
ghost use Rattle.rt_policy.specs.Counts.{AreCountsOf, kind_count, reply_count};
ghost use Rattle.rt_top.specs.Summary.{events_line, replies_line, script_line, summary_header, summary_of};

use rt_base::limits::LINE_LIMIT;
use rt_base::{Ended, NoMemory, Reply};
use rt_events::{
    EventKind, append, kind_text, push_byte, push_number, push_word, reply_text, write_end_line,
};
use rt_policy::Counts;
use std::alloc::{AllocError, Global};

/// Every kind of event, in the order in which a summary has them.
const KINDS: [EventKind; 25] = [
    EventKind::Fast,
    EventKind::Free,
    EventKind::Mark,
    EventKind::Take,
    EventKind::Wait,
    EventKind::Walk,
    EventKind::WalkEnd,
    EventKind::Restart,
    EventKind::Cycle,
    EventKind::Again,
    EventKind::Leave,
    EventKind::Give,
    EventKind::RIn,
    EventKind::ROut,
    EventKind::Unbias,
    EventKind::WTake,
    EventKind::WSleep,
    EventKind::WOpen,
    EventKind::WWake,
    EventKind::Busy,
    EventKind::State,
    EventKind::Sched,
    EventKind::Wake,
    EventKind::SetPrio,
    EventKind::Own,
];

/// Every reply, in the order in which a summary has them.
const REPLIES: [Reply; 10] = [
    Reply::Got,
    Reply::Busy,
    Reply::Deadlock,
    Reply::Interrupted,
    Reply::NotOwner,
    Reply::Nesting,
    Reply::Pinned,
    Reply::Woke,
    Reply::Missed,
    Reply::Done,
];

// Appends the line of a kind of which there are so many events.
fn push_events(kind: EventKind, count: u64, out: &mut Vec<u8>) -> Result<(), AllocError>
    ensures { OnOk result (out.new.items ≡ out.old.items ++ events_line kind count) }
{
    out.reserve(LINE_LIMIT)?;
    append(out, b"events");
    push_word(out, kind_text(kind, 0));
    push_number(out, count);
    push_byte(out, b'\n');
    Ok(())
}

// Appends the line of a reply that so many events give.
fn push_replies(reply: Reply, count: u64, out: &mut Vec<u8>) -> Result<(), AllocError>
    ensures { OnOk result (out.new.items ≡ out.old.items ++ replies_line reply count) }
{
    out.reserve(LINE_LIMIT)?;
    append(out, b"replies");
    push_word(out, reply_text(reply));
    push_number(out, count);
    push_byte(out, b'\n');
    Ok(())
}

// Appends the lines of these kinds.
fn push_kinds(kinds: &[EventKind], counts: &Counts, out: &mut Vec<u8>) -> Result<(), AllocError>
    ensures { OnOk result (out.new.items ≡ out.old.items
        ++ flat_map (λ kind. events_line kind (kind_count counts.now kind)) kinds.now) }
{
    for kind in kinds {
        push_events(*kind, counts.kind(*kind), out)?;
    }
    Ok(())
}

// Appends the lines of these replies.
fn push_answers(answers: &[Reply], counts: &Counts, out: &mut Vec<u8>) -> Result<(), AllocError>
    ensures { OnOk result (out.new.items ≡ out.old.items
        ++ flat_map (λ reply. replies_line reply (reply_count counts.now reply)) answers.now) }
{
    for reply in answers {
        push_replies(*reply, counts.reply(*reply), out)?;
    }
    Ok(())
}

// Appends the lines that stand before the counts.
fn push_head(number: u32, out: &mut Vec<u8>) -> Result<(), AllocError>
    ensures { OnOk result (out.new.items ≡ out.old.items ++ (summary_header ++ script_line number)) }
{
    out.reserve(LINE_LIMIT)?;
    append(out, b"rtgen 1\nscript");
    push_number(out, number as u64);
    push_byte(out, b'\n');
    Ok(())
}

// Appends the line that tells how the run ended.
fn push_end(ended: Ended, out: &mut Vec<u8>) -> Result<(), AllocError>
    ensures { OnOk result (out.new.items ≡ out.old.items ++ end_line ended) }
{
    out.reserve(LINE_LIMIT)?;
    write_end_line(ended, out);
    Ok(())
}

/// The summary of a replay of the script of that number, whose events were counted so, and which ended so.
pub fn summary(
    alloc: Global,
    number: u32,
    counts: &Counts,
    ended: Ended,
) -> Result<Vec<u8>, NoMemory>
    ensures { IfOk result (λ text.
        (events : List Event) → AreCountsOf counts.now events → text.items ≡ summary_of number events ended) }
{
    let mut text = Vec::new(alloc);
    push_head(number, &mut text)?;
    push_kinds(&KINDS, counts, &mut text)?;
    push_answers(&REPLIES, counts, &mut text)?;
    push_end(ended, &mut text)?;
    Ok(text)
}
