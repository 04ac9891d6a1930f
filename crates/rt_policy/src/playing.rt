// A run made and told: the picks, and the stated choice.
ghost use Rattle.std.specs.Prelude.{◌≡◌, ◌+◌, ◌^◌, ◌<◌, ◌≤◌, [], length, vec_capacity, IfOk, OnOk, OnErr, Some};
ghost use Rattle.rt_base.specs.Outside.{Rises, Writes};
ghost use Rattle.rt_model.specs.laws.Shape.{IsOf};
ghost use Rattle.rt_model.specs.NextEvent.{next_event};
ghost use Rattle.rt_model.specs.StateAfter.{state_after};
ghost use Rattle.rt_model.specs.Order.{chosen};
ghost use Rattle.rt_model.specs.Run.{ended_of};
ghost use Rattle.rt_events.specs.Entry.{entry};
ghost use Rattle.rt_events.specs.Line.{line_of};
ghost use Rattle.rt_events.specs.WellFormed.{IsWellFormed};
ghost use Rattle.rt_events.specs.Journal.{lines_of};
ghost use Rattle.rt_policy.specs.Printing.{PrintsTo};
ghost use Rattle.rt_policy.specs.Playing.{IsLastOf, IsPartMade, Moves, Stops};
ghost use Rattle.rt_policy.specs.Turns.{TellsLimit, by_picks};

use crate::order::pick_next;
use crate::printing::{flush, flush_if_full};
use crate::progress::Progress;
use rt_base::limits::LINE_LIMIT;
use rt_base::{Ended, Failed, Sink, TaskId};
use rt_core::Core;
use rt_events::write_event;
use rt_model::Event;
use rt_script::Script;

/// Makes the next event of its task and gathers its line. `Failed` leaves the core as it was.
fn make_event<K: Sink>(
    core: &mut Core,
    script: &Script,
    e: &Event,
    number: u64,
    buf: &mut Vec<u8>,
    out: &mut K,
) -> Result<(), Failed>
    requires next { next_event core.old.state e.now.task ≡ Some e.now }
    requires script { IsOf script.now core.old.state }
    requires entry { IsWellFormed script.now (entry number e.now) }
    requires made { core.old.made < 2 ^ 62 }
    requires room { LINE_LIMIT ≤ vec_capacity buf.old }
    ensures prints { PrintsTo K.held K.faults result out.old buf.old.items out.new buf.new.items
        (line_of script.now (entry number e.now)) }
    ensures state { OnOk result (core.new.state ≡ state_after core.old.state e.now) }
    ensures made { OnOk result (core.new.made ≡ core.old.made + 1) }
    ensures script { IsOf script.now core.new.state }
    ensures err { OnErr result (core.new ≡ core.old) }
    ensures capacity { vec_capacity buf.old ≤ vec_capacity buf.new }
{
    flush_if_full(buf, out)?;
    write_event(script, number, e, buf);
    core.apply(e);
    Ok(())
}

/// Makes an event of the run, the next one of its task.
fn play_event<K: Sink>(
    core: &mut Core,
    script: &Script,
    e: &Event,
    first: u64,
    so_far: Progress,
    buf: &mut Vec<u8>,
    out: &mut K,
) -> Result<Progress, Failed>
    requires next { next_event core.old.state e.now.task ≡ Some e.now }
    requires entry { IsWellFormed script.now (entry (first + so_far.count) e.now) }
    requires task { e.now.task.0 < length script.now.tasks }
    requires script { IsOf script.now core.old.state }
    requires made { core.old.made < 2 ^ 62 }
    requires number { first + so_far.count < 2 ^ 63 }
    requires room { LINE_LIMIT ≤ vec_capacity buf.old }
    ensures moves { IfOk result (λ now.
        Moves script.now first e.now.task (Some e.now) core.old.state core.new.state so_far now
        (K.held out.old) buf.old.items (K.held out.new) buf.new.items) }
    ensures made { IfOk result (λ now. core.new.made + so_far.count ≡ core.old.made + now.count) }
    ensures few { IfOk result (λ now. now.count ≤ so_far.count + 1) }
    ensures within { IfOk result (λ now. IsLastOf script.now so_far.last → IsLastOf script.now now.last) }
    ensures no_fault { OnOk result (K.faults out.new ≡ K.faults out.old) }
    ensures stops { OnErr result (Stops script.now first (Some e.now)
        core.old.state core.new.state so_far (K.held out.old) buf.old.items (K.held out.new)) }
    ensures err { OnErr result (core.new ≡ core.old) }
    ensures cause { OnErr result (Rises (K.faults out.old) (K.faults out.new)) }
    ensures count { K.faults out.old ≤ K.faults out.new }
    ensures script { IsOf script.now core.new.state }
    ensures capacity { vec_capacity buf.old ≤ vec_capacity buf.new }
{
    make_event(core, script, e, first + so_far.count, buf, out)?;
    Ok(Progress {
        count: so_far.count + 1,
        last: Some(e.task),
    })
}

/// Makes a task's next event and gathers its line, where it has one.
fn play<K: Sink>(
    core: &mut Core,
    script: &Script,
    t: TaskId,
    first: u64,
    so_far: Progress,
    buf: &mut Vec<u8>,
    out: &mut K,
) -> Result<Progress, Failed>
    requires task { t.0 < length script.now.tasks }
    requires script { IsOf script.now core.old.state }
    requires made { core.old.made < 2 ^ 62 }
    requires number { first + so_far.count < 2 ^ 63 }
    requires room { LINE_LIMIT ≤ vec_capacity buf.old }
    ensures moves { IfOk result (λ now.
        Moves script.now first t (next_event core.old.state t) core.old.state core.new.state so_far now
        (K.held out.old) buf.old.items (K.held out.new) buf.new.items) }
    ensures made { IfOk result (λ now. core.new.made + so_far.count ≡ core.old.made + now.count) }
    ensures few { IfOk result (λ now. now.count ≤ so_far.count + 1) }
    ensures within { IfOk result (λ now. IsLastOf script.now so_far.last → IsLastOf script.now now.last) }
    ensures no_fault { OnOk result (K.faults out.new ≡ K.faults out.old) }
    ensures stops { OnErr result (Stops script.now first (next_event core.old.state t)
        core.old.state core.new.state so_far (K.held out.old) buf.old.items (K.held out.new)) }
    ensures err { OnErr result (core.new ≡ core.old) }
    ensures cause { OnErr result (Rises (K.faults out.old) (K.faults out.new)) }
    ensures count { K.faults out.old ≤ K.faults out.new }
    ensures script { IsOf script.now core.new.state }
    ensures capacity { vec_capacity buf.old ≤ vec_capacity buf.new }
{
    match &core.next(t) {
        Some(e) => play_event(core, script, e, first, so_far, buf, out),
        None => Ok(so_far),
    }
}

/// Makes the picks' events in order and gathers their lines, passing over a pick of a task that has no
/// next event.
fn play_picks<K: Sink>(
    core: &mut Core,
    script: &Script,
    buf: &mut Vec<u8>,
    out: &mut K,
) -> Result<Progress, Failed>
    requires script { IsOf script.now core.old.state }
    requires made { core.old.made < 2 ^ 61 }
    requires room { LINE_LIMIT ≤ vec_capacity buf.old }
    ensures prints { PrintsTo K.held K.faults result out.old buf.old.items out.new buf.new.items
        (lines_of script.now (core.old.made + 1) (by_picks script.now core.old.state).events) }
    ensures state { OnOk result (core.new.state ≡ (by_picks script.now core.old.state).state) }
    ensures made { IfOk result (λ now. core.new.made ≡ core.old.made + now.count) }
    ensures count { IfOk result (λ now. now.count ≡ length (by_picks script.now core.old.state).events) }
    ensures few { IfOk result (λ now. now.count ≤ length script.now.picks) }
    ensures last { IfOk result (λ now. now.last ≡ (by_picks script.now core.old.state).last) }
    ensures within { IfOk result (λ now. IsLastOf script.now now.last) }
    ensures part { OnErr result (IsPartMade core.old core.new (by_picks script.now core.old.state).events) }
    ensures script { IsOf script.now core.new.state }
    ensures capacity { vec_capacity buf.old ≤ vec_capacity buf.new }
{
    let first = core.made() + 1;
    let mut now = Progress {
        count: 0,
        last: None,
    };
    for t in script.picks() {
        now = play(core, script, *t, first, now, buf, out)?;
    }
    Ok(now)
}

/// Goes through the picks in order, passing over a pick of a task that has no next event, writes the
/// lines of the events made, and answers how many they are and who moved last. `Failed` comes only from
/// the sink; then some first part of the events was made, and of `buf` nothing is said.
pub fn run_picks<K: Sink>(
    core: &mut Core,
    script: &Script,
    buf: &mut Vec<u8>,
    out: &mut K,
) -> Result<(u64, Option<TaskId>), Failed>
    requires script { IsOf script.now core.old.state }
    requires made { core.old.made < 2 ^ 61 }
    requires empty { buf.old.items ≡ [] }
    requires room { LINE_LIMIT ≤ vec_capacity buf.old }
    ensures writes { Writes result (K.held out.old) (K.held out.new) (K.faults out.old) (K.faults out.new)
        (lines_of script.now (core.old.made + 1) (by_picks script.now core.old.state).events) }
    ensures state { OnOk result (core.new.state ≡ (by_picks script.now core.old.state).state) }
    ensures made { IfOk result (λ played. core.new.made ≡ core.old.made + played.0) }
    ensures count { IfOk result (λ played. played.0 ≡ length (by_picks script.now core.old.state).events) }
    ensures few { IfOk result (λ played. played.0 ≤ length script.now.picks) }
    ensures last { IfOk result (λ played. played.1 ≡ (by_picks script.now core.old.state).last) }
    ensures within { IfOk result (λ played. IsLastOf script.now played.1) }
    ensures part { OnErr result (IsPartMade core.old core.new (by_picks script.now core.old.state).events) }
    ensures script { IsOf script.now core.new.state }
    ensures buf { OnOk result (buf.new.items ≡ []) }
    ensures capacity { vec_capacity buf.old ≤ vec_capacity buf.new }
{
    let played = play_picks(core, script, buf, out)?;
    flush(buf, out)?;
    Ok((played.count, played.last))
}

/// Makes events in the stated order, at most `turns`, and gathers their lines.
fn play_chosen<K: Sink>(
    core: &mut Core,
    script: &Script,
    last: Option<TaskId>,
    turns: u64,
    first: u64,
    buf: &mut Vec<u8>,
    out: &mut K,
) -> Result<Progress, Failed>
    requires script { IsOf script.now core.old.state }
    requires last { IsLastOf script.now last }
    requires made { core.old.made + turns < 2 ^ 62 }
    requires number { first + turns < 2 ^ 62 }
    requires room { LINE_LIMIT ≤ vec_capacity buf.old }
    ensures prints { PrintsTo K.held K.faults result out.old buf.old.items out.new buf.new.items
        (lines_of script.now first (chosen turns core.old.state last).events) }
    ensures state { OnOk result (core.new.state ≡ (chosen turns core.old.state last).state) }
    ensures made { IfOk result (λ now. core.new.made ≡ core.old.made + now.count) }
    ensures count { IfOk result (λ now. now.count ≡ length (chosen turns core.old.state last).events) }
    ensures part { OnErr result (IsPartMade core.old core.new (chosen turns core.old.state last).events) }
    ensures script { IsOf script.now core.new.state }
    ensures capacity { vec_capacity buf.old ≤ vec_capacity buf.new }
{
    let mut now = Progress { count: 0, last };
    for _turn in 0..turns {
        let Some(t) = pick_next(core, now.last) else {
            return Ok(now);
        };
        now = play(core, script, t, first, now, buf, out)?;
    }
    Ok(now)
}

/// Makes at most `turns` events in the stated order and writes their lines, numbered from `first`, and
/// answers how the run stands then. `Failed` comes only from the sink; then some first part of the events
/// was made, and of `buf` nothing is said.
pub fn finish<K: Sink>(
    core: &mut Core,
    script: &Script,
    last: Option<TaskId>,
    turns: u64,
    first: u64,
    buf: &mut Vec<u8>,
    out: &mut K,
) -> Result<Ended, Failed>
    requires script { IsOf script.now core.old.state }
    requires last { IsLastOf script.now last }
    requires made { core.old.made + turns < 2 ^ 62 }
    requires number { first + turns < 2 ^ 62 }
    requires empty { buf.old.items ≡ [] }
    requires room { LINE_LIMIT ≤ vec_capacity buf.old }
    ensures writes { Writes result (K.held out.old) (K.held out.new) (K.faults out.old) (K.faults out.new)
        (lines_of script.now first (chosen turns core.old.state last).events) }
    ensures state { OnOk result (core.new.state ≡ (chosen turns core.old.state last).state) }
    ensures made { OnOk result
        (core.new.made ≡ core.old.made + length (chosen turns core.old.state last).events) }
    ensures ended { IfOk result (λ ended. ended ≡ ended_of core.new.state) }
    ensures limit { IfOk result (TellsLimit turns (chosen turns core.old.state last)) }
    ensures part { OnErr result (IsPartMade core.old core.new (chosen turns core.old.state last).events) }
    ensures script { IsOf script.now core.new.state }
    ensures buf { OnOk result (buf.new.items ≡ []) }
    ensures capacity { vec_capacity buf.old ≤ vec_capacity buf.new }
{
    play_chosen(core, script, last, turns, first, buf, out)?;
    flush(buf, out)?;
    Ok(core.ended())
}
