// A run made and counted, with nothing written.
ghost use Rattle.std.specs.Prelude.{◌≡◌, ◌+◌, ◌^◌, ◌<◌, ◌≤◌, ◌++◌, ◌∷◌, [], List, length, Some, IfSome};
ghost use Rattle.rt_base.specs.Script.{Script};
ghost use Rattle.rt_base.specs.declared.reply.Reply.{Reply};
ghost use Rattle.rt_model.specs.declared.event.Event.{Event};
ghost use Rattle.rt_model.specs.declared.event_kind.EventKind.{EventKind};
ghost use Rattle.rt_model.specs.laws.Shape.{IsOf};
ghost use Rattle.rt_model.specs.NextEvent.{next_event};
ghost use Rattle.rt_model.specs.StateAfter.{state_after};
ghost use Rattle.rt_model.specs.Order.{chosen};
ghost use Rattle.rt_model.specs.Run.{ended_of};
ghost use Rattle.rt_policy.specs.Counts.{AreAtMost, AreCountsOf, kind_count, of_kind, reply_count, with_reply};
ghost use Rattle.rt_policy.specs.Moving.{MovesTo, made_of};
ghost use Rattle.rt_policy.specs.Playing.{IsLastOf};
ghost use Rattle.rt_policy.specs.Turns.{TellsLimit, by_picks, chosen_after, played_from};

use crate::counts::Counts;
use crate::order::pick_next;
use rt_base::{Ended, TaskId};
use rt_core::Core;
use rt_model::Event;
use rt_script::Script;

/// Makes an event, the next one of its task, and counts it.
fn count_event(core: &mut Core, e: &Event, counts: &mut Counts)
    requires next { next_event core.old.state e.now.task ≡ Some e.now }
    requires made { core.old.made < 2 ^ 62 }
    requires few { AreAtMost core.old.made counts.old }
    ensures state { core.new.state ≡ state_after core.old.state e.now }
    ensures made { core.new.made ≡ core.old.made + 1 }
    ensures counts { (events : List Event) → AreCountsOf counts.old events
        → AreCountsOf counts.new (events ++ e.now ∷ []) }
    ensures few { AreAtMost core.new.made counts.new }
    ensures script { (script : Script) → IsOf script core.old.state → IsOf script core.new.state }
{
    counts.add(e);
    core.apply(e);
}

/// Makes a task's next event and counts it, where it has one, and answers who moved last then.
fn count_next(
    core: &mut Core,
    t: TaskId,
    last: Option<TaskId>,
    counts: &mut Counts,
) -> Option<TaskId>
    requires task { t.0 < length core.old.state.threads }
    requires made { core.old.made < 2 ^ 62 }
    requires few { AreAtMost core.old.made counts.old }
    ensures moves { MovesTo t (next_event core.old.state t) core.old.state last core.new.state result }
    ensures made { core.new.made ≡ core.old.made + length (made_of (next_event core.old.state t)) }
    ensures counts { (events : List Event) → AreCountsOf counts.old events
        → AreCountsOf counts.new (events ++ made_of (next_event core.old.state t)) }
    ensures few { AreAtMost core.new.made counts.new }
    ensures script { (script : Script) → IsOf script core.old.state → IsOf script core.new.state }
{
    match &core.next(t) {
        Some(e) => {
            count_event(core, e, counts);
            Some(t)
        }
        None => last,
    }
}

/// Makes the picks' events in order and counts them, passing over a pick of a task that has no next event, and
/// answers who moved last.
fn count_picks(core: &mut Core, script: &Script, counts: &mut Counts) -> Option<TaskId>
    requires script { IsOf script.now core.old.state }
    requires made { core.old.made < 2 ^ 61 }
    requires few { AreAtMost core.old.made counts.old }
    ensures state { core.new.state ≡ (by_picks script.now core.old.state).state }
    ensures last { result ≡ (by_picks script.now core.old.state).last }
    ensures within { IsLastOf script.now result }
    ensures made { core.new.made ≡ core.old.made + length (by_picks script.now core.old.state).events }
    ensures short { core.new.made < core.old.made + 2 ^ 61 }
    ensures counts { (events : List Event) → AreCountsOf counts.old events
        → AreCountsOf counts.new (events ++ (by_picks script.now core.old.state).events) }
    ensures few { AreAtMost core.new.made counts.new }
    ensures script { IsOf script.now core.new.state }
{
    let mut last = None;
    for t in script.picks() {
        last = count_next(core, *t, last, counts);
    }
    last
}

/// Makes events in the stated order, at most `turns`, and counts them.
fn count_chosen(core: &mut Core, last: Option<TaskId>, turns: u64, counts: &mut Counts)
    requires script { (script : Script) × IsOf script core.old.state }
    requires last { IfSome last (λ t. t.0 < length core.old.state.threads) }
    requires made { core.old.made + turns < 2 ^ 62 }
    requires few { AreAtMost core.old.made counts.old }
    ensures state { core.new.state ≡ (chosen turns core.old.state last).state }
    ensures made { core.new.made ≡ core.old.made + length (chosen turns core.old.state last).events }
    ensures counts { (events : List Event) → AreCountsOf counts.old events
        → AreCountsOf counts.new (events ++ (chosen turns core.old.state last).events) }
    ensures script { (script : Script) → IsOf script core.old.state → IsOf script core.new.state }
{
    let mut last = last;
    for _turn in 0..turns {
        let Some(t) = pick_next(core, last) else {
            return;
        };
        last = count_next(core, t, last, counts);
    }
}

/// Makes the picks, passing over a pick of a task that has no next event, and then at most `turns` events in the
/// stated order, and answers how many of each kind they are and how many give each reply, and how the run stands
/// then. Nothing is written.
pub fn count_replay(core: &mut Core, script: &Script, turns: u64) -> (Counts, Ended)
    requires script { IsOf script.now core.old.state }
    requires made { core.old.made + turns < 2 ^ 61 }
    ensures kinds { (kind : EventKind)
        → kind_count result.0 kind ≡ of_kind kind (played_from script.now core.old.state turns).events }
    ensures replies { (reply : Reply)
        → reply_count result.0 reply ≡ with_reply reply (played_from script.now core.old.state turns).events }
    ensures state { core.new.state ≡ (played_from script.now core.old.state turns).state }
    ensures made { core.new.made
        ≡ core.old.made + length (played_from script.now core.old.state turns).events }
    ensures ended { result.1 ≡ ended_of core.new.state }
    ensures limit { TellsLimit turns (chosen_after script.now core.old.state turns) result.1 }
    ensures script { IsOf script.now core.new.state }
{
    let mut counts = Counts::new();
    let last = count_picks(core, script, &mut counts);
    count_chosen(core, last, turns, &mut counts);
    (counts, core.ended())
}
