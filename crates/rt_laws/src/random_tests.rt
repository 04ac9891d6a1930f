// Scripts that are drawn from a number are played, and after each event what can be told of the state is asked.
ghost use Rattle.rt_model.specs.laws.Shape.{IsOf};

mod asked;
mod draws;
mod held;
mod known;
mod seen;
mod text;
mod told;

use crate::random_tests::asked::{ask, ask_at_end};
use crate::random_tests::draws::Draws;
use crate::random_tests::seen::Seen;
use crate::random_tests::text::script_text;
use crate::random_tests::told::Told;
use rt_base::TaskId;
use rt_core::Core;
use rt_script::{Script, read_script};
use std::alloc::Global;
use std::process::Abort;
use std::test::Fail;

#[test]
fn two_thousand_scripts(rt: HostRuntime) -> Result<(), Fail> {
    let mut seen = Seen::NONE;
    for number in 0..2000 {
        let text = script_text(rt.alloc(), number)?;
        assert!(rt; text.len() < 1_000_000);
        let script = read_script(rt.alloc(), text.as_bytes())?;
        seen = plays(&rt, rt.alloc(), &script, number, seen)?;
    }
    assert_eq!(rt; seen.missing(), 0, "{seen:?}");
    Ok(())
}

// Plays a script, in which tasks are drawn at first, and then comes the stated order.
fn plays(
    rt: &impl Abort,
    alloc: Global,
    script: &Script,
    number: u64,
    seen: Seen,
) -> Result<Seen, Fail> {
    let mut core = Core::new(alloc, script)?;
    let mut told = Told::new(alloc, script, number, seen)?;
    ask(rt, script, &core, &told);
    draw_movers(rt, script, &mut core, &mut told, Draws::new(!number));
    finish(rt, script, &mut core, &mut told);
    ask_at_end(rt, script, &core, &told);
    Ok(told.seen())
}

// Makes events of tasks that are drawn. A walk goes on now and then only, so that others come between its links.
fn draw_movers(rt: &impl Abort, script: &Script, core: &mut Core, told: &mut Told, mut draws: Draws)
    requires { IsOf script.now core.old.state }
    ensures { IsOf script.now core.new.state }
{
    let slow = 1 + draws.below(20);
    'draws: for _ in 0..draws.below(4000) {
        assert!(rt; core.tasks() > 0);
        let t = TaskId(draws.below(core.tasks()));
        if !core.is_walking(t) || draws.one_in(slow) {
            make_event(rt, script, core, told, t);
        }
    }
}

// Makes events in the stated order, up to the end.
fn finish(rt: &impl Abort, script: &Script, core: &mut Core, told: &mut Told)
    requires { IsOf script.now core.old.state }
    ensures { IsOf script.now core.new.state }
{
    let mut last = TaskId(0);
    'turns: for _ in 0..50_000 {
        let Some(t) = next_mover(rt, core, last) else {
            break;
        };
        make_event(rt, script, core, told, t);
        last = t;
    }
}

// Who moves next: the task that moved last, else one that walks, else any.
fn next_mover(rt: &impl Abort, core: &Core, last: TaskId) -> Option<TaskId> {
    assert!(rt; last.0 < core.tasks());
    if core.is_enabled(last) {
        Some(last)
    } else {
        core.lowest_walking().or(core.lowest_enabled())
    }
}

// Makes the next event of a task, where it has one, and asks of the state that it leaves.
fn make_event(rt: &impl Abort, script: &Script, core: &mut Core, told: &mut Told, t: TaskId)
    requires { IsOf script.now core.old.state }
    ensures { IsOf script.now core.new.state }
{
    assert!(rt; t.0 < core.tasks() && t.0 < script.tasks() && core.made() < 100_000);
    let Some(event) = core.next(t) else { return };
    let Some(call) = script.calls(t).get(core.place(t) as usize) else {
        panic!(rt; "an event after the last call");
    };
    core.apply(&event);
    told.goes_on(rt, script, &event, call);
    ask(rt, script, core, told);
}
