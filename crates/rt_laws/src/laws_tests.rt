use crate::{at_rest, cycle_at};
use rt_base::{LockId, TaskId};
use rt_core::{Core, Note};
use rt_model::EventKind;
use rt_script::read_script;
use std::alloc::Global;
use std::process::Abort;
use std::test::Fail;

const A: TaskId = TaskId(0);

const B: TaskId = TaskId(1);

const C: TaskId = TaskId(2);

const D: TaskId = TaskId(3);

const M1: LockId = LockId(0);

const M2: LockId = LockId(1);

const M3: LockId = LockId(2);

// The task whose event is made, and of the state that it leaves whether no walk is pending, and whether the
// cycle stands.
type Step = (TaskId, bool, bool);

#[test]
fn a_deadlock_is_told(rt: HostRuntime) -> Result<(), Fail> {
    let text = b"rtscript 1\ntask a 50 0\ntask b 40 0\nlock m1 mutex\nlock m2 mutex\n\
        call a lock m1\ncall a lock m2\ncall a unlock m2\ncall a unlock m1\n\
        call b lock m2\ncall b lock m1\ncall b unlock m2\ngo\n";
    let steps = [
        (A, true, false),
        (B, true, false),
        (A, true, false),
        (A, true, false),
        (B, true, false),
        // B is queued, and its walk goes round.
        (B, false, true),
        (B, false, true),
        // It leaves the queue, and a walk tells the others.
        (B, false, false),
        (B, true, false),
        (B, true, false),
        (A, true, false),
        (A, true, false),
        (A, true, false),
    ];
    plays(&rt, rt.alloc(), text, &[(A, M2), (B, M1)], steps.as_slice())
}

#[test]
fn a_cycle_is_broken(rt: HostRuntime) -> Result<(), Fail> {
    let text = b"rtscript 1\ntask a 50 0\ntask b 50 0\ntask c 50 0\ntask d 50 0\n\
        lock m1 mutex\nlock m2 mutex\nlock m3 mutex\n\
        call a lock m1\ncall a lockint m2\ncall a unlock m1\n\
        call b lock m2\ncall b lock m3\ncall b unlock m3\ncall b unlock m2\n\
        call c lock m3\ncall c lock m1\ncall c unlock m1\ncall c unlock m3\n\
        call d signal a\ngo\n";
    let steps = [
        (A, true, false),
        (B, true, false),
        (C, true, false),
        (A, true, false),
        (A, true, false),
        (B, true, false),
        (B, true, false),
        (C, true, false),
        // C is queued and walks a link; the signal alone breaks nothing.
        (C, false, true),
        (C, false, true),
        (D, false, true),
        // A leaves the queue, and C's walk comes round, begins anew, and ends.
        (A, false, false),
        (C, false, false),
        (C, false, false),
        (C, true, false),
        (A, true, false),
        (C, true, false),
        (C, true, false),
        (C, true, false),
        (B, true, false),
        (B, true, false),
        (B, true, false),
    ];
    plays(
        &rt,
        rt.alloc(),
        text,
        &[(A, M2), (B, M3), (C, M1)],
        steps.as_slice(),
    )
}

// The states up to the wait of C are those of a chain that is cut there, too.
#[test]
fn a_chain_has_no_cycle(rt: HostRuntime) -> Result<(), Fail> {
    let text = b"rtscript 1\ntask a 90 0\ntask b 50 0\ntask c 10 0\nlock m1 mutex\nlock m2 mutex\n\
        call a lock m1\ncall a unlock m1\n\
        call b lock m2\ncall b lock m1\ncall b unlock m1\ncall b unlock m2\n\
        call c lock m2\ncall c unlock m2\ngo\n";
    let steps = [
        (A, true, false),
        (B, true, false),
        (B, true, false),
        (B, true, false),
        (C, true, false),
        (C, false, false),
        (C, true, false),
        (A, true, false),
        (B, true, false),
        (B, true, false),
        (B, true, false),
        (C, true, false),
        (C, true, false),
    ];
    plays(&rt, rt.alloc(), text, &[], steps.as_slice())
}

// C waits for a lock of the cycle, and is on none itself.
#[test]
fn a_task_leads_into_a_cycle(rt: HostRuntime) -> Result<(), Fail> {
    let text = b"rtscript 1\ntask a 50 0\ntask b 50 0\ntask c 50 0\nlock m1 mutex\nlock m2 mutex\n\
        call a lock m1\ncall a lock m2\ncall b lock m2\ncall b lock m1\ncall c lock m1\ngo\n";
    let steps = [
        (A, true, false),
        (B, true, false),
        (A, true, false),
        (A, true, false),
        (B, true, false),
        (B, false, true),
        (C, false, true),
        (C, false, true),
    ];
    plays(&rt, rt.alloc(), text, &[(A, M2), (B, M1)], steps.as_slice())
}

// Plays a script, and compares each state; the cycle is told from one of its tasks on.
fn plays(
    rt: &impl Abort,
    alloc: Global,
    text: &[u8],
    cycle: &[(TaskId, LockId)],
    steps: &[Step],
) -> Result<(), Fail> {
    assert!(rt; text.len() < 1000);
    let script = read_script(alloc, text)?;
    let mut core = Core::new(alloc, &script)?;
    tells(rt, &core, true, &[]);
    for &(t, rest, stands) in steps {
        assert!(rt; moves(rt, &mut core, t).is_some());
        tells(rt, &core, rest, if stands { cycle } else { &[] });
    }
    Ok(())
}

// Makes the next event of a task, where it has one, and answers its kind.
fn moves(rt: &impl Abort, core: &mut Core, t: TaskId) -> Option<EventKind> {
    assert!(rt; t.0 < core.tasks() && core.made() < 1000);
    let event = core.next(t)?;
    core.apply(&event);
    Some(event.kind)
}

// Compares whether no walk is pending, when effective priorities are graph priorities, and the cycle at each
// task: where the task is on it, it is told from there on.
fn tells(rt: &impl Abort, core: &Core, rest: bool, cycle: &[(TaskId, LockId)]) {
    assert_eq!(rt; at_rest(core), rest);
    for t in 0..core.tasks() {
        if rest {
            assert_eq!(rt; core.effective(TaskId(t)), core.graph_priority(TaskId(t)));
        }
        let found = cycle_at(core, TaskId(t));
        let at = cycle.iter().position(|pair| pair.0.0 == t);
        assert_eq!(rt; found.is_some(), at.is_some());
        if let (Some(path), Some(at)) = (found, at) {
            assert_eq!(rt; path.len(), cycle.len());
            for i in 0..path.len() {
                assert_eq!(rt; path.at(i), cycle[(at + i) % cycle.len()]);
            }
        }
    }
}

// Eight tasks over seven mutexes: all but A, which has the first mutex, and H, which comes late, move by
// turns, so that each walk is left after each of its links. From C, which walks one, to H each task walks one
// link more. A moves where nobody else can.
#[test]
fn walks_along_a_long_chain(rt: HostRuntime) -> Result<(), Fail> {
    let text = b"rtscript 1\ntask a 80 0\ntask b 70 0\ntask c 60 0\ntask d 50 0\n\
        task e 40 0\ntask f 30 0\ntask g 20 0\ntask h 10 0\n\
        lock m mutex\nlock n mutex\nlock o mutex\nlock p mutex\nlock q mutex\nlock r mutex\nlock s mutex\n\
        call a lock m\ncall a unlock m\n\
        call b lock n\ncall b lock m\ncall b unlock m\ncall b unlock n\n\
        call c lock o\ncall c lock n\ncall c unlock n\ncall c unlock o\n\
        call d lock p\ncall d lock o\ncall d unlock o\ncall d unlock p\n\
        call e lock q\ncall e lock p\ncall e unlock p\ncall e unlock q\n\
        call f lock r\ncall f lock q\ncall f unlock q\ncall f unlock r\n\
        call g lock s\ncall g lock r\ncall g unlock r\ncall g unlock s\n\
        call h lock s\ncall h unlock s\ngo\n";
    let script = read_script(rt.alloc(), text)?;
    let mut core = Core::new(rt.alloc(), &script)?;
    let (mut links, mut most) = (0, 0);
    let _ = moves(&rt, &mut core, A);
    for round in 0..60 {
        let mut moved = false;
        for t in 1..8 {
            if t < 7 || round > 2 {
                let kind = moves(&rt, &mut core, TaskId(t));
                moved = moved || kind.is_some();
                if kind == Some(EventKind::Walk) {
                    assert!(rt; links < 100);
                    links += 1;
                }
                let walks = walking(&rt, &core);
                tells(&rt, &core, walks == 0, &[]);
                most = walks.max(most);
            }
        }
        if !moved {
            let _ = moves(&rt, &mut core, A);
            tells(&rt, &core, true, &[]);
        }
    }
    assert!(rt; core.done());
    assert_eq!(rt; (links, most), (21, 5));
    Ok(())
}

/// How many tasks are noted to walk.
pub(crate) fn walking(rt: &impl Abort, core: &Core) -> u32 {
    let mut walks = 0;
    for t in 0..core.tasks() {
        match core.note(TaskId(t)) {
            Note::Walk(_) | Note::Confirm => {
                assert!(rt; walks <= t);
                walks += 1;
            }
            _ => {}
        }
    }
    walks
}
