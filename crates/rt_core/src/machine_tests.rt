ghost use Rattle.rt_model.specs.laws.Shape.{IsOf};

use crate::{Core, Note};
use rt_base::{LockId, Prio, Reply, TaskId, TaskState};
use rt_model::{Event, EventKind};
use rt_script::{Script, read_script};
use std::alloc::Global;
use std::process::Abort;
use std::test::Fail;

const A: TaskId = TaskId(0);

const B: TaskId = TaskId(1);

const C: TaskId = TaskId(2);

const LOCK: LockId = LockId(0);

// An event's kind, the task that it wakes, whom it boosts with which priority, and its answer.
type Told = (
    EventKind,
    Option<TaskId>,
    Option<(TaskId, u8)>,
    Option<Reply>,
);

const FAST: Told = (EventKind::Fast, None, None, Some(Reply::Got));

const FREE: Told = (EventKind::Free, None, None, Some(Reply::Done));

const STATE: Told = (EventKind::State, None, None, Some(Reply::Done));

const WAKE: Told = (EventKind::Wake, None, None, Some(Reply::Woke));

const MARK: Told = (EventKind::Mark, None, None, None);

const WAIT: Told = (EventKind::Wait, None, None, None);

const TAKE: Told = (EventKind::Take, None, None, Some(Reply::Got));

const HELD: Told = (EventKind::Own, None, None, Some(Reply::Deadlock));

const NOT_HELD: Told = (EventKind::Own, None, None, Some(Reply::NotOwner));

#[test]
fn one_task_takes_and_releases(rt: HostRuntime) -> Result<(), Fail> {
    let (free, taken) = ((None, "lock m - 0\n"), (Some(A), "lock m a 0\n"));
    for (calls, first, second, left) in [
        ("call a lock m\ncall a unlock m\n", FAST, FREE, free),
        ("call a lock m\ncall a lock m\n", FAST, HELD, taken),
        ("call a unlock m\ncall a lock m\n", NOT_HELD, FAST, taken),
    ] {
        let text = format!(in rt.alloc(); "rtscript 1\ntask a 50 0\nlock m mutex\n{calls}go\n")?;
        assert!(rt; text.len() < 100);
        let script = read_script(rt.alloc(), text.as_bytes())?;
        let mut core = Core::new(rt.alloc(), &script)?;
        makes(&rt, &script, &mut core, 0, A, first)?;
        makes(&rt, &script, &mut core, 1, A, second)?;
        is_over(&rt, &script, &core, left.0);
        let lines = ["task a 50 50 R R 2/2 end\n", left.1];
        reports(&rt, rt.alloc(), &script, &core, lines.as_slice())?;
    }
    Ok(())
}

#[test]
fn a_waiter_is_given_the_lock(rt: HostRuntime) -> Result<(), Fail> {
    let text = b"rtscript 1\ntask a 50 0\ntask b 20 0\nlock m mutex\n\
        call a lock m\ncall a unlock m\ncall b lock m\ncall b unlock m\ngo\n";
    let script = read_script(rt.alloc(), text)?;
    let mut core = Core::new(rt.alloc(), &script)?;
    makes(&rt, &script, &mut core, 0, A, FAST)?;
    makes(&rt, &script, &mut core, 1, B, MARK)?;
    let wait = (EventKind::Wait, None, Some((A, 20)), None);
    makes(&rt, &script, &mut core, 2, B, wait)?;
    b_waits(&rt, &core)?;
    let lines = [
        "task a 50 20 R R 1/2 ready\n",
        "task b 20 20 D R 0/2 lock m 20\n",
        "lock m a 1 b:20\n",
    ];
    reports(&rt, rt.alloc(), &script, &core, lines.as_slice())?;
    let give = (EventKind::Give, Some(B), Some((A, 50)), Some(Reply::Done));
    makes(&rt, &script, &mut core, 3, A, give)?;
    b_is_woken(&rt, &core);
    makes(&rt, &script, &mut core, 4, B, TAKE)?;
    makes(&rt, &script, &mut core, 5, B, FREE)?;
    let lines = [
        "task a 50 50 R R 2/2 end\n",
        "task b 20 20 R R 2/2 end\n",
        "lock m - 0\n",
    ];
    reports(&rt, rt.alloc(), &script, &core, lines.as_slice())
}

#[test]
fn two_wait_and_nobody_gets_on(rt: HostRuntime) -> Result<(), Fail> {
    let text = b"rtscript 1\ntask a 50 0\ntask b 20 0\ntask c 10 0\nlock m mutex\n\
        call a lock m\ncall b lock m\ncall c lock m\ngo\n";
    let script = read_script(rt.alloc(), text)?;
    let mut core = Core::new(rt.alloc(), &script)?;
    makes(&rt, &script, &mut core, 0, A, FAST)?;
    makes(&rt, &script, &mut core, 1, B, MARK)?;
    let wait = (EventKind::Wait, None, Some((A, 20)), None);
    makes(&rt, &script, &mut core, 2, B, wait)?;
    makes(&rt, &script, &mut core, 3, C, MARK)?;
    let wait = (EventKind::Wait, None, Some((A, 10)), None);
    makes(&rt, &script, &mut core, 4, C, wait)?;
    is_stuck(&rt, &core);
    let lines = [
        "task a 50 10 R R 1/1 end\n",
        "task b 20 20 D R 0/1 lock m 20\n",
        "task c 10 10 D R 0/1 lock m 10\n",
        "lock m a 1 c:10 b:20\n",
    ];
    reports(&rt, rt.alloc(), &script, &core, lines.as_slice())
}

#[test]
fn a_walk_goes_along_a_chain(rt: HostRuntime) -> Result<(), Fail> {
    let text = b"rtscript 1\ntask a 90 0\ntask b 50 0\ntask c 10 0\nlock m mutex\nlock n mutex\n\
        call a lock m\ncall b lock n\ncall b lock m\ncall c lock n\ngo\n";
    let script = read_script(rt.alloc(), text)?;
    let mut core = Core::new(rt.alloc(), &script)?;
    makes(&rt, &script, &mut core, 0, A, FAST)?;
    makes(&rt, &script, &mut core, 1, B, FAST)?;
    makes(&rt, &script, &mut core, 2, B, MARK)?;
    let wait = (EventKind::Wait, None, Some((A, 50)), None);
    makes(&rt, &script, &mut core, 3, B, wait)?;
    makes(&rt, &script, &mut core, 4, C, MARK)?;
    let wait = (EventKind::Wait, None, Some((B, 10)), None);
    makes(&rt, &script, &mut core, 5, C, wait)?;
    c_walks(&rt, &core);
    let lines = [
        "task a 90 50 R R 1/1 end\n",
        "task b 50 10 D R 1/2 lock m 50\n",
        "task c 10 10 D R 0/1 walk b\n",
        "lock m a 1 b:50\n",
        "lock n b 1 c:10\n",
    ];
    reports(&rt, rt.alloc(), &script, &core, lines.as_slice())
}

#[test]
fn a_cycle_is_looked_at(rt: HostRuntime) -> Result<(), Fail> {
    let text = b"rtscript 1\ntask a 50 0\ntask b 40 0\nlock m mutex\nlock n mutex\n\
        call a lock m\ncall a lock n\ncall b lock n\ncall b lock m\ngo\n";
    let script = read_script(rt.alloc(), text)?;
    let mut core = Core::new(rt.alloc(), &script)?;
    makes(&rt, &script, &mut core, 0, A, FAST)?;
    makes(&rt, &script, &mut core, 1, B, FAST)?;
    makes(&rt, &script, &mut core, 2, A, MARK)?;
    makes(&rt, &script, &mut core, 3, A, WAIT)?;
    makes(&rt, &script, &mut core, 4, B, MARK)?;
    let wait = (EventKind::Wait, None, Some((A, 40)), None);
    makes(&rt, &script, &mut core, 5, B, wait)?;
    let walk = (EventKind::Walk, None, None, None);
    moves(&rt, &script, &mut core, 6, B, Note::Walk(A), walk)?;
    let lines = [
        "task a 50 40 D R 1/2 lock n 40\n",
        "task b 40 40 D R 1/2 confirm\n",
        "lock m a 1 b:40\n",
        "lock n b 1 a:40\n",
    ];
    reports(&rt, rt.alloc(), &script, &core, lines.as_slice())?;
    let cycle = (EventKind::Cycle, None, Some((A, 50)), None);
    moves(&rt, &script, &mut core, 7, B, Note::Confirm, cycle)?;
    let walk = (EventKind::Walk, None, None, Some(Reply::Deadlock));
    moves(&rt, &script, &mut core, 8, B, Note::Walk(A), walk)?;
    let lines = [
        "task a 50 50 D R 1/2 lock n 50\n",
        "task b 40 40 R R 2/2 end\n",
        "lock m a 0\n",
        "lock n b 1 a:50\n",
    ];
    reports(&rt, rt.alloc(), &script, &core, lines.as_slice())
}

// The task that sleeps without an end has a next event once the signal has come.
#[test]
fn a_signal_ends_a_wait(rt: HostRuntime) -> Result<(), Fail> {
    let text = b"rtscript 1\ntask a 50 0\ntask b 20 0\nlock m mutex\n\
        call a lock m\ncall a signal b\ncall b lockint m\ngo\n";
    let script = read_script(rt.alloc(), text)?;
    let mut core = Core::new(rt.alloc(), &script)?;
    makes(&rt, &script, &mut core, 0, A, FAST)?;
    makes(&rt, &script, &mut core, 1, B, MARK)?;
    let wait = (EventKind::Wait, None, Some((A, 20)), None);
    makes(&rt, &script, &mut core, 2, B, wait)?;
    let lines = [
        "task a 50 20 R R 1/2 ready\n",
        "task b 20 20 S R 0/1 lock m 20\n",
        "lock m a 1 b:20\n",
    ];
    reports(&rt, rt.alloc(), &script, &core, lines.as_slice())?;
    makes(&rt, &script, &mut core, 3, A, WAKE)?;
    let leave = (
        EventKind::Leave,
        None,
        Some((A, 50)),
        Some(Reply::Interrupted),
    );
    makes(&rt, &script, &mut core, 4, B, leave)?;
    let lines = [
        "task a 50 50 R R 2/2 end\n",
        "task b 20 20 R R 1/1 end\n",
        "lock m a 0\n",
    ];
    reports(&rt, rt.alloc(), &script, &core, lines.as_slice())
}

// The state as it would be if spinlocks put nobody to sleep. A wakeup in the wait for a spinlock ends the
// sleep that was set before; a wait for a mutex is a sleep of its own in the place of that one.
#[test]
fn a_spinlock_leaves_the_flat_state(rt: HostRuntime) -> Result<(), Fail> {
    let (runs, sleep) = (TaskState::Running, TaskState::Interruptible);
    let (spin, mutex) = (TaskState::LockWait, TaskState::Uninterruptible);
    for (kind, lock, unlock, waits, flat, woken) in [
        ("spin", "spin", "unspin", spin, sleep, spin),
        ("mutex", "lock", "unlock", mutex, mutex, runs),
    ] {
        let text = format!(in rt.alloc();
            "rtscript 1\ntask a 50 0\ntask b 50 0\ntask d 50 0\nlock s {kind}\n\
            call a {lock} s\ncall a {unlock} s\ncall b state S\ncall b {lock} s\ncall d wake b\ngo\n"
        )?;
        assert!(rt; text.len() < 200);
        let script = read_script(rt.alloc(), text.as_bytes())?;
        let mut core = Core::new(rt.alloc(), &script)?;
        makes(&rt, &script, &mut core, 0, A, FAST)?;
        makes(&rt, &script, &mut core, 1, B, STATE)?;
        b_is_in(&rt, &core, sleep, sleep);
        makes(&rt, &script, &mut core, 2, B, MARK)?;
        makes(&rt, &script, &mut core, 3, B, WAIT)?;
        b_is_in(&rt, &core, waits, flat);
        makes(&rt, &script, &mut core, 4, C, WAKE)?;
        b_is_in(&rt, &core, woken, runs);
        let give = (EventKind::Give, Some(B), None, Some(Reply::Done));
        makes(&rt, &script, &mut core, 5, A, give)?;
        makes(&rt, &script, &mut core, 6, B, TAKE)?;
        b_is_in(&rt, &core, runs, runs);
    }
    Ok(())
}

// So does an `rwlock_t` whose writer sleeps for readers; of an `rw_semaphore` that is a sleep of its own in
// the place of the one that was set before. The late wake of the last reader goes to the writer.
#[test]
fn a_writer_leaves_the_flat_state(rt: HostRuntime) -> Result<(), Fail> {
    let (runs, sleep) = (TaskState::Running, TaskState::Interruptible);
    let (spin, sem) = (TaskState::LockWait, TaskState::Uninterruptible);
    for (kind, waits, flat, left) in [("rwlock", spin, sleep, sleep), ("rwsem", sem, sem, runs)] {
        let text = format!(in rt.alloc();
            "rtscript 1\ntask a 50 0\ntask b 50 0\ntask d 50 0\nlock x {kind}\n\
            call a read x\ncall a unread x\ncall b state S\ncall b write x\ngo\n"
        )?;
        assert!(rt; text.len() < 200);
        let script = read_script(rt.alloc(), text.as_bytes())?;
        let mut core = Core::new(rt.alloc(), &script)?;
        let read = (EventKind::RIn, None, None, Some(Reply::Got));
        makes(&rt, &script, &mut core, 0, A, read)?;
        makes(&rt, &script, &mut core, 1, B, STATE)?;
        makes(&rt, &script, &mut core, 2, B, silent(EventKind::Fast))?;
        makes(&rt, &script, &mut core, 3, B, silent(EventKind::Unbias))?;
        makes(&rt, &script, &mut core, 4, B, silent(EventKind::WSleep))?;
        b_is_in(&rt, &core, waits, flat);
        makes(&rt, &script, &mut core, 5, A, silent(EventKind::ROut))?;
        let wake = (EventKind::WWake, Some(B), None, Some(Reply::Done));
        makes(&rt, &script, &mut core, 6, A, wake)?;
        b_is_in(&rt, &core, runs, left);
        let take = (EventKind::WTake, None, None, Some(Reply::Got));
        makes(&rt, &script, &mut core, 7, B, take)?;
        b_is_in(&rt, &core, left, left);
    }
    Ok(())
}

// An event of this kind that tells nothing else.
fn silent(kind: EventKind) -> Told {
    (kind, None, None, None)
}

// Makes the next event of a task that isn't in a walk, where so many are made, and compares it.
fn makes(
    rt: &impl Abort,
    script: &Script,
    core: &mut Core,
    made: u64,
    t: TaskId,
    want: Told,
) -> Result<(), Fail>
    requires { IsOf script.now core.old.state }
    ensures { IsOf script.now core.new.state }
{
    moves(rt, script, core, made, t, Note::Ready, want)
}

// The same of a task that stands so.
fn moves(
    rt: &impl Abort,
    script: &Script,
    core: &mut Core,
    made: u64,
    t: TaskId,
    note: Note,
    want: Told,
) -> Result<(), Fail>
    requires { IsOf script.now core.old.state }
    ensures { IsOf script.now core.new.state }
{
    assert!(rt; t.0 < core.tasks() && core.made() == made && made < 10);
    assert_eq!(rt; core.note(t), note);
    assert!(rt; !core.done() && !core.stuck());
    assert_eq!(rt; core.is_walking(t), note != Note::Ready);
    let event = core.next(t).ok_or("no event")?;
    assert_eq!(rt; told(&event), want);
    core.apply(&event);
    Ok(())
}

// What an event tells.
fn told(e: &Event) -> Told {
    let boost = match e.boost {
        Some((t, prio)) => Some((t, prio.get())),
        None => None,
    };
    (e.kind, e.woken, boost, e.reply)
}

// A priority of this number.
fn prio(n: u64) -> Result<Prio, Fail> {
    Ok(Prio::new(n).ok_or("no priority")?)
}

// Compares the state at the end of the two calls of one task.
fn is_over(rt: &impl Abort, script: &Script, core: &Core, owner: Option<TaskId>)
    requires { IsOf script.now core.now.state }
{
    assert!(rt; core.tasks() == 1 && script.locks() == 1 && core.made() == 2);
    assert_eq!(rt; core.place(A), 2);
    assert_eq!(rt; core.note(A), Note::End);
    assert!(rt; core.done() && !core.stuck());
    assert_eq!(rt; core.effective(A).get(), 50);
    assert_eq!(rt; core.cell(A).own().get(), 50);
    assert_eq!(rt; core.lock(LOCK).owner(), owner);
}

// The owner is boosted by the one that waits.
fn b_waits(rt: &impl Abort, core: &Core) -> Result<(), Fail> {
    assert!(rt; core.tasks() == 2);
    assert_eq!(rt; core.note(B), Note::Lock(LOCK, prio(20)?));
    assert_eq!(rt; core.effective(A).get(), 20);
    assert_eq!(rt; core.cell(B).blocked_at(), Some((LOCK, prio(20)?)));
    assert_eq!(rt; core.cell(B).state(), TaskState::Uninterruptible);
    assert_eq!(rt; core.lowest_enabled(), Some(A));
    Ok(())
}

// The lock is given up, and the one that waited runs.
fn b_is_woken(rt: &impl Abort, core: &Core) {
    assert!(rt; core.tasks() == 2);
    assert_eq!(rt; core.note(A), Note::End);
    assert_eq!(rt; core.effective(A).get(), 50);
    assert_eq!(rt; core.cell(B).state(), TaskState::Running);
    assert_eq!(rt; core.lowest_enabled(), Some(B));
}

// Compares the state of the second of three tasks, and what it would be without spinlocks.
fn b_is_in(rt: &impl Abort, core: &Core, state: TaskState, flat: TaskState) {
    assert!(rt; core.tasks() == 3);
    assert_eq!(rt; core.cell(B).state(), state);
    assert_eq!(rt; core.flat_state(B), flat);
}

// A walk stands at the second task, and nobody else has a next event.
fn c_walks(rt: &impl Abort, core: &Core) {
    assert!(rt; core.tasks() == 3);
    assert_eq!(rt; core.note(C), Note::Walk(B));
    assert_eq!(rt; core.lowest_walking(), Some(C));
    assert_eq!(rt; core.walks(), 1);
    assert_eq!(rt; core.lowest_enabled(), Some(C));
    for t in [A, B, C] {
        assert_eq!(rt; core.is_walking(t), t == C);
        assert_eq!(rt; core.is_enabled(t), t == C);
    }
}

// Two wait for a task that has no more calls.
fn is_stuck(rt: &impl Abort, core: &Core) {
    assert!(rt; core.tasks() == 3);
    assert!(rt; core.stuck() && !core.done() && core.walks() == 0);
    assert_eq!(rt; core.lowest_enabled(), None);
    assert_eq!(rt; core.note(A), Note::End);
    for t in [A, B, C] {
        assert_eq!(rt; core.next(t), None);
        assert_eq!(rt; core.effective(t).get(), if t == B { 20 } else { 10 });
    }
}

// Compares the lines of the report.
fn reports(
    rt: &impl Abort,
    alloc: Global,
    script: &Script,
    core: &Core,
    lines: &[&str],
) -> Result<(), Fail>
    requires { IsOf script.now core.now.state }
{
    assert!(rt; lines.len() == script.tasks() as usize + script.locks() as usize);
    for (i, line) in lines.iter().enumerate() {
        let mut out = Vec::with_capacity(alloc, 4096)?;
        core.report_line(script, i as u32, &mut out);
        assert_eq!(rt; out.as_slice(), line.as_bytes());
    }
    Ok(())
}
