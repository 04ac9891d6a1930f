use super::*;
use rt_base::Reply::{Deadlock, Done, Got, Interrupted, Missed, Nesting, NotOwner, Pinned, Woke};
use rt_base::limits::LINE_LIMIT;
use rt_base::{Ended, LockId, Path, Prio, Reply, TaskId, TaskState};
use rt_model::EventKind::*;
use rt_script::{Script, read_script};
use std::process::Abort;
use std::test::Fail;

const A: TaskId = TaskId(0);

const B: TaskId = TaskId(1);

const C: TaskId = TaskId(2);

const D: TaskId = TaskId(3);

// A mutex.
const M: LockId = LockId(0);

// The cell of processor 1 of a local lock.
const CELL: LockId = LockId(2);

// A reader/writer semaphore.
const X: LockId = LockId(3);

const TEXT: &str = "rtscript 1\ncpus 2\ntask a 50 0\ntask b 20 1\ntask c 5 0\ntask d 7 0\n\
    lock m mutex\nlock l local\nlock x rwsem\ngo\n";

// An event of task a that names nothing else.
fn bare(kind: EventKind) -> Event {
    Event {
        task: A,
        kind,
        lock: None,
        other: None,
        owner: None,
        woken: None,
        value: 0,
        path: Path::empty(),
        boost: None,
        reply: None,
    }
}

// The same on a lock.
fn on(kind: EventKind, lock: LockId) -> Event {
    Event {
        lock: Some(lock),
        ..bare(kind)
    }
}

// The same about another task.
fn about(other: TaskId, e: &Event) -> Event {
    Event {
        other: Some(other),
        ..*e
    }
}

// With the lock's owner and the task that is woken.
fn with(owner: Option<TaskId>, woken: Option<TaskId>, e: &Event) -> Event {
    Event { owner, woken, ..*e }
}

// With a number.
fn valued(value: u8, e: &Event) -> Event {
    Event { value, ..*e }
}

// With an answer.
fn answered(reply: Reply, e: &Event) -> Event {
    Event {
        reply: Some(reply),
        ..*e
    }
}

// With the path a m b l.1.
fn along(e: &Event) -> Event {
    let mut path = Path::empty();
    path.push(A, M);
    path.push(B, CELL);
    Event { path, ..*e }
}

// By another task.
fn by(task: TaskId, e: &Event) -> Event {
    Event { task, ..*e }
}

// Compares the line of an event of task a, numbered 7.
fn tells(rt: &impl Abort, script: &Script, e: &Event, want: &str, out: &mut Vec<u8>) {
    let entry = entry_of(7, e);
    assert!(rt; is_well_formed(script, &entry));
    assert!(rt; out.len() == 0 && out.capacity() >= LINE_LIMIT);
    write_line(script, &entry, out);
    assert_eq!(rt; out.as_slice(), want.as_bytes());
    out.clear();
    write_event(script, 7, e, out);
    assert_eq!(rt; out.as_slice(), want.as_bytes());
    out.clear();
}

#[test]
fn each_kind_on_a_queue_has_its_line(rt: HostRuntime) -> Result<(), Fail> {
    let script = read_script(rt.alloc(), TEXT.as_bytes())?;
    let mut out = Vec::with_capacity(rt.alloc(), LINE_LIMIT)?;
    let (walk, give) = (on(Walk, CELL), on(Give, M));
    for (e, want) in [
        (answered(Got, &on(Fast, M)), "7 a fast m -> got\n"),
        (answered(Done, &on(Free, CELL)), "7 a free l.1 -> done\n"),
        (on(Mark, M), "7 a mark m\n"),
        (answered(Got, &on(Take, M)), "7 a take m -> got\n"),
        (with(Some(B), None, &on(Wait, M)), "7 a wait m\n"),
        (
            about(B, &with(Some(C), Some(D), &walk)),
            "7 a walk b l.1 wakes d\n",
        ),
        (about(B, &walk), "7 a walk b l.1\n"),
        (about(B, &bare(WalkEnd)), "7 a walkend b\n"),
        (about(B, &along(&on(Restart, CELL))), "7 a restart b l.1\n"),
        (
            answered(Deadlock, &along(&on(Cycle, M))),
            "7 a cycle a m b l.1 -> deadlock\n",
        ),
        (on(Again, M), "7 a again m\n"),
        (
            answered(Interrupted, &on(Leave, M)),
            "7 a leave m -> interrupted\n",
        ),
        (with(None, Some(B), &give), "7 a give m b\n"),
        (answered(Done, &give), "7 a give m - -> done\n"),
    ] {
        tells(&rt, &script, &e, want, &mut out);
    }
    Ok(())
}

#[test]
fn each_other_kind_has_its_line(rt: HostRuntime) -> Result<(), Fail> {
    let script = read_script(rt.alloc(), TEXT.as_bytes())?;
    let mut out = Vec::with_capacity(rt.alloc(), LINE_LIMIT)?;
    let (busy, open, wake) = (on(Busy, X), on(WOpen, X), about(B, &bare(Wake)));
    for (e, want) in [
        (answered(Got, &on(RIn, X)), "7 a rin x -> got\n"),
        (on(ROut, X), "7 a rout x\n"),
        (on(Unbias, X), "7 a unbias x\n"),
        (with(Some(A), None, &on(WTake, X)), "7 a wtake x\n"),
        (on(WSleep, X), "7 a wsleep x\n"),
        (open, "7 a wopen x\n"),
        (valued(1, &open), "7 a wopen x reader\n"),
        (with(Some(B), Some(B), &on(WWake, X)), "7 a wwake x b\n"),
        (answered(Done, &on(WWake, X)), "7 a wwake x - -> done\n"),
        (answered(Reply::Busy, &busy), "7 a busy x -> busy\n"),
        (valued(1, &busy), "7 a busy x reader\n"),
        (bare(State), "7 a state R\n"),
        (valued(1, &bare(State)), "7 a state S\n"),
        (valued(2, &bare(State)), "7 a state D\n"),
        (answered(Done, &bare(Sched)), "7 a sched -> done\n"),
        (answered(Woke, &wake), "7 a wake b -> woke\n"),
        (
            answered(Missed, &valued(1, &wake)),
            "7 a signal b -> missed\n",
        ),
        (
            valued(139, &about(B, &bare(SetPrio))),
            "7 a setprio b 139\n",
        ),
        (
            answered(NotOwner, &on(Own, CELL)),
            "7 a own l.1 -> notowner\n",
        ),
        (answered(Nesting, &bare(Own)), "7 a own -> nesting\n"),
        (answered(Pinned, &bare(Own)), "7 a own -> pinned\n"),
    ] {
        tells(&rt, &script, &e, want, &mut out);
    }
    Ok(())
}

#[test]
fn boost_stands_between_operands_and_answer(rt: HostRuntime) -> Result<(), Fail> {
    let script = read_script(rt.alloc(), TEXT.as_bytes())?;
    let mut out = Vec::with_capacity(rt.alloc(), LINE_LIMIT)?;
    let prio = Prio::new(20).ok_or("no priority")?;
    let give = answered(Done, &with(None, Some(B), &on(Give, M)));
    let boosted = Event {
        boost: Some((A, prio)),
        ..give
    };
    tells(
        &rt,
        &script,
        &boosted,
        "7 a give m b a=20 -> done\n",
        &mut out,
    );
    Ok(())
}

#[test]
fn entry_of_another_shape_is_not_well_formed(rt: HostRuntime) -> Result<(), Fail> {
    let script = read_script(rt.alloc(), TEXT.as_bytes())?;
    for e in [
        bare(Fast),
        on(Fast, LockId(4)),
        by(TaskId(4), &on(Fast, M)),
        about(B, &on(Fast, M)),
        with(None, Some(B), &on(Fast, M)),
        along(&on(Fast, M)),
        valued(1, &on(Fast, M)),
        on(Sched, M),
        on(Cycle, M),
        along(&on(Cycle, X)),
        valued(3, &bare(State)),
        valued(140, &about(B, &bare(SetPrio))),
        bare(SetPrio),
    ] {
        assert!(rt; !is_well_formed(&script, &entry_of(7, &e)));
    }
    Ok(())
}

#[test]
fn path_has_a_first_link(rt: HostRuntime) {
    let mut path = Path::empty();
    assert_eq!(rt; (first_lock(&path), first_owner(&path)), (None, None));
    path.push(A, M);
    assert_eq!(rt; (first_lock(&path), first_owner(&path)), (Some(M), Some(A)));
    path.push(B, CELL);
    path.push(C, X);
    assert_eq!(rt; (first_lock(&path), first_owner(&path)), (Some(M), Some(B)));
}

// The objects that are asked for.
const ALL: [Obj; 9] = [
    Obj::OwnerPart(M),
    Obj::OwnerPart(CELL),
    Obj::ReaderPart(M),
    Obj::Task(A),
    Obj::Task(B),
    Obj::Task(C),
    Obj::Task(D),
    Obj::Thread(A),
    Obj::Thread(B),
];

// Compares what an event of task a touches besides its thread.
fn touches_these(rt: &impl Abort, e: &Event, want: &[Obj]) {
    for o in ALL {
        let own = o == Obj::Thread(A);
        assert_eq!(rt; touches(e, o), own || want.contains(&o), "{o:?} of {e:?}");
    }
}

#[test]
fn each_kind_has_its_footprint(rt: HostRuntime) {
    let (lock, first, readers) = (Obj::OwnerPart(CELL), Obj::OwnerPart(M), Obj::ReaderPart(M));
    let (own, other, owner) = (Obj::Task(A), Obj::Task(B), Obj::Task(C));
    let woken = Obj::Task(D);
    for (kind, want) in [
        (Fast, [lock].as_slice()),
        (Free, [lock].as_slice()),
        (Mark, [lock].as_slice()),
        (Take, [lock, own].as_slice()),
        (Wait, [lock, own, owner].as_slice()),
        (Walk, [lock, other, owner, woken].as_slice()),
        (WalkEnd, [other].as_slice()),
        (Restart, [first, own, other].as_slice()),
        (Cycle, [lock, first, own, other].as_slice()),
        (Again, [lock, own].as_slice()),
        (Leave, [lock, own, owner].as_slice()),
        (Give, [lock, own, woken].as_slice()),
        (WWake, [lock, woken].as_slice()),
        (Busy, [lock].as_slice()),
        (State, [own].as_slice()),
        (Sched, [own].as_slice()),
        (Wake, [other].as_slice()),
        (SetPrio, [other].as_slice()),
        (Own, [].as_slice()),
    ] {
        let e = with(Some(C), Some(D), &about(B, &along(&on(kind, CELL))));
        touches_these(&rt, &e, want);
    }
    for (kind, want) in [
        (RIn, [readers].as_slice()),
        (ROut, [readers].as_slice()),
        (Unbias, [readers].as_slice()),
        (WOpen, [readers].as_slice()),
        (WTake, [readers, own].as_slice()),
        (WSleep, [readers, own].as_slice()),
    ] {
        touches_these(&rt, &with(Some(C), Some(D), &on(kind, M)), want);
    }
    touches_these(&rt, &on(WTake, M), [readers].as_slice());
    touches_these(&rt, &on(Busy, M), [first, own].as_slice());
    touches_these(&rt, &valued(1, &on(Busy, M)), [readers].as_slice());
}

#[test]
fn each_state_that_a_task_sets_has_its_number(rt: HostRuntime) {
    for (state, number) in [
        (TaskState::Running, 0),
        (TaskState::Interruptible, 1),
        (TaskState::Uninterruptible, 2),
    ] {
        assert_eq!(rt; state_number(state), number);
        assert_eq!(rt; state_numbered(number), state);
    }
}

// Task a is queued behind task c.
fn waits_for_c() -> Event {
    with(Some(C), None, &on(Wait, M))
}

#[test]
fn events_are_disjoint_by_what_they_touch(rt: HostRuntime) {
    for (a, b, want) in [
        (on(Fast, M), by(B, &on(Fast, M)), false),
        (on(Fast, M), by(B, &on(Fast, CELL)), true),
        (on(Fast, M), by(B, &on(RIn, M)), true),
        (on(Fast, M), on(RIn, X), false),
        (waits_for_c(), by(C, &bare(State)), false),
        (waits_for_c(), by(D, &bare(State)), true),
        (waits_for_c(), by(B, &about(C, &bare(Wake))), false),
        (
            with(None, Some(D), &on(Give, M)),
            by(D, &bare(Sched)),
            false,
        ),
        (along(&on(Cycle, M)), by(B, &on(Take, X)), false),
        (along(&on(Cycle, M)), by(B, &on(Fast, CELL)), true),
        (bare(Own), by(B, &bare(Own)), true),
    ] {
        assert_eq!(rt; disjoint(&a, &b), want);
        assert_eq!(rt; disjoint(&b, &a), want);
    }
}

#[test]
fn header_and_end_lines(rt: HostRuntime) -> Result<(), Fail> {
    let mut out = Vec::with_capacity(rt.alloc(), LINE_LIMIT)?;
    write_header(&mut out);
    assert_eq!(rt; out.as_slice(), b"rtjournal 1\n".as_slice());
    for (ended, want) in [
        (Ended::Done, "end done\n"),
        (Ended::Stuck, "end stuck\n"),
        (Ended::Limit, "end limit\n"),
    ] {
        let mut out = Vec::with_capacity(rt.alloc(), LINE_LIMIT)?;
        write_end_line(ended, &mut out);
        assert_eq!(rt; out.as_slice(), want.as_bytes());
    }
    Ok(())
}
