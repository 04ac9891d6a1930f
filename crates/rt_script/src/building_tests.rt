// Scripts that are built from their parts, and parts of which none is built.
use super::writing_tests::same_script;
use super::*;
use rt_base::{Call, Cpu, Kind, LockId, Prio, TaskId, TaskState};
use std::alloc::Global;
use std::process::Abort;
use std::test::Fail;

// A mutex, a spinlock, a local lock with two cells, and the reader/writer locks.
const LOCKS: [Kind; 6] = [
    Kind::Mutex,
    Kind::Spin,
    Kind::Local,
    Kind::Local,
    Kind::RwLock,
    Kind::RwSem,
];

const CALLS: [Call; 8] = [
    Call::Lock(LockId(0)),
    Call::Spin(LockId(1)),
    Call::Local(LockId(2)),
    Call::Read(LockId(4)),
    Call::Downgrade(LockId(5)),
    Call::State(TaskState::Interruptible),
    Call::Wake(TaskId(0)),
    Call::Move(Cpu(1)),
];

const BUILT: &[u8] =
    b"rtscript 1\ncpus 2\ntask t0 120 1\nlock k0 mutex\nlock k1 spin\nlock k2 local\nlock k4 rwlock\n\
    lock k5 rwsem\ncall t0 lock k0\ncall t0 spin k1\ncall t0 local k2\ncall t0 read k4\ncall t0 downgrade k5\n\
    call t0 state S\ncall t0 wake t0\ncall t0 move 1\npick t0\ngo\n";

#[test]
fn built_script_is_written_and_read(rt: HostRuntime) -> Result<(), Fail> {
    let alloc = rt.alloc();
    let calls = CALLS.to_vec(alloc)?;
    let tasks = vec![in alloc; (Prio::new(120).ok_or("no priority")?, Cpu(1), calls)]?;
    let locks = LOCKS.to_vec(alloc)?;
    let picks = vec![in alloc; TaskId(0)]?;
    assert!(rt; can_build(2, &tasks, &locks, &picks));
    let script = Script::build(alloc, 2, tasks, locks, picks)?;
    let text = script.write(alloc)?;
    assert_eq!(rt; text.as_slice(), BUILT);
    let again = read_script(alloc, text.as_slice())?;
    assert!(rt; same_script(&script, &again));
    Ok(())
}

// Whether a task with this call, locks of these kinds and a pick of this task make a script for two processors.
fn is_script(
    alloc: Global,
    cpu: Cpu,
    call: Call,
    locks: &[Kind],
    pick: TaskId,
) -> Result<bool, Fail> {
    let calls = vec![in alloc; call]?;
    let tasks = vec![in alloc; (Prio::new(5).ok_or("no priority")?, cpu, calls)]?;
    Ok(can_build(2, &tasks, locks, &[pick]))
}

#[test]
fn what_no_script_has_is_not_built(rt: HostRuntime) -> Result<(), Fail> {
    let alloc = rt.alloc();
    let own = TaskId(0);
    assert!(rt; is_script(alloc, Cpu(1), Call::Schedule, &LOCKS, own)?);
    assert!(rt; !is_script(alloc, Cpu(2), Call::Schedule, &LOCKS, own)?);
    assert!(rt; !is_script(alloc, Cpu(1), Call::Schedule, &LOCKS, TaskId(1))?);
    assert!(rt; !is_script(alloc, Cpu(1), Call::Schedule, &LOCKS[..3], own)?);
    for call in [
        Call::Lock(LockId(1)),
        Call::Lock(LockId(6)),
        Call::Local(LockId(3)),
        Call::Write(LockId(0)),
        Call::State(TaskState::LockWait),
        Call::Signal(TaskId(1)),
        Call::Move(Cpu(2)),
    ] {
        assert!(rt; !is_script(alloc, Cpu(1), call, &LOCKS, own)?);
    }
    Ok(())
}
