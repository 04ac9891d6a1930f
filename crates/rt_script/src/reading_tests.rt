// Texts that are scripts, and what they say.
use super::*;
use rt_base::{Call, Cpu, Kind, LockId, Prio, TaskId, TaskState};
use std::test::Fail;

#[test]
fn header_and_end(rt: HostRuntime) -> Result<(), Fail> {
    let script = read_script(rt.alloc(), b"rtscript 1\ngo\n")?;
    assert_eq!(rt; script.cpus(), 1);
    assert_eq!(rt; script.tasks(), 0);
    assert_eq!(rt; script.locks(), 0);
    assert_eq!(rt; script.all_calls(), 0);
    assert_eq!(rt; script.picks().len(), 0);
    assert_eq!(rt; script.budget(), 64);
    Ok(())
}

const MIXED: &str =
    "rtscript 1\n# two processors\n\ncpus 2\ntask a 90 1\nlock l local\nlock x rwsem\n\
    task b 10 0\ncall b read x\ncall a local l\ncall b setprio a 7\npick b\ncall a move 1\npick a\ngo";

#[test]
fn lines_of_every_sort(rt: HostRuntime) -> Result<(), Fail> {
    let script = read_script(rt.alloc(), MIXED.as_bytes())?;
    assert!(rt; script.cpus() == 2 && script.tasks() == 2 && script.locks() == 3);
    let (a, b) = (TaskId(0), TaskId(1));
    assert_eq!(rt; script.task_name(b), "b");
    assert_eq!(rt; (script.own(a).get(), script.cpu(a)), (90, Cpu(1)));
    assert_eq!(rt;
        script.calls(a),
        [Call::Local(LockId(0)), Call::Move(Cpu(1))].as_slice()
    );
    let prio = Prio::new(7).ok_or("no priority")?;
    assert_eq!(rt;
        script.calls(b),
        [Call::Read(LockId(2)), Call::SetPrio(a, prio)].as_slice()
    );
    assert_eq!(rt; script.picks(), [b, a].as_slice());
    assert_eq!(rt; script.budget(), 512);
    Ok(())
}

#[test]
fn cells_of_a_local_lock(rt: HostRuntime) -> Result<(), Fail> {
    let script = read_script(rt.alloc(), MIXED.as_bytes())?;
    assert!(rt; script.locks() == 3);
    for (l, name, kind, cell) in [
        (0, "l", Kind::Local, Some(Cpu(0))),
        (1, "l", Kind::Local, Some(Cpu(1))),
        (2, "x", Kind::RwSem, None),
    ] {
        assert_eq!(rt; script.lock_name(LockId(l)), name);
        assert_eq!(rt; script.kind(LockId(l)), kind);
        assert_eq!(rt; script.cell_of(LockId(l)), cell);
    }
    Ok(())
}

#[test]
fn every_call(rt: HostRuntime) -> Result<(), Fail> {
    let l = LockId(0);
    let t = TaskId(0);
    for (kind, words, call) in [
        ("mutex", "lock k", Call::Lock(l)),
        ("mutex", "lockint k", Call::LockInt(l)),
        ("mutex", "trylock k", Call::TryLock(l)),
        ("mutex", "unlock k", Call::Unlock(l)),
        ("spin", "spin k", Call::Spin(l)),
        ("spin", "tryspin k", Call::TrySpin(l)),
        ("spin", "unspin k", Call::Unspin(l)),
        ("rwlock", "read k", Call::Read(l)),
        ("rwsem", "tryread k", Call::TryRead(l)),
        ("rwlock", "unread k", Call::Unread(l)),
        ("rwsem", "write k", Call::Write(l)),
        ("rwlock", "trywrite k", Call::TryWrite(l)),
        ("rwsem", "unwrite k", Call::Unwrite(l)),
        ("rwlock", "downgrade k", Call::Downgrade(l)),
        ("local", "local k", Call::Local(l)),
        ("local", "unlocal k", Call::Unlocal(l)),
        ("mutex", "state R", Call::State(TaskState::Running)),
        ("mutex", "state S", Call::State(TaskState::Interruptible)),
        ("mutex", "state D", Call::State(TaskState::Uninterruptible)),
        ("mutex", "schedule", Call::Schedule),
        ("mutex", "wake t", Call::Wake(t)),
        ("mutex", "signal t", Call::Signal(t)),
        ("mutex", "move 0", Call::Move(Cpu(0))),
    ] {
        let text = format!(in rt.alloc();
            "rtscript 1\ntask t 5 0\nlock k {kind}\ncall t {words}\ngo\n"
        )?;
        assert!(rt; text.len() < 1000);
        let script = read_script(rt.alloc(), text.as_bytes())?;
        assert!(rt; script.tasks() == 1);
        assert_eq!(rt; script.calls(t), [call].as_slice(), "{words}");
    }
    Ok(())
}

#[test]
fn names_and_numbers_at_their_edge(rt: HostRuntime) -> Result<(), Fail> {
    for line in [
        "task b 139 0",
        "task b 0 0",
        "task abcdefghijklmnop 5 0",
        "task a0_9 5 0",
        "task go 5 0",
        "lock task spin",
    ] {
        let text = format!(in rt.alloc(); "rtscript 1\ntask a 5 0\nlock m mutex\n{line}\ngo\n")?;
        assert!(rt; text.len() < 1000);
        assert!(rt; read_script(rt.alloc(), text.as_bytes()).is_ok(), "{line}");
    }
    Ok(())
}

const CHAIN: &str = "rtscript 1\ntask a 90 0\ntask b 50 0\ntask c 10 0\nlock m1 mutex\n\
    lock m2 mutex\ncall a lock m1\ncall a unlock m1\ncall b lock m2\ncall b lock m1\n\
    call b unlock m1\ncall b unlock m2\ncall c lock m2\ncall c unlock m2\npick a\npick b\n\
    pick b\npick b\npick c\npick c\ngo\n";

#[test]
fn no_prefix_of_a_script_is_one(rt: HostRuntime) {
    let text = CHAIN.as_bytes();
    for n in 0..text.len() {
        let prefix = text.split_at(n).0;
        assert!(rt; prefix.len() < 1000);
        let reads = read_script(rt.alloc(), prefix).is_ok();
        assert_eq!(rt; reads, n + 1 == text.len());
    }
    assert!(rt; text.len() < 1000);
    assert!(rt; read_script(rt.alloc(), text).is_ok());
}
