// Scripts are written, and what is written is read again.
use super::*;
use rt_base::{LockId, TaskId};
use std::alloc::Global;
use std::process::Abort;
use std::test::Fail;

// The tasks are the same, with their calls.
fn same_tasks(a: &Script, b: &Script) -> bool {
    if a.tasks() != b.tasks() {
        return false;
    }
    for t in 0..a.tasks() {
        let t = TaskId(t);
        if a.task_name(t) != b.task_name(t) || a.own(t) != b.own(t) || a.cpu(t) != b.cpu(t) {
            return false;
        }
        if a.calls(t) != b.calls(t) {
            return false;
        }
    }
    true
}

// The locks are the same, with their cells.
fn same_locks(a: &Script, b: &Script) -> bool {
    if a.locks() != b.locks() {
        return false;
    }
    for l in 0..a.locks() {
        let l = LockId(l);
        if a.lock_name(l) != b.lock_name(l)
            || a.kind(l) != b.kind(l)
            || a.cell_of(l) != b.cell_of(l)
        {
            return false;
        }
    }
    true
}

// All accessors of the two agree.
pub(super) fn same_script(a: &Script, b: &Script) -> bool {
    a.cpus() == b.cpus()
        && same_tasks(a, b)
        && same_locks(a, b)
        && a.all_calls() == b.all_calls()
        && a.budget() == b.budget()
        && a.picks() == b.picks()
}

// The text that the script of a text is written as: it is read as the same script, which is written the same.
fn rewritten<R: Abort>(rt: &R, alloc: Global, text: &[u8]) -> Result<Vec<u8>, Fail> {
    assert!(rt; text.len() < 1_000_000);
    let script = read_script(alloc, text)?;
    let first = script.write(alloc)?;
    assert!(rt; first.len() < 1_000_000);
    let again = read_script(alloc, first.as_slice())?;
    assert!(rt; same_script(&script, &again));
    let second = again.write(alloc)?;
    assert_eq!(rt; first.as_slice(), second.as_slice());
    Ok(first)
}

// The worked rows' scripts.
const ROWS: [(&str, &[u8]); 20] = [
    (
        "bit_without_waiters",
        b"rtscript 1\ntask a 50 0\ntask c 50 0\nlock m mutex\ncall a lock m\ncall a unlock m\n\
          call c lock m\ncall c unlock m\npick a\npick c\npick a\ngo\n",
    ),
    (
        "broken_cycle",
        b"rtscript 1\ntask a 50 0\ntask b 50 0\ntask c 50 0\ntask d 50 0\nlock m1 mutex\n\
          lock m2 mutex\nlock m3 mutex\ncall a lock m1\ncall a lockint m2\ncall a unlock m1\n\
          call b lock m2\ncall b lock m3\ncall b unlock m3\ncall b unlock m2\ncall c lock m3\n\
          call c lock m1\ncall c unlock m1\ncall c unlock m3\ncall d signal a\npick a\npick b\n\
          pick c\npick a\npick a\npick b\npick b\npick c\npick c\npick c\npick d\npick a\npick c\n\
          pick c\ngo\n",
    ),
    (
        "chain",
        b"rtscript 1\ntask a 90 0\ntask b 50 0\ntask c 10 0\nlock m1 mutex\nlock m2 mutex\n\
          call a lock m1\ncall a unlock m1\ncall b lock m2\ncall b lock m1\ncall b unlock m1\n\
          call b unlock m2\ncall c lock m2\ncall c unlock m2\npick a\npick b\npick b\npick b\n\
          pick c\npick c\ngo\n",
    ),
    (
        "chain_moves_under_walk",
        b"rtscript 1\ntask a 90 0\ntask b 50 0\ntask c 10 0\nlock m1 mutex\nlock m2 mutex\n\
          call a lock m1\ncall a unlock m1\ncall b lock m2\ncall b lock m1\ncall b unlock m1\n\
          call b unlock m2\ncall c lock m2\ncall c unlock m2\npick a\npick b\npick b\npick b\n\
          pick c\npick c\npick a\npick b\npick c\ngo\n",
    ),
    (
        "deadlock",
        b"rtscript 1\ntask a 50 0\ntask b 40 0\nlock m1 mutex\nlock m2 mutex\ncall a lock m1\n\
          call a lock m2\ncall a unlock m2\ncall a unlock m1\ncall b lock m2\ncall b lock m1\n\
          call b unlock m2\npick a\npick b\npick a\npick a\npick b\npick b\ngo\n",
    ),
    ("empty", b"rtscript 1\ngo\n"),
    (
        "equal_at_mutex_waits",
        b"rtscript 1\ntask a 120 0\ntask b 120 0\ntask c 120 0\nlock m mutex\ncall a lock m\n\
          call a unlock m\ncall b lock m\ncall b unlock m\ncall c lock m\ncall c unlock m\n\
          pick a\npick b\npick b\npick a\npick c\npick c\ngo\n",
    ),
    (
        "equal_realtime_waits",
        b"rtscript 1\ntask a 50 0\ntask b 50 0\ntask c 50 0\nlock s spin\ncall a spin s\n\
          call a unspin s\ncall b spin s\ncall b unspin s\ncall c spin s\ncall c unspin s\n\
          pick a\npick b\npick b\npick a\npick c\npick c\ngo\n",
    ),
    (
        "equal_steals",
        b"rtscript 1\ntask a 120 0\ntask b 120 0\ntask c 120 0\nlock s spin\ncall a spin s\n\
          call a unspin s\ncall b spin s\ncall b unspin s\ncall c spin s\ncall c unspin s\n\
          pick a\npick b\npick b\npick a\npick c\npick c\ngo\n",
    ),
    (
        "interrupted_in_chain",
        b"rtscript 1\ntask a 90 0\ntask b 50 0\ntask c 10 0\ntask d 20 0\nlock m1 mutex\n\
          lock m2 mutex\ncall a lock m1\ncall a unlock m1\ncall b lock m2\ncall b lock m1\n\
          call b unlock m1\ncall b unlock m2\ncall c lockint m2\ncall d signal c\npick a\npick b\n\
          pick b\npick b\npick c\npick c\npick c\npick d\npick c\npick c\ngo\n",
    ),
    (
        "forced_interleavings",
        b"rtscript 1\ntask a 50 0\ntask b 50 0\nlock m mutex\ncall a lock m\ncall a unlock m\n\
          call b lock m\ncall b unlock m\ngo\n",
    ),
    (
        "inversion",
        b"rtscript 1\ntask a 90 0\ntask c 10 0\nlock m mutex\ncall a lock m\ncall a unlock m\n\
          call c lock m\ncall c unlock m\npick a\npick c\npick c\ngo\n",
    ),
    (
        "local_cells",
        b"rtscript 1\ncpus 2\ntask a 50 0\ntask b 50 1\nlock l local\nlock m mutex\n\
          call a local l\ncall a move 1\ncall a lock m\ncall a unlocal l\ncall a unlock m\n\
          call b local l\ncall b unlocal l\npick a\npick b\ngo\n",
    ),
    (
        "one_mutex",
        b"rtscript 1\ntask a 50 0\nlock m mutex\ncall a lock m\ncall a unlock m\ngo\n",
    ),
    (
        "own_lock_again",
        b"rtscript 1\ntask a 50 0\nlock m mutex\ncall a lock m\ncall a lock m\ncall a trylock m\n\
          call a unlock m\ngo\n",
    ),
    (
        "readers_and_writer",
        b"rtscript 1\ntask r 50 0\ntask q 50 0\ntask w 50 0\ntask d 50 0\nlock x rwlock\n\
          call r read x\ncall r unread x\ncall q read x\ncall q unread x\ncall w write x\n\
          call w unwrite x\ncall d state R\npick r\npick w\npick w\npick w\npick q\npick r\n\
          pick q\npick d\npick q\ngo\n",
    ),
    (
        "stale_top_takes",
        b"rtscript 1\ntask a 90 0\ntask w 30 0\ntask x 40 0\ntask d 20 0\nlock m mutex\n\
          call a lock m\ncall a unlock m\ncall w lock m\ncall w unlock m\ncall x lock m\n\
          call x unlock m\ncall d setprio w 60\npick a\npick w\npick w\npick x\npick x\npick a\n\
          pick d\npick w\npick d\ngo\n",
    ),
    (
        "wakeup_kept",
        b"rtscript 1\ntask a 50 0\ntask b 50 0\ntask d 50 0\nlock s spin\ncall a spin s\n\
          call a unspin s\ncall b state S\ncall b spin s\ncall b unspin s\ncall b schedule\n\
          call d wake b\npick a\npick b\npick b\npick b\npick d\ngo\n",
    ),
    (
        "wakeup_spurious",
        b"rtscript 1\ntask a 50 0\ntask b 50 0\ntask d 50 0\nlock m mutex\ncall a lock m\n\
          call a unlock m\ncall b state S\ncall b lock m\ncall b unlock m\ncall b schedule\n\
          call d wake b\npick a\npick b\npick b\npick b\npick d\npick b\ngo\n",
    ),
    (
        "write_over_own_read",
        b"rtscript 1\ntask a 50 0\nlock x rwsem\ncall a read x\ncall a write x\ngo\n",
    ),
];

#[test]
fn worked_rows_are_written_and_read(rt: HostRuntime) -> Result<(), Fail> {
    for (name, text) in ROWS {
        let written = rewritten(&rt, rt.alloc(), text)?;
        assert!(rt; written.starts_with(b"rtscript 1\ncpus "), "{name}");
    }
    Ok(())
}

// A driver's nesting: 16 tasks, of which each takes 20 pairs of 40 mutexes, one inside the other.
fn driver_nesting(alloc: Global) -> Result<String, Fail> {
    let mut text = format!(in alloc; "rtscript 1\n")?;
    for t in 0..16u32 {
        let prio = 50 + t;
        let line = format!(in alloc; "task t{t} {prio} 0\n")?;
        text.push_str(&line)?;
    }
    for m in 0..40u32 {
        let line = format!(in alloc; "lock m{m} mutex\n")?;
        text.push_str(&line)?;
    }
    for t in 0..16u32 {
        for k in 0..20u32 {
            let j = (2 * t + k) % 39;
            let pair = nested_pair(alloc, t, j)?;
            text.push_str(&pair)?;
        }
    }
    text.push_str("go\n")?;
    Ok(text)
}

// Task t takes mutex j and the one after it, and gives both back.
fn nested_pair(alloc: Global, t: u32, j: u32) -> Result<String, Fail> {
    let next = if j < 40 { j + 1 } else { 0 };
    Ok(format!(in alloc;
        "call t{t} lock m{j}\ncall t{t} lock m{next}\ncall t{t} unlock m{next}\ncall t{t} unlock m{j}\n"
    )?)
}

#[test]
fn driver_nesting_is_written_and_read(rt: HostRuntime) -> Result<(), Fail> {
    let text = driver_nesting(rt.alloc())?;
    assert!(rt; text.len() < 100_000);
    let written = rewritten(&rt, rt.alloc(), text.as_bytes())?;
    assert!(rt; written.len() < 100_000);
    let script = read_script(rt.alloc(), &written)?;
    assert!(rt; script.tasks() == 16 && script.locks() == 40 && script.all_calls() == 1280);
    Ok(())
}

// Every call once, in canonical form.
const EVERY_CALL: &[u8] =
    b"rtscript 1\ncpus 2\ntask t 139 1\ntask u 0 0\nlock m mutex\nlock s spin\nlock r rwlock\n\
    lock e rwsem\nlock l local\nlock n mutex\ncall t lock m\ncall t lockint n\n\
    call t trylock m\ncall t unlock m\ncall t spin s\ncall t tryspin s\ncall t unspin s\n\
    call t read r\ncall t tryread e\ncall t unread r\ncall t write e\ncall t trywrite r\n\
    call t unwrite e\ncall t downgrade e\ncall t local l\ncall t unlocal l\ncall u state R\n\
    call u state S\ncall u state D\ncall u schedule\ncall u wake t\ncall u signal u\n\
    call u setprio t 100\ncall u move 1\npick u\npick t\npick u\ngo\n";

#[test]
fn canonical_texts(rt: HostRuntime) -> Result<(), Fail> {
    for (text, want) in [
        ("rtscript 1\ngo", "rtscript 1\ncpus 1\ngo\n"),
        (
            "rtscript 1\n# two processors\n\ncpus 2\n\ntask a 5 1\n#\ngo\n",
            "rtscript 1\ncpus 2\ntask a 5 1\ngo\n",
        ),
        (
            "rtscript 1\nlock m mutex\ntask b 5 0\ncall b lock m\npick b\ntask a 6 0\n\
              call b unlock m\nlock s spin\ncall a spin s\npick a\ncall b schedule\npick b\ngo\n",
            "rtscript 1\ncpus 1\ntask b 5 0\ntask a 6 0\nlock m mutex\nlock s spin\ncall b lock m\n\
              call b unlock m\ncall b schedule\ncall a spin s\npick b\npick a\npick b\ngo\n",
        ),
        (
            "rtscript 1\ncpus 2\ntask a 9 1\nlock l local\nlock x rwsem\nlock k local\n\
              call a local k\ncall a unlocal k\ncall a local l\ngo\n",
            "rtscript 1\ncpus 2\ntask a 9 1\nlock l local\nlock x rwsem\nlock k local\n\
              call a local k\ncall a unlocal k\ncall a local l\ngo\n",
        ),
        (
            "rtscript 1\nlock l local\ngo",
            "rtscript 1\ncpus 1\nlock l local\ngo\n",
        ),
    ] {
        let written = rewritten(&rt, rt.alloc(), text.as_bytes())?;
        assert_eq!(rt; written.as_slice(), want.as_bytes(), "{text}");
    }
    let written = rewritten(&rt, rt.alloc(), EVERY_CALL)?;
    assert_eq!(rt; written.as_slice(), EVERY_CALL);
    Ok(())
}
