use super::*;
use rt_base::Reply::{Deadlock, Done};
use rt_base::limits::{LINE_LIMIT, MAX_TASKS};
use rt_base::{LockId, Path, Prio, TaskId};
use rt_model::EventKind::*;
use rt_script::read_script;
use std::process::Abort;
use std::test::Fail;

const A: TaskId = TaskId(0);

const B: TaskId = TaskId(1);

// A mutex.
const M: LockId = LockId(0);

// The cell of processor 1 of a local lock.
const CELL: LockId = LockId(2);

// A reader/writer semaphore, whose name is a word of lines.
const READER: LockId = LockId(3);

const TEXT: &str = "rtscript 1\ncpus 2\ntask a 50 0\ntask wakes 20 1\nlock m mutex\nlock l local\n\
    lock reader rwsem\ngo\n";

// An entry of task a, numbered 7, that tells nothing else.
fn bare(kind: EventKind) -> Entry {
    Entry {
        number: 7,
        task: A,
        kind,
        lock: None,
        other: None,
        woken: None,
        value: 0,
        path: Path::empty(),
        boost: None,
        reply: None,
    }
}

// The same on a lock.
fn on(kind: EventKind, lock: LockId) -> Entry {
    Entry {
        lock: Some(lock),
        ..bare(kind)
    }
}

// With the path a m wakes l.1, and an answer.
fn cycle() -> Entry {
    let mut path = Path::empty();
    path.push(A, M);
    path.push(B, CELL);
    Entry {
        path,
        reply: Some(Deadlock),
        ..on(Cycle, M)
    }
}

#[test]
fn line_is_read_as_its_entry(rt: HostRuntime) -> Result<(), Fail> {
    let script = read_script(rt.alloc(), TEXT.as_bytes())?;
    let prio = Prio::new(50).ok_or("no priority")?;
    let give = Entry {
        woken: Some(B),
        boost: Some((A, prio)),
        reply: Some(Done),
        ..on(Give, CELL)
    };
    let walk = Entry {
        other: Some(B),
        woken: Some(B),
        ..on(Walk, M)
    };
    for (line, want) in [
        ("7 a walk wakes m wakes wakes\n", walk),
        ("7 a cycle a m wakes l.1 -> deadlock\n", cycle()),
        (
            "7 a busy reader reader\n",
            Entry {
                value: 1,
                ..on(Busy, READER)
            },
        ),
        ("7 a busy reader\n", on(Busy, READER)),
        ("7 a own\n", bare(Own)),
        ("7 a give l.1 wakes a=50 -> done\n", give),
        ("7 a give m -\n", on(Give, M)),
    ] {
        assert_eq!(rt; read_line(&script, line.as_bytes()), Ok(want));
    }
    Ok(())
}

#[test]
fn other_text_is_no_line(rt: HostRuntime) -> Result<(), Fail> {
    let script = read_script(rt.alloc(), TEXT.as_bytes())?;
    for line in [
        "",
        "7 a mark m",
        "7 a mark m\n\n",
        "7 a mark m\n8 a mark m\n",
        "7  a mark m\n",
        "7 a mark m \n",
        "07 a mark m\n",
        "18446744073709551616 a mark m\n",
        "7 b mark m\n",
        "7 a mark l\n",
        "7 a mark l.2\n",
        "7 a mark m.0\n",
        "7 a mark\n",
        "7 a sched m\n",
        "7 a give m - -> done -> done\n",
        "7 a give m - a=50 a=50\n",
        "7 a give m - a=140\n",
        "end done\n",
    ] {
        assert_eq!(rt;
            read_line(&script, line.as_bytes()),
            Err(LineFault::BadText),
            "{line}"
        );
    }
    Ok(())
}

// The line of a cycle of so many links.
fn cycle_line(rt: &impl AllocGlobal, links: usize) -> Result<Vec<u8>, Fail> {
    let mut line = Vec::with_capacity(rt.alloc(), LINE_LIMIT)?;
    line.extend_from_slice(b"7 a cycle")?;
    for _ in 0..links {
        line.extend_from_slice(b" a m")?;
    }
    line.push(b'\n')?;
    Ok(line)
}

#[test]
fn cycle_has_at_most_as_many_links_as_there_may_be_tasks(rt: HostRuntime) -> Result<(), Fail> {
    let script = read_script(rt.alloc(), TEXT.as_bytes())?;
    let whole = cycle_line(&rt, MAX_TASKS)?;
    assert!(rt; read_line(&script, whole.as_slice()).is_ok());
    let longer = cycle_line(&rt, MAX_TASKS + 1)?;
    assert!(rt; read_line(&script, longer.as_slice()).is_err());
    Ok(())
}
