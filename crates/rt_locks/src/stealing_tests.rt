ghost use Rattle.std.specs.Prelude.{◌≡◌, ◌<◌};
ghost use Rattle.rt_model.specs.State.{free_lock};

use crate::{LockCell, Reason};
use rt_base::{Kind, Prio, TaskId};
use rt_waiters::Steps;
use std::marker::Brand;
use std::process::Abort;
use std::sync::ledger::{Blank, Ledger};
use std::test::Fail;

const FIRST: TaskId = TaskId(0);

const ASKS: TaskId = TaskId(1);

const TOP: Option<Reason> = Some(Reason::Top);

const BETTER: Option<Reason> = Some(Reason::Better);

const EQUAL: Option<Reason> = Some(Reason::Equal);

// Why a task may take a mutex, and a spinlock.
type Answers = (Option<Reason>, Option<Reason>);

#[test]
fn an_equal_normal_task_steals_a_spinlock(rt: HostRuntime) -> Result<(), Fail> {
    // The priority of the one that waits, and of the one that asks: not queued, and queued.
    for (waits, asks, apart, queued) in [
        (99, 98, (BETTER, BETTER), (TOP, TOP)),
        (99, 99, (None, None), (None, None)),
        (99, 100, (None, None), (None, None)),
        (100, 99, (BETTER, BETTER), (TOP, TOP)),
        (100, 100, (None, EQUAL), (None, EQUAL)),
        (100, 101, (None, None), (None, None)),
        (139, 138, (BETTER, BETTER), (TOP, TOP)),
        (139, 139, (None, EQUAL), (None, EQUAL)),
    ] {
        let keys = (prio(waits)?, prio(asks)?);
        let lock = LockCell::new(rt.alloc(), 2)?;
        asks_for::<Brand>(&rt, lock, Blank::new(1), keys, (apart, queued))?;
    }
    Ok(())
}

// A task asks for a lock that nobody owns and for which another waits, and asks again once it is queued.
fn asks_for<L: Ledger>(
    rt: &impl Abort,
    lock: LockCell,
    blank: Blank,
    keys: (Prio, Prio),
    want: (Answers, Answers),
) -> Result<(), Fail>
    requires name { blank.name ≡ L.name }
    requires parts { blank.parts ≡ L.parts }
    requires some { 0 < L.parts }
    requires lock { lock ≡ record { part = free_lock; tasks = 2 } }
{
    let (waits, asks) = keys;
    let mut steps = Steps::<L>::new(blank);
    let mut lock = lock;
    assert!(rt; lock.enqueue(FIRST, waits, &mut steps));
    assert_eq!(rt; lock.key_of(ASKS), None);
    answers(rt, &lock, asks, want.0);
    let _ = lock.enqueue(ASKS, asks, &mut steps);
    assert_eq!(rt; lock.key_of(ASKS), Some(asks));
    answers(rt, &lock, asks, want.1);
    lock.set_owner(FIRST);
    answers(rt, &lock, asks, (None, None));
    Ok(())
}

// Compares what the task that asks is told, of a mutex and of a spinlock.
fn answers(rt: &impl Abort, lock: &LockCell, asks: Prio, want: Answers) {
    let mutex = lock.may_take(ASKS, asks, Kind::Mutex);
    let spinlock = lock.may_take(ASKS, asks, Kind::Spin);
    assert_eq!(rt; (mutex, spinlock), want);
}

fn prio(n: u64) -> Result<Prio, Fail> {
    Ok(Prio::new(n).ok_or("no priority")?)
}
