ghost use Rattle.std.specs.Prelude.{◌≡◌, ◌<◌};
ghost use Rattle.rt_model.specs.State.{free_lock};

use crate::{LockCell, Reason};
use rt_base::{Kind, Prio, TaskId};
use rt_waiters::{Row, Steps};
use std::marker::Brand;
use std::process::Abort;
use std::sync::ledger::{Blank, Ledger};
use std::test::Fail;

const A: TaskId = TaskId(0);

const B: TaskId = TaskId(1);

const C: TaskId = TaskId(2);

#[test]
fn a_lock_is_waited_for_and_given_up(rt: HostRuntime) -> Result<(), Fail> {
    let lock = LockCell::new(rt.alloc(), 3)?;
    two_wait::<Brand>(&rt, lock, Blank::new(1))
}

// Two tasks wait for the lock of a third, and change places; one leaves, and the other gets the lock.
fn two_wait<L: Ledger>(rt: &impl Abort, lock: LockCell, blank: Blank) -> Result<(), Fail>
    requires name { blank.name ≡ L.name }
    requires parts { blank.parts ≡ L.parts }
    requires some { 0 < L.parts }
    requires lock { lock ≡ record { part = free_lock; tasks = 3 } }
{
    let mut steps = Steps::<L>::new(blank);
    let mut lock = lock;
    is_free(rt, &lock)?;
    lock.set_owner(A);
    lock.set_bit();
    assert_eq!(rt; (lock.owner(), lock.bit()), (Some(A), true));
    assert!(rt; lock.enqueue(B, prio(20)?, &mut steps));
    assert!(rt; lock.enqueue(C, prio(10)?, &mut steps));
    assert_eq!(rt; lock.top(), Some(row(10, 1, 2)));
    assert!(rt; lock.requeue(C, prio(30)?, &mut steps));
    assert!(rt; !lock.requeue(C, prio(20)?, &mut steps));
    assert_eq!(rt;
        (lock.waiters().row(2), lock.next_ticket()),
        (Some(row(20, 3, 2)), 4)
    );
    assert!(rt; !lock.remove(C, &mut steps));
    keys(rt, &lock)?;
    assert_eq!(rt; lock.give(), Some(B));
    assert_eq!(rt; (lock.owner(), lock.bit()), (None, true));
    may_take(rt, &lock)?;
    assert_eq!(rt; lock.take(B, &mut steps), None);
    assert_eq!(rt; (lock.owner(), lock.bit()), (Some(B), false));
    lock.clear_owner();
    is_free(rt, &lock)
}

// Nobody owns the lock or waits for it.
fn is_free(rt: &impl Abort, lock: &LockCell) -> Result<(), Fail> {
    assert_eq!(rt; (lock.owner(), lock.bit()), (None, false));
    assert_eq!(rt;
        (lock.top(), lock.top_key(), lock.top_task()),
        (None, None, None)
    );
    assert_eq!(rt;
        lock.may_take(A, prio(139)?, Kind::Mutex),
        Some(Reason::Free)
    );
    assert_eq!(rt; lock.top_key_with(A, prio(5)?), prio(5)?);
    Ok(())
}

// B waits alone.
fn keys(rt: &impl Abort, lock: &LockCell) -> Result<(), Fail> {
    let (better, key, worse) = (prio(19)?, prio(20)?, prio(21)?);
    assert_eq!(rt; (lock.key_of(A), lock.key_of(B)), (None, Some(key)));
    assert_eq!(rt; (lock.top_key(), lock.top_task()), (Some(key), Some(B)));
    assert_eq!(rt;
        (lock.top_key_without(A), lock.top_key_without(B)),
        (Some(key), None)
    );
    assert_eq!(rt;
        (lock.top_key_with(A, better), lock.top_key_with(A, worse)),
        (better, key)
    );
    assert_eq!(rt; lock.may_take(B, key, Kind::Mutex), None);
    assert_eq!(rt; lock.top_requeued(B, worse), Some(row(21, 4, 1)));
    assert_eq!(rt;
        (lock.top_requeued(A, better), lock.top_requeued(A, key)),
        (Some(row(19, 4, 0)), lock.top())
    );
    Ok(())
}

// B is the top waiter of a lock without owner.
fn may_take(rt: &impl Abort, lock: &LockCell) -> Result<(), Fail> {
    let (better, key) = (prio(19)?, prio(20)?);
    assert_eq!(rt; lock.may_take(B, key, Kind::Mutex), Some(Reason::Top));
    assert_eq!(rt; lock.may_take(A, better, Kind::Mutex), Some(Reason::Better));
    assert_eq!(rt; lock.may_take(A, key, Kind::Spin), None);
    Ok(())
}

fn row(key: u64, ticket: u64, who: u32) -> Row {
    Row { key, ticket, who }
}

fn prio(n: u64) -> Result<Prio, Fail> {
    Ok(Prio::new(n).ok_or("no priority")?)
}
