use crate::{TaskCell, Woken};
use rt_base::{LockId, Prio, TaskState};
use std::process::Abort;
use std::test::Fail;

const M: LockId = LockId(0);

const N: LockId = LockId(1);

#[test]
fn a_task_is_boosted_and_deboosted(rt: HostRuntime) -> Result<(), Fail> {
    let (own, best, better, worse) = (prio(50)?, prio(10)?, prio(20)?, prio(60)?);
    let mut cell = TaskCell::new(rt.alloc(), own, 2)?;
    assert_eq!(rt; (cell.own(), cell.effective()), (own, own));
    assert_eq!(rt; (cell.kept(M), cell.keeps(M)), (None, false));
    cell.keep_top(M, better);
    cell.keep_top(N, best);
    assert_eq!(rt; (cell.kept(M), cell.keeps(N)), (Some(better), true));
    assert_eq!(rt;
        (cell.effective(), cell.effective_with(N, None)),
        (best, better)
    );
    cell.drop_top(N);
    assert_eq!(rt; cell.effective(), better);
    cell.refresh(M, Some(worse));
    assert_eq!(rt; cell.effective(), own);
    assert_eq!(rt;
        (
            cell.effective_with_own(best),
            cell.effective_with_own(prio(70)?)
        ),
        (best, worse)
    );
    cell.set_own(worse);
    cell.refresh(M, None);
    assert_eq!(rt; (cell.own(), cell.effective()), (worse, worse));
    Ok(())
}

#[test]
fn a_waiter_of_a_mutex_is_woken(rt: HostRuntime) -> Result<(), Fail> {
    let (first, second) = (prio(50)?, prio(40)?);
    let mut cell = TaskCell::new(rt.alloc(), first, 2)?;
    states(&rt, &cell, TaskState::Running, TaskState::Running);
    assert_eq!(rt; (cell.blocked(), cell.signalled()), (None, false));
    cell.block(M, TaskState::Uninterruptible);
    states(&rt, &cell, TaskState::Uninterruptible, TaskState::Running);
    assert_eq!(rt;
        (cell.blocked(), cell.blocked_at()),
        (Some(M), Some((M, first)))
    );
    cell.set_own(second);
    assert_eq!(rt; cell.key(), first);
    cell.set_key();
    assert_eq!(rt; cell.key(), second);
    assert_eq!(rt; (cell.wake(), cell.wake()), (Woken::Woke, Woken::Missed));
    cell.rest_again(TaskState::Interruptible);
    assert!(rt; cell.heeds_signal());
    assert_eq!(rt; (cell.signal(), cell.signalled()), (Woken::Woke, true));
    cell.clear_signal();
    cell.rest_again(TaskState::Uninterruptible);
    assert!(rt; !cell.heeds_signal());
    assert_eq!(rt; (cell.signal(), cell.signalled()), (Woken::Missed, true));
    cell.lock_wake(false);
    states(&rt, &cell, TaskState::Running, TaskState::Running);
    cell.leave_queue(false);
    assert_eq!(rt; cell.blocked_at(), None);
    Ok(())
}

#[test]
fn a_waiter_of_a_spinlock_keeps_its_state(rt: HostRuntime) -> Result<(), Fail> {
    let mut cell = TaskCell::new(rt.alloc(), prio(50)?, 1)?;
    cell.set_state(TaskState::Interruptible);
    cell.block(M, TaskState::LockWait);
    states(&rt, &cell, TaskState::LockWait, TaskState::Interruptible);
    assert!(rt; cell.heeds_signal());
    assert_eq!(rt; cell.wake(), Woken::Woke);
    states(&rt, &cell, TaskState::LockWait, TaskState::Running);
    cell.lock_wake(true);
    states(&rt, &cell, TaskState::Running, TaskState::Running);
    cell.unblock();
    cell.set_state(TaskState::Uninterruptible);
    cell.save_for_lock();
    states(&rt, &cell, TaskState::LockWait, TaskState::Uninterruptible);
    cell.restore(true);
    states(&rt, &cell, TaskState::Uninterruptible, TaskState::Running);
    cell.restore(false);
    states(&rt, &cell, TaskState::Running, TaskState::Running);
    Ok(())
}

fn states(rt: &impl Abort, cell: &TaskCell, state: TaskState, saved: TaskState) {
    assert_eq!(rt; (cell.state(), cell.saved()), (state, saved));
}

fn prio(n: u64) -> Result<Prio, Fail> {
    Ok(Prio::new(n).ok_or("no priority")?)
}
