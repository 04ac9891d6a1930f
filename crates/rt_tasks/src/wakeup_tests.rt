use crate::{TaskCell, Woken};
use rt_base::TaskState::{Interruptible as S, LockWait as L, Running as R, Uninterruptible as D};
use rt_base::{LockId, Prio, TaskState};
use std::process::Abort;
use std::test::Fail;

// A state and a saved one.
type States = (TaskState, TaskState);

#[test]
fn a_wakeup_ends_a_sleep_or_one_that_is_saved(rt: HostRuntime) -> Result<(), Fail> {
    let mut cell = new_cell(&rt)?;
    // What a wakeup leaves, and what a signal, where it isn't missed.
    for (before, woken, signalled) in [
        ((R, R), None, None),
        ((S, R), Some((R, R)), Some((R, R))),
        ((D, R), Some((R, R)), None),
        ((L, R), None, None),
        ((L, S), Some((L, R)), Some((L, R))),
        ((L, D), Some((L, R)), None),
        ((R, S), Some((R, R)), Some((R, R))),
        ((R, D), Some((R, R)), None),
        ((S, D), Some((R, D)), Some((R, D))),
        ((D, S), Some((R, S)), Some((D, R))),
    ] {
        put_into(&mut cell, before);
        assert_eq!(rt; cell.heeds_wake(), woken.is_some());
        let answer = cell.wake();
        leaves(&rt, &cell, answer, before, woken);
        assert!(rt; !cell.signalled());
        put_into(&mut cell, before);
        assert_eq!(rt; cell.heeds_signal(), signalled.is_some());
        let answer = cell.signal();
        leaves(&rt, &cell, answer, before, signalled);
        assert!(rt; cell.signalled());
    }
    Ok(())
}

#[test]
fn a_lock_wakeup_of_a_spinning_kind_ends_that_wait_alone(rt: HostRuntime) -> Result<(), Fail> {
    let mut cell = new_cell(&rt)?;
    // What it leaves where the lock's kind spins, and where it doesn't.
    for (before, spinning, ordinary) in [
        ((R, R), (R, R), (R, R)),
        ((S, R), (S, R), (R, R)),
        ((D, R), (D, R), (R, R)),
        ((L, R), (R, R), (L, R)),
        ((L, S), (R, S), (L, R)),
        ((L, D), (R, D), (L, R)),
        ((R, S), (R, S), (R, R)),
        ((R, D), (R, D), (R, R)),
    ] {
        put_into(&mut cell, before);
        cell.lock_wake(true);
        assert_eq!(rt; (cell.state(), cell.saved()), spinning, "{before:?}");
        put_into(&mut cell, before);
        cell.lock_wake(false);
        assert_eq!(rt; (cell.state(), cell.saved()), ordinary, "{before:?}");
    }
    Ok(())
}

#[test]
fn a_wait_for_a_spinlock_saves_the_state_and_gives_it_back(rt: HostRuntime) -> Result<(), Fail> {
    let mut cell = new_cell(&rt)?;
    // What a wait in this state leaves, and what its end.
    for (before, rest, waiting, after) in [
        (R, L, (L, R), (R, R)),
        (S, L, (L, S), (S, R)),
        (D, L, (L, D), (D, R)),
        (R, S, (S, R), (R, R)),
        (R, D, (D, R), (R, R)),
        (S, D, (D, R), (R, R)),
    ] {
        put_into(&mut cell, (before, R));
        cell.block(LockId(0), rest);
        assert_eq!(rt; (cell.state(), cell.saved()), waiting, "{before:?}");
        cell.rest_again(rest);
        assert_eq!(rt; (cell.state(), cell.saved()), waiting, "{before:?}");
        cell.leave_queue(rest == L);
        assert_eq!(rt; (cell.state(), cell.saved()), after, "{before:?}");
        assert_eq!(rt; cell.blocked(), None);
    }
    Ok(())
}

#[test]
fn a_task_that_sleeps_passes_with_a_signal_alone(rt: HostRuntime) -> Result<(), Fail> {
    let mut cell = new_cell(&rt)?;
    // Whether it passes without a signal, and with one.
    for (state, without, with) in [
        (R, true, true),
        (S, false, true),
        (D, false, false),
        (L, false, false),
    ] {
        for saved in [R, S, D] {
            put_into(&mut cell, (state, saved));
            assert_eq!(rt; cell.passes(), without, "{state:?} {saved:?}");
            let _ = cell.signal();
            cell.set_state(state);
            assert_eq!(rt; cell.passes(), with, "{state:?} {saved:?}");
        }
    }
    Ok(())
}

// A task with one lock.
fn new_cell(rt: &HostRuntime) -> Result<TaskCell, Fail> {
    let own = Prio::new(50).ok_or("no priority")?;
    Ok(TaskCell::new(rt.alloc(), own, 1)?)
}

// Puts a task into a state and a saved one, with no signal pending.
fn put_into(cell: &mut TaskCell, states: States) {
    let (state, saved) = states;
    cell.set_state(saved);
    cell.save_for_lock();
    cell.rest_again(state);
    cell.clear_signal();
}

// Compares what a wakeup left and answered: these states and woke, or the states before and missed.
fn leaves(rt: &impl Abort, cell: &TaskCell, answer: Woken, before: States, want: Option<States>) {
    let (states, woken) = match want {
        Some(after) => (after, Woken::Woke),
        None => (before, Woken::Missed),
    };
    assert_eq!(rt; (cell.state(), cell.saved()), states, "{before:?}");
    assert_eq!(rt; answer, woken, "{before:?}");
}
