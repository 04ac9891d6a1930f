ghost use Rattle.std.specs.Prelude.{◌≡◌, ◌<◌, length, None, IsSome};
ghost use Rattle.rt_model.specs.State.{free_lock};
ghost use Rattle.rt_model.specs.Rows.{row_of};

use crate::{Next, Step, after, link, walk_step};
use rt_base::{LockId, Path, Prio, TaskId, TaskState};
use rt_locks::LockCell;
use rt_tasks::TaskCell;
use rt_waiters::Steps;
use std::alloc::Global;
use std::marker::Brand;
use std::process::Abort;
use std::sync::ledger::{Blank, Ledger};
use std::test::Fail;

const M: LockId = LockId(0);

const N: LockId = LockId(1);

const O: TaskId = TaskId(0);

const U: TaskId = TaskId(1);

const V: TaskId = TaskId(2);

#[test]
fn a_link_is_made(rt: HostRuntime) -> Result<(), Fail> {
    for ((other, key, now), owned, (top, boosted)) in [
        // U's key is right, or it stays behind V.
        ((110, 115, 115), true, (None, None)),
        ((110, 115, 112), true, (None, None)),
        // U comes to the top.
        ((110, 115, 105), true, (Some(U), Some(105))),
        // It stays there with a better key, or with a worse one.
        ((110, 108, 105), true, (Some(U), Some(105))),
        ((110, 105, 108), true, (Some(U), Some(108))),
        // V comes to the top, be it by the older ticket alone.
        ((110, 105, 115), true, (Some(V), Some(110))),
        ((110, 105, 110), true, (Some(V), Some(110))),
        // The owner's own priority is the better one.
        ((130, 135, 125), true, (Some(U), None)),
        // Nobody is boosted where there is no owner.
        ((110, 115, 105), false, (Some(U), None)),
        ((110, 115, 115), false, (None, None)),
    ] {
        let keys = (prio(other)?, prio(key)?, prio(now)?);
        let step = make_link::<Brand>(&rt, rt.alloc(), keys, owned, Blank::new(1))?;
        assert_eq!(rt; (step.top_changed, step.new_top), (top.is_some(), top));
        assert_eq!(rt; number(step.boosted), boosted);
    }
    Ok(())
}

// The link from U through M, for which V and U wait with the first two keys; U's priority is the third
// one now, and the owner's own is 120.
fn make_link<L: Ledger>(
    rt: &impl Abort,
    alloc: Global,
    keys: (Prio, Prio, Prio),
    owned: bool,
    blank: Blank,
) -> Result<Step, Fail>
    requires name { blank.name ≡ L.name }
    requires parts { blank.parts ≡ L.parts }
    requires some { 0 < L.parts }
{
    let (other, key, now) = keys;
    let own = prio(120)?;
    let mut steps = Steps::<L>::new(blank);
    let mut lock = LockCell::new(alloc, 3)?;
    let mut u = TaskCell::new(alloc, key, 2)?;
    let mut owner = TaskCell::new(alloc, own, 2)?;
    queue(&mut lock, other, key, &mut steps);
    u.block(M, TaskState::Uninterruptible);
    u.set_own(now);
    if !owned {
        return Ok(walk_step(&mut u, U, &mut lock, None, &mut steps));
    }
    lock.set_owner(O);
    owner.refresh(M, lock.top_key());
    let step = walk_step(&mut u, U, &mut lock, Some(&mut owner), &mut steps);
    assert_eq!(rt; (u.key(), lock.key_of(U)), (now, Some(now)));
    assert_eq!(rt; owner.kept(M), lock.top_key());
    Ok(step)
}

// V waits, and then U.
fn queue<L: Ledger>(lock: &mut LockCell, other: Prio, key: Prio, steps: &mut Steps<L>)
    requires { lock.old ≡ record { part = free_lock; tasks = 3 } }
    ensures queued { IsSome (row_of U lock.new.part.rows) }
    ensures tickets { lock.new.part.ticket ≡ 2 }
    ensures owner { lock.new.part.owner ≡ None }
{
    let _ = lock.enqueue(V, other, steps);
    let _ = lock.enqueue(U, key, steps);
}

#[test]
fn a_walk_goes_on_or_ends(rt: HostRuntime) {
    let path = two_links();
    let (all, first) = (Next::To { task: O, keep: 2 }, Next::To { task: V, keep: 1 });
    for (full, next, wanted) in [
        // No owner, and one that isn't blocked.
        (true, None, Next::End),
        (false, None, Next::End),
        (true, Some((O, false, true)), Next::End),
        (false, Some((O, false, true)), Next::End),
        // One that is blocked, with the right key, and with an old one.
        (true, Some((O, true, true)), all),
        (false, Some((O, true, true)), Next::End),
        (true, Some((O, true, false)), all),
        (false, Some((O, true, false)), all),
        // The walker itself: a full walk's path is to be confirmed, whatever the key.
        (true, Some((U, false, true)), Next::End),
        (true, Some((U, true, true)), Next::Confirm),
        (true, Some((U, true, false)), Next::Confirm),
        (false, Some((U, true, true)), Next::End),
        (false, Some((U, true, false)), Next::To { task: U, keep: 2 }),
        // Another task of the path.
        (true, Some((V, true, true)), Next::End),
        (true, Some((V, true, false)), first),
    ] {
        assert_eq!(rt; after(U, full, &path, next), wanted);
    }
}

#[test]
fn a_link_stands(rt: HostRuntime) {
    let path = two_links();
    for (i, blocked, kept, wanted) in [
        (0, Some(M), true, true),
        (1, Some(N), true, true),
        (0, Some(N), true, false),
        (0, None, true, false),
        (1, Some(N), false, false),
    ] {
        assert_eq!(rt; link(&path, i, blocked, kept), wanted);
    }
}

// U waits for M, and V for N.
fn two_links() -> Path
    ensures { length result ≡ 2 }
{
    let mut path = Path::empty();
    path.push(U, M);
    path.push(V, N);
    path
}

fn number(p: Option<Prio>) -> Option<u8> {
    match p {
        Some(p) => Some(p.get()),
        None => None,
    }
}

fn prio(n: u64) -> Result<Prio, Fail> {
    Ok(Prio::new(n).ok_or("no priority")?)
}
