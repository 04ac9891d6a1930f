ghost use Rattle.std.specs.Prelude.{◌≡◌, ◌<◌, []};

use crate::{Row, Steps, Waiters};
use std::marker::Brand;
use std::process::Abort;
use std::sync::ledger::{Blank, Ledger};
use std::test::Fail;

#[test]
fn words_and_rows(rt: HostRuntime) -> Result<(), Fail> {
    let waiters = Waiters::with_room(rt.alloc(), 3)?;
    three_wait::<Brand>(&rt, waiters, Blank::new(1));
    Ok(())
}

// Three tasks are queued, the first of them anew, and the last one goes.
fn three_wait<L: Ledger>(rt: &impl Abort, waiters: Waiters, blank: Blank)
    requires name { blank.name ≡ L.name }
    requires parts { blank.parts ≡ L.parts }
    requires some { 0 < L.parts }
    requires room { waiters.room ≡ 3 }
    requires none { waiters.rows ≡ [] }
{
    let mut steps = Steps::<L>::new(blank);
    let mut waiters = waiters;
    assert_eq!(rt; (waiters.len(), waiters.top()), (0, None));
    waiters.insert(10, 1, 0, &mut steps);
    waiters.insert(10, 2, 1, &mut steps);
    waiters.insert(5, 3, 2, &mut steps);
    let last = row(5, 3, 2);
    let rows = [last, row(10, 1, 0), row(10, 2, 1)];
    assert_eq!(rt; waiters.rows(), rows.as_slice());
    waiters.requeue(0, 10, 4, &mut steps);
    let rows = [last, row(10, 2, 1), row(10, 4, 0)];
    assert_eq!(rt; waiters.rows(), rows.as_slice());
    assert_eq!(rt; (waiters.len(), waiters.top()), (3, Some(last)));
    assert_eq!(rt;
        (waiters.row(0), waiters.row(3)),
        (Some(row(10, 4, 0)), None)
    );
    assert_eq!(rt; waiters.remove(2, &mut steps), Some(last));
    assert_eq!(rt; waiters.remove(2, &mut steps), None);
    assert_eq!(rt; (waiters.len(), waiters.top()), (2, Some(row(10, 2, 1))));
}

fn row(key: u64, ticket: u64, who: u32) -> Row {
    Row { key, ticket, who }
}
