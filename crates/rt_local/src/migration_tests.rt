use crate::migration_after;
use rt_base::{Call, Kind, LockId, Reply};
use std::process::Abort;
use std::test::Fail;

const L: LockId = LockId(3);

// A call, the kind of its lock, whether the event is its first one, the answer, and the count after 4.
type Row = (Call, Kind, bool, Option<Reply>, u32);

#[test]
fn a_call_counts_what_it_holds_and_waits_for(rt: HostRuntime) -> Result<(), Fail> {
    let rows: [Row; 21] = [
        (Call::Lock(L), Kind::Mutex, true, Some(Reply::Got), 4),
        (Call::Spin(L), Kind::Spin, true, None, 4),
        (Call::Spin(L), Kind::Spin, true, Some(Reply::Got), 5),
        (Call::Spin(L), Kind::Spin, false, Some(Reply::Got), 5),
        (Call::TrySpin(L), Kind::Spin, true, Some(Reply::Busy), 4),
        (Call::Unspin(L), Kind::Spin, true, Some(Reply::Done), 3),
        (Call::Unspin(L), Kind::Spin, true, Some(Reply::NotOwner), 4),
        (Call::Read(L), Kind::RwLock, false, Some(Reply::Got), 5),
        (Call::Read(L), Kind::RwSem, false, Some(Reply::Got), 4),
        (Call::TryWrite(L), Kind::RwLock, false, Some(Reply::Got), 5),
        (
            Call::Downgrade(L),
            Kind::RwLock,
            false,
            Some(Reply::Done),
            4,
        ),
        (Call::Unread(L), Kind::RwLock, true, Some(Reply::Done), 3),
        (Call::Unwrite(L), Kind::RwSem, false, Some(Reply::Done), 4),
        (Call::Local(L), Kind::Local, true, Some(Reply::Got), 6),
        (Call::Local(L), Kind::Local, true, None, 5),
        (Call::Local(L), Kind::Local, true, Some(Reply::Deadlock), 4),
        (Call::Local(L), Kind::Local, false, None, 4),
        (Call::Local(L), Kind::Local, false, Some(Reply::Got), 5),
        (Call::Local(L), Kind::Local, false, Some(Reply::Deadlock), 3),
        (Call::Unlocal(L), Kind::Local, true, Some(Reply::Done), 2),
        (
            Call::Unlocal(L),
            Kind::Local,
            true,
            Some(Reply::NotOwner),
            4,
        ),
    ];
    for (call, kind, first, reply, after) in rows {
        assert_eq!(rt; migration_after(call, Some(kind), first, reply, 4), after);
    }
    Ok(())
}
