use crate::refuses;
use rt_base::{Call, Cpu, Kind, LockId, Reply, TaskId};
use std::process::Abort;
use std::test::Fail;

const L: LockId = LockId(3);

// A call, the kind of its lock, how many locks of a spinning kind are held, whether the one that it is about is, the
// migration count, and the answer.
type Row = (Call, Option<Kind>, u32, bool, u32, Option<Reply>);

#[test]
fn a_call_is_refused_by_what_its_thread_knows(rt: HostRuntime) -> Result<(), Fail> {
    let rows: [Row; 26] = [
        (Call::Lock(L), Some(Kind::Mutex), 0, false, 0, None),
        (
            Call::Lock(L),
            Some(Kind::Mutex),
            0,
            true,
            0,
            Some(Reply::Deadlock),
        ),
        (
            Call::LockInt(L),
            Some(Kind::Mutex),
            1,
            true,
            1,
            Some(Reply::Nesting),
        ),
        (Call::TryLock(L), Some(Kind::Mutex), 1, true, 1, None),
        (Call::Unlock(L), Some(Kind::Mutex), 1, true, 1, None),
        (
            Call::Unlock(L),
            Some(Kind::Mutex),
            1,
            false,
            1,
            Some(Reply::NotOwner),
        ),
        (Call::Spin(L), Some(Kind::Spin), 1, false, 1, None),
        (
            Call::Spin(L),
            Some(Kind::Spin),
            1,
            true,
            1,
            Some(Reply::Deadlock),
        ),
        (
            Call::Read(L),
            Some(Kind::RwSem),
            2,
            false,
            2,
            Some(Reply::Nesting),
        ),
        (Call::Read(L), Some(Kind::RwLock), 2, false, 2, None),
        (
            Call::Write(L),
            Some(Kind::RwLock),
            2,
            true,
            2,
            Some(Reply::Deadlock),
        ),
        (
            Call::Unread(L),
            Some(Kind::RwLock),
            1,
            false,
            1,
            Some(Reply::NotOwner),
        ),
        (Call::Write(L), Some(Kind::RwSem), 0, false, 0, None),
        (
            Call::Write(L),
            Some(Kind::RwSem),
            1,
            false,
            1,
            Some(Reply::Nesting),
        ),
        (
            Call::Write(L),
            Some(Kind::RwSem),
            1,
            true,
            1,
            Some(Reply::Nesting),
        ),
        (Call::Downgrade(L), Some(Kind::RwSem), 0, true, 0, None),
        (
            Call::Downgrade(L),
            Some(Kind::RwSem),
            0,
            false,
            0,
            Some(Reply::NotOwner),
        ),
        (Call::Local(L), Some(Kind::Local), 1, false, 1, None),
        (
            Call::Local(L),
            Some(Kind::Local),
            1,
            true,
            1,
            Some(Reply::Deadlock),
        ),
        (Call::Unlocal(L), Some(Kind::Local), 1, true, 1, None),
        (
            Call::Unlocal(L),
            Some(Kind::Local),
            1,
            false,
            1,
            Some(Reply::NotOwner),
        ),
        (Call::Schedule, None, 0, false, 0, None),
        (Call::Schedule, None, 1, false, 1, Some(Reply::Nesting)),
        (Call::Move(Cpu(0)), None, 0, false, 1, Some(Reply::Pinned)),
        (Call::Move(Cpu(0)), None, 0, false, 0, None),
        (Call::Wake(TaskId(0)), None, 1, false, 1, None),
    ];
    for (call, kind, spinning, held, migration, answer) in rows {
        assert_eq!(rt; refuses(call, kind, spinning, held, migration), answer);
    }
    Ok(())
}
