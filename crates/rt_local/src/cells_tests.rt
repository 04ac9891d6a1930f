use crate::{cell, made_on};
use rt_base::{Call, Cpu, LockId, TaskId};
use std::process::Abort;
use std::test::Fail;

#[test]
fn a_local_lock_is_the_cell_of_its_processor(rt: HostRuntime) -> Result<(), Fail> {
    for (base, at, of) in [(0, 0, 0), (4, 0, 4), (4, 3, 7), (248, 7, 255)] {
        assert_eq!(rt; cell(LockId(base), Cpu(at)), LockId(of));
        let (local, unlocal) = (Call::Local(LockId(base)), Call::Unlocal(LockId(base)));
        assert_eq!(rt; made_on(Cpu(at), local), Call::Local(LockId(of)));
        assert_eq!(rt; made_on(Cpu(at), unlocal), Call::Unlocal(LockId(of)));
    }
    let (lock, wake) = (Call::Lock(LockId(4)), Call::Wake(TaskId(4)));
    assert_eq!(rt; made_on(Cpu(3), lock), lock);
    assert_eq!(rt; made_on(Cpu(3), wake), wake);
    Ok(())
}
