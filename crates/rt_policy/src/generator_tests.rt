// A large script, on its happy path.
use crate::generate;
use rt_base::{Cpu, TaskId};
use std::test::Fail;

#[test]
fn script_of_one(rt: HostRuntime) -> Result<(), Fail> {
    let script = generate(rt.alloc(), 1)?;
    assert!(rt; script.cpus() == 4 && script.tasks() == 32 && script.locks() == 28);
    let first = TaskId(0);
    assert_eq!(rt; script.own(first).get(), 134);
    assert_eq!(rt; script.cpu(first), Cpu(1));
    assert_eq!(rt; script.all_calls(), 8_544);
    assert_eq!(rt; script.picks().len(), 20_000);
    let first_picks = [TaskId(31), TaskId(10), TaskId(17)];
    assert!(rt; script.picks().starts_with(&first_picks));
    Ok(())
}
