// A replay that is counted, on its happy path.
use crate::count_replay;
use rt_base::{Ended, Reply};
use rt_core::Core;
use rt_model::EventKind;
use rt_script::read_script;
use std::test::Fail;

const INVERSION: &[u8] = b"rtscript 1\ntask a 90 0\ntask c 10 0\nlock m mutex\n\
      call a lock m\ncall a unlock m\n\
      call c lock m\ncall c unlock m\n\
      pick a\npick c\npick c\ngo\n";

#[test]
fn picks_and_chosen_events_are_counted(rt: HostRuntime) -> Result<(), Fail> {
    let script = read_script(rt.alloc(), INVERSION)?;
    // The picks make three events: fast, mark and wait.
    for (turns, ended, done) in [(1, Ended::Limit, 1), (100, Ended::Done, 2)] {
        let mut core = Core::new(rt.alloc(), &script)?;
        let (counts, how) = count_replay(&mut core, &script, turns);
        assert_eq!(rt; how, ended);
        assert_eq!(rt; counts.kind(EventKind::Fast), 1);
        assert_eq!(rt; counts.kind(EventKind::Wait), 1);
        assert_eq!(rt; counts.kind(EventKind::Give), 1);
        assert_eq!(rt; counts.kind(EventKind::Own), 0);
        assert_eq!(rt; counts.reply(Reply::Done), done);
        assert_eq!(rt; counts.reply(Reply::Busy), 0);
    }
    Ok(())
}
