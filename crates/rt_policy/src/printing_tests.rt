// How the text goes to the sink.
ghost use Rattle.std.specs.Prelude.{None};

use crate::{finish, write_report};
use rt_base::{Ended, Failed, Sink};
use rt_core::Core;
use rt_script::read_script;
use std::alloc::{AllocError, Global};
use std::test::Fail;

/// A sink that takes every piece and counts them.
#[derive(Drop)]
struct CountingSink {
    pieces: u32,
}

impl Sink for CountingSink {
    ghost held = { λ _. None };

    ghost faults = { λ _. 0 };

    fn write(&mut self, piece: &[u8]) -> Result<usize, Failed> {
        self.pieces = self.pieces.saturating_add(1);
        Ok(piece.len())
    }
}

/// A script whose one task locks and unlocks a mutex so many times.
fn long_script(alloc: Global, times: u32) -> Result<Vec<u8>, AllocError> {
    let mut text = b"rtscript 1\ntask a 50 0\nlock m mutex\n".to_vec(alloc)?;
    for _ in 0..times {
        text.extend_from_slice(b"call a lock m\ncall a unlock m\n")?;
    }
    text.extend_from_slice(b"go\n")?;
    Ok(text)
}

#[test]
fn lines_go_to_the_sink_together(rt: HostRuntime) -> Result<(), Fail> {
    let alloc = rt.alloc();
    // 90 KB of events go in two pieces, and the report in one.
    for (times, pieces) in [(1, 1), (2000, 2)] {
        let text = long_script(alloc, times)?;
        assert!(rt; text.len() < 1_000_000);
        let script = read_script(alloc, &text)?;
        let mut core = Core::new(alloc, &script)?;
        let mut buf = Vec::with_capacity(alloc, 65_536)?;
        let mut out = CountingSink { pieces: 0 };
        let ended = finish(&mut core, &script, None, 5000, 1, &mut buf, &mut out);
        assert_eq!(rt; ended, Ok(Ended::Done));
        assert_eq!(rt; out.pieces, pieces);
        let report = write_report(&core, &script, Ended::Done, &mut buf, &mut out);
        assert_eq!(rt; report, Ok(()));
        assert_eq!(rt; out.pieces, pieces + 1);
    }
    Ok(())
}
