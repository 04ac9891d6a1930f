// What the tests share: scripts, and replays over sources and sinks in memory.
use crate::rtlab;
use rt_base::{AlwaysGo, PlainSink, PlainSource};
use std::alloc::{AllocError, Global};
use std::process::Abort;
use std::test::Fail;
use std::thread::Threads;

/// Replays each script, and compares what is written and the status.
pub(crate) fn compare_replays<R: Abort + Threads + Sync>(
    rt: &R,
    alloc: Global,
    replays: &[(&[u8], &[u8], u8)],
) -> Result<(), Fail> {
    let words = words(alloc, &["replay"])?;
    for (text, printed, status) in replays {
        let mut src = source(alloc, text)?;
        let mut out = PlainSink::with_room(alloc, 1000).ok().ok_or("no memory")?;
        assert_eq!(rt;
            rtlab(rt, alloc, &words, &mut src, &mut out, &AlwaysGo),
            *status
        );
        assert_eq!(rt; out.bytes(), *printed);
    }
    Ok(())
}

/// The words of a command.
pub(crate) fn words(alloc: Global, texts: &[&str]) -> Result<Vec<String>, AllocError> {
    let mut words = Vec::new(alloc);
    for text in texts {
        words.push(String::from_str(alloc, text)?)?;
    }
    Ok(words)
}

/// A text as a source.
pub(crate) fn source(alloc: Global, text: &[u8]) -> Result<PlainSource, AllocError> {
    Ok(PlainSource::new(text.to_vec(alloc)?))
}

pub(crate) const ONE_MUTEX: &[u8] =
    b"rtscript 1\ntask a 50 0\nlock m mutex\ncall a lock m\ncall a unlock m\ngo\n";

pub(crate) const INVERSION: &[u8] = b"rtscript 1\ntask a 90 0\ntask c 10 0\nlock m mutex\n\
      call a lock m\ncall a unlock m\n\
      call c lock m\ncall c unlock m\n\
      pick a\npick c\npick c\ngo\n";

pub(crate) const INVERSION_JOURNAL: &[u8] = b"rtjournal 1\n\
      1 a fast m -> got\n\
      2 c mark m\n\
      3 c wait m a=10\n\
      4 a give m c a=90 -> done\n\
      5 c take m -> got\n\
      6 c free m -> done\n\
      end done\n\
      task a 90 90 R R 2/2 end\n\
      task c 10 10 R R 2/2 end\n\
      lock m - 0\n";

/// An input that is longer than a script may be, by one byte.
pub(crate) fn too_long(alloc: Global) -> Result<Vec<u8>, AllocError> {
    vec![in alloc; b'\n'; 1_048_577]
}

/// A script whose one task locks and unlocks a mutex so many times.
pub(crate) fn long_script(alloc: Global, times: u32) -> Result<Vec<u8>, AllocError> {
    let mut text = b"rtscript 1\ntask a 50 0\nlock m mutex\n".to_vec(alloc)?;
    for _ in 0..times {
        text.extend_from_slice(b"call a lock m\ncall a unlock m\n")?;
    }
    text.extend_from_slice(b"go\n")?;
    Ok(text)
}
