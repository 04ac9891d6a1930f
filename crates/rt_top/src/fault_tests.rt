// Reads and writes that fail, each in turn.
ghost use Rattle.std.specs.Prelude.{None};

use crate::rtlab;
use crate::test_replays::{INVERSION, INVERSION_JOURNAL, long_script, too_long, words};
use rt_base::{AlwaysGo, Failed, MemSink, MemSource, PlainSink, PlainSource, Sink, Source};
use std::alloc::Global;
use std::process::Abort;
use std::test::Fail;
use std::thread::Threads;

/// A source that gives one byte a call.
#[derive(Drop)]
struct DripSource {
    source: MemSource,
}

impl Source for DripSource {
    ghost left = { λ _. None };

    ghost faults = { λ drip. drip.source.calls.faults };

    fn read(&mut self, buf: &mut [u8]) -> Result<usize, Failed> {
        let room = buf.len().min(1);
        self.source.read(&mut buf[..room])
    }
}

/// A sink that takes one byte a call.
#[derive(Drop)]
struct DripSink {
    sink: MemSink,
}

impl Sink for DripSink {
    ghost held = { λ _. None };

    ghost faults = { λ drip. drip.sink.calls.faults };

    fn write(&mut self, piece: &[u8]) -> Result<usize, Failed> {
        self.sink.write(piece.split_at(piece.len().min(1)).0)
    }
}

fn mem_source(alloc: Global, text: &[u8], fail: u32) -> Result<MemSource, Fail> {
    Ok(MemSource::new(text.to_vec(alloc)?, [fail].to_vec(alloc)?))
}

fn mem_sink(alloc: Global, fail: u32) -> Result<MemSink, Fail> {
    Ok(
        MemSink::with_room(alloc, 200_000, [fail].to_vec(alloc)?)
            .ok()
            .ok_or("no memory")?,
    )
}

/// What a script prints where nothing fails.
fn printed<R: Abort + Threads + Sync>(rt: &R, alloc: Global, text: &[u8]) -> Result<Vec<u8>, Fail> {
    let mut src = PlainSource::new(text.to_vec(alloc)?);
    let mut out = PlainSink::with_room(alloc, 200_000)
        .ok()
        .ok_or("no memory")?;
    let replay = words(alloc, &["replay"])?;
    assert_eq!(rt; rtlab(rt, alloc, &replay, &mut src, &mut out, &AlwaysGo), 0);
    Ok(out.bytes().to_vec(alloc)?)
}

/// The status and the bytes of a replay whose read or write of that number fails.
fn replay_with_faults<R: Abort + Threads + Sync>(
    rt: &R,
    alloc: Global,
    text: &[u8],
    read: u32,
    write: u32,
) -> Result<(u8, Vec<u8>), Fail> {
    let mut src = mem_source(alloc, text, read)?;
    let mut out = mem_sink(alloc, write)?;
    let replay = words(alloc, &["replay"])?;
    let status = rtlab(rt, alloc, &replay, &mut src, &mut out, &AlwaysGo);
    Ok((status, out.bytes().to_vec(alloc)?))
}

/// The same of that word, where one byte is read and one written at a time.
fn drip_with_faults<R: Abort + Threads + Sync>(
    rt: &R,
    alloc: Global,
    word: &str,
    text: &[u8],
    read: u32,
    write: u32,
) -> Result<(u8, Vec<u8>), Fail> {
    let mut src = DripSource {
        source: mem_source(alloc, text, read)?,
    };
    let mut out = DripSink {
        sink: mem_sink(alloc, write)?,
    };
    let words = words(alloc, &[word])?;
    let status = rtlab(rt, alloc, &words, &mut src, &mut out, &AlwaysGo);
    Ok((status, out.sink.bytes().to_vec(alloc)?))
}

/// The first bytes of a text, that many or all.
fn prefix(text: &[u8], count: u32) -> &[u8] {
    text.split_at(text.len().min(count as usize)).0
}

/// A number that no call has.
const NEVER: u32 = 4_000_000_000;

#[test]
fn each_read_fails(rt: HostRuntime) -> Result<(), Fail> {
    let alloc = rt.alloc();
    let long = long_script(alloc, 2200)?;
    // The last read of each finds the end of input.
    for (text, reads) in [(INVERSION, 2), (long.as_slice(), 3)] {
        for fail in 0..reads {
            let (status, bytes) = replay_with_faults(&rt, alloc, text, fail, NEVER)?;
            assert_eq!(rt; status, 6);
            assert_eq!(rt; bytes.as_slice(), b"read fault\n".as_slice());
        }
        let (status, _) = replay_with_faults(&rt, alloc, text, reads, NEVER)?;
        assert_eq!(rt; status, 0);
    }
    for fail in 0..133 {
        let (status, bytes) = drip_with_faults(&rt, alloc, "replay", INVERSION, fail, NEVER)?;
        assert_eq!(rt; status, 6);
        assert_eq!(rt; bytes.as_slice(), b"read fault\n".as_slice());
    }
    Ok(())
}

#[test]
fn each_write_fails(rt: HostRuntime) -> Result<(), Fail> {
    let alloc = rt.alloc();
    let long = long_script(alloc, 2200)?;
    for text in [INVERSION, long.as_slice()] {
        let whole = printed(&rt, alloc, text)?;
        let mut least = 0;
        for fail in 0..4 {
            let (status, bytes) = replay_with_faults(&rt, alloc, text, NEVER, fail)?;
            assert_eq!(rt; status, 7);
            assert!(rt;
                whole.starts_with(&bytes) && (bytes.len() > least || fail == 0 && bytes.is_empty())
            );
            least = bytes.len();
        }
        let (status, bytes) = replay_with_faults(&rt, alloc, text, NEVER, 4)?;
        assert_eq!(rt; status, 0);
        assert_eq!(rt; bytes.as_slice(), whole.as_slice());
    }
    for fail in 0..190 {
        let (status, bytes) = drip_with_faults(&rt, alloc, "replay", INVERSION, NEVER, fail)?;
        assert_eq!(rt; status, 7);
        assert_eq!(rt; bytes.as_slice(), prefix(INVERSION_JOURNAL, fail));
    }
    let (status, bytes) = drip_with_faults(&rt, alloc, "replay", INVERSION, NEVER, NEVER)?;
    assert_eq!(rt; status, 0);
    assert_eq!(rt; bytes.as_slice(), INVERSION_JOURNAL);
    Ok(())
}

#[test]
fn message_whose_write_fails_keeps_its_status(rt: HostRuntime) -> Result<(), Fail> {
    let alloc = rt.alloc();
    let long = too_long(alloc)?;
    let rows: [(&str, &[u8], u32, u8, &str); 5] = [
        ("x", b"", NEVER, 2, "usage: rtlab replay"),
        (
            "replay",
            b"rtscript 1\nx\n",
            NEVER,
            3,
            "bad script: line 2, fault 3\n",
        ),
        ("replay", b"", 0, 6, "read fault\n"),
        ("replay", &long, NEVER, 9, "too long\n"),
        ("check", b"rtscript 1\ngo\n", NEVER, 10, "illegal 1 1\n"),
    ];
    for (word, text, read, status, line) in rows {
        for fail in 0..9 {
            let (told, bytes) = drip_with_faults(&rt, alloc, word, text, read, fail)?;
            assert_eq!(rt; told, status);
            assert_eq!(rt; bytes.as_slice(), prefix(line.as_bytes(), fail));
        }
    }
    Ok(())
}
