ghost use Rattle.std.specs.Prelude.{None};

use crate::{
    AlwaysGo, Failed, Gate, MemSink, MemSource, NoMemory, PlainSink, PlainSource, Sink, Source,
    Taken, Turnstile, read_whole, write_whole,
};
use std::alloc::Global;
use std::test::Fail;

/// Gives its bytes one at a time, and fails at one of the reads.
#[derive(Drop)]
struct Drops {
    bytes: [u8; 4],
    at: usize,
    fails_at: usize,
    faults: u64,
}

impl Source for Drops {
    ghost left = { λ _. None };

    ghost faults = { λ source. source.faults };

    fn read(&mut self, buf: &mut [u8]) -> Result<usize, Failed> {
        if self.at == self.fails_at {
            self.faults = self.faults.saturating_add(1);
            return Err(Failed);
        }
        if buf.is_empty() || self.at >= 4 {
            return Ok(0);
        }
        buf[0] = self.bytes[self.at];
        self.at += 1;
        Ok(1)
    }
}

/// Takes a few bytes of each piece, and fails once it has taken a number of them.
#[derive(Drop)]
struct Sips {
    most: usize,
    fails_after: usize,
    bytes: Vec<u8>,
    faults: u64,
}

impl Sink for Sips {
    ghost held = { λ _. None };

    ghost faults = { λ sink. sink.faults };

    fn write(&mut self, piece: &[u8]) -> Result<usize, Failed> {
        if self.bytes.len() >= self.fails_after {
            self.faults = self.faults.saturating_add(1);
            return Err(Failed);
        }
        let taken = piece.split_at(self.most.min(piece.len())).0;
        if taken.is_empty() && !piece.is_empty() {
            self.faults = self.faults.saturating_add(1);
        }
        let _ = self.bytes.extend_from_slice(taken);
        Ok(taken.len())
    }
}

#[test]
fn a_plain_source_is_read_in_pieces(rt: HostRuntime) -> Result<(), Fail> {
    let alloc = rt.alloc();
    let mut source = PlainSource::new(b"stripes".to_vec(alloc)?);
    for (room, wanted) in [(3, "str"), (0, ""), (3, "ipe"), (3, "s"), (3, "")] {
        let mut buf = [0; 3];
        let count = source.read(&mut buf[..room])?;
        assert_eq!(rt; count, wanted.len());
        assert_eq!(rt; &buf[..count], wanted.as_bytes(), "at {wanted}");
    }
    Ok(())
}

#[test]
fn reading_ends_with_the_input_or_past_the_limit_or_at_a_fault(
    rt: HostRuntime,
) -> Result<(), Fail> {
    let alloc = rt.alloc();
    for (fails_at, limit, taken, wanted) in [
        (9, 5, Taken::Whole, "rows"),
        (9, 4, Taken::Whole, "rows"),
        (9, 3, Taken::Over, "rows"),
        (9, 2, Taken::Over, "row"),
        (9, 0, Taken::Over, "r"),
        (0, 5, Taken::Fault, ""),
        (2, 5, Taken::Fault, "ro"),
        (4, 5, Taken::Fault, "rows"),
        (4, 3, Taken::Over, "rows"),
    ] {
        let mut source = Drops {
            bytes: *b"rows",
            at: 0,
            fails_at,
            faults: 0,
        };
        let mut buf = Vec::new(alloc);
        assert_eq!(rt;
            read_whole(alloc, &mut source, limit, &mut buf)?,
            taken,
            "at {fails_at} {limit}"
        );
        assert_eq!(rt; buf.as_slice(), wanted.as_bytes());
        assert_eq!(rt; source.faults > 0, taken == Taken::Fault);
    }
    Ok(())
}

fn long_source(alloc: Global) -> Result<PlainSource, NoMemory> {
    Ok(PlainSource::new(vec![in alloc; 7; 140_000]?))
}

#[test]
fn an_input_longer_than_one_read_is_read_whole(rt: HostRuntime) -> Result<(), Fail> {
    let alloc = rt.alloc();
    for (limit, taken, len) in [
        (150_000, Taken::Whole, 140_000),
        (140_000, Taken::Whole, 140_000),
        (139_999, Taken::Over, 140_000),
        (131_071, Taken::Over, 131_072),
    ] {
        let mut source = long_source(alloc)?;
        let mut buf = Vec::new(alloc);
        assert_eq!(rt;
            read_whole(alloc, &mut source, limit, &mut buf)?,
            taken,
            "at {limit}"
        );
        assert_eq!(rt; buf.len(), len);
    }
    Ok(())
}

#[test]
fn writing_goes_on_until_the_piece_is_taken_or_a_fault(rt: HostRuntime) -> Result<(), Fail> {
    let alloc = rt.alloc();
    for (most, fails_after, result, wanted) in [
        (1, 9, Ok(()), "words"),
        (2, 9, Ok(()), "words"),
        (9, 9, Ok(()), "words"),
        (2, 3, Err(Failed), "word"),
        (2, 0, Err(Failed), ""),
        (0, 9, Err(Failed), ""),
    ] {
        let mut sink = Sips {
            most,
            fails_after,
            bytes: Vec::new(alloc),
            faults: 0,
        };
        assert_eq!(rt;
            write_whole(&mut sink, b"words"),
            result,
            "at {most} {fails_after}"
        );
        assert_eq!(rt; sink.bytes.as_slice(), wanted.as_bytes());
        assert_eq!(rt; sink.faults > 0, result.is_err());
    }
    Ok(())
}

#[test]
fn a_plain_sink_keeps_what_there_is_room_for(rt: HostRuntime) -> Result<(), Fail> {
    let alloc = rt.alloc();
    for (room, wanted) in [
        (0, ""),
        (3, "loc"),
        (4, "lock"),
        (7, "locktyp"),
        (9, "locktypes"),
        (20, "locktypes"),
    ] {
        let mut sink = PlainSink::with_room(alloc, room)?;
        write_whole(&mut sink, b"lock")?;
        write_whole(&mut sink, b"types")?;
        assert_eq!(rt; sink.bytes(), wanted.as_bytes(), "at {room}");
    }
    Ok(())
}

#[test]
fn reads_whose_numbers_are_listed_fail(rt: HostRuntime) -> Result<(), Fail> {
    let alloc = rt.alloc();
    let fail = [4, 1, 9, 1].to_vec(alloc)?;
    let mut source = MemSource::new(b"stripes".to_vec(alloc)?, fail);
    for wanted in [Some("str"), None, Some("ipe"), Some("s"), None, Some("")] {
        let mut buf = [0; 3];
        let taken = source.read(&mut buf).ok();
        assert_eq!(rt; taken, wanted.map(|text| text.len()));
        assert_eq!(rt; &buf[..taken.unwrap_or(0)], wanted.unwrap_or("").as_bytes());
    }
    Ok(())
}

#[test]
fn writes_whose_numbers_are_listed_fail(rt: HostRuntime) -> Result<(), Fail> {
    let alloc = rt.alloc();
    for (room, wanted) in [(0, ""), (6, "lockty"), (9, "locktypes"), (20, "locktypes")] {
        let mut sink = MemSink::with_room(alloc, room, [0, 2].to_vec(alloc)?)?;
        for (piece, taken) in [
            ("rt", Err(Failed)),
            ("lock", Ok(4)),
            ("s", Err(Failed)),
            ("types", Ok(5)),
            ("", Ok(0)),
        ] {
            assert_eq!(rt; sink.write(piece.as_bytes()), taken, "at {piece}");
        }
        assert_eq!(rt; sink.bytes(), wanted.as_bytes(), "at {room}");
    }
    Ok(())
}

#[test]
fn nobody_is_stopped(rt: HostRuntime) {
    assert_eq!(rt; AlwaysGo.pass(0, 1), Gate::Go);
}
