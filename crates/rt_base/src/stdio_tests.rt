// What the standard streams pass on: bytes, the end and errors, each once.
use crate::{Failed, StdinSource, StdoutSink, Taken, read_whole, write_whole};
use std::io;
use std::io::{Read, Write};
use std::test::Fail;

/// A reader whose reads are listed: `.` finds the end of input, `!` is an error, and anything else is a
/// byte that it gives. Each read after those is an error.
#[derive(Drop)]
struct Listed<'a> {
    reads: &'a [u8],
    at: usize,
}

impl Read for Listed<'_> {
    fn read(&mut self, buf: &mut [u8]) -> io::Result<usize> {
        if buf.is_empty() {
            return Ok(0);
        }
        let read = self.reads.get(self.at).copied().unwrap_or(b'!');
        self.at = self.at.saturating_add(1);
        match read {
            b'.' => Ok(0),
            b'!' => Err(io::ErrorKind::BrokenPipe.into()),
            byte => {
                buf[0] = byte;
                Ok(1)
            }
        }
    }
}

/// A writer that takes a number of bytes, and then fails; its flush may fail, too.
#[derive(Drop)]
struct Narrow {
    room: usize,
    flushes: bool,
}

impl Write for Narrow {
    fn write(&mut self, buf: &[u8]) -> io::Result<usize> {
        let taken = self.room.min(buf.len());
        if taken == 0 {
            return Err(io::ErrorKind::BrokenPipe.into());
        }
        self.room -= taken;
        Ok(taken)
    }

    fn flush(&mut self) -> io::Result<()> {
        if self.flushes {
            Ok(())
        } else {
            Err(io::ErrorKind::BrokenPipe.into())
        }
    }
}

#[test]
fn a_reader_is_read_to_its_first_end_or_error(rt: HostRuntime) -> Result<(), Fail> {
    let alloc = rt.alloc();
    let rows: [(&[u8], Taken, &[u8]); 5] = [
        (b"ab.", Taken::Whole, b"ab"),
        (b"ab.c.", Taken::Whole, b"ab"),
        (b"ab!c.", Taken::Fault, b"ab"),
        (b".c", Taken::Whole, b""),
        (b"!c.", Taken::Fault, b""),
    ];
    for (reads, taken, wanted) in rows {
        let mut source = StdinSource::new(Listed { reads, at: 0 });
        let mut buf = Vec::new(alloc);
        assert_eq!(rt; read_whole(alloc, &mut source, 9, &mut buf)?, taken);
        assert_eq!(rt; buf.as_slice(), wanted);
    }
    Ok(())
}

#[test]
fn errors_of_writes_and_of_flushes_are_passed_on(rt: HostRuntime) {
    for (room, flushes, result) in [
        (9, true, Ok(())),
        (3, true, Err(Failed)),
        (0, true, Err(Failed)),
        (9, false, Err(Failed)),
    ] {
        let mut sink = StdoutSink::new(Narrow { room, flushes });
        assert_eq!(rt;
            write_whole(&mut sink, b"words"),
            result,
            "at {room} {flushes}"
        );
    }
}

#[test]
fn the_standard_streams_pass_on_bytes(rt: HostRuntime) -> Result<(), Fail> {
    let alloc = rt.alloc();
    let mut buf = Vec::new(alloc);
    let mut source = StdinSource::new(b"events".as_slice());
    assert_eq!(rt; read_whole(alloc, &mut source, 9, &mut buf)?, Taken::Whole);
    let mut sink = StdoutSink::new(&mut buf);
    assert_eq!(rt; write_whole(&mut sink, b"!"), Ok(()));
    assert_eq!(rt; buf.as_slice(), b"events!".as_slice());
    Ok(())
}
