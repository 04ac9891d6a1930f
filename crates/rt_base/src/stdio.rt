ghost use Rattle.std.specs.Prelude.{◌≡◌, ℕ, ◌<◌, ◌≤◌, List, length, take, None, IfOk, OnOk, OnErr};
ghost use Rattle.std.specs.Io.KnownBytes as known;
ghost use Rattle.rt_base.specs.Outside.{raised};
ghost use Rattle.rt_base.specs.Stream.{Stream, AppendsKnownPrefix};

use crate::{Failed, Sink, Source};
use std::io;
use std::io::{Read, Write};
use std::marker::Model;

/// A reader of the system as a source. It tells nothing of the bytes. Each error is a fault, and so
/// is a call that a signal interrupts.
#[derive(Drop)]
pub struct StdinSource<R: Read> {
    reader: R,
    faults: u64,
}

impl<R: Read> Model for StdinSource<R> {
    ghost Value = { Stream };

    ghost view = { λ source. record { bytes = R.remaining source.reader; faults = source.faults } };
}

impl<R: Read> StdinSource<R> {
    /// A source of what the reader gives.
    pub fn new(reader: R) -> StdinSource<R>
        ensures { result ≡ record { bytes = R.remaining reader; faults = 0 } }
    {
        StdinSource { reader, faults: 0 }
    }
}

impl<R: Read> Source for StdinSource<R> {
    ghost left = { λ _. None };

    ghost faults = { λ stream. stream.faults };

    fn read(&mut self, buf: &mut [u8]) -> Result<usize, Failed>
        ensures within { IfOk result (λ n. n ≤ length buf.new) }
        ensures passed_on { known.ReadConsumes self.old.bytes self.new.bytes result buf.new }
        ensures ok { OnOk result (self.new.faults ≡ self.old.faults) }
        ensures err { OnErr result (self.new.faults ≡ raised self.old.faults) }
        ensures count { self.old.faults ≤ self.new.faults }
    {
        match self.reader.read(buf) {
            Ok(count) => Ok(count),
            Err(_) => {
                self.faults = self.faults.saturating_add(1);
                Err(Failed)
            }
        }
    }
}

/// A writer of the system as a sink. It tells nothing of the bytes. Each error is a fault, and so is
/// a write that takes nothing of a piece that isn't empty. After an error the writer may have some prefix
/// of the piece. What it has taken is in no buffer of the writer.
#[derive(Drop)]
pub struct StdoutSink<W: Write> {
    writer: W,
    faults: u64,
}

impl<W: Write> Model for StdoutSink<W> {
    ghost Value = { Stream };

    ghost view = { λ sink. record { bytes = W.contents sink.writer; faults = sink.faults } };
}

impl<W: Write> StdoutSink<W> {
    /// A sink into this writer.
    pub fn new(writer: W) -> StdoutSink<W>
        ensures { result ≡ record { bytes = W.contents writer; faults = 0 } }
    {
        StdoutSink { writer, faults: 0 }
    }
}

impl<W: Write> Sink for StdoutSink<W> {
    ghost held = { λ _. None };

    ghost faults = { λ stream. stream.faults };

    fn write(&mut self, piece: &[u8]) -> Result<usize, Failed>
        ensures within { IfOk result (λ n. n ≤ length piece.now) }
        ensures passed_on { IfOk result (λ n.
            known.Appends self.old.bytes self.new.bytes (take n piece.now)) }
        ensures some { IfOk result (λ n. 0 < n → self.new.faults ≡ self.old.faults) }
        ensures empty { length piece.now ≡ 0 → OnOk result (self.new.faults ≡ self.old.faults) }
        ensures nothing { IfOk result (λ n. n ≡ 0 → 0 < length piece.now
            → self.new.faults ≡ raised self.old.faults) }
        ensures part { OnErr result (AppendsKnownPrefix self.old.bytes self.new.bytes piece.now) }
        ensures err { OnErr result (self.new.faults ≡ raised self.old.faults) }
        ensures count { self.old.faults ≤ self.new.faults }
    {
        let taken = write_through(&mut self.writer, piece);
        if taken.is_err() || (matches!(taken, Ok(0)) && !piece.is_empty()) {
            self.faults = self.faults.saturating_add(1);
        }
        taken.map_err(|_| Failed)
    }
}

/// One write, whose bytes don't stay in a buffer of the writer.
fn write_through<W: Write>(writer: &mut W, piece: &[u8]) -> io::Result<usize>
    ensures within { IfOk result (λ count. count ≤ length piece.now) }
    ensures appended { IfOk result (λ count.
        known.Appends (W.contents writer.old) (W.contents writer.new) (take count piece.now)) }
    ensures part { OnErr result
        (AppendsKnownPrefix (W.contents writer.old) (W.contents writer.new) piece.now) }
{
    let count = writer.write(piece)?;
    writer.flush()?;
    Ok(count)
}
