ghost use Rattle.std.specs.Prelude.{◌≡◌, ℕ, ◌<◌, ◌≤◌, List, [], ◌++◌, false, length, take, Option, IfOk, OnOk, OnErr, vec_len, vec_capacity};
ghost use Rattle.rt_base.specs.Outside.{Rises, Appends};
ghost use Rattle.rt_base.specs.Kept.{Kept, told, with_piece, KeepsFirst};

use crate::{Failed, NoMemory};
use std::alloc::Global;
use std::marker::Model;

/// Where bytes go.
pub trait Sink {
    /// The bytes that the sink holds, where it tells them.
    ghost held: { Self → Option (List ℕ) };

    /// How often the sink has failed.
    ghost faults: { Self → ℕ };

    /// Appends a prefix of the piece, and answers how long. To take nothing of a piece that isn't
    /// empty is a fault.
    fn write(&mut self, piece: &[u8]) -> Result<usize, Failed>
        ensures within { IfOk result (λ n. n ≤ length piece.now) }
        ensures appended { IfOk result (λ n. Appends (held self.old) (take n piece.now) (held self.new)) }
        ensures some { IfOk result (λ n. 0 < n → faults self.new ≡ faults self.old) }
        ensures empty { length piece.now ≡ 0 → OnOk result (faults self.new ≡ faults self.old) }
        ensures nothing { IfOk result (λ n. n ≡ 0 → 0 < length piece.now
            → Rises (faults self.old) (faults self.new)) }
        ensures err { OnErr result (Appends (held self.old) [] (held self.new)) }
        ensures cause { OnErr result (Rises (faults self.old) (faults self.new)) }
        ensures count { faults self.old ≤ faults self.new };
}

/// Memory for a number of bytes. It keeps the first bytes that it takes, as many as it has room
/// for, and drops the rest. It never fails.
#[derive(Drop)]
pub struct PlainSink {
    room: usize,
    bytes: Vec<u8>,
    is_over: bool,
}

impl Model for PlainSink {
    ghost Value = { Kept };

    ghost view = { λ sink. record { room = sink.room; bytes = sink.bytes.items; is_over = sink.is_over } };

    ghost invariant = { λ sink. (vec_len sink.bytes ≤ sink.room) × (sink.room ≤ vec_capacity sink.bytes) };
}

impl PlainSink {
    /// An empty sink with room for n bytes.
    pub fn with_room(alloc: Global, n: usize) -> Result<PlainSink, NoMemory>
        ensures empty { IfOk result (λ sink. sink ≡ record { room = n; bytes = []; is_over = false }) }
        ensures first { IfOk result (λ sink. KeepsFirst sink []) }
    {
        Ok(PlainSink {
            room: n,
            bytes: Vec::with_capacity(alloc, n)?,
            is_over: false,
        })
    }

    /// The bytes that it keeps.
    pub fn bytes(&self) -> &[u8]
        ensures { result.now ≡ self.now.bytes }
    {
        &self.bytes
    }
}

impl Sink for PlainSink {
    ghost held = { told };

    ghost faults = { λ _. 0 };

    /// Takes the whole piece, and no memory.
    fn write(&mut self, piece: &[u8]) -> Result<usize, Failed>
        ensures all { result ≡ Ok (length piece.now) }
        ensures kept { self.new ≡ with_piece self.old piece.now }
        ensures first { (taken : List ℕ) → KeepsFirst self.old taken
            → KeepsFirst self.new (taken ++ piece.now) }
        ensures appended { Appends (told self.old) piece.now (told self.new) }
    {
        let room = self.room - self.bytes.len();
        let (kept, dropped) = piece.split_at(room.min(piece.len()));
        // There is room since the sink was made.
        self.bytes.extend_from_slice(kept).unwrap();
        self.is_over = self.is_over || !dropped.is_empty();
        Ok(piece.len())
    }
}
