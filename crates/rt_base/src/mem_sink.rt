ghost use Rattle.std.specs.Prelude.{◌≡◌, ◌≤◌, [], false, length, is_err, IfOk, OnOk, OnErr};
ghost use Rattle.rt_base.specs.Failing.{Store, fails, after_one_call};
ghost use Rattle.rt_base.specs.Outside.{Rises, Appends};
ghost use Rattle.rt_base.specs.Kept.{told, with_piece};

use crate::failing::Failing;
use crate::{Failed, NoMemory, PlainSink, Sink};
use std::alloc::Global;
use std::marker::Model;

/// Memory for a number of bytes that is written by calls of which some fail. Of what the other calls
/// write it keeps the first bytes, as many as it has room for, and drops the rest.
#[derive(Drop)]
pub struct MemSink {
    sink: PlainSink,
    calls: Failing,
}

impl Model for MemSink {
    ghost Value = { Store };

    ghost view = { λ mem. record { kept = mem.sink; calls = mem.calls } };
}

impl MemSink {
    /// An empty sink with room for n bytes. The writes with these numbers fail, counted from 0.
    pub fn with_room(alloc: Global, n: usize, fail: Vec<u32>) -> Result<MemSink, NoMemory>
        ensures { IfOk result (λ sink. sink ≡ record {
          kept = record { room = n; bytes = []; is_over = false };
          calls = record { fail = fail.items; made = 0; faults = 0 };
        }) }
    {
        Ok(MemSink {
            sink: PlainSink::with_room(alloc, n)?,
            calls: Failing::new(fail),
        })
    }

    /// The bytes that it keeps.
    pub fn bytes(&self) -> &[u8]
        ensures { result.now ≡ self.now.kept.bytes }
    {
        self.sink.bytes()
    }
}

impl Sink for MemSink {
    ghost held = { λ mem. told mem.kept };

    ghost faults = { λ mem. mem.calls.faults };

    /// Takes the whole piece, where the call isn't one that fails, and no memory.
    fn write(&mut self, piece: &[u8]) -> Result<usize, Failed>
        ensures fails { is_err result ≡ fails self.old.calls }
        ensures calls { self.new.calls ≡ after_one_call self.old.calls }
        ensures cause { OnErr result (Rises self.old.calls.faults self.new.calls.faults) }
        ensures count { self.old.calls.faults ≤ self.new.calls.faults }
        ensures all { IfOk result (λ n. n ≡ length piece.now) }
        ensures kept { OnOk result (self.new.kept ≡ with_piece self.old.kept piece.now) }
        ensures appended { OnOk result (Appends (told self.old.kept) piece.now (told self.new.kept)) }
        ensures err { OnErr result (self.new.kept ≡ self.old.kept) }
    {
        self.calls.call()?;
        self.sink.write(piece)
    }
}
