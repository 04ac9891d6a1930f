ghost use Rattle.std.specs.Prelude.{◌≡◌, ◌≤◌, min, ◌++◌, length, take, Some, is_err, IfOk, OnErr};
ghost use Rattle.rt_base.specs.Failing.{Supply, fails, after_one_call};
ghost use Rattle.rt_base.specs.Outside.{Rises};

use crate::failing::Failing;
use crate::{Failed, PlainSource, Source};
use std::marker::Model;

/// Bytes in memory that are read by calls of which some fail. A call that fails takes no byte.
#[derive(Drop)]
pub struct MemSource {
    source: PlainSource,
    calls: Failing,
}

impl Model for MemSource {
    ghost Value = { Supply };

    ghost view = { λ mem. record { left = mem.source; calls = mem.calls } };
}

impl MemSource {
    /// A source of these bytes. The reads with these numbers fail, counted from 0.
    pub fn new(bytes: Vec<u8>, fail: Vec<u32>) -> MemSource
        ensures { result ≡ record {
          left = bytes.items;
          calls = record { fail = fail.items; made = 0; faults = 0 };
        } }
    {
        MemSource {
            source: PlainSource::new(bytes),
            calls: Failing::new(fail),
        }
    }
}

impl Source for MemSource {
    ghost left = { λ mem. Some mem.left };

    ghost faults = { λ mem. mem.calls.faults };

    fn read(&mut self, buf: &mut [u8]) -> Result<usize, Failed>
        ensures fails { is_err result ≡ fails self.old.calls }
        ensures calls { self.new.calls ≡ after_one_call self.old.calls }
        ensures cause { OnErr result (Rises self.old.calls.faults self.new.calls.faults) }
        ensures count { self.old.calls.faults ≤ self.new.calls.faults }
        ensures all { IfOk result (λ n. n ≡ min (length self.old.left) (length buf.old)) }
        ensures within { IfOk result (λ n. n ≤ length buf.new) }
        ensures taken { IfOk result (λ n. self.old.left ≡ take n buf.new ++ self.new.left) }
        ensures err { OnErr result (self.new.left ≡ self.old.left) }
    {
        self.calls.call()?;
        self.source.read(buf)
    }
}
