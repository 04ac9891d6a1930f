ghost use Rattle.std.specs.Prelude.{◌≡◌, ℕ, ◌<◌, ◌≤◌, min, List, [], ◌++◌, length, take, drop, Option, Some, IfOk, OnOk, OnErr};
ghost use Rattle.rt_base.specs.Outside.{Rises, Takes, IsAtEnd};

use crate::Failed;
use std::marker::Model;

/// Where bytes come from.
pub trait Source {
    /// The bytes that are left, where the source tells them.
    ghost left: { Self → Option (List ℕ) };

    /// How often the source has failed.
    ghost faults: { Self → ℕ };

    /// Puts the next bytes at the start of the buffer, and answers how many. With room in the buffer,
    /// 0 is the end of input. Of the buffer after `Failed` nothing is said.
    fn read(&mut self, buf: &mut [u8]) -> Result<usize, Failed>
        ensures within { IfOk result (λ n. n ≤ length buf.new) }
        ensures taken { IfOk result (λ n. Takes (left self.old) (take n buf.new) (left self.new)) }
        ensures end { IfOk result (λ n. n ≡ 0 → 0 < length buf.old → IsAtEnd (left self.new)) }
        ensures ok { OnOk result (faults self.new ≡ faults self.old) }
        ensures err { OnErr result (Takes (left self.old) [] (left self.new)) }
        ensures cause { OnErr result (Rises (faults self.old) (faults self.new)) }
        ensures count { faults self.old ≤ faults self.new };
}

/// Bytes in memory. It never fails.
#[derive(Drop)]
pub struct PlainSource {
    bytes: Vec<u8>,
    at: usize,
}

impl Model for PlainSource {
    ghost Value = { List ℕ };

    ghost view = { λ source. drop source.at source.bytes.items };

    ghost invariant = { λ source. source.at ≤ length source.bytes.items };
}

impl PlainSource {
    /// A source of these bytes.
    pub fn new(bytes: Vec<u8>) -> PlainSource
        ensures { result ≡ bytes.items }
    {
        PlainSource { bytes, at: 0 }
    }
}

impl Source for PlainSource {
    ghost left = { λ bytes. Some bytes };

    ghost faults = { λ _. 0 };

    fn read(&mut self, buf: &mut [u8]) -> Result<usize, Failed>
        ensures all { result ≡ Ok (min (length self.old) (length buf.old)) }
        ensures within { IfOk result (λ n. n ≤ length buf.new) }
        ensures taken { IfOk result (λ n. self.old ≡ take n buf.new ++ self.new) }
    {
        let left = self.bytes.split_at(self.at).1;
        let count = left.len().min(buf.len());
        buf[..count].copy_from_slice(&left[..count]);
        self.at += count;
        Ok(count)
    }
}
