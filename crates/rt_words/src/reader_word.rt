ghost use Rattle.std.specs.Prelude.{◌≡◌, ◌↔◌, Some, IsNone, IsSome};

use crate::bits::{field, flag};
use crate::layout::{BIAS_AT, COUNT_AT, COUNT_BITS, STAMP_AT, STAMP_LIMIT, WRITER_AT};
use rt_base::limits::MAX_CALLS;

/// What threads share of a reader/writer lock's reader part, as the kernel's `rwbase_rt::readers`.
#[derive(Clone, Copy, Debug, PartialEq, Eq)]
pub struct ReaderWord {
    /// The stamp of the event that left the word.
    pub stamp: u64,
    /// No writer is in, nor has one on its way removed the bias, `READER_BIAS`.
    pub bias: bool,
    /// A writer is in, `WRITER_BIAS`.
    pub writer: bool,
    /// How many readers are in.
    pub count: u32,
}

impl ReaderWord {
    ghost use Rattle.rt_words.specs.ReaderWord.{FitsReaderWord, HasReaderLayout, IsReaderPack, packed_reader_word};

    /// The number of the word.
    pub fn pack(self) -> u64
        requires { FitsReaderWord self }
        ensures number { result ≡ packed_reader_word self }
        ensures unique { (word : ReaderWord) → IsReaderPack result word → word ≡ self }
    {
        u64::from(self.bias) << BIAS_AT
            | u64::from(self.writer) << WRITER_AT
            | u64::from(self.count) << COUNT_AT
            | self.stamp << STAMP_AT
    }

    /// The word of a number, where it is one's.
    pub fn unpack(w: u64) -> Option<ReaderWord>
        ensures some { (word : ReaderWord) → (result ≡ Some word) ↔ IsReaderPack w word }
        ensures none { IsNone result ↔ ((word : ReaderWord) → ¬ IsReaderPack w word) }
        ensures layout { IsSome result ↔ HasReaderLayout w }
    {
        let stamp = w >> STAMP_AT;
        let count = field(w, COUNT_AT, COUNT_BITS) as u32;
        if stamp >= STAMP_LIMIT || count > MAX_CALLS {
            return None;
        }
        Some(ReaderWord {
            stamp,
            bias: flag(w, BIAS_AT),
            writer: flag(w, WRITER_AT),
            count,
        })
    }
}
