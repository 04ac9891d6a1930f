// Steps on the reader part of one lock among the shared parts.
ghost use Rattle.std.specs.Prelude.{◌≡◌, ◌<◌, false, true, IsTrue, length};
ghost use Rattle.rt_base.specs.declared.limits.TheConstants.{MAX_CALLS};
ghost use Rattle.rt_model.specs.declared.event_kind.EventKind.TheVariants.{RIn, ROut, Unbias, WTake};
ghost use Rattle.rt_model.specs.State.{readers_in};
ghost use Rattle.rt_model.specs.steps.Readers.{CanStep, with_reader, without_reader, wakes_writer, unbiased, with_writer, without_writer};
ghost use Rattle.rt_parts.specs.Steps.{with_readers};

use crate::shared::Shared;
use rt_base::LockId;

impl Shared {
    /// A reader gets in.
    pub fn read_in(&mut self, l: LockId)
        requires lock { l.0 < length self.old.locks }
        requires can { CanStep RIn 0 (readers_in self.old l) }
        ensures { self.new ≡ with_readers self.old l with_reader }
    {
        self.readers[l.0 as usize] = rt_rwbase::read_in(self.readers[l.0 as usize]);
    }

    /// A reader gets out. Whether it is the last one, and a writer has removed the bias.
    pub fn read_out(&mut self, l: LockId) -> bool
        requires lock { l.0 < length self.old.locks }
        requires can { CanStep ROut 0 (readers_in self.old l) }
        ensures parts { self.new ≡ with_readers self.old l without_reader }
        ensures last { result ≡ wakes_writer (readers_in self.new l) }
    {
        let (left, last) = rt_rwbase::read_out(self.readers[l.0 as usize]);
        self.readers[l.0 as usize] = left;
        last
    }

    /// A writer removes the bias.
    pub fn unbias(&mut self, l: LockId)
        requires lock { l.0 < length self.old.locks }
        requires can { CanStep Unbias 0 (readers_in self.old l) }
        ensures { self.new ≡ with_readers self.old l unbiased }
    {
        self.readers[l.0 as usize] = rt_rwbase::unbias(self.readers[l.0 as usize]);
    }

    /// A writer gets in, where no reader is.
    pub fn write_in(&mut self, l: LockId)
        requires lock { l.0 < length self.old.locks }
        requires can { CanStep WTake 0 (readers_in self.old l) }
        ensures { self.new ≡ with_readers self.old l with_writer }
    {
        if let Some(written) = rt_rwbase::write_in(self.readers[l.0 as usize]) {
            self.readers[l.0 as usize] = written;
        }
    }

    /// A writer leaves, or gives up its way in, or stays as a reader.
    pub fn write_out(&mut self, l: LockId, reader: bool)
        requires lock { l.0 < length self.old.locks }
        requires bias { (readers_in self.old l).bias ≡ false }
        requires writer { IsTrue reader → (readers_in self.old l).writer ≡ true }
        requires room { IsTrue reader → (readers_in self.old l).count < MAX_CALLS }
        ensures { self.new ≡ with_readers self.old l (without_writer reader) }
    {
        self.readers[l.0 as usize] = rt_rwbase::write_out(self.readers[l.0 as usize], reader);
    }
}
