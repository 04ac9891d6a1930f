// A journal judged by the script before it.
ghost use Rattle.std.specs.Prelude.{◌≡◌, ◌≤◌, ◌<◌, length};
ghost use Rattle.rt_script.specs.Words.{text_lines};
ghost use Rattle.rt_top.specs.Answer.{Judges, output_of};
ghost use Rattle.rt_top.specs.Checked.{journal_part, length_to_go, script_part};

use crate::message::{illegal, legal, tell};
use crate::status::Status;
use rt_base::{Ended, Sink, write_whole};
use rt_check::{CheckFault, check};
use rt_script::{Pieces, Script};
use std::alloc::Global;

// How long the lines of an input are, with a line feed each, up to the first that is `go`.
fn length_to_go(input: &[u8]) -> usize
    ensures { result ≡ length_to_go (text_lines input.now) }
{
    let mut lines = Pieces::new(input, b'\n');
    let mut length = 0;
    'lines: while let Some(line) = lines.next() {
        length += line.len() + 1;
        if line == b"go".as_slice() {
            return length;
        }
    }
    length
}

/// The script of an input, and the journal behind it. Where no line is `go`, all is script.
pub fn parts(input: &[u8]) -> (&[u8], &[u8])
    ensures script { result.0.now ≡ script_part input.now }
    ensures journal { result.1.now ≡ journal_part input.now }
{
    input.split_at(length_to_go(input).min(input.len()))
}

/// Judges a journal. All memory is taken before the first byte is written.
pub fn check_journal<K: Sink>(alloc: Global, script: &Script, journal: &[u8], out: &mut K) -> Status
    requires { length journal.now < 4294967295 }
    ensures outcome { Judges result script.now journal.now (output_of K.held K.faults out.old out.new) }
    ensures unwritten { result ≡ Status.NoMemory → out.new ≡ out.old }
    ensures write_count { K.faults out.old ≤ K.faults out.new }
{
    match check(alloc, script, journal) {
        Ok(ended) => match write_whole(out, legal(ended).as_bytes()) {
            Ok(()) => Status::Done,
            Err(_) => Status::WriteFault,
        },
        Err(CheckFault::Illegal { line, why }) => {
            let Ok(text) = illegal(alloc, line, why) else {
                return Status::NoMemory;
            };
            tell(text.as_bytes(), out);
            Status::Illegal
        }
        Err(CheckFault::Memory(_)) => Status::NoMemory,
    }
}
