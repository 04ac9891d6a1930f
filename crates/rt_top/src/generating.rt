// A script of the generator, replayed and counted.
ghost use Rattle.std.specs.Prelude.{◌≡◌, ◌≤◌};
ghost use Rattle.rt_top.specs.Answer.{Generates, output_of};

use crate::options::{Options, turns};
use crate::status::Status;
use crate::summary::summary;
use rt_base::{Sink, write_whole};
use rt_core::Core;
use rt_policy::{count_replay, generate};
use std::alloc::Global;

/// Makes the script of a number, replays it without printing its lines, and writes the summary. All memory is
/// taken before the first byte is written.
pub fn generate_and_count<K: Sink>(
    alloc: Global,
    number: u32,
    options: Options,
    out: &mut K,
) -> Status
    ensures outcome { Generates result number options (output_of K.held K.faults out.old out.new) }
    ensures unwritten { result ≡ Status.NoMemory → out.new ≡ out.old }
    ensures write_count { K.faults out.old ≤ K.faults out.new }
{
    let Ok(script) = generate(alloc, number as u64) else {
        return Status::NoMemory;
    };
    let Ok(mut core) = Core::new(alloc, &script) else {
        return Status::NoMemory;
    };
    let (counts, ended) = count_replay(&mut core, &script, turns(options, &script));
    let Ok(text) = summary(alloc, number, &counts, ended) else {
        return Status::NoMemory;
    };
    match write_whole(out, &text) {
        Ok(()) => Status::of_run(ended),
        Err(_) => Status::WriteFault,
    }
}
