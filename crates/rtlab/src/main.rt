//! The program `rtlab`: plays a lock script from standard input and prints its journal.
#![tactic(auto)]

use rt_base::{AlwaysGo, StdinSource, StdoutSink};
use rt_top::rtlab;
use std::process::ExitCode;
use std::{env, io};

/// The status where the words can't be kept for want of memory.
const NO_MEMORY: u8 = 8;

// The words after the program's name.
fn words(rt: &HostRuntime) -> io::Result<Vec<String>> {
    Ok(env::args(rt)?.skip(1).collect(rt.alloc())?)
}

fn main(rt: HostRuntime) -> ExitCode {
    let words = match words(&rt) {
        Ok(words) => words,
        Err(e) if e.kind() == io::ErrorKind::OutOfMemory => return ExitCode::from(NO_MEMORY),
        // A word that isn't text is none that is taken, and neither are no words at all.
        Err(_) => Vec::new(rt.alloc()),
    };
    let mut src = StdinSource::new(rt.stdin());
    let mut out = StdoutSink::new(rt.stdout());
    ExitCode::from(rtlab(&rt, rt.alloc(), &words, &mut src, &mut out, &AlwaysGo))
}
