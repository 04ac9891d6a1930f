// The lines that tell what came of a journal, or why nothing was played.
ghost use Rattle.std.specs.Prelude.{◌≡◌, ◌≤◌, IfOk, string_bytes};
ghost use Rattle.rt_top.specs.Answer.{IsTold, output_of};
ghost use Rattle.rt_top.specs.Message.{bad_script_line, fault_at, fault_number, illegal_line, legal_line, read_fault_line, too_long_line, usage_line};

use rt_base::{Ended, Sink, write_whole};
use rt_script::Why;
use std::alloc::{AllocError, Global};

// The number of what is wrong with a line of a script.
fn fault_number(why: Why) -> u8
    ensures { result ≡ fault_number why }
{
    match why {
        Why::NotAscii => 1,
        Why::BadHeader => 2,
        Why::BadLine => 3,
        Why::BadName => 4,
        Why::NameTwice => 5,
        Why::Unknown => 6,
        Why::BadNumber => 7,
        Why::WrongKind => 8,
        Why::TooMany => 9,
        Why::NoGo => 10,
        Why::AfterGo => 11,
    }
}

/// The line that tells which line of a script is at fault, numbered from 1, and why.
pub fn bad_script(alloc: Global, line: u32, why: Why) -> Result<String, AllocError>
    ensures { IfOk result (λ text. string_bytes text ≡ bad_script_line (fault_at line why)) }
{
    let number = fault_number(why);
    format!(in alloc; "bad script: line {line}, fault {number}\n")
}

/// The line that tells that a journal is a run's, and how that ended.
pub fn legal(ended: Ended) -> &'static str
    ensures { result.now ≡ legal_line ended }
{
    match ended {
        Ended::Done => "legal done\n",
        Ended::Stuck => "legal stuck\n",
        Ended::Limit => "legal limit\n",
    }
}

/// The line that tells which line of a journal is the first wrong one, numbered from 1, and why.
pub fn illegal(alloc: Global, line: u32, why: u8) -> Result<String, AllocError>
    ensures { IfOk result (λ text. string_bytes text ≡ illegal_line line why) }
{
    format!(in alloc; "illegal {line} {why}\n")
}

/// Writes a line. Where the sink fails, some prefix of it was written.
pub fn tell<K: Sink>(line: &[u8], out: &mut K)
    ensures told { IsTold line.now (output_of K.held K.faults out.old out.new) }
    ensures count { K.faults out.old ≤ K.faults out.new }
{
    let _ = write_whole(out, line);
}

/// Writes which words are taken.
pub fn tell_usage<K: Sink>(out: &mut K)
    ensures told { IsTold usage_line (output_of K.held K.faults out.old out.new) }
    ensures count { K.faults out.old ≤ K.faults out.new }
{
    tell(
        b"usage: rtlab replay [--turns N] | run [--turns N] [--patience N] | check | gen N [--turns N]\n",
        out,
    );
}

/// Writes that the source failed.
pub fn tell_read_fault<K: Sink>(out: &mut K)
    ensures told { IsTold read_fault_line (output_of K.held K.faults out.old out.new) }
    ensures count { K.faults out.old ≤ K.faults out.new }
{
    tell(b"read fault\n", out);
}

/// Writes that the input is too long.
pub fn tell_too_long<K: Sink>(out: &mut K)
    ensures told { IsTold too_long_line (output_of K.held K.faults out.old out.new) }
    ensures count { K.faults out.old ≤ K.faults out.new }
{
    tell(b"too long\n", out);
}
