// The lines of a journal that tell no event.
ghost use Rattle.std.specs.Prelude.{◌≡◌, ◌+◌, ◌<◌, ◌≤◌, ◌++◌, length, vec_len};
ghost use Rattle.std.specs.Vec.{vec_capacity};
ghost use Rattle.rt_events.specs.Journal.{header, end_line};

use crate::appending::{append, push_byte, push_word};
use crate::words::end_text;
use rt_base::Ended;
use rt_base::limits::LINE_LIMIT;

/// Writes the first line of a journal.
pub fn write_header(out: &mut Vec<u8>)
    requires room { vec_len out.old + LINE_LIMIT ≤ vec_capacity out.old }
    ensures text { out.new.items ≡ out.old.items ++ header }
    ensures short { length header < LINE_LIMIT }
    ensures capacity { vec_capacity out.old ≤ vec_capacity out.new }
{
    append(out, b"rtjournal 1\n");
}

/// Writes the line between a journal and its report, which tells how the run ended.
pub fn write_end_line(ended: Ended, out: &mut Vec<u8>)
    requires room { vec_len out.old + LINE_LIMIT ≤ vec_capacity out.old }
    ensures text { out.new.items ≡ out.old.items ++ end_line ended }
    ensures short { length (end_line ended) < LINE_LIMIT }
    ensures capacity { vec_capacity out.old ≤ vec_capacity out.new }
{
    append(out, b"end");
    push_word(out, end_text(ended));
    push_byte(out, b'\n');
}
