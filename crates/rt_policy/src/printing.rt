// Lines are gathered in a buffer, so that a run isn't one write a line.
ghost use Rattle.std.specs.Prelude.{◌≡◌, ◌+◌, ◌≤◌, [], vec_len, vec_capacity, OnOk};
ghost use Rattle.rt_policy.specs.Printing.{PrintsTo};

use rt_base::limits::LINE_LIMIT;
use rt_base::{Failed, Sink, write_whole};

/// Writes what is gathered to the sink.
pub fn flush<K: Sink>(buf: &mut Vec<u8>, out: &mut K) -> Result<(), Failed>
    ensures prints { PrintsTo K.held K.faults result out.old buf.old.items out.new buf.new.items [] }
    ensures empty { OnOk result (buf.new.items ≡ []) }
    ensures capacity { vec_capacity buf.old ≤ vec_capacity buf.new }
{
    write_whole(out, buf)?;
    buf.clear();
    Ok(())
}

/// Writes what is gathered to the sink, where there isn't room for one more line.
pub fn flush_if_full<K: Sink>(buf: &mut Vec<u8>, out: &mut K) -> Result<(), Failed>
    requires { LINE_LIMIT ≤ vec_capacity buf.old }
    ensures prints { PrintsTo K.held K.faults result out.old buf.old.items out.new buf.new.items [] }
    ensures kept { vec_len buf.old + LINE_LIMIT ≤ vec_capacity buf.old
        → (buf.new.items ≡ buf.old.items) × (out.new ≡ out.old) }
    ensures room { OnOk result (vec_len buf.new + LINE_LIMIT ≤ vec_capacity buf.new) }
    ensures capacity { vec_capacity buf.old ≤ vec_capacity buf.new }
{
    if buf.capacity() - buf.len() < LINE_LIMIT {
        flush(buf, out)?;
    }
    Ok(())
}
