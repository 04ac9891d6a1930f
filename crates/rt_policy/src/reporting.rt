ghost use Rattle.std.specs.Prelude.{◌≡◌, ◌≤◌, [], ◌++◌, vec_capacity, OnOk};
ghost use Rattle.rt_base.specs.Outside.{Writes};
ghost use Rattle.rt_model.specs.laws.Shape.{IsOf};
ghost use Rattle.rt_core.specs.Report.{report_of};
ghost use Rattle.rt_events.specs.Journal.{end_line};
ghost use Rattle.rt_policy.specs.Printing.{PrintsTo};

use crate::printing::{flush, flush_if_full};
use rt_base::limits::LINE_LIMIT;
use rt_base::{Ended, Failed, Sink};
use rt_core::Core;
use rt_events::write_end_line;
use rt_script::Script;

/// Writes the line that tells how the run ended, and the report. `Failed` comes only from the sink.
pub fn write_report<K: Sink>(
    core: &Core,
    script: &Script,
    ended: Ended,
    buf: &mut Vec<u8>,
    out: &mut K,
) -> Result<(), Failed>
    requires script { IsOf script.now core.now.state }
    requires empty { buf.old.items ≡ [] }
    requires room { LINE_LIMIT ≤ vec_capacity buf.old }
    ensures writes { Writes result (K.held out.old) (K.held out.new) (K.faults out.old) (K.faults out.new)
        (end_line ended ++ report_of script.now core.now.state) }
    ensures buf { OnOk result (buf.new.items ≡ []) }
    ensures capacity { vec_capacity buf.old ≤ vec_capacity buf.new }
{
    write_end_line(ended, buf);
    push_report(core, script, buf, out)?;
    flush(buf, out)
}

// Pushes the lines of the report.
fn push_report<K: Sink>(
    core: &Core,
    script: &Script,
    buf: &mut Vec<u8>,
    out: &mut K,
) -> Result<(), Failed>
    requires script { IsOf script.now core.now.state }
    requires room { LINE_LIMIT ≤ vec_capacity buf.old }
    ensures prints { PrintsTo K.held K.faults result out.old buf.old.items out.new buf.new.items
        (report_of script.now core.now.state) }
    ensures capacity { vec_capacity buf.old ≤ vec_capacity buf.new }
{
    for i in 0..script.tasks() + script.locks() {
        flush_if_full(buf, out)?;
        core.report_line(script, i, buf);
    }
    Ok(())
}
