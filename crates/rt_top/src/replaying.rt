// A script replayed: from its bytes to the text of its run.
ghost use Rattle.std.specs.Prelude.{◌≡◌, ◌≤◌, [], ◌++◌, vec_capacity, IfOk, OnOk};
ghost use Rattle.rt_base.specs.Outside.{Writes};
ghost use Rattle.rt_base.specs.Script.{IsScript};
ghost use Rattle.rt_model.specs.laws.Shape.{IsOf};
ghost use Rattle.rt_model.specs.State.{start};
ghost use Rattle.rt_model.specs.Run.{after, ended_of};
ghost use Rattle.rt_model.specs.Order.{replayed};
ghost use Rattle.rt_events.specs.Journal.{header, lines_of};
ghost use Rattle.rt_core.specs.Text.{replay_text};
ghost use Rattle.rt_policy.specs.Turns.{TellsLimit, after_picks};

use crate::options::MAX_TURNS;
use rt_base::limits::LINE_LIMIT;
use rt_base::{Ended, Failed, Sink, write_whole};
use rt_core::Core;
use rt_events::write_header;
use rt_policy::{finish, run_picks, write_report};
use rt_script::Script;

// Writes the first line of a journal.
fn print_header<K: Sink>(buf: &mut Vec<u8>, out: &mut K) -> Result<(), Failed>
    requires empty { buf.old.items ≡ [] }
    requires room { LINE_LIMIT ≤ vec_capacity buf.old }
    ensures writes { Writes result (K.held out.old) (K.held out.new) (K.faults out.old) (K.faults out.new)
        header }
    ensures buf { OnOk result (buf.new.items ≡ []) }
    ensures capacity { vec_capacity buf.old ≤ vec_capacity buf.new }
{
    write_header(buf);
    write_whole(out, buf)?;
    buf.clear();
    Ok(())
}

// Writes the journal of a script's replay: the picks, then at most so many events in the stated order.
fn print_journal<K: Sink>(
    core: &mut Core,
    script: &Script,
    turns: u64,
    buf: &mut Vec<u8>,
    out: &mut K,
) -> Result<Ended, Failed>
    requires start { core.old ≡ record { state = start script.now; made = 0 } }
    requires valid { IsScript script.now }
    requires turns { turns ≤ MAX_TURNS }
    requires script { IsOf script.now core.old.state }
    requires empty { buf.old.items ≡ [] }
    requires room { LINE_LIMIT ≤ vec_capacity buf.old }
    ensures writes { Writes result (K.held out.old) (K.held out.new) (K.faults out.old) (K.faults out.new)
        (header ++ lines_of script.now 1 (replayed script.now turns).events) }
    ensures state { OnOk result (core.new.state ≡ (replayed script.now turns).state) }
    ensures ended { IfOk result (λ ended. ended ≡ ended_of core.new.state) }
    ensures limit { IfOk result (TellsLimit turns (after_picks script.now turns)) }
    ensures script { IsOf script.now core.new.state }
    ensures buf { OnOk result (buf.new.items ≡ []) }
    ensures capacity { vec_capacity buf.old ≤ vec_capacity buf.new }
{
    print_header(buf, out)?;
    let (count, last) = run_picks(core, script, buf, out)?;
    finish(core, script, last, turns, count + 1, buf, out)
}

/// Writes the text of a script's replay with at most so many events after the picks, and answers how it
/// ended.
pub fn print_replay<K: Sink>(
    core: &mut Core,
    script: &Script,
    turns: u64,
    buf: &mut Vec<u8>,
    out: &mut K,
) -> Result<Ended, Failed>
    requires start { core.old ≡ record { state = start script.now; made = 0 } }
    requires valid { IsScript script.now }
    requires turns { turns ≤ MAX_TURNS }
    requires script { IsOf script.now core.old.state }
    requires empty { buf.old.items ≡ [] }
    requires room { LINE_LIMIT ≤ vec_capacity buf.old }
    ensures writes { Writes result (K.held out.old) (K.held out.new) (K.faults out.old) (K.faults out.new)
        (replay_text script.now turns) }
    ensures ended { IfOk result (λ ended.
        ended_of (after (start script.now) (replayed script.now turns).events) ≡ ended) }
    ensures limit { IfOk result (TellsLimit turns (after_picks script.now turns)) }
{
    let ended = print_journal(core, script, turns, buf, out)?;
    write_report(core, script, ended, buf, out)?;
    Ok(ended)
}
