ghost use Rattle.std.specs.Prelude.{◌≡◌, ◌<◌, ◌≤◌, length, IfOk, IfErr};
ghost use Rattle.std.specs.Vec.{vec_capacity};
ghost use Rattle.rt_base.specs.declared.limits.TheConstants.{TEXT_LIMIT};
ghost use Rattle.rt_model.specs.State.{start};
ghost use Rattle.rt_model.specs.laws.Shape.{IsOf};
ghost use Rattle.rt_check.specs.Legal.{IsLegal};
ghost use Rattle.rt_check.specs.FirstWrong.{IsFirstWrong};
ghost use Rattle.rt_check.specs.Fault.{IsFaultOf, IsNoRun};
ghost use Rattle.rt_check.specs.Why.{why_number};

use crate::events::{judge_end, play_lines};
use crate::fault::CheckFault;
use crate::front::after_front;
use crate::report::judge_report;
use crate::why::{Why, Wrong};
use rt_base::limits::LINE_LIMIT;
use rt_base::{Ended, NoMemory};
use rt_core::Core;
use rt_script::Script;
use std::alloc::Global;

/// Whether a text is journal and report of one run of the script. If so, it answers how the run ended, which
/// is what the text's end line tells; else it answers which line is wrong first.
///
/// A line is wrong where no run's text that begins with the lines above it goes on with this line. The runs
/// are all of the script's, in whatever order the tasks take turns: picks and the stated order are no matter.
pub fn check(alloc: Global, script: &Script, text: &[u8]) -> Result<Ended, CheckFault>
    requires { length text.now < TEXT_LIMIT }
    ensures legal { IfOk result (IsLegal script.now text.now) }
    ensures illegal { IfErr result (IsFaultOf script.now text.now) }
    ensures no_run { IfErr result (IsNoRun script.now text.now) }
{
    let Ok(mut core) = Core::new(alloc, script) else {
        return Err(CheckFault::Memory(NoMemory));
    };
    let Ok(mut buf) = Vec::with_capacity(alloc, LINE_LIMIT) else {
        return Err(CheckFault::Memory(NoMemory));
    };
    match judge(script, &mut core, text, &mut buf) {
        Ok(ended) => Ok(ended),
        Err(wrong) => Err(CheckFault::Illegal {
            line: wrong.line,
            why: wrong.why.number(),
        }),
    }
}

// Judges a text by a core in the script's start state.
fn judge(script: &Script, core: &mut Core, text: &[u8], buf: &mut Vec<u8>) -> Result<Ended, Wrong>
    requires start { core.old ≡ record { state = start script.now; made = 0 } }
    requires script { IsOf script.now core.old.state }
    requires few { length text.now < TEXT_LIMIT }
    requires room { LINE_LIMIT ≤ vec_capacity buf.old }
    ensures legal { IfOk result (IsLegal script.now text.now) }
    ensures wrong { IfErr result (λ wrong. IsFirstWrong script.now text.now wrong.line (why_number wrong.why)) }
{
    let report_size = script.tasks() + script.locks();
    let Some(lines) = after_front(text, b"rtjournal 1\n") else {
        return Err(Wrong {
            line: 1,
            why: Why::NoLine,
        });
    };
    let rest = play_lines(script, core, lines, buf);
    let line = 2 + core.made() as u32;
    let report = match judge_end(script, core, line, rest, buf) {
        Ok(report) => report,
        Err(wrong) => return Err(wrong),
    };
    let more = match judge_report(script, core, line + 1, report, buf) {
        Ok(more) => more,
        Err(wrong) => return Err(wrong),
    };
    if !more.is_empty() {
        return Err(Wrong {
            line: line + 1 + report_size,
            why: Why::NoLine,
        });
    }
    Ok(core.ended())
}
