// The lines of the report.
ghost use Rattle.std.specs.Prelude.{◌≡◌, ◌≢◌, ◌↔◌, ◌+◌, ◌<◌, ◌≤◌, ◌∷◌, [], ◌++◌, ℕ, List, length, IsTrue, IfOk, IfErr, IfSome, MatchOption};
ghost use Rattle.std.specs.Vec.{vec_capacity};
ghost use Rattle.rt_base.specs.declared.limits.TheConstants.{TEXT_LIMIT};
ghost use Rattle.rt_model.specs.declared.event.Event.{Event};
ghost use Rattle.rt_model.specs.laws.Shape.{IsOf};
ghost use Rattle.rt_core.specs.Report.{report_of, report_line_of};
ghost use Rattle.rt_check.specs.Place.{at_report, report_size};
ghost use Rattle.rt_check.specs.MayStand.{report_word, IsWhy};
ghost use Rattle.rt_check.specs.Why.{why_number};
ghost use Rattle.rt_check.specs.Judging.{IsWrongReport};

use crate::front::{after_front, first_line};
use crate::why::{Why, Wrong};
use rt_base::limits::LINE_LIMIT;
use rt_core::Core;
use rt_script::Script;

/// What stands after the report of the state, where the text begins with it; else the first wrong line, where
/// the report's first line is numbered `first`.
pub(crate) fn judge_report<'a>(
    script: &Script,
    core: &Core,
    first: u32,
    text: &'a [u8],
    buf: &mut Vec<u8>,
) -> Result<&'a [u8], Wrong>
    requires script { IsOf script.now core.now.state }
    requires few { first + length text.now < TEXT_LIMIT }
    requires room { LINE_LIMIT ≤ vec_capacity buf.old }
    ensures ok { IfOk result (λ more. text.now ≡ report_of script.now core.now.state ++ more.now) }
    ensures long { IfOk result (λ more. report_size script.now + length more.now ≤ length text.now) }
    ensures wrong { IfErr result (IsWrongReport script.now core.now.state first text.now) }
    ensures capacity { vec_capacity buf.old ≤ vec_capacity buf.new }
{
    let mut rest = text;
    for i in 0..script.tasks() + script.locks() {
        match after_report_line(script, core, i, rest, buf) {
            Some(more) => rest = more,
            None => {
                return Err(Wrong {
                    line: first + i,
                    why: why_not_told(script, i, first_line(rest)),
                });
            }
        }
    }
    Ok(rest)
}

// What stands after line i of the report, where the text begins with it.
fn after_report_line<'a>(
    script: &Script,
    core: &Core,
    i: u32,
    text: &'a [u8],
    buf: &mut Vec<u8>,
) -> Option<&'a [u8]>
    requires script { IsOf script.now core.now.state }
    requires line { i < report_size script.now }
    requires room { LINE_LIMIT ≤ vec_capacity buf.old }
    ensures parts { MatchOption result
        ((more : List ℕ) → text.now ≢ report_line_of script.now core.now.state i ++ more)
        (λ more. text.now ≡ report_line_of script.now core.now.state i ++ more.now) }
    ensures shorter { IfSome result (λ more. length more.now < length text.now) }
    ensures capacity { vec_capacity buf.old ≤ vec_capacity buf.new }
{
    buf.clear();
    core.report_line(script, i, buf);
    after_front(text, buf.as_slice())
}

// What is wrong with a line where line i of the report is due.
fn why_not_told(script: &Script, i: u32, line: &[u8]) -> Why
    requires { i < report_size script.now }
    ensures { (events : List Event) → IsWhy script.now line.now (at_report events i) (why_number result) }
{
    if is_report_line(script, i, line) {
        Why::OtherReport
    } else {
        Why::NoLine
    }
}

// Whether a line begins like line i of the report, and has its line feed.
fn is_report_line(script: &Script, i: u32, line: &[u8]) -> bool
    ensures { IsTrue result ↔ ((body : List ℕ) × (report_word script.now i ++ body ++ 10 ∷ [] ≡ line.now)) }
{
    match after_front(line, report_word(script, i)) {
        Some(rest) => rest.ends_with(b"\n"),
        None => false,
    }
}

// What line i of the report begins with.
fn report_word(script: &Script, i: u32) -> &'static [u8]
    ensures { result.now ≡ report_word script.now i }
{
    if i < script.tasks() {
        b"task "
    } else {
        b"lock "
    }
}
