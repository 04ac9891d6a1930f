ghost use Rattle.std.specs.Prelude.{◌≡◌, ◌+◌, ◌<◌, false, length, Ok, IfOk, IfErr};
ghost use Rattle.rt_base.specs.Script.{IsScript};
ghost use Rattle.rt_script.specs.Adding.{empty_script};
ghost use Rattle.rt_script.specs.Grammar.{script_at_go, after_lines, script_of};
ghost use Rattle.rt_script.specs.Results.{Reads, IsInLine, IsFaultOf};

use crate::draft::Draft;
use crate::draft::line::are_printable;
use crate::fault::{ScriptFault, Why};
use crate::line_error::LineError;
use crate::pieces::Pieces;
use crate::script::Script;
use rt_base::NoMemory;
use rt_base::limits::TEXT_LIMIT;
use std::alloc::Global;

/// The script that a text is, by the rules of the whole script text. A fault is the first one: the first
/// line that is at fault, numbered from 1, and in it the first test that fails. A text that ends before
/// its `go` line is at fault in the line after its last one.
#[tactic(auto, unfolding(crate::specs::Grammar::script_of))]
pub fn read_script(alloc: Global, text: &[u8]) -> Result<Script, ScriptFault>
    requires { length text.now < TEXT_LIMIT }
    ensures script { IfOk result (λ script. script_of text.now ≡ Ok script) }
    ensures valid { IfOk result IsScript }
    ensures fault { IfErr result (IsFaultOf (script_of text.now)) }
{
    let mut lines = Pieces::new(text, b'\n');
    let why = match lines.next() {
        Some(header) if !are_printable(header) => Why::NotAscii,
        Some(header) if header == b"rtscript 1".as_slice() => return read_lines(alloc, lines),
        _ => Why::BadHeader,
    };
    Err(ScriptFault::At { line: 1, why })
}

/// Reads the lines after the header, the first of which is line 2.
#[tactic(auto, unfolding(crate::specs::Grammar::after_lines))]
fn read_lines(alloc: Global, mut lines: Pieces) -> Result<Script, ScriptFault>
    requires { length lines + 1 < TEXT_LIMIT }
    ensures { Reads result (after_lines 2 (record { script = empty_script; begun = false }) lines.entry) }
{
    let mut draft = Draft::new(alloc);
    let mut n = 2;
    'lines: while !lines.is_end() {
        let Some(line) = lines.next() else { break };
        if line == b"go".as_slice() {
            return script_at_go(n + 1, draft, lines);
        }
        if let Err(error) = draft.line(alloc, line) {
            return Err(in_line(n, error));
        }
        n += 1;
    }
    Err(ScriptFault::At {
        line: n,
        why: Why::NoGo,
    })
}

/// The script of a draft, where nothing stands after its `go` line, which is the one before line n.
fn script_at_go(n: u32, draft: Draft, mut lines: Pieces) -> Result<Script, ScriptFault>
    ensures { Reads result (script_at_go n draft.script lines.entry) }
{
    if lines.is_end() {
        return Ok(draft.into_script());
    }
    let why = match lines.next() {
        Some(line) if !are_printable(line) => Why::NotAscii,
        _ => Why::AfterGo,
    };
    Err(ScriptFault::At { line: n, why })
}

/// A fault of line n, or a want of memory.
fn in_line(n: u32, error: LineError) -> ScriptFault
    ensures { IsInLine n error result }
{
    match error {
        LineError::Fault(why) => ScriptFault::At { line: n, why },
        LineError::Memory => ScriptFault::Memory(NoMemory),
    }
}
