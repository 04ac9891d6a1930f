// The entry that a line of a journal tells.
ghost use Rattle.std.specs.Prelude.{◌≡◌, IfOk, OnErr};
ghost use Rattle.rt_events.specs.declared.entry.Entry.{Entry};
ghost use Rattle.rt_events.specs.Line.{IsLineOf};
ghost use Rattle.rt_events.specs.reading.EntryIn.{entry_of_words, entry_in};

mod kinds;
mod line_words;
mod links;
mod locks;
pub(crate) mod operands;
mod spelling;
mod tail;

use crate::entry::Entry;
use kinds::operands_in;
use line_words::LineWords;
use rt_script::{Pieces, Script, number};
use spelling::kind_in;
use tail::tail_in;

/// Why a line can't be read.
#[derive(Clone, Copy, Debug, PartialEq, Eq)]
pub enum LineFault {
    /// It isn't the text of a well formed entry.
    BadText,
}

/// The entry that a line of a journal tells, its line feed among it.
pub fn read_line(script: &Script, line: &[u8]) -> Result<Entry, LineFault>
    ensures ok { IfOk result (λ n. IsLineOf script.now line.now n) }
    ensures only { IfOk result (λ n. (m : Entry) → IsLineOf script.now line.now m → m ≡ n) }
    ensures bad { OnErr result ((m : Entry) → IsLineOf script.now line.now m → ⊥) }
{
    let _valid = script.tasks();
    match entry_in(script, line) {
        Some(n) => Ok(n),
        None => Err(LineFault::BadText),
    }
}

// The entry whose line this is.
fn entry_in(script: &Script, line: &[u8]) -> Option<Entry>
    ensures { result ≡ entry_in script.now line.now }
{
    let mut lines = Pieces::new(line, b'\n');
    let (body, after) = (lines.next()?, lines.next()?);
    if !after.is_empty() || lines.next().is_some() {
        return None;
    }
    entry_of_words(script, &mut LineWords::new(body))
}

// The words of a line as an entry.
fn entry_of_words(script: &Script, words: &mut LineWords) -> Option<Entry>
    ensures { result ≡ entry_of_words script.now words.old }
{
    let (first, second, third) = (words.next()?, words.next()?, words.next()?);
    let number = number(first, u64::MAX)?;
    let task = script.task_named(second)?;
    let (kind, value) = kind_in(third)?;
    let told = operands_in(script, kind, value, words)?;
    let (boost, reply) = tail_in(script, words)?;
    Some(Entry {
        number,
        task,
        kind,
        lock: told.lock,
        other: told.other,
        woken: told.woken,
        value: told.value,
        path: told.path,
        boost,
        reply,
    })
}
