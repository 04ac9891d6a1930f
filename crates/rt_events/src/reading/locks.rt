// The locks that words stand for: a name alone, or a name and a processor for a cell of a local lock.
ghost use Rattle.std.specs.Prelude.{◌≡◌, ◌<◌, length, IfSome};
ghost use Rattle.rt_events.specs.WellFormed.{IsLockIn};
ghost use Rattle.rt_events.specs.reading.Spelling.{lone_lock, cell_in, lock_in};

use rt_base::LockId;
use rt_script::{Pieces, Script, number};

/// The lock that a word stands for.
pub(crate) fn lock_in(script: &Script, word: &[u8]) -> Option<LockId>
    ensures lock { result ≡ lock_in script.now word.now }
    ensures within { IfSome result (IsLockIn script.now) }
{
    let mut parts = Pieces::new(word, b'.');
    let name = parts.next()?;
    match (parts.next(), parts.next()) {
        (None, _) => lone_lock(script, name),
        (Some(cpu), None) => cell_in(script, name, cpu),
        _ => None,
    }
}

// The lock of that name, where it has no cells.
fn lone_lock(script: &Script, name: &[u8]) -> Option<LockId>
    ensures lock { result ≡ lone_lock script.now name.now }
    ensures within { IfSome result (IsLockIn script.now) }
{
    let l = script.lock_named(name)?;
    if script.cell_of(l).is_some() {
        return None;
    }
    Some(l)
}

// The cell of the local lock of that name on a processor.
fn cell_in(script: &Script, name: &[u8], cpu: &[u8]) -> Option<LockId>
    ensures lock { result ≡ cell_in script.now name.now cpu.now }
    ensures within { IfSome result (IsLockIn script.now) }
{
    let l = script.lock_named(name)?;
    let n = number(cpu, script.cpus() as u64 - 1)?;
    let _cell = script.cell_of(l)?;
    Some(LockId(l.0 + n as u32))
}
