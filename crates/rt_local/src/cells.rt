// The cells of local locks.
ghost use Rattle.std.specs.Prelude.{◌≡◌, ◌<◌, ◌+◌, IfSome};
ghost use Rattle.rt_model.specs.Parts.{cell, made_on};
ghost use Rattle.rt_model.specs.Choice.{called_lock};

use rt_base::limits::MAX_LOCKS;
use rt_base::{Call, Cpu, LockId};

/// The cell of a processor of the local lock whose first cell this is, as `this_cpu_ptr` finds a `local_lock_t`.
pub fn cell(base: LockId, at: Cpu) -> LockId
    requires { base.0 + at.0 < MAX_LOCKS }
    ensures { result ≡ cell base at }
{
    LockId(base.0 + at.0 as u32)
}

/// A call as it is made on a processor: what names a local lock is about the cell of that processor.
pub fn made_on(cpu: Cpu, call: Call) -> Call
    requires { IfSome (called_lock (made_on cpu call)) (λ l. l.0 < MAX_LOCKS) }
    ensures { result ≡ made_on cpu call }
{
    match call {
        Call::Local(base) => Call::Local(cell(base, cpu)),
        Call::Unlocal(base) => Call::Unlocal(cell(base, cpu)),
        _ => call,
    }
}
