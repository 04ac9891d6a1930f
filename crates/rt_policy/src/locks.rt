// The locks of a large script.
ghost use Rattle.std.specs.Prelude.{◌≡◌, ◌++◌, ◌<◌, replicate, IfOk, OnOk};
ghost use Rattle.rt_policy.specs.Generator.{lock_kinds, spin, rwlock, rwsem};

use rt_base::{Kind, LockId};
use std::alloc::{AllocError, Global};

/// The number of mutexes. They come first.
const MUTEXES: u32 = 12;

/// The number of spinlocks, which come after the mutexes.
const SPINS: u32 = 6;

/// The number of locks of the kind `rwlock_t`, which come after the spinlocks.
const RWLOCKS: u32 = 3;

/// The number of reader/writer semaphores, which come after these.
const RWSEMS: u32 = 3;

/// The number of cells of the one local lock, which comes last.
const CELLS: u32 = 4;

const FIRST_SPIN: u32 = MUTEXES;

const FIRST_RWLOCK: u32 = FIRST_SPIN + SPINS;

const FIRST_RWSEM: u32 = FIRST_RWLOCK + RWLOCKS;

/// The local lock, by its first cell.
pub(crate) const LOCAL: LockId = LockId(FIRST_RWSEM + RWSEMS);

/// One of the spinlocks.
pub(crate) fn spin(n: u32) -> LockId
    ensures { result ≡ spin n }
{
    LockId(FIRST_SPIN + n % SPINS)
}

/// One of the locks of the kind `rwlock_t`.
pub(crate) fn rwlock(n: u32) -> LockId
    ensures { result ≡ rwlock n }
{
    LockId(FIRST_RWLOCK + n % RWLOCKS)
}

/// One of the reader/writer semaphores.
pub(crate) fn rwsem(n: u32) -> LockId
    ensures { result ≡ rwsem n }
{
    LockId(FIRST_RWSEM + n % RWSEMS)
}

/// The kind of each lock.
pub(crate) fn lock_kinds(alloc: Global) -> Result<Vec<Kind>, AllocError>
    ensures { IfOk result (λ v. v.items ≡ lock_kinds) }
{
    let mut kinds = Vec::new(alloc);
    push_kind(&mut kinds, Kind::Mutex, MUTEXES)?;
    push_kind(&mut kinds, Kind::Spin, SPINS)?;
    push_kind(&mut kinds, Kind::RwLock, RWLOCKS)?;
    push_kind(&mut kinds, Kind::RwSem, RWSEMS)?;
    push_kind(&mut kinds, Kind::Local, CELLS)?;
    Ok(kinds)
}

/// Adds n locks of a kind.
fn push_kind(kinds: &mut Vec<Kind>, kind: Kind, n: u32) -> Result<(), AllocError>
    ensures { OnOk result (kinds.new.items ≡ kinds.old.items ++ replicate n kind) }
{
    let len = kinds.len() + n as usize;
    kinds.resize(len, kind)
}
