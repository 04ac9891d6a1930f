ghost use Rattle.std.specs.Prelude.{◌≡◌, ◌≤◌, IfOk, if◌then◌else◌};
ghost use Rattle.rt_base.specs.Script.{cells_of, locks_of};
ghost use Rattle.rt_script.specs.Building.{is_local, built_lock, built_locks};

use crate::name::lock_name;
use rt_base::{Cpu, Kind};
use std::alloc::{AllocError, Global};
use std::marker::Model;

/// A lock: its line, and for a cell of a local lock its processor.
#[derive(Drop)]
pub(crate) struct Lock {
    pub(crate) name: String,
    pub(crate) kind: Kind,
    pub(crate) cell: Option<Cpu>,
}

impl Model for Lock {
    ghost use Rattle.std.specs.String.{string_bytes};
    ghost use Rattle.rt_base.specs.Script.{LockLine};

    ghost Value = { LockLine };

    ghost view = { λ l. record { name = string_bytes l.name; kind = l.kind; cell = l.cell } };
}

/// The locks that a line makes.
pub(crate) fn locks_of(
    alloc: Global,
    cpus: u8,
    name: &str,
    kind: Kind,
) -> Result<Vec<Lock>, AllocError>
    ensures { IfOk result (λ locks. locks.items ≡ locks_of cpus name.now kind) }
{
    if kind == Kind::Local {
        return cells_of(alloc, name, cpus);
    }
    let mut locks = Vec::with_capacity(alloc, 1)?;
    let name = String::from_str(alloc, name)?;
    locks.push(Lock {
        name,
        kind,
        cell: None,
    })?;
    Ok(locks)
}

/// The cells of a local lock.
fn cells_of(alloc: Global, name: &str, cpus: u8) -> Result<Vec<Lock>, AllocError>
    ensures { IfOk result (λ locks. locks.items ≡ cells_of name.now cpus) }
{
    let mut cells = Vec::with_capacity(alloc, cpus as usize)?;
    for k in 0..cpus {
        let name = String::from_str(alloc, name)?;
        cells.push(Lock {
            name,
            kind: Kind::Local,
            cell: Some(Cpu(k)),
        })?;
    }
    Ok(cells)
}

/// The locks of these kinds, where each cell of a local lock is a kind by itself.
pub(crate) fn built_locks(alloc: Global, cpus: u8, kinds: &[Kind]) -> Result<Vec<Lock>, AllocError>
    requires { 1 ≤ cpus }
    ensures { IfOk result (λ locks. locks.items ≡ built_locks cpus kinds.now) }
{
    let mut locks = Vec::with_capacity(alloc, kinds.len())?;
    let mut cells: usize = 0;
    for (n, kind) in kinds.iter().enumerate() {
        let cpu = (cells % cpus as usize) as u8;
        locks.push(built_lock(alloc, n, Cpu(cpu), *kind)?)?;
        cells += cells_in(*kind);
    }
    Ok(locks)
}

/// Lock n, which is the cell of that processor if it is local. It is named after its first cell.
fn built_lock(alloc: Global, n: usize, cpu: Cpu, kind: Kind) -> Result<Lock, AllocError>
    requires { cpu.0 ≤ n }
    ensures { IfOk result (λ lock. lock ≡ built_lock n cpu.0 kind) }
{
    if kind == Kind::Local {
        let name = lock_name(alloc, n - cpu.0 as usize)?;
        return Ok(Lock {
            name,
            kind,
            cell: Some(cpu),
        });
    }
    let name = lock_name(alloc, n)?;
    Ok(Lock {
        name,
        kind,
        cell: None,
    })
}

/// How many cells of local locks a lock of that kind is.
pub(crate) fn cells_in(kind: Kind) -> usize
    ensures { result ≡ (if is_local kind then 1 else 0) }
{
    if kind == Kind::Local { 1 } else { 0 }
}
