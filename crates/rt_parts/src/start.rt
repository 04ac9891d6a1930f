// The lists that a core begins with.
ghost use Rattle.std.specs.Prelude.{◌≡◌, replicate, IfOk};
ghost use Rattle.rt_model.specs.State.{start, kinds_in};
ghost use Rattle.rt_parts.specs.Shared.{free_cell};

use crate::thread::Thread;
use rt_base::{Kind, LockId, NoMemory, TaskId};
use rt_locks::LockCell;
use rt_script::Script;
use rt_tasks::TaskCell;
use std::alloc::Global;

/// So many free locks, with room for so many tasks each.
pub fn lock_cells(alloc: Global, locks: u32, tasks: u32) -> Result<Vec<LockCell>, NoMemory>
    ensures { IfOk result (λ cells. cells.items ≡ replicate locks (free_cell tasks)) }
{
    let mut cells = Vec::with_capacity(alloc, locks as usize)?;
    for _l in 0..locks {
        cells.push(LockCell::new(alloc, tasks)?)?;
    }
    Ok(cells)
}

/// A running task for each task of the script.
pub fn task_cells(alloc: Global, script: &Script) -> Result<Vec<TaskCell>, NoMemory>
    ensures { IfOk result (λ cells. cells.items ≡ (start script.now).tasks) }
{
    let locks = script.locks();
    let mut cells = Vec::with_capacity(alloc, script.tasks() as usize)?;
    for t in 0..script.tasks() {
        cells.push(TaskCell::new(alloc, script.own(TaskId(t)), locks)?)?;
    }
    Ok(cells)
}

/// A thread that has made none of its calls for each task of the script.
pub fn threads(alloc: Global, script: &Script) -> Result<Vec<Thread>, NoMemory>
    ensures { IfOk result (λ threads. threads.items ≡ (start script.now).threads) }
{
    let kinds = kinds_in(alloc, script)?;
    let mut threads = Vec::with_capacity(alloc, script.tasks() as usize)?;
    for t in 0..script.tasks() {
        let t = TaskId(t);
        let thread = Thread::new(alloc, kinds.as_slice(), script.calls(t), script.cpu(t))?;
        threads.push(thread)?;
    }
    Ok(threads)
}

// The kinds of the script's locks.
fn kinds_in(alloc: Global, script: &Script) -> Result<Vec<Kind>, NoMemory>
    ensures { IfOk result (λ kinds. kinds.items ≡ kinds_in script.now) }
{
    let mut kinds = Vec::with_capacity(alloc, script.locks() as usize)?;
    for l in 0..script.locks() {
        kinds.push(script.kind(LockId(l)))?;
    }
    Ok(kinds)
}
