ghost use Rattle.std.specs.Prelude.{◌≡◌, ◌<◌, ◌≤◌, length, IfOk, IfSome};
ghost use Rattle.rt_base.specs.Script.{IsScript};
ghost use Rattle.rt_model.specs.State.{start, shared, lock_in, readers_in, task_in};

mod links;
mod locks;
mod readers;
mod tasks;

use crate::start::{lock_cells, task_cells};
use rt_base::limits::{MAX_LOCKS, MAX_TASKS};
use rt_base::{LockId, NoMemory, TaskId};
use rt_locks::LockCell;
use rt_model::ReaderCell;
use rt_script::Script;
use rt_tasks::TaskCell;
use std::alloc::Global;
use std::marker::Model;

// The reader part of a lock at the start.
const READABLE: ReaderCell = ReaderCell {
    bias: true,
    writer: false,
    count: 0,
};

/// What all tasks share of the machine: the owner part and the reader part of each lock, and the public
/// part of each task.
#[derive(Drop)]
pub struct Shared {
    locks: Vec<LockCell>,
    readers: Vec<ReaderCell>,
    tasks: Vec<TaskCell>,
}

impl Model for Shared {
    ghost use Rattle.rt_model.specs.State.{Shared as Parts};
    ghost use Rattle.rt_parts.specs.Shared.{parts_of, IsShared};

    ghost Value = { Parts };

    ghost view = { λ c. record { locks = parts_of c.locks.items; readers = c.readers.items; tasks = c.tasks.items } };

    ghost invariant = { λ c. IsShared c.locks.items c.readers.items c.tasks.items };
}

impl Shared {
    /// Free locks and running tasks, as many as the script has. All room for rows is taken here.
    pub fn new(alloc: Global, script: &Script) -> Result<Shared, NoMemory>
        ensures start { IfOk result (λ parts. parts ≡ shared (start script.now)) }
        ensures valid { IsScript script.now }
    {
        Ok(Shared {
            locks: lock_cells(alloc, script.locks(), script.tasks())?,
            readers: vec![in alloc; READABLE; script.locks() as usize]?,
            tasks: task_cells(alloc, script)?,
        })
    }

    /// A lock's owner part.
    pub fn lock(&self, l: LockId) -> &LockCell
        requires { l.0 < length self.now.locks }
        ensures part { result.now.part ≡ lock_in self.now l }
        ensures room { result.now.tasks ≡ length self.now.tasks }
        ensures owner { IfSome result.now.part.owner (λ t. t.0 < length self.now.tasks) }
        ensures few { length self.now.locks ≤ MAX_LOCKS }
    {
        &self.locks[l.0 as usize]
    }

    /// A lock's reader part.
    pub fn readers(&self, l: LockId) -> ReaderCell
        requires { l.0 < length self.now.locks }
        ensures { result ≡ readers_in self.now l }
    {
        self.readers[l.0 as usize]
    }

    /// A task's public part.
    pub fn task(&self, t: TaskId) -> &TaskCell
        requires { t.0 < length self.now.tasks }
        ensures part { result.now ≡ task_in self.now t }
        ensures kept { length result.now.kept ≡ length self.now.locks }
        ensures few { length self.now.tasks ≤ MAX_TASKS }
    {
        &self.tasks[t.0 as usize]
    }
}
