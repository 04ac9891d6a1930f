// What the names of tasks and locks stand for.
ghost use Rattle.std.specs.Prelude.{◌≡◌, ◌≤◌, [], length, IfOk, OnOk};
ghost use Rattle.rt_script.specs.ScriptFields.{NamesLines, IsNamedToo};

use crate::lock::Lock;
use crate::named::Named;
use crate::task::Task;
use indexmap::IndexMap;
use rt_base::limits::{MAX_LOCKS, MAX_TASKS};
use rt_base::{LockId, TaskId};
use std::alloc::{AllocError, Global};

/// What each name of these tasks and locks stands for: the first that has it.
pub(super) fn names_of(
    alloc: Global,
    tasks: &[Task],
    locks: &[Lock],
) -> Result<IndexMap<String, Named>, AllocError>
    requires few_tasks { length tasks.now ≤ MAX_TASKS }
    requires few_locks { length locks.now ≤ MAX_LOCKS }
    ensures { IfOk result (NamesLines tasks.now locks.now) }
{
    let mut names = name_tasks(alloc, tasks)?;
    for (l, lock) in locks.iter().enumerate() {
        let id = LockId(l as u32);
        add_name(alloc, &mut names, lock.name.as_str(), Named::Lock(id))?;
    }
    Ok(names)
}

/// What each name of these tasks stands for.
fn name_tasks(alloc: Global, tasks: &[Task]) -> Result<IndexMap<String, Named>, AllocError>
    requires { length tasks.now ≤ MAX_TASKS }
    ensures { IfOk result (NamesLines tasks.now []) }
{
    let mut names = IndexMap::new(alloc);
    for (t, task) in tasks.iter().enumerate() {
        let id = TaskId(t as u32);
        add_name(alloc, &mut names, task.name.as_str(), Named::Task(id))?;
    }
    Ok(names)
}

/// Has a name stand for this, unless it stands for something.
fn add_name(
    alloc: Global,
    names: &mut IndexMap<String, Named>,
    name: &str,
    meant: Named,
) -> Result<(), AllocError>
    ensures { OnOk result (IsNamedToo names.old name.now meant names.new) }
{
    if names.get(name).is_none() {
        names.insert(String::from_str(alloc, name)?, meant)?;
    }
    Ok(())
}
