// Scripts that are built from their parts.
ghost use Rattle.std.specs.Prelude.{◌≡◌, ◌≤◌, map, Ok, IfOk};
ghost use Rattle.rt_base.specs.Script.{IsScript};
ghost use Rattle.rt_script.specs.Building.{task_plan, plan_of, planned_calls, built_tasks, built, CanBuild};
ghost use Rattle.rt_script.specs.Canonical.{canonical};
ghost use Rattle.rt_script.specs.Grammar.{script_of};

use super::Script;
use super::naming::names_of;
use crate::lock::built_locks;
use crate::name::task_name;
use crate::task::Task;
use rt_base::limits::MAX_CALLS;
use rt_base::{Call, Cpu, Kind, NoMemory, Prio, TaskId};
use std::alloc::{AllocError, Global};

impl Script {
    /// The script of these parts: the number of processors, each task with its priority, its processor
    /// and its calls, the kind of each lock, and the picks. A local lock has a cell for each processor,
    /// side by side, and each cell is a lock here. Task 3 is named `t3` and lock 3 `k3`, and a cell has
    /// the name of its lock's first cell. `can_build` tests whether there is such a script. An error is
    /// a want of memory.
    pub fn build(
        alloc: Global,
        cpus: u8,
        tasks: Vec<(Prio, Cpu, Vec<Call>)>,
        locks: Vec<Kind>,
        picks: Vec<TaskId>,
    ) -> Result<Script, NoMemory>
        requires { CanBuild (plan_of cpus tasks.items locks.items picks.items) }
        ensures built { IfOk result (λ s. s ≡ built (plan_of cpus tasks.items locks.items picks.items)) }
        ensures valid { IfOk result IsScript }
        ensures reads { IfOk result (λ s. script_of (canonical s) ≡ Ok s) }
    {
        let all_calls = count_calls(&tasks);
        let tasks = built_tasks(alloc, tasks)?;
        let locks = built_locks(alloc, cpus, &locks)?;
        let names = names_of(alloc, &tasks, &locks)?;
        Ok(Script {
            cpus,
            tasks,
            locks,
            picks,
            all_calls,
            names,
        })
    }
}

/// The number of calls of all tasks together.
fn count_calls(tasks: &[(Prio, Cpu, Vec<Call>)]) -> u32
    requires { planned_calls (map task_plan tasks.now) ≤ MAX_CALLS }
    ensures { result ≡ planned_calls (map task_plan tasks.now) }
{
    let mut all_calls = 0;
    for (_, _, calls) in tasks {
        all_calls += calls.len() as u32;
    }
    all_calls
}

/// The tasks, each with its name.
fn built_tasks(alloc: Global, tasks: Vec<(Prio, Cpu, Vec<Call>)>) -> Result<Vec<Task>, AllocError>
    ensures { IfOk result (λ lines. lines.items ≡ built_tasks (map task_plan tasks.items)) }
{
    let mut lines = Vec::with_capacity(alloc, tasks.len())?;
    for (own, cpu, calls) in tasks {
        let name = task_name(alloc, lines.len())?;
        lines.push(Task {
            name,
            own,
            cpu,
            calls,
        })?;
    }
    Ok(lines)
}
