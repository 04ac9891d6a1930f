// Large scripts, each of which a number gives.
ghost use Rattle.std.specs.Prelude.{◌≡◌, ◌+◌, ◌*◌, map, IfOk, OnOk};
ghost use Rattle.rt_base.specs.Script.{IsScript};
ghost use Rattle.rt_script.specs.Building.{task_plan};
ghost use Rattle.rt_policy.specs.Draws.{number_after};
ghost use Rattle.rt_policy.specs.Generator.{each, start, task, pick, generated};

use crate::blocks::task_calls;
use crate::draws::Draws;
use crate::locks::lock_kinds;
use rt_base::{Call, Cpu, NoMemory, Prio, TaskId};
use rt_script::Script;
use std::alloc::{AllocError, Global};

/// The number of processors.
const CPUS: u8 = 4;

/// The number of priorities.
const PRIOS: u32 = 140;

/// The number of tasks.
const TASKS: u32 = 32;

/// The number of picks.
const PICKS: u32 = 20_000;

/// The large script that a number gives: 32 tasks of 100 blocks each on 4 processors, 28 locks of every
/// kind, and 20,000 picks. A block takes one lock or two, one in the other, and gives them back. So
/// any two who name a number have the same script, and a deadlock, a wait or a boost is in it as the
/// draws have it. An error is a want of memory.
pub fn generate(alloc: Global, n: u64) -> Result<Script, NoMemory>
    ensures script { IfOk result (λ s. s ≡ generated n) }
    ensures valid { IfOk result IsScript }
{
    let mut draws = Draws::new(n);
    let tasks = draw_tasks(alloc, &mut draws)?;
    let locks = lock_kinds(alloc)?;
    let picks = draw_picks(alloc, &mut draws)?;
    Script::build(alloc, CPUS, tasks, locks, picks)
}

/// Draws the tasks: first the priority and the processor of each, then the calls of each.
#[tactic(auto, using(crate::proofs::Drawing::drawing, crate::proofs::GeneratedParts::parts))]
fn draw_tasks(alloc: Global, draws: &mut Draws) -> Result<Vec<(Prio, Cpu, Vec<Call>)>, AllocError>
    ensures tasks { IfOk result (λ v. map task_plan v.items ≡ each 32 (task draws.old)) }
    ensures next { OnOk result (draws.new ≡ number_after draws.old 9664) }
{
    let starts = draw_starts(alloc, draws)?;
    let mut tasks = Vec::new(alloc);
    for start in &starts {
        let calls = task_calls(alloc, draws)?;
        tasks.push((start.0, start.1, calls))?;
    }
    Ok(tasks)
}

/// Draws each task's priority and the processor on which it starts.
#[tactic(auto, using(crate::proofs::Drawing::drawing, crate::proofs::GeneratedParts::parts))]
fn draw_starts(alloc: Global, draws: &mut Draws) -> Result<Vec<(Prio, Cpu)>, AllocError>
    ensures starts { IfOk result (λ v. v.items ≡ each 32 (start draws.old)) }
    ensures next { OnOk result (draws.new ≡ number_after draws.old 64) }
{
    let mut starts = Vec::new(alloc);
    for t in 0..TASKS {
        starts.push(draw_start(draws))?;
    }
    Ok(starts)
}

/// Draws a task's priority and its processor.
#[tactic(auto, using(crate::proofs::Drawing::drawing))]
fn draw_start(draws: &mut Draws) -> (Prio, Cpu)
    ensures start { result ≡ start draws.old 0 }
    ensures next { draws.new ≡ number_after draws.old 2 }
{
    let prio = Prio::new(draws.below(PRIOS) as u64).unwrap();
    let cpu = Cpu(draws.below(CPUS as u32) as u8);
    (prio, cpu)
}

/// Draws the picks.
#[tactic(auto, using(crate::proofs::Drawing::drawing, crate::proofs::GeneratedParts::parts))]
fn draw_picks(alloc: Global, draws: &mut Draws) -> Result<Vec<TaskId>, AllocError>
    ensures { IfOk result (λ v. v.items ≡ each 20000 (pick draws.old)) }
{
    let mut picks = Vec::new(alloc);
    for i in 0..PICKS {
        picks.push(TaskId(draws.below(TASKS)))?;
    }
    Ok(picks)
}
