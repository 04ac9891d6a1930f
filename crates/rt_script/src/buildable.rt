// Whether a script can be built from its parts.
ghost use Rattle.std.specs.Prelude.{◌≡◌, ◌↔◌, ◌<◌, ◌≤◌, length, map, count_by, All, IsTrue};
ghost use Rattle.rt_base.specs.Script.{LockLine, IsLockOf, HasReaders, IsReaderLock, IsLocal, IsCallOf};
ghost use Rattle.rt_base.specs.declared.id.TaskId.{TaskId};
ghost use Rattle.rt_script.specs.Buildable.{IsTaskFor, cells_missing};
ghost use Rattle.rt_script.specs.Building.{task_plan, plan_of, planned_calls, is_local, built};
ghost use Rattle.rt_script.specs.Building.{HasWholeCells, CanBuild};

use crate::lock::cells_in;
use rt_base::limits::{MAX_CALLS, MAX_CPUS, MAX_LOCKS, MAX_PICKS, MAX_TASKS};
use rt_base::{Call, Cpu, Kind, LockId, Prio, TaskId, TaskState};
use std::marker::Model;

/// Whether `Script::build` makes a script of these parts: they are within the limits of a script, every
/// task, lock and processor that is named is there, each call is one of its lock's kind, no task puts
/// itself into the lock-wait state, and the cells of a local lock stand together, one for each processor.
/// A call of a local lock names the first of them.
pub fn can_build(
    cpus: u8,
    tasks: &[(Prio, Cpu, Vec<Call>)],
    locks: &[Kind],
    picks: &[TaskId],
) -> bool
    ensures { IsTrue result ↔ CanBuild (plan_of cpus tasks.now locks.now picks.now) }
{
    if cpus == 0 || cpus > MAX_CPUS || tasks.len() > MAX_TASKS || locks.len() > MAX_LOCKS {
        return false;
    }
    if picks.len() > MAX_PICKS || !are_few_calls(tasks) || !are_whole_cells(cpus, locks) {
        return false;
    }
    let parts = Parts {
        cpus,
        tasks,
        locks,
        picks,
    };
    parts.are_tasks(tasks) && parts.are_picks(picks)
}

/// Whether the tasks make no more calls than a script may have.
fn are_few_calls(tasks: &[(Prio, Cpu, Vec<Call>)]) -> bool
    ensures { IsTrue result ↔ (planned_calls (map task_plan tasks.now) ≤ MAX_CALLS) }
{
    let mut left = MAX_CALLS as usize;
    for (_, _, calls) in tasks {
        if calls.len() > left {
            return false;
        }
        left -= calls.len();
    }
    true
}

/// Whether the cells of each local lock stand together, one for each processor.
fn are_whole_cells(cpus: u8, locks: &[Kind]) -> bool
    requires { 1 ≤ cpus }
    ensures { IsTrue result ↔ HasWholeCells cpus locks.now }
{
    let mut missing = 0;
    for kind in locks {
        match cells_missing(cpus, missing, *kind) {
            Some(n) => missing = n,
            None => return false,
        }
    }
    missing == 0
}

/// How many cells of the last local lock are missing after a lock of that kind, where so many were before it.
fn cells_missing(cpus: u8, missing: u8, kind: Kind) -> Option<u8>
    requires { 1 ≤ cpus }
    ensures { result ≡ cells_missing cpus missing kind }
{
    match (kind, missing) {
        (Kind::Local, 0) => Some(cpus - 1),
        (Kind::Local, n) => Some(n - 1),
        (_, 0) => Some(0),
        (_, _) => None,
    }
}

/// The parts of a script that is to be built, which has a processor.
#[derive(Drop)]
struct Parts<'a> {
    cpus: u8,
    tasks: &'a [(Prio, Cpu, Vec<Call>)],
    locks: &'a [Kind],
    picks: &'a [TaskId],
}

impl<'a> Model for Parts<'a> {
    ghost use Rattle.std.specs.Prelude.{◌≤◌};
    ghost use Rattle.rt_script.specs.Building.{Plan, plan_of};

    ghost Value = { Plan };

    ghost view = { λ p. plan_of p.cpus p.tasks.now p.locks.now p.picks.now };

    ghost invariant = { λ p. 1 ≤ p.cpus };
}

impl<'a> Parts<'a> {
    /// Whether each of these tasks fits.
    fn are_tasks(&self, tasks: &[(Prio, Cpu, Vec<Call>)]) -> bool
        ensures { IsTrue result ↔ All (IsTaskFor self.now) (map task_plan tasks.now) }
    {
        for task in tasks {
            if !self.is_task(task) {
                return false;
            }
        }
        true
    }

    /// Whether a task's processor is there, and each of its calls fits.
    fn is_task(&self, task: &(Prio, Cpu, Vec<Call>)) -> bool
        ensures { IsTrue result ↔ IsTaskFor self.now (task_plan task.now) }
    {
        let _within = task.0.get();
        task.1.0 < self.cpus && self.are_calls(&task.2)
    }

    /// Whether each of these calls fits.
    fn are_calls(&self, calls: &[Call]) -> bool
        ensures { IsTrue result ↔ All (IsCallOf (built self.now)) calls.now }
    {
        for call in calls {
            if !self.is_call(call) {
                return false;
            }
        }
        true
    }

    /// Whether what the call names is there, and its lock's kind has the call.
    fn is_call(&self, call: &Call) -> bool
        ensures { IsTrue result ↔ IsCallOf (built self.now) call.now }
    {
        match call {
            Call::Lock(l) | Call::LockInt(l) | Call::TryLock(l) | Call::Unlock(l) => {
                self.is_of_kind(*l, Kind::Mutex)
            }
            Call::Spin(l) | Call::TrySpin(l) | Call::Unspin(l) => self.is_of_kind(*l, Kind::Spin),
            Call::Read(l) | Call::TryRead(l) | Call::Unread(l) => self.is_reader_lock(*l),
            Call::Write(l) | Call::TryWrite(l) | Call::Unwrite(l) | Call::Downgrade(l) => {
                self.is_reader_lock(*l)
            }
            Call::Local(l) | Call::Unlocal(l) => self.is_first_cell(*l),
            Call::State(state) => *state != TaskState::LockWait,
            Call::Schedule => true,
            Call::Wake(t) | Call::Signal(t) => self.is_there(*t),
            Call::SetPrio(t, prio) => {
                let _within = prio.get();
                self.is_there(*t)
            }
            Call::Move(cpu) => cpu.0 < self.cpus,
        }
    }

    /// Whether there is such a lock, of that kind.
    fn is_of_kind(&self, l: LockId, kind: Kind) -> bool
        ensures { IsTrue result ↔ IsLockOf (built self.now) (λ (line : LockLine). line.kind ≡ kind) l }
    {
        let n = l.0 as usize;
        n < self.locks.len() && is_same(self.locks[n], kind)
    }

    /// Whether there is such a lock, which has readers.
    fn is_reader_lock(&self, l: LockId) -> bool
        ensures { IsTrue result ↔ IsLockOf (built self.now) IsReaderLock l }
    {
        let n = l.0 as usize;
        n < self.locks.len() && has_readers(self.locks[n])
    }

    /// Whether there is such a local lock, by its first cell.
    fn is_first_cell(&self, l: LockId) -> bool
        ensures { IsTrue result ↔ IsLockOf (built self.now) IsLocal l }
    {
        let n = l.0 as usize;
        if n >= self.locks.len() {
            return false;
        }
        is_same(self.locks[n], Kind::Local)
            && count_cells(&self.locks[..n]) % self.cpus as usize == 0
    }

    /// Whether there is such a task.
    fn is_there(&self, t: TaskId) -> bool
        ensures { IsTrue result ↔ (t.0 < length self.now.tasks) }
    {
        (t.0 as usize) < self.tasks.len()
    }

    /// Whether each of these tasks is there.
    fn are_picks(&self, picks: &[TaskId]) -> bool
        ensures { IsTrue result ↔ All (λ (t : TaskId). t.0 < length self.now.tasks) picks.now }
    {
        for t in picks {
            if !self.is_there(*t) {
                return false;
            }
        }
        true
    }
}

/// Whether two kinds are the same.
fn is_same(a: Kind, b: Kind) -> bool
    ensures { IsTrue result ↔ (a ≡ b) }
{
    a == b
}

/// Whether reader/writer calls are for that kind.
fn has_readers(kind: Kind) -> bool
    ensures { IsTrue result ↔ HasReaders kind }
{
    match kind {
        Kind::RwLock | Kind::RwSem => true,
        Kind::Mutex | Kind::Spin | Kind::Local => false,
    }
}

/// How many cells of local locks these are.
fn count_cells(locks: &[Kind]) -> usize
    ensures { result ≡ count_by is_local locks.now }
{
    let mut cells = 0;
    for kind in locks {
        cells += cells_in(*kind);
    }
    cells
}
