ghost use Rattle.std.specs.Prelude.{◌≡◌, ◌+◌, ◌<◌, ◌≤◌, [], length, true, None, IfSome, OnOk, OnErr, string_bytes};
ghost use Rattle.rt_base.specs.Name.{is_name};
ghost use Rattle.rt_base.specs.Script.{task_line, lock_line, all_calls, budget_of, IsScript, IsTaskOf, IsCallOf, IsCellOf, IsLockWithin};
ghost use Rattle.rt_script.specs.Names.{named, task_named, lock_named, AreNewLocks};
ghost use Rattle.rt_script.specs.Adding.{empty_script, with_cpus, with_task, with_locks, with_call, with_pick};

mod building;
mod naming;

use crate::lock::Lock;
use crate::named::Named;
use crate::task::Task;
use indexmap::IndexMap;
use rt_base::limits::{
    BUDGET_FACTOR, MAX_CALLS, MAX_CPUS, MAX_LOCKS, MAX_NAME, MAX_PICKS, MAX_TASKS,
};
use rt_base::{Call, Cpu, Kind, LockId, Prio, TaskId};
use std::alloc::{AllocError, Global};
use std::marker::Model;
use std::str;

/// A lock script: tasks with their calls, locks, and the picks that a replay begins with.
#[derive(Drop)]
pub struct Script {
    cpus: u8,
    tasks: Vec<Task>,
    locks: Vec<Lock>,
    picks: Vec<TaskId>,
    all_calls: u32,
    names: IndexMap<String, Named>,
}

impl Model for Script {
    ghost use Rattle.std.specs.Prelude.{◌≡◌};
    ghost use Rattle.rt_base.specs.Script as base;

    ghost Value = { base.Script };

    ghost use Rattle.rt_script.specs.ScriptFields.{script_of_fields, AreFields};

    ghost view = { script_of_fields };

    ghost invariant = { AreFields };
}

impl Script {
    /// The number of processors.
    pub fn cpus(&self) -> u8
        ensures number { result ≡ self.now.cpus }
        ensures valid { IsScript self.now }
    {
        self.cpus
    }

    /// The number of tasks.
    pub fn tasks(&self) -> u32
        ensures number { result ≡ length self.now.tasks }
        ensures valid { IsScript self.now }
    {
        self.tasks.len() as u32
    }

    /// The number of locks, where a local lock counts once for each processor.
    pub fn locks(&self) -> u32
        ensures number { result ≡ length self.now.locks }
        ensures valid { IsScript self.now }
    {
        self.locks.len() as u32
    }

    /// The number of calls of all tasks together.
    pub fn all_calls(&self) -> u32
        ensures number { result ≡ all_calls self.now }
        ensures valid { IsScript self.now }
    {
        self.all_calls
    }

    /// The tasks that the picks name, in order.
    pub fn picks(&self) -> &[TaskId]
        ensures value { result.now ≡ self.now.picks }
        ensures valid { IsScript self.now }
    {
        self.picks.as_slice()
    }

    /// The priority of a task's line.
    pub fn own(&self, t: TaskId) -> Prio
        requires { t.0 < length self.now.tasks }
        ensures { result ≡ (task_line self.now t).own }
    {
        self.task(t).own
    }

    /// The processor on which a task starts.
    pub fn cpu(&self, t: TaskId) -> Cpu
        requires { t.0 < length self.now.tasks }
        ensures { result ≡ (task_line self.now t).cpu }
    {
        self.task(t).cpu
    }

    /// The calls of a task, in order.
    pub fn calls(&self, t: TaskId) -> &[Call]
        requires { t.0 < length self.now.tasks }
        ensures { result.now ≡ (task_line self.now t).calls }
    {
        self.task(t).calls.as_slice()
    }

    /// The name of a task.
    pub fn task_name(&self, t: TaskId) -> &str
        requires { t.0 < length self.now.tasks }
        ensures name { result.now ≡ (task_line self.now t).name }
        ensures short { (1 ≤ length result.now) × (length result.now ≤ MAX_NAME) }
    {
        self.task(t).name.as_str()
    }

    /// The kind of a lock.
    pub fn kind(&self, l: LockId) -> Kind
        requires { l.0 < length self.now.locks }
        ensures { result ≡ (lock_line self.now l).kind }
    {
        self.lock(l).kind
    }

    /// The name of a lock. The cells of a local lock have one name.
    pub fn lock_name(&self, l: LockId) -> &str
        requires { l.0 < length self.now.locks }
        ensures name { result.now ≡ (lock_line self.now l).name }
        ensures short { (1 ≤ length result.now) × (length result.now ≤ MAX_NAME) }
    {
        self.lock(l).name.as_str()
    }

    /// The processor of a local lock's cell, and `None` for the other kinds.
    pub fn cell_of(&self, l: LockId) -> Option<Cpu>
        requires { l.0 < length self.now.locks }
        ensures cell { result ≡ (lock_line self.now l).cell }
        ensures local { IsCellOf self.now.cpus (lock_line self.now l).kind result }
    {
        self.lock(l).cell
    }

    /// The task of that name, which is looked up in one step.
    pub fn task_named(&self, name: &[u8]) -> Option<TaskId>
        ensures task { result ≡ task_named self.now name.now }
        ensures within { IfSome result (λ t. t.0 < length self.now.tasks) }
    {
        match self.named(name) {
            Some(Named::Task(t)) => Some(t),
            Some(Named::Lock(_)) | None => None,
        }
    }

    /// The lock of that name, which is looked up in one step; the cell of processor 0 for a local lock.
    pub fn lock_named(&self, name: &[u8]) -> Option<LockId>
        ensures lock { result ≡ lock_named self.now name.now }
        ensures within { IfSome result (λ l. l.0 < length self.now.locks) }
    {
        match self.named(name) {
            Some(Named::Lock(l)) => Some(l),
            Some(Named::Task(_)) | None => None,
        }
    }

    /// How many events a replay in the stated order gets where no number is asked for.
    pub fn budget(&self) -> u64
        ensures { result ≡ budget_of self.now }
    {
        let tasks = self.tasks.len() as u64;
        BUDGET_FACTOR * (tasks + 2) * (tasks + self.all_calls as u64 + 2)
    }

    /// A script of one processor, without tasks and locks.
    pub(crate) fn new(alloc: Global) -> Script
        ensures { result ≡ empty_script }
    {
        Script {
            cpus: 1,
            tasks: Vec::new(alloc),
            locks: Vec::new(alloc),
            picks: Vec::new(alloc),
            all_calls: 0,
            names: IndexMap::new(alloc),
        }
    }

    /// What a name stands for.
    pub(crate) fn named(&self, name: &[u8]) -> Option<Named>
        ensures { result ≡ named self.now name.now }
    {
        let names = &self.names;
        match str::from_utf8(name) {
            Ok(text) => names.get(text).copied(),
            Err(_) => None,
        }
    }

    /// Sets the number of processors, where nothing was added yet.
    pub(crate) fn set_cpus(&mut self, n: u8)
        requires positive { 1 ≤ n }
        requires few { n ≤ MAX_CPUS }
        requires empty { self.old ≡ empty_script }
        ensures { self.new ≡ with_cpus self.old n }
    {
        self.cpus = n;
    }

    /// Adds a task after the others. An `Err` changes nothing.
    pub(crate) fn push_task(&mut self, task: Task) -> Result<(), AllocError>
        requires room { length self.old.tasks < MAX_TASKS }
        requires fits { IsTaskOf self.old task }
        requires uncalled { task.calls ≡ [] }
        requires free { named self.old task.name ≡ None }
        ensures ok { OnOk result (self.new ≡ with_task self.old task) }
        ensures err { OnErr result (self.new ≡ self.old) }
    {
        let id = TaskId(self.tasks.len() as u32);
        let name = task.name.clone()?;
        self.names.reserve(1)?;
        self.tasks.push(task)?;
        self.names.insert(name, Named::Task(id))?;
        Ok(())
    }

    /// Adds the locks of one line, which have that name, after the others. An `Err` changes nothing.
    pub(crate) fn push_locks(
        &mut self,
        name: String,
        mut locks: Vec<Lock>,
    ) -> Result<(), AllocError>
        requires room { length self.old.locks + length locks.items ≤ MAX_LOCKS }
        requires added { AreNewLocks self.old (string_bytes name) locks.items }
        ensures ok { OnOk result (self.new ≡ with_locks self.old locks.items) }
        ensures err { OnErr result (self.new ≡ self.old) }
    {
        let id = LockId(self.locks.len() as u32);
        self.names.reserve(1)?;
        self.locks.append(&mut locks)?;
        self.names.insert(name, Named::Lock(id))?;
        Ok(())
    }

    /// Adds a call after the others of a task. An `Err` changes nothing.
    pub(crate) fn push_call(&mut self, t: TaskId, call: Call) -> Result<(), AllocError>
        requires task { t.0 < length self.old.tasks }
        requires room { all_calls self.old < MAX_CALLS }
        requires fits { IsCallOf self.old call }
        ensures ok { OnOk result (self.new ≡ with_call self.old t call) }
        ensures err { OnErr result (self.new ≡ self.old) }
    {
        self.tasks[t.0 as usize].push_call(call)?;
        self.all_calls += 1;
        Ok(())
    }

    /// Adds a pick after the others. An `Err` changes nothing.
    pub(crate) fn push_pick(&mut self, t: TaskId) -> Result<(), AllocError>
        requires task { t.0 < length self.old.tasks }
        requires room { length self.old.picks < MAX_PICKS }
        ensures ok { OnOk result (self.new ≡ with_pick self.old t) }
        ensures err { OnErr result (self.new ≡ self.old) }
    {
        self.picks.push(t)?;
        Ok(())
    }

    /// All tasks.
    pub(crate) fn task_lines(&self) -> &[Task]
        ensures { result.now ≡ self.now.tasks }
    {
        self.tasks.as_slice()
    }

    /// All locks.
    pub(crate) fn lock_lines(&self) -> &[Lock]
        ensures { result.now ≡ self.now.locks }
    {
        self.locks.as_slice()
    }

    /// The task of a number.
    fn task(&self, t: TaskId) -> &Task
        requires { t.0 < length self.now.tasks }
        ensures line { result.now ≡ task_line self.now t }
        ensures name { is_name (task_line self.now t).name ≡ true }
    {
        &self.tasks[t.0 as usize]
    }

    /// The lock of a number.
    fn lock(&self, l: LockId) -> &Lock
        requires { l.0 < length self.now.locks }
        ensures line { result.now ≡ lock_line self.now l }
        ensures within { IsLockWithin self.now.cpus (lock_line self.now l) }
    {
        &self.locks[l.0 as usize]
    }
}
