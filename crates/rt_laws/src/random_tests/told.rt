// What events tell of all locks and all tasks.
use crate::random_tests::held::Held;
use crate::random_tests::known::Known;
use crate::random_tests::seen::Seen;
use rt_base::{Call, Cpu, LockId, Reply, TaskId};
use rt_model::Event;
use rt_script::Script;
use std::alloc::Global;
use std::process::Abort;
use std::test::Fail;

/// What the events of a script of this number tell of its locks and tasks, and what came in this script and those
/// before it.
#[derive(Drop)]
pub struct Told {
    number: u64,
    locks: Vec<Held>,
    tasks: Vec<Known>,
    seen: Seen,
}

impl Told {
    /// What is told at the start.
    pub fn new(alloc: Global, script: &Script, number: u64, seen: Seen) -> Result<Told, Fail> {
        let mut tasks = Vec::new(alloc);
        for t in 0..script.tasks() {
            tasks.push(Known::new(script.cpu(TaskId(t))))?;
        }
        Ok(Told {
            number,
            locks: vec![in alloc; Held::FREE; script.locks() as usize]?,
            tasks,
            seen,
        })
    }

    /// The script's number.
    pub fn number(&self) -> u64 {
        self.number
    }

    /// What came.
    pub fn seen(&self) -> Seen {
        self.seen
    }

    /// Who holds a lock.
    pub fn held(&self, l: LockId) -> Held {
        match self.locks.get(l.0 as usize) {
            Some(held) => *held,
            None => Held::FREE,
        }
    }

    /// A task's processor.
    pub fn cpu(&self, t: TaskId) -> Option<Cpu> {
        match self.tasks.get(t.0 as usize) {
            Some(known) => Some(known.cpu()),
            None => None,
        }
    }

    /// Goes on by an event of this call, which has to fit what was told.
    pub fn goes_on(&mut self, rt: &impl Abort, script: &Script, e: &Event, call: &Call) {
        self.seen.count(e);
        self.at_lock(rt, e);
        self.at_task(rt, e, call, spins(rt, script, e.lock));
        if let (Some(l), Some(reply)) = (e.lock, e.reply) {
            self.is_held(rt, e.task, l, owns(call, reply));
        }
    }

    // Goes on at the event's lock.
    fn at_lock(&mut self, rt: &impl Abort, e: &Event) {
        let Some(l) = e.lock else { return };
        if let Some(held) = self.locks.get_mut(l.0 as usize) {
            assert!(rt; held.fits(e), "script {}: {e:?}", self.number);
            *held = held.after(e);
        }
    }

    // Goes on at the event's task.
    fn at_task(&mut self, rt: &impl Abort, e: &Event, call: &Call, spins: bool) {
        let Some(known) = self.tasks.get_mut(e.task.0 as usize) else {
            return;
        };
        if let Some(reply) = e.reply {
            assert!(rt; known.fits(e, call, reply), "script {}: {e:?}", self.number);
        }
        *known = known.after(e, call, spins);
    }

    // Compares the owner of a lock with an answer, where that says whether the task is.
    fn is_held(&self, rt: &impl Abort, t: TaskId, l: LockId, owns: Option<bool>) {
        if let Some(owns) = owns {
            let number = self.number;
            assert_eq!(rt; self.held(l).owner() == Some(t), owns, "script {number}");
        }
    }
}

// Whether a lock is there that spins.
fn spins(rt: &impl Abort, script: &Script, lock: Option<LockId>) -> bool {
    let Some(l) = lock else { return false };
    assert!(rt; l.0 < script.locks());
    script.kind(l).spins()
}

// Whether a call with this answer leaves its task the owner of its lock.
fn owns(call: &Call, reply: Reply) -> Option<bool> {
    match (call, reply) {
        (Call::Read(_) | Call::TryRead(_), Reply::Got) => Some(false),
        (_, Reply::Got) => Some(true),
        (Call::SetPrio(_, _), _) => None,
        (_, Reply::Done) => Some(false),
        _ => None,
    }
}
