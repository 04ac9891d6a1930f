// What events and answers tell of one task.
use crate::random_tests::held::readers_in;
use rt_base::{Call, Cpu, Reply};
use rt_model::Event;

/// How many readers a task has let in since its last answer, how many holds it has of locks that spin, and on
/// which processor it is.
#[derive(Clone, Copy)]
pub struct Known {
    readers: i32,
    spinning: i32,
    cpu: Cpu,
}

impl Known {
    /// What is known of a task that starts on this processor.
    pub fn new(cpu: Cpu) -> Known {
        Known {
            readers: 0,
            spinning: 0,
            cpu,
        }
    }

    /// The task's processor.
    pub fn cpu(self) -> Cpu {
        self.cpu
    }

    /// Whether an event that answers the task's call fits what is known.
    pub fn fits(self, e: &Event, call: &Call, reply: Reply) -> bool {
        let readers = self.readers.wrapping_add(readers_in(e));
        readers == readers_of(call, reply) && self.may_get(call, reply)
    }

    // Whether the call may be answered so, by the holds of locks that spin.
    fn may_get(self, call: &Call, reply: Reply) -> bool {
        match (call, reply) {
            (_, Reply::Pinned | Reply::Nesting) => self.spinning > 0,
            (Call::Lock(_) | Call::LockInt(_) | Call::Schedule | Call::Move(_), _) => {
                self.spinning == 0
            }
            _ => true,
        }
    }

    /// What is known after an event of the task's call, which is at a lock that spins, or not.
    pub fn after(self, e: &Event, call: &Call, spins: bool) -> Known {
        let Some(reply) = e.reply else {
            let readers = self.readers.wrapping_add(readers_in(e));
            return Known { readers, ..self };
        };
        Known {
            readers: 0,
            spinning: self.spinning.wrapping_add(spinning_of(call, reply, spins)),
            cpu: self.cpu_after(call, reply),
        }
    }

    // The task's processor after this answer.
    fn cpu_after(self, call: &Call, reply: Reply) -> Cpu {
        match (call, reply) {
            (Call::Move(cpu), Reply::Done) => *cpu,
            _ => self.cpu,
        }
    }
}

// How many readers a call with this answer has let in.
fn readers_of(call: &Call, reply: Reply) -> i32 {
    match (call, reply) {
        (Call::Read(_) | Call::TryRead(_), Reply::Got) => 1,
        (Call::Downgrade(_), Reply::Done) => 1,
        (Call::Unread(_), Reply::Done) => -1,
        _ => 0,
    }
}

// By how much a call with this answer changes the holds of locks that spin.
fn spinning_of(call: &Call, reply: Reply, spins: bool) -> i32 {
    match (call, reply) {
        (Call::Downgrade(_) | Call::SetPrio(_, _), _) => 0,
        (_, Reply::Got) if spins => 1,
        (_, Reply::Done) if spins => -1,
        _ => 0,
    }
}
