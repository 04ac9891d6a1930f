// The text of a script that is drawn.
ghost use Rattle.std.specs.Prelude.{◌<◌};

use crate::random_tests::draws::Draws;
use std::alloc::Global;
use std::test::Fail;

/// How a lock is taken, and how it is given back then.
type Pair = (&'static str, &'static str);

/// A kind of locks, as scripts spell it, and the pairs of its calls, of which one may come twice.
type Kind = (&'static str, [Pair; 4]);

const MUTEX: [Pair; 4] = [
    ("lock", "unlock"),
    ("lockint", "unlock"),
    ("lockint", "unlock"),
    ("trylock", "unlock"),
];

const SPIN: [Pair; 4] = [
    ("spin", "unspin"),
    ("spin", "unspin"),
    ("spin", "unspin"),
    ("tryspin", "unspin"),
];

const READ_WRITE: [Pair; 4] = [
    ("read", "unread"),
    ("tryread", "unread"),
    ("write", "unwrite"),
    ("trywrite", "unwrite"),
];

const LOCAL: [Pair; 4] = [("local", "unlocal"); 4];

/// The kinds of locks, by turns one that doesn't spin and one that does.
const KINDS: [Kind; 6] = [
    ("mutex", MUTEX),
    ("spin", SPIN),
    ("rwsem", READ_WRITE),
    ("rwlock", READ_WRITE),
    ("mutex", MUTEX),
    ("local", LOCAL),
];

/// Priorities, some of which come often.
const PRIOS: [u32; 8] = [0, 10, 50, 99, 100, 100, 120, 139];

/// A lock, and how it is taken and given back.
#[derive(Clone, Copy)]
struct Hold {
    lock: u32,
    takes: &'static str,
    gives: &'static str,
}

/// The lines of a script, and of what more of them are drawn. The kind of a lock is told by its number.
#[derive(Drop)]
struct Text {
    lines: String,
    draws: Draws,
    tasks: u32,
    locks: u32,
    first: u32,
    stride: u32,
    ghost some_tasks: { 0 < tasks },
    ghost some_locks: { 0 < locks },
}

/// The text of the script of this number.
pub fn script_text(alloc: Global, number: u64) -> Result<String, Fail> {
    let mut text = Text::new(alloc, number)?;
    text.declare()?;
    for t in 0..text.tasks {
        text.calls(t)?;
    }
    text.lines.push_str("go\n")?;
    let Text { lines, .. } = text;
    Ok(lines)
}

impl Text {
    // A header, and so many tasks and locks.
    fn new(alloc: Global, number: u64) -> Result<Text, Fail> {
        let mut draws = Draws::new(number);
        let tasks = 2
            + if draws.one_in(10) {
                draws.below(63)
            } else {
                draws.below(8)
            };
        let lines = String::from_str(alloc, "rtscript 1\ncpus 2\n")?;
        Ok(Text {
            tasks,
            locks: 1 + draws.below(tasks.min(12)),
            first: draws.below(6),
            stride: draws.below(6),
            lines,
            draws,
        })
    }

    // Tasks and locks.
    fn declare(&mut self) -> Result<(), Fail> {
        for t in 0..self.tasks {
            let prio = self.draws.of(&PRIOS);
            let cpu = self.draws.below(2);
            writeln!(self.lines, "task t{t} {prio} {cpu}")?;
        }
        for l in 0..self.locks {
            let (kind, _) = self.kind(l);
            writeln!(self.lines, "lock l{l} {kind}")?;
        }
        Ok(())
    }

    // The kind of a lock. By an even stride either all locks of the script spin or none does.
    fn kind(&self, l: u32) -> Kind {
        KINDS[(l.wrapping_mul(self.stride).wrapping_add(self.first) % 6) as usize]
    }

    // The calls of a task. It may sleep while it holds no lock.
    fn calls(&mut self, t: u32) -> Result<(), Fail> {
        for _ in 0..1 + self.draws.below(6) {
            self.before_nest(t)?;
            self.nest(t)?;
            self.line(t, "schedule")?;
        }
        Ok(())
    }

    // Perhaps a state in which the task sleeps at its next schedule.
    fn before_nest(&mut self, t: u32) -> Result<(), Fail> {
        match self.draws.below(24) {
            0 => self.line(t, "state S"),
            1 => self.line(t, "state D"),
            _ => self.other_call(t),
        }
    }

    // Up to three locks, one in the other.
    fn nest(&mut self, t: u32) -> Result<(), Fail> {
        let first = self.hold();
        let holds = [first, self.other_hold(first), self.other_hold(first)];
        let depth = 1 + self.draws.below(3) as usize;
        for hold in &holds[..depth] {
            self.call(t, hold.takes, "l", hold.lock)?;
            self.other_call(t)?;
        }
        for hold in holds[..depth].iter().rev() {
            self.give_back(t, hold)?;
        }
        Ok(())
    }

    // A lock, and how it is taken and given back.
    fn hold(&mut self) -> Hold {
        let lock = self.draws.below(self.locks);
        let (_, pairs) = self.kind(lock);
        let (takes, gives) = self.draws.of(&pairs);
        Hold { lock, takes, gives }
    }

    // The same of another lock than this one's, mostly.
    fn other_hold(&mut self, first: Hold) -> Hold {
        let hold = self.hold();
        if hold.lock == first.lock {
            self.hold()
        } else {
            hold
        }
    }

    // Gives a lock back, or forgets to.
    fn give_back(&mut self, t: u32, hold: &Hold) -> Result<(), Fail> {
        if self.draws.one_in(200) {
            return Ok(());
        }
        if hold.gives == "unwrite" && self.draws.one_in(3) {
            self.call(t, "downgrade", "l", hold.lock)?;
            return self.call(t, "unread", "l", hold.lock);
        }
        self.call(t, hold.gives, "l", hold.lock)
    }

    // A call that takes no lock, or no call.
    fn other_call(&mut self, t: u32) -> Result<(), Fail> {
        let other = self.draws.below(self.tasks);
        match self.draws.below(32) {
            0 => self.line(t, "state S"),
            1 => self.line(t, "state R"),
            2 => self.line(t, "schedule"),
            3..=9 => self.call(t, "wake", "t", other),
            10..=12 => self.call(t, "signal", "t", other),
            13..=16 => self.set_prio(t, other),
            17 => self.give_any(t),
            18 | 19 => self.line(t, "move 0"),
            20 | 21 => self.line(t, "move 1"),
            _ => Ok(()),
        }
    }

    // Gives some lock back, which is mostly another task's.
    fn give_any(&mut self, t: u32) -> Result<(), Fail> {
        let hold = self.hold();
        self.call(t, hold.gives, "l", hold.lock)
    }

    // Sets a priority.
    fn set_prio(&mut self, t: u32, other: u32) -> Result<(), Fail> {
        let prio = self.draws.of(&PRIOS);
        writeln!(self.lines, "call t{t} setprio t{other} {prio}")?;
        Ok(())
    }

    // A call that names a lock or a task.
    fn call(&mut self, t: u32, call: &str, sort: &str, n: u32) -> Result<(), Fail> {
        writeln!(self.lines, "call t{t} {call} {sort}{n}")?;
        Ok(())
    }

    // Any other call.
    fn line(&mut self, t: u32, call: &str) -> Result<(), Fail> {
        writeln!(self.lines, "call t{t} {call}")?;
        Ok(())
    }
}
