// The text of a script: the lines that it is written as.
ghost use Rattle.std.specs.Prelude.{◌≡◌, ◌<◌, [], ◌∷◌, ◌++◌, length, Ok, decimal, IfOk, OnOk};
ghost use Rattle.rt_base.specs.Script.{task_line, lock_line, is_first_cell, IsScript};
ghost use Rattle.rt_base.specs.Text.{spaced};
ghost use Rattle.rt_script.specs.Canonical.{lock_kind_word, call_words, cpus_line_text, with_line_feed, canonical, task_text, tasks_part, lock_text, locks_part, call_text, calls_text, calls_part, pick_text, picks_part};
ghost use Rattle.rt_script.specs.Grammar.{script_of};

use crate::lock::Lock;
use crate::script::Script;
use crate::task::Task;
use itoa::Buffer;
use rt_base::limits::TEXT_LIMIT;
use rt_base::{Call, Kind, LockId, NoMemory, TaskId};
use std::alloc::{AllocError, Global};

impl Script {
    /// The canonical text of the script: the header, the number of processors, the tasks, the locks with a
    /// local lock once, the calls of one task after those of another, the picks, and `go`. Each line ends
    /// with a line feed, and there are no comments and no empty lines. By the rules of the script text
    /// it is this script, and `read_script` takes it. An error is a want of memory.
    pub fn write(&self, alloc: Global) -> Result<Vec<u8>, NoMemory>
        ensures text { IfOk result (λ text. text.items ≡ canonical self.now) }
        ensures parses { IfOk result (λ text. script_of text.items ≡ Ok self.now) }
        ensures short { IfOk result (λ text. length text.items < TEXT_LIMIT) }
    {
        let mut text = Vec::new(alloc);
        self.push_text(&mut text)?;
        Ok(text)
    }

    /// Appends the whole text.
    fn push_text(&self, out: &mut Vec<u8>) -> Result<(), AllocError>
        ensures text { OnOk result (out.new.items ≡ out.old.items ++ canonical self.now) }
        ensures valid { OnOk result (IsScript self.now) }
    {
        out.extend_from_slice(b"rtscript 1\n")?;
        push_cpus_line(self.cpus(), out)?;
        push_tasks(self.task_lines(), out)?;
        push_locks(self.lock_lines(), out)?;
        self.push_calls(out)?;
        self.push_picks(out)?;
        out.extend_from_slice(b"go\n")?;
        Ok(())
    }

    /// Appends the lines of all calls, task by task.
    fn push_calls(&self, out: &mut Vec<u8>) -> Result<(), AllocError>
        ensures { OnOk result (out.new.items ≡ out.old.items ++ calls_part self.now) }
    {
        for task in self.task_lines() {
            self.push_calls_of(task, out)?;
        }
        Ok(())
    }

    /// Appends the lines of a task's calls.
    fn push_calls_of(&self, task: &Task, out: &mut Vec<u8>) -> Result<(), AllocError>
        ensures { OnOk result (out.new.items ≡ out.old.items ++ calls_text self.now task.now) }
    {
        for call in &task.calls {
            self.push_call_line(task, call, out)?;
        }
        Ok(())
    }

    /// Appends the line of a call.
    fn push_call_line(&self, task: &Task, call: &Call, out: &mut Vec<u8>) -> Result<(), AllocError>
        ensures { OnOk result (out.new.items ≡ out.old.items ++ call_text self.now task.now call.now) }
    {
        out.extend_from_slice(b"call")?;
        push_word(task.name.as_str(), out)?;
        self.push_call_words(call, out)?;
        out.push(b'\n')?;
        Ok(())
    }

    /// Appends the words of a call.
    fn push_call_words(&self, call: &Call, out: &mut Vec<u8>) -> Result<(), AllocError>
        ensures { OnOk result (out.new.items ≡ out.old.items ++ spaced (call_words self.now call.now)) }
    {
        match call {
            Call::Lock(l) => push_verb("lock", self.name_of_lock(*l), out),
            Call::LockInt(l) => push_verb("lockint", self.name_of_lock(*l), out),
            Call::TryLock(l) => push_verb("trylock", self.name_of_lock(*l), out),
            Call::Unlock(l) => push_verb("unlock", self.name_of_lock(*l), out),
            Call::Spin(l) => push_verb("spin", self.name_of_lock(*l), out),
            Call::TrySpin(l) => push_verb("tryspin", self.name_of_lock(*l), out),
            Call::Unspin(l) => push_verb("unspin", self.name_of_lock(*l), out),
            Call::Read(l) => push_verb("read", self.name_of_lock(*l), out),
            Call::TryRead(l) => push_verb("tryread", self.name_of_lock(*l), out),
            Call::Unread(l) => push_verb("unread", self.name_of_lock(*l), out),
            Call::Write(l) => push_verb("write", self.name_of_lock(*l), out),
            Call::TryWrite(l) => push_verb("trywrite", self.name_of_lock(*l), out),
            Call::Unwrite(l) => push_verb("unwrite", self.name_of_lock(*l), out),
            Call::Downgrade(l) => push_verb("downgrade", self.name_of_lock(*l), out),
            Call::Local(l) => push_verb("local", self.name_of_lock(*l), out),
            Call::Unlocal(l) => push_verb("unlocal", self.name_of_lock(*l), out),
            Call::State(state) => push_verb("state", state.letter(), out),
            Call::Schedule => push_word("schedule", out),
            Call::Wake(t) => push_verb("wake", self.name_of_task(*t), out),
            Call::Signal(t) => push_verb("signal", self.name_of_task(*t), out),
            Call::SetPrio(t, prio) => {
                push_verb("setprio", self.name_of_task(*t), out)?;
                push_number(prio.get(), out)
            }
            Call::Move(cpu) => {
                push_word("move", out)?;
                push_number(cpu.0, out)
            }
        }
    }

    /// Appends the lines of the picks.
    fn push_picks(&self, out: &mut Vec<u8>) -> Result<(), AllocError>
        ensures { OnOk result (out.new.items ≡ out.old.items ++ picks_part self.now) }
    {
        for t in self.picks() {
            self.push_pick_line(*t, out)?;
        }
        Ok(())
    }

    /// Appends the line of a pick.
    fn push_pick_line(&self, t: TaskId, out: &mut Vec<u8>) -> Result<(), AllocError>
        ensures { OnOk result (out.new.items ≡ out.old.items ++ pick_text self.now t) }
    {
        out.extend_from_slice(b"pick")?;
        push_word(self.name_of_task(t), out)?;
        out.push(b'\n')?;
        Ok(())
    }

    /// The name of a task, and nothing where there is no such task.
    fn name_of_task(&self, t: TaskId) -> &str
        ensures { result.now ≡ (task_line self.now t).name }
    {
        if t.0 < self.tasks() {
            self.task_name(t)
        } else {
            ""
        }
    }

    /// The name of a lock, and nothing where there is no such lock.
    fn name_of_lock(&self, l: LockId) -> &str
        ensures { result.now ≡ (lock_line self.now l).name }
    {
        if l.0 < self.locks() {
            self.lock_name(l)
        } else {
            ""
        }
    }
}

/// Appends the line of the processors.
fn push_cpus_line(cpus: u8, out: &mut Vec<u8>) -> Result<(), AllocError>
    ensures { OnOk result (out.new.items ≡ out.old.items ++ with_line_feed (cpus_line_text cpus)) }
{
    out.extend_from_slice(b"cpus")?;
    push_number(cpus, out)?;
    out.push(b'\n')?;
    Ok(())
}

/// Appends the lines of tasks.
fn push_tasks(tasks: &[Task], out: &mut Vec<u8>) -> Result<(), AllocError>
    ensures { OnOk result (out.new.items ≡ out.old.items ++ tasks_part tasks.now) }
{
    for task in tasks {
        push_task_line(task, out)?;
    }
    Ok(())
}

/// Appends the line of a task.
fn push_task_line(task: &Task, out: &mut Vec<u8>) -> Result<(), AllocError>
    ensures { OnOk result (out.new.items ≡ out.old.items ++ task_text task.now) }
{
    out.extend_from_slice(b"task")?;
    push_word(task.name.as_str(), out)?;
    push_number(task.own.get(), out)?;
    push_number(task.cpu.0, out)?;
    out.push(b'\n')?;
    Ok(())
}

/// Appends the lines of locks.
fn push_locks(locks: &[Lock], out: &mut Vec<u8>) -> Result<(), AllocError>
    ensures { OnOk result (out.new.items ≡ out.old.items ++ locks_part locks.now) }
{
    for lock in locks {
        push_lock_line(lock, out)?;
    }
    Ok(())
}

/// Appends the line of a lock, if it has one of its own.
fn push_lock_line(lock: &Lock, out: &mut Vec<u8>) -> Result<(), AllocError>
    ensures { OnOk result (out.new.items ≡ out.old.items ++ lock_text lock.now) }
{
    if !has_line(lock) {
        return Ok(());
    }
    out.extend_from_slice(b"lock")?;
    push_word(lock.name.as_str(), out)?;
    push_word(lock_kind_text(lock.kind), out)?;
    out.push(b'\n')?;
    Ok(())
}

/// Whether a lock has a line of its own, as the cells of a local lock after the first don't.
fn has_line(lock: &Lock) -> bool
    ensures { result ≡ is_first_cell lock.now.cell }
{
    match lock.cell {
        Some(cpu) => cpu.0 == 0,
        None => true,
    }
}

/// The word for a kind of lock.
fn lock_kind_text(kind: Kind) -> &'static str
    ensures { result.now ≡ lock_kind_word kind }
{
    match kind {
        Kind::Mutex => "mutex",
        Kind::Spin => "spin",
        Kind::RwLock => "rwlock",
        Kind::RwSem => "rwsem",
        Kind::Local => "local",
    }
}

/// Appends a verb and its operand, each after a space.
fn push_verb(verb: &str, operand: &str, out: &mut Vec<u8>) -> Result<(), AllocError>
    ensures { OnOk result (out.new.items ≡ out.old.items ++ spaced (verb.now ∷ operand.now ∷ [])) }
{
    push_word(verb, out)?;
    push_word(operand, out)
}

/// Appends a word after a space.
fn push_word(word: &str, out: &mut Vec<u8>) -> Result<(), AllocError>
    ensures { OnOk result (out.new.items ≡ out.old.items ++ 32 ∷ word.now) }
{
    out.push(b' ')?;
    out.extend_from_slice(word.as_bytes())?;
    Ok(())
}

/// Appends the decimal digits of a number after a space.
fn push_number(n: u8, out: &mut Vec<u8>) -> Result<(), AllocError>
    ensures { OnOk result (out.new.items ≡ out.old.items ++ 32 ∷ decimal n) }
{
    out.push(b' ')?;
    out.extend_from_slice(Buffer::new().format(n).as_bytes())?;
    Ok(())
}
