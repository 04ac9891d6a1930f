ghost use Rattle.std.specs.Prelude.{◌≡◌, ◌<◌, ◌≤◌, ◌+◌, ◌^◌, ◌++◌, ℕ, length, false, All, None};
ghost use Rattle.std.specs.Prelude.{Some, IfOk, IfSome, vec_len, vec_capacity};
ghost use Rattle.std.specs.List.{count_by};
ghost use Rattle.rt_base.specs.Script.{Script, IsScript};
ghost use Rattle.rt_model.specs.declared.obj.Obj.{Obj};
ghost use Rattle.rt_model.specs.Parts.{call_of, effective_of};
ghost use Rattle.rt_model.specs.CallKinds.{IsServed};
ghost use Rattle.rt_model.specs.State.{State, start, shared, object, owner_part, reader_part};
ghost use Rattle.rt_model.specs.State.{task_part, thread_part};
ghost use Rattle.rt_model.specs.NextEvent.{next_event};
ghost use Rattle.rt_model.specs.StateAfter.{state_after};
ghost use Rattle.rt_model.specs.Footprint.{touches};
ghost use Rattle.rt_model.specs.Run.{is_done, is_stuck, is_enabled, lowest, ended_of};
ghost use Rattle.rt_model.specs.Order.{in_walk, is_walking};
ghost use Rattle.rt_model.specs.laws.Shape.{IsOf, IsWithin, SameSize};
ghost use Rattle.rt_model.specs.laws.Lawful.{IsLawful};
ghost use Rattle.rt_model.specs.laws.Cells.{CellsLaw};
ghost use Rattle.rt_model.specs.laws.Wakeups.{flat_state};
ghost use Rattle.rt_model.specs.laws.Local.{AgreeOn};
ghost use Rattle.rt_events.specs.Entry.{entry};
ghost use Rattle.rt_events.specs.WellFormed.{IsWellFormed};
ghost use Rattle.rt_core.specs.Report.{IsNoteWithin, note_of, call_note, report_line_of};
ghost use Rattle.rt_core.specs.Report.{task_report, lock_report};
ghost use Rattle.rt_core.specs.Core.{Made};

use crate::effect::make;
use crate::enabled::Enabled;
use crate::note::{Note, blocked_note, readers_note};
use crate::report::{write_lock_line, write_task_line};
use crate::spinning::waits_spinning;
use rt_base::limits::{LINE_LIMIT, MAX_CALLS, MAX_TASKS};
use rt_base::{Call, Ended, LockId, NoMemory, Prio, TaskId, TaskState};
use rt_choice::{confirmed_event, event_of, next_of};
use rt_locks::LockCell;
use rt_model::{Event, Phase, ReaderCell, Row};
use rt_parts::{Shared, Thread, threads};
use rt_script::Script;
use rt_tasks::TaskCell;
use std::alloc::Global;
use std::marker::Model;

/// The lock machine in one of its states: what all tasks share, the threads apart, which tasks have a next
/// event, and how many events were made.
#[derive(Drop)]
pub struct Core {
    shared: Shared,
    threads: Vec<Thread>,
    enabled: Enabled,
    made: u64,
}

impl Model for Core {
    ghost use Rattle.rt_core.specs.Core.{Made};

    ghost Value = { Made };

    ghost use Rattle.rt_core.specs.Core.{with_threads};
    ghost use Rattle.rt_core.specs.Enabled.{AreKept};
    ghost use Rattle.rt_model.specs.laws.Lawful.{IsLawful};

    ghost view = { λ c. record { state = with_threads c.shared c.threads.items; made = c.made } };

    ghost invariant = { λ c. IsLawful (with_threads c.shared c.threads.items) c.made
        × AreKept (with_threads c.shared c.threads.items) c.enabled };
}

impl Core {
    /// The machine in the script's start state: no holder, no waiter, every task running.
    pub fn new(alloc: Global, script: &Script) -> Result<Core, NoMemory>
        ensures start { IfOk result (λ core. core ≡ record { state = start script.now; made = 0 }) }
        ensures script { IfOk result (λ core. IsOf script.now core.state) }
        ensures lawful { IfOk result (λ core. IsLawful core.state core.made) }
        ensures cells { IfOk result (λ core. CellsLaw script.now core.state) }
    {
        let shared = Shared::new(alloc, script)?;
        let threads = threads(alloc, script)?;
        let enabled = Enabled::of(&shared, threads.as_slice());
        Ok(Core {
            shared,
            threads,
            enabled,
            made: 0,
        })
    }

    /// The number of tasks.
    pub fn tasks(&self) -> u32
        ensures number { result ≡ length self.now.state.threads }
        ensures few { result ≤ MAX_TASKS }
        ensures lawful { IsLawful self.now.state self.now.made }
    {
        self.threads.len() as u32
    }

    /// How many events were made since the start. This isn't part of the machine's state.
    pub fn made(&self) -> u64
        ensures { result ≡ self.now.made }
    {
        self.made
    }

    /// A task's effective priority.
    pub fn effective(&self, t: TaskId) -> Prio
        requires { t.0 < length self.now.state.threads }
        ensures { result ≡ effective_of (task_part self.now.state t) }
    {
        self.cell(t).effective()
    }

    /// A task's public part.
    pub fn cell(&self, t: TaskId) -> &TaskCell
        requires { t.0 < length self.now.state.threads }
        ensures { result.now ≡ task_part self.now.state t }
    {
        self.shared.task(t)
    }

    /// The state of a task as it would be if spinlocks and rwlocks didn't put it to sleep: the saved one
    /// while it waits for a spinning kind, in its queue or for its readers, else its state.
    pub fn flat_state(&self, t: TaskId) -> TaskState
        requires { t.0 < length self.now.state.threads }
        ensures { result ≡ flat_state (thread_part self.now.state t) (task_part self.now.state t) }
    {
        let task = self.cell(t);
        if waits_spinning(self.thread(t), task) {
            task.saved()
        } else {
            task.state()
        }
    }

    // A task's thread.
    fn thread(&self, t: TaskId) -> &Thread
        requires { t.0 < length self.now.state.threads }
        ensures part { result.now ≡ thread_part self.now.state t }
        ensures kinds { length result.now.kinds ≡ length self.now.state.locks }
        ensures lawful { IsLawful self.now.state self.now.made }
    {
        &self.threads[t.0 as usize]
    }

    /// A lock's owner part.
    pub fn lock(&self, l: LockId) -> &LockCell
        requires { l.0 < length self.now.state.locks }
        ensures part { result.now.part ≡ owner_part self.now.state l }
        ensures owner { IfSome result.now.part.owner (λ t. t.0 < length self.now.state.threads) }
        ensures rows { All (λ (row : Row). row.who < length self.now.state.threads) result.now.part.rows }
        ensures room { result.now.tasks ≡ length self.now.state.threads }
    {
        self.shared.lock(l)
    }

    /// The reader part of a reader/writer lock. It counts no more readers than a script may have calls.
    pub fn readers(&self, l: LockId) -> ReaderCell
        requires { l.0 < length self.now.state.locks }
        ensures part { result ≡ reader_part self.now.state l }
        ensures few { result.count ≤ MAX_CALLS }
    {
        self.shared.readers(l)
    }

    /// How many calls of a task are answered.
    pub fn place(&self, t: TaskId) -> u32
        requires { t.0 < length self.now.state.threads }
        ensures { result ≡ (thread_part self.now.state t).answered }
    {
        self.thread(t).answered()
    }

    /// Whether every task is at the end of its calls.
    pub fn done(&self) -> bool
        ensures { result ≡ is_done self.now.state }
    {
        self.threads.iter().all(|thread| thread.is_at_end())
    }

    /// Whether no task has a next event, and some task isn't at the end of its calls.
    pub fn stuck(&self) -> bool
        ensures { result ≡ is_stuck self.now.state }
    {
        self.lowest_enabled().is_none() && !self.done()
    }

    /// How a run has ended that leaves this state.
    pub fn ended(&self) -> Ended
        ensures { result ≡ ended_of self.now.state }
    {
        if self.done() {
            Ended::Done
        } else if self.stuck() {
            Ended::Stuck
        } else {
            Ended::Limit
        }
    }

    /// Whether a task has a next event.
    pub fn is_enabled(&self, t: TaskId) -> bool
        requires { t.0 < length self.now.state.threads }
        ensures { result ≡ is_enabled self.now.state t.0 }
    {
        self.enabled.all.contains(t)
    }

    /// The lowest task that has a next event.
    pub fn lowest_enabled(&self) -> Option<TaskId>
        ensures { result ≡ lowest (is_enabled self.now.state) (length self.now.state.threads) }
    {
        self.enabled.all.lowest()
    }

    /// Whether a task's chain walk is unfinished and it has a next event.
    pub fn is_walking(&self, t: TaskId) -> bool
        requires { t.0 < length self.now.state.threads }
        ensures { result ≡ is_walking self.now.state t.0 }
    {
        self.enabled.walking.contains(t)
    }

    /// The lowest task whose chain walk is unfinished and that has a next event.
    pub fn lowest_walking(&self) -> Option<TaskId>
        ensures { result ≡ lowest (is_walking self.now.state) (length self.now.state.threads) }
    {
        self.enabled.walking.lowest()
    }

    /// How many tasks' chain walks are unfinished.
    pub fn walks(&self) -> u32
        ensures walks { result ≡ count_by (λ thread. in_walk thread.phase) self.now.state.threads }
        ensures lawful { IsLawful self.now.state self.now.made }
    {
        self.threads
            .iter()
            .filter(|thread| thread.is_in_walk())
            .count() as u32
    }

    /// Where a task stands.
    pub fn note(&self, t: TaskId) -> Note
        requires { t.0 < length self.now.state.threads }
        ensures note { result ≡ note_of self.now.state t }
        ensures within { IsNoteWithin (length self.now.state.threads) (length self.now.state.locks) result }
    {
        let thread = self.thread(t);
        self.call_note(t, thread, thread.call())
    }

    // Where a task stands that is at this call.
    fn call_note(&self, t: TaskId, thread: &Thread, call: Option<Call>) -> Note
        requires task { t.0 < length self.now.state.threads }
        requires thread { thread.now ≡ thread_part self.now.state t }
        requires served { IfSome call (IsServed MAX_TASKS (length thread.now.kinds)) }
        ensures { result ≡ call_note self.now.state t call }
    {
        let Some(call) = call else { return Note::End };
        match thread.phase() {
            Phase::Walk(cursor, _) => Note::Walk(*cursor),
            Phase::Confirm(_) => Note::Confirm,
            _ if self.is_enabled(t) => Note::Ready,
            Phase::Wait => blocked_note(self.cell(t).blocked_at()),
            Phase::WWait => readers_note(thread.called_lock(&call)),
            _ => Note::Wake,
        }
    }

    /// The one event that a task may make now. It depends on nothing but what it touches, and its entry is
    /// well formed for the core's script. Where there is none, that depends on the task and its thread alone.
    pub fn next(&self, t: TaskId) -> Option<Event>
        requires { t.0 < length self.now.state.threads }
        ensures event { result ≡ next_event self.now.state t }
        ensures task { IfSome result (λ e. e.task ≡ t) }
        ensures within { IfSome result
            (IsWithin (length self.now.state.threads) (length self.now.state.locks)) }
        ensures told { IfSome result (λ e. (script : Script) (number : ℕ)
            → IsOf script self.now.state → number < 2 ^ 64 → IsWellFormed script (entry number e)) }
        ensures local { IfSome result (λ e. (s : State)
            → AgreeOn e self.now.state s → next_event s t ≡ Some e) }
        ensures none { result ≡ None → (s : State) → thread_part s t ≡ thread_part self.now.state t
            → task_part s t ≡ task_part self.now.state t → next_event s t ≡ None }
    {
        let thread = self.thread(t);
        if let Phase::Confirm(path) = thread.phase() {
            return confirmed_event(&self.shared, t, path);
        }
        event_of(next_of(&self.shared, t, thread))
    }

    /// Makes an event: the next one of its task.
    pub fn apply(&mut self, e: &Event)
        requires next { next_event self.old.state e.now.task ≡ Some e.now }
        requires made { self.old.made < 2 ^ 62 }
        ensures state { self.new.state ≡ state_after self.old.state e.now }
        ensures made { self.new.made ≡ self.old.made + 1 }

        // What the event leaves of what it touches depends on nothing else, and all else stays.
        ensures local { (s : State) → SameSize self.old.state s → AgreeOn e.now self.old.state s
            → AgreeOn e.now self.new.state (state_after s e.now) }
        ensures frame { (o : Obj) → touches e.now o ≡ false
            → object self.new.state o ≡ object self.old.state o }

        // The core is still one of its script, and lawful, with each task on the processor of the cells
        // that it has.
        ensures script { (script : Script) → IsOf script self.old.state → IsOf script self.new.state }
        ensures lawful { IsLawful self.new.state self.new.made }
        ensures cells { (script : Script) → IsScript script → IsOf script self.old.state
            → CellsLaw script self.old.state → CellsLaw script self.new.state }
    {
        make(&mut self.shared, &mut self.threads[e.task.0 as usize], e);
        self.enabled
            .look_after(&self.shared, self.threads.as_slice(), e);
        self.made += 1;
    }
}

impl Core {
    /// Writes line i of the report, counted from 0, the tasks before the locks. It is shorter than
    /// `LINE_LIMIT`.
    pub fn report_line(&self, script: &Script, i: u32, out: &mut Vec<u8>)
        requires script { IsOf script.now self.now.state }
        requires line { i < length script.now.tasks + length script.now.locks }
        requires room { vec_len out.old + LINE_LIMIT ≤ vec_capacity out.old }
        ensures text { out.new.items ≡ out.old.items ++ report_line_of script.now self.now.state i }
        ensures short { length (report_line_of script.now self.now.state i) < LINE_LIMIT }
        ensures capacity { vec_capacity out.old ≤ vec_capacity out.new }
    {
        let tasks = script.tasks();
        if i < tasks {
            self.task_line(script, TaskId(i), out);
        } else {
            self.lock_line(script, LockId(i - tasks), out);
        }
    }

    // Writes a task's line of the report.
    fn task_line(&self, script: &Script, t: TaskId, out: &mut Vec<u8>)
        requires script { IsOf script.now self.now.state }
        requires task { t.0 < length script.now.tasks }
        requires room { vec_len out.old + LINE_LIMIT ≤ vec_capacity out.old }
        ensures text { out.new.items ≡ out.old.items ++ task_report script.now self.now.state t }
        ensures short { length (task_report script.now self.now.state t) < LINE_LIMIT }
        ensures capacity { vec_capacity out.old ≤ vec_capacity out.new }
    {
        write_task_line(script, t, self.cell(t), self.thread(t), self.note(t), out);
    }

    // Writes a lock's line of the report.
    fn lock_line(&self, script: &Script, l: LockId, out: &mut Vec<u8>)
        requires script { IsOf script.now self.now.state }
        requires lock { l.0 < length script.now.locks }
        requires room { vec_len out.old + LINE_LIMIT ≤ vec_capacity out.old }
        ensures text { out.new.items ≡ out.old.items ++ lock_report script.now self.now.state l }
        ensures short { length (lock_report script.now self.now.state l) < LINE_LIMIT }
        ensures capacity { vec_capacity out.old ≤ vec_capacity out.new }
    {
        write_lock_line(script, l, self.lock(l), self.shared.readers(l), out);
    }
}
