// The lines between the header and `go`.
ghost use Rattle.std.specs.Prelude.{◌≡◌};
ghost use Rattle.std.specs.List.{list_all};
ghost use Rattle.rt_script.specs.Lines.{after_cpus_line, after_task_line, after_lock_line, after_call_line, after_pick_line, after_words, begun_with, are_words, after_line};
ghost use Rattle.rt_script.specs.Results.{Leaves};
ghost use Rattle.rt_script.specs.Words.{is_printable, is_passed_over};

use super::Draft;
use crate::call_form::call_form;
use crate::fault::Why;
use crate::keyword::Keyword;
use crate::line_error::LineError;
use crate::lock::locks_of;
use crate::pieces::Pieces;
use crate::spelling::{cpu_spelled, cpus_spelled, kind_spelled, prio_spelled};
use crate::task::Task;
use rt_base::limits::{MAX_CALLS, MAX_LOCKS, MAX_PICKS, MAX_TASKS};
use std::alloc::Global;

impl Draft {
    /// Reads a line between the header and `go`.
    #[tactic(auto, unfolding(crate::specs::Lines::after_line))]
    pub(crate) fn line(&mut self, alloc: Global, line: &[u8]) -> Result<(), LineError>
        ensures { Leaves self.new result (after_line self.old line.now) }
    {
        if !are_printable(line) {
            return Err(LineError::Fault(Why::NotAscii));
        }
        if is_passed_over(line) {
            return Ok(());
        }
        if !are_words(Pieces::new(line, b' ')) {
            return Err(LineError::Fault(Why::BadLine));
        }
        self.words(alloc, Pieces::new(line, b' '))
    }

    /// Reads the words of a line.
    fn words(&mut self, alloc: Global, mut words: Pieces) -> Result<(), LineError>
        ensures { Leaves self.new result (begun_with (after_words self.old words.entry)) }
    {
        let Some(first) = words.next() else {
            return Err(LineError::Fault(Why::BadLine));
        };
        match Keyword::read(first) {
            Some(Keyword::Cpus) => self.cpus(words),
            Some(Keyword::Task) => self.task(alloc, words),
            Some(Keyword::Lock) => self.lock(alloc, words),
            Some(Keyword::Call) => self.call(words),
            Some(Keyword::Pick) => self.pick(words),
            None => Err(LineError::Fault(Why::BadLine)),
        }
    }

    /// Reads the operands of a line of processors, before which no other line may come.
    #[tactic(auto, unfolding(crate::specs::Lines::after_cpus_line))]
    fn cpus(&mut self, operands: Pieces) -> Result<(), LineError>
        ensures { Leaves self.new result (begun_with (after_cpus_line self.old operands.entry)) }
    {
        if self.begun {
            return Err(LineError::Fault(Why::BadLine));
        }
        let n = cpus_spelled(operands.one()?)?;
        self.begun = true;
        self.script.set_cpus(n);
        Ok(())
    }

    /// Reads the operands of a task line.
    #[tactic(auto, unfolding(crate::specs::Lines::after_task_line))]
    fn task(&mut self, alloc: Global, operands: Pieces) -> Result<(), LineError>
        ensures { Leaves self.new result (begun_with (after_task_line self.old.script operands.entry)) }
    {
        let (name, own, cpu) = operands.three()?;
        let name = self.new_name(alloc, name)?;
        let own = prio_spelled(own)?;
        let cpu = cpu_spelled(self.script(), cpu)?;
        if self.script().tasks() as usize >= MAX_TASKS {
            return Err(LineError::Fault(Why::TooMany));
        }
        self.begun = true;
        self.script.push_task(Task::new(alloc, name, own, cpu))?;
        Ok(())
    }

    /// Reads the operands of a lock line.
    #[tactic(auto, unfolding(crate::specs::Lines::after_lock_line))]
    fn lock(&mut self, alloc: Global, operands: Pieces) -> Result<(), LineError>
        ensures { Leaves self.new result (begun_with (after_lock_line self.old.script operands.entry)) }
    {
        let (name, kind) = operands.two()?;
        let Some(kind) = kind_spelled(kind) else {
            return Err(LineError::Fault(Why::BadLine));
        };
        let name = self.new_name(alloc, name)?;
        let locks = locks_of(alloc, self.script().cpus(), name.as_str(), kind)?;
        if self.script().locks() as usize + locks.len() > MAX_LOCKS {
            return Err(LineError::Fault(Why::TooMany));
        }
        self.begun = true;
        self.script.push_locks(name, locks)?;
        Ok(())
    }

    /// Reads the operands of a call line.
    #[tactic(auto, unfolding(crate::specs::Lines::after_call_line))]
    fn call(&mut self, mut operands: Pieces) -> Result<(), LineError>
        ensures { Leaves self.new result (begun_with (after_call_line self.old.script operands.entry)) }
    {
        let Some(task) = operands.next() else {
            return Err(LineError::Fault(Why::BadLine));
        };
        let Some(form) = call_form(operands) else {
            return Err(LineError::Fault(Why::BadLine));
        };
        let t = self.task_named(task)?;
        let call = self.call_in(form)?;
        if self.script().all_calls() >= MAX_CALLS {
            return Err(LineError::Fault(Why::TooMany));
        }
        self.begun = true;
        self.script.push_call(t, call)?;
        Ok(())
    }

    /// Reads the operands of a pick line.
    #[tactic(auto, unfolding(crate::specs::Lines::after_pick_line))]
    fn pick(&mut self, operands: Pieces) -> Result<(), LineError>
        ensures { Leaves self.new result (begun_with (after_pick_line self.old.script operands.entry)) }
    {
        let task = operands.one()?;
        let t = self.task_named(task)?;
        if self.script().picks().len() >= MAX_PICKS {
            return Err(LineError::Fault(Why::TooMany));
        }
        self.begun = true;
        self.script.push_pick(t)?;
        Ok(())
    }
}

/// Whether each byte is a printable ASCII character.
pub(crate) fn are_printable(line: &[u8]) -> bool
    ensures { result ≡ list_all is_printable line.now }
{
    line.iter().all(|b| *b >= b' ' && *b <= b'~')
}

/// Whether a line is empty or begins with `#`.
fn is_passed_over(line: &[u8]) -> bool
    ensures { result ≡ is_passed_over line.now }
{
    line.is_empty() || line[0] == b'#'
}

/// Whether no word is empty.
fn are_words(mut words: Pieces) -> bool
    ensures { result ≡ are_words words.entry }
{
    while let Some(word) = words.next() {
        if word.is_empty() {
            return false;
        }
    }
    true
}
