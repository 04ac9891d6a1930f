ghost use Rattle.std.specs.Prelude.{◌≡◌, ◌<◌, length, true, false, None, IfOk, string_bytes};
ghost use Rattle.rt_base.specs.Name.{is_name};
ghost use Rattle.rt_script.specs.Adding.{empty_script};
ghost use Rattle.rt_script.specs.Lines.{SoFar};
ghost use Rattle.rt_script.specs.Judging.{need};
ghost use Rattle.rt_script.specs.Names.{named, task_named, lock_named, new_name};
ghost use Rattle.rt_script.specs.Results.{Gives};
ghost use Rattle.rt_script.specs.declared.fault.Why.TheVariants.{Unknown};

mod calling;
pub(crate) mod line;

use crate::fault::Why;
use crate::line_error::LineError;
use crate::name::is_name;
use crate::script::Script;
use rt_base::{LockId, TaskId};
use std::alloc::Global;
use std::marker::Model;
use std::str;

/// The script that the lines read so far make, and whether any line was more than passed over.
#[derive(Drop)]
pub(crate) struct Draft {
    script: Script,
    begun: bool,
}

impl Model for Draft {
    ghost use Rattle.rt_script.specs.Lines.{SoFar};

    ghost Value = { SoFar };

    ghost use Rattle.rt_script.specs.ScriptFields.{so_far_of_draft, BeginsEmpty};

    ghost view = { so_far_of_draft };

    ghost invariant = { BeginsEmpty };
}

impl Draft {
    /// A script without lines.
    pub(crate) fn new(alloc: Global) -> Draft
        ensures { result ≡ record { script = empty_script; begun = false } }
    {
        Draft {
            script: Script::new(alloc),
            begun: false,
        }
    }

    /// The script, whole.
    pub(crate) fn into_script(self) -> Script
        ensures { result ≡ self.script }
    {
        self.script
    }

    /// The script so far.
    fn script(&self) -> &Script
        ensures { result.now ≡ self.now.script }
    {
        &self.script
    }

    /// The task of that name.
    fn task_named(&self, name: &[u8]) -> Result<TaskId, LineError>
        ensures task { Gives (λ t. t) result (need Unknown (task_named self.now.script name.now)) }
        ensures within { IfOk result (λ t. t.0 < length self.now.script.tasks) }
    {
        match self.script.task_named(name) {
            Some(t) => Ok(t),
            None => Err(LineError::Fault(Why::Unknown)),
        }
    }

    /// The lock of that name; the cell of processor 0 for a local one.
    fn lock_named(&self, name: &[u8]) -> Result<LockId, LineError>
        ensures lock { Gives (λ l. l) result (need Unknown (lock_named self.now.script name.now)) }
        ensures within { IfOk result (λ l. l.0 < length self.now.script.locks) }
    {
        match self.script.lock_named(name) {
            Some(l) => Ok(l),
            None => Err(LineError::Fault(Why::Unknown)),
        }
    }

    /// The name that the word declares: it has the shape of one, and stands for nothing yet.
    fn new_name(&self, alloc: Global, word: &[u8]) -> Result<String, LineError>
        ensures name { Gives string_bytes result (new_name self.now.script word.now) }
        ensures shape { IfOk result (λ name. is_name (string_bytes name) ≡ true) }
        ensures free { IfOk result (λ name. named self.now.script (string_bytes name) ≡ None) }
    {
        if !is_name(word) {
            return Err(LineError::Fault(Why::BadName));
        }
        if self.script.named(word).is_some() {
            return Err(LineError::Fault(Why::NameTwice));
        }
        match str::from_utf8(word) {
            Ok(text) => Ok(String::from_str(alloc, text)?),
            Err(_) => Err(LineError::Fault(Why::BadName)),
        }
    }
}
