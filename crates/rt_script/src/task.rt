ghost use Rattle.std.specs.Prelude.{◌≡◌, [], ◌∷◌, ◌++◌, OnOk, OnErr};
ghost use Rattle.std.specs.String.{string_bytes};

use rt_base::{Call, Cpu, Prio};
use std::alloc::{AllocError, Global};
use std::marker::Model;

/// A task: its line, and the calls that the call lines give it.
#[derive(Drop)]
pub(crate) struct Task {
    pub(crate) name: String,
    pub(crate) own: Prio,
    pub(crate) cpu: Cpu,
    pub(crate) calls: Vec<Call>,
}

impl Model for Task {
    ghost use Rattle.std.specs.String.{string_bytes};
    ghost use Rattle.rt_base.specs.Script.{TaskLine};

    ghost Value = { TaskLine };

    ghost view = { λ t. record { name = string_bytes t.name; own = t.own; cpu = t.cpu; calls = t.calls.items } };
}

impl Task {
    /// A task without calls.
    pub(crate) fn new(alloc: Global, name: String, own: Prio, cpu: Cpu) -> Task
        ensures { result ≡ record { name = string_bytes name; own = own; cpu = cpu; calls = [] } }
    {
        Task {
            name,
            own,
            cpu,
            calls: Vec::new(alloc),
        }
    }

    /// Adds a call after the others. An `Err` changes nothing.
    pub(crate) fn push_call(&mut self, call: Call) -> Result<(), AllocError>
        ensures ok { OnOk result (self.new ≡ record self.old { calls = self.old.calls ++ call ∷ [] }) }
        ensures err { OnErr result (self.new ≡ self.old) }
    {
        self.calls.push(call)?;
        Ok(())
    }
}
