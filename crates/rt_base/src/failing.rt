ghost use Rattle.std.specs.Prelude.{◌≡◌, ◌≤◌, is_err, OnErr};
ghost use Rattle.rt_base.specs.Failing.{Calls, fails, after_one_call};
ghost use Rattle.rt_base.specs.Outside.{Rises};

use crate::Failed;
use std::marker::Model;

/// Calls of which some are to fail: those whose numbers stand in a list, counted from 0.
#[derive(Drop)]
pub(crate) struct Failing {
    fail: Vec<u32>,
    made: u64,
    faults: u64,
}

impl Model for Failing {
    ghost Value = { Calls };

    ghost view = { λ calls. record { fail = calls.fail.items; made = calls.made; faults = calls.faults } };
}

impl Failing {
    /// No call yet. Those of these numbers are going to fail.
    pub(crate) fn new(fail: Vec<u32>) -> Failing
        ensures { result ≡ record { fail = fail.items; made = 0; faults = 0 } }
    {
        Failing {
            fail,
            made: 0,
            faults: 0,
        }
    }

    // Whether the next call is to fail.
    fn is_due(&self) -> bool
        ensures { result ≡ fails self.now }
    {
        for number in &self.fail {
            if *number as u64 == self.made {
                return true;
            }
        }
        false
    }

    /// Makes one call more, which fails where its number stands in the list.
    pub(crate) fn call(&mut self) -> Result<(), Failed>
        ensures fails { is_err result ≡ fails self.old }
        ensures calls { self.new ≡ after_one_call self.old }
        ensures cause { OnErr result (Rises self.old.faults self.new.faults) }
        ensures count { self.old.faults ≤ self.new.faults }
    {
        let fails = self.is_due();
        self.made = self.made.saturating_add(1);
        if fails {
            self.faults = self.faults.saturating_add(1);
            return Err(Failed);
        }
        Ok(())
    }
}
