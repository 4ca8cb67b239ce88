//! The calls of a form in memory: which of them fail, and how many were made.
ghost use Rattle.std.specs.Prelude.{◌≡◌, ◌≤◌};
ghost use Rattle.hb_causes.specs.Calls.{no_calls, is_due, after_success, after_failure};

use std::marker::Model;

/// Counts calls from 1, and knows the numbers of those that fail.
#[derive(Drop)]
pub(crate) struct CallLog {
    fails: Vec<u64>,
    made: u64,
    faults: u64,
}

impl Model for CallLog {
    ghost use Rattle.hb_causes.specs.Calls.{Calls};

    ghost Value = { Calls };

    ghost view = { λ c. record { fails = c.fails.items; made = c.made; faults = c.faults } };
}

impl CallLog {
    pub(crate) fn new(fails: Vec<u64>) -> CallLog
        ensures { result ≡ no_calls fails.items }
    {
        CallLog {
            fails,
            made: 0,
            faults: 0,
        }
    }

    /// Whether the next call is one of those that fail.
    pub(crate) fn is_due(&self) -> bool
        ensures { result ≡ is_due self.now }
    {
        let number = self.made.saturating_add(1);
        self.fails.contains(&number)
    }

    /// Counts a call that did not fail.
    pub(crate) fn succeed(&mut self)
        ensures { self.new ≡ after_success self.old }
    {
        self.made = self.made.saturating_add(1);
    }

    /// Counts a call that failed.
    pub(crate) fn fail(&mut self)
        ensures step { self.new ≡ after_failure self.old }
        ensures later { self.old.faults ≤ self.new.faults }
    {
        self.made = self.made.saturating_add(1);
        self.faults = self.faults.saturating_add(1);
    }

    /// How many calls have failed.
    pub(crate) fn faults(&self) -> u64
        ensures { result ≡ self.now.faults }
    {
        self.faults
    }
}
