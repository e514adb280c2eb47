//! Which calls on a form in memory fail.
ghost use Rattle.std.specs.Prelude.{◌≡◌, ◌≤◌};
ghost use Rattle.std.specs.Bool.{OnTrue};
ghost use Rattle.spl_outside.specs.Causes.{Rose};
ghost use Rattle.spl_outside.specs.Fails.{Failing, fails_next, after_call, after_call_alone, after_fault};

use std::marker::Model;

/// The numbers of the calls that are to fail, counted from 1, and what has happened so far.
#[derive(Drop)]
pub struct Fails {
    numbers: Vec<u64>,
    calls: u64,
    faults: u64,
}

impl Model for Fails {
    ghost use Rattle.spl_outside.specs.Fails.{Failing};

    ghost Value = { Failing };

    ghost view = { λ f. record { numbers = f.numbers.items; calls = f.calls; faults = f.faults } };
}

impl Fails {
    ghost use Rattle.spl_outside.specs.Fails.{none_yet};

    /// Before any call.
    pub fn new(numbers: Vec<u64>) -> Self
        ensures { result ≡ none_yet numbers.items }
    {
        Fails {
            numbers,
            calls: 0,
            faults: 0,
        }
    }

    /// Counts a fault.
    pub fn fault(&mut self)
        ensures counts { self.new ≡ after_fault self.old }
        ensures rose { Rose self.old.faults self.new.faults }
        ensures later { self.old.faults ≤ self.new.faults }
    {
        self.faults = self.faults.saturating_add(1);
    }

    /// Counts a call alone; says whether it is to fail.
    pub fn comes_alone(&mut self) -> bool
        ensures fails { result ≡ fails_next self.old }
        ensures counts { self.new ≡ after_call_alone self.old }
    {
        self.calls = self.calls.saturating_add(1);
        self.numbers.contains(&self.calls)
    }

    /// Counts a call, and a fault where the call is to fail; says whether it is.
    pub fn comes(&mut self) -> bool
        ensures fails { result ≡ fails_next self.old }
        ensures counts { self.new ≡ after_call self.old }
        ensures rose { OnTrue result (Rose self.old.faults self.new.faults) }
        ensures later { self.old.faults ≤ self.new.faults }
    {
        self.calls = self.calls.saturating_add(1);
        let calls = self.calls;
        if self.numbers.contains(&calls) {
            self.faults = self.faults.saturating_add(1);
            true
        } else {
            false
        }
    }
}
