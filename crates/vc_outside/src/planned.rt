//! Planned faults: which calls of an object fail.
ghost use Rattle.std.specs.Prelude.{◌≡◌, ◌≤◌};
ghost use Rattle.vc_outside.specs.Planned.{counted, goes, is_listed, plan_of};

use crate::store::Failed;

// Whether the call of this number is one that fails.
pub(crate) fn fails_at(number: u64, fails: &[u64]) -> bool
    ensures { result ≡ is_listed number fails.now }
{
    fails.contains(&number)
}

// What is planned for a call: it succeeds, it fails, the object stops at it, or has stopped before.
#[derive(Clone, Copy)]
pub(crate) enum CallPlan {
    Goes,
    Fails,
    Stops,
    Stopped,
}

// The number of the next call, which calls fail, and the count of those that did.
#[derive(Drop)]
pub(crate) struct Plan {
    pub(crate) next: u64,
    pub(crate) fails: Vec<u64>,
    pub(crate) stop: Option<u64>,
    pub(crate) faults: u64,
}

impl Plan {
    pub(crate) fn new(fails: Vec<u64>, stop: Option<u64>) -> Plan
        ensures { result ≡ record { next = 0; fails = fails; stop = stop; faults = 0 } }
    {
        Plan {
            next: 0,
            fails,
            stop,
            faults: 0,
        }
    }

    // Numbers a call, and returns what is planned for it.
    pub(crate) fn next_call(&mut self) -> CallPlan
        ensures planned { result ≡ plan_of self.old.next self.old.fails.items self.old.stop }
        ensures next { self.new ≡ record self.old { next = counted self.old.next } }
    {
        let number = self.next;
        self.next = number.saturating_add(1);
        match self.stop {
            Some(stop) if number == stop => CallPlan::Stops,
            Some(stop) if number > stop => CallPlan::Stopped,
            _ if fails_at(number, &self.fails) => CallPlan::Fails,
            _ => CallPlan::Goes,
        }
    }

    // Counts a failed call.
    pub(crate) fn fault(&mut self) -> Failed
        ensures counted { self.new ≡ record self.old { faults = counted self.old.faults } }
        ensures later { self.old.faults ≤ self.new.faults }
    {
        self.faults = self.faults.saturating_add(1);
        Failed
    }

    // The same for a call that succeeds or else does nothing.
    pub(crate) fn goes(&mut self) -> bool
        ensures goes { result ≡ goes (plan_of self.old.next self.old.fails.items self.old.stop) }
        ensures next { self.new ≡ record self.old { next = counted self.old.next } }
    {
        match self.next_call() {
            CallPlan::Goes => true,
            CallPlan::Fails => false,
            CallPlan::Stops => false,
            CallPlan::Stopped => false,
        }
    }
}
