//! Points that work passes.
use std::hint;
use std::sync::atomic::{AtomicBool, AtomicU8, Ordering};

/// What is told when work passes a point. It has no meaning in contracts: a caller's contract holds for
/// every gate. Tests use one to hold work at a point until other work has passed its own.
pub trait Gate: Sync {
    /// The work passes this point.
    fn pass(&self, point: u32);
}

/// The gate of a real run, which does nothing.
#[derive(Clone, Copy, Debug, Drop)]
pub struct NoGate;

impl Gate for NoGate {
    fn pass(&self, point: u32) {
        let _ = point;
    }
}

// What came of the passes at the point where a `HoldGate` holds work, the worst of them.
const NOT_REACHED: u8 = 0;

const RELEASED: u8 = 1;

const USED_UP: u8 = 2;

/// A gate for tests. It holds work at one point until other work has passed another one, or until it has
/// looked for that so many times.
#[derive(Drop)]
pub struct HoldGate {
    hold: u32,
    until: u32,
    turns: u64,
    passed: AtomicBool,
    outcome: AtomicU8,
}

impl HoldGate {
    /// A gate that holds each pass at `hold` until `until` was passed, for at most `turns` looks.
    pub fn new(hold: u32, until: u32, turns: u64) -> HoldGate {
        HoldGate {
            hold,
            until,
            turns,
            passed: AtomicBool::new(false),
            outcome: AtomicU8::new(NOT_REACHED),
        }
    }

    /// False if `hold` was passed, and each pass at it saw that `until` was passed.
    pub fn gave_up(&self) -> bool {
        self.outcome.load(Ordering::SeqCst) != RELEASED
    }

    // Looks until the other point was passed, at most `turns` times. Returns whether it was.
    fn waits(&self) -> bool {
        for _ in 0..self.turns {
            if self.passed.load(Ordering::SeqCst) {
                return true;
            }
            hint::spin_loop();
        }
        false
    }
}

impl Gate for HoldGate {
    fn pass(&self, point: u32) {
        if point == self.until {
            self.passed.store(true, Ordering::SeqCst);
        }
        if point == self.hold {
            let outcome = if self.waits() { RELEASED } else { USED_UP };
            self.outcome.fetch_max(outcome, Ordering::SeqCst);
        }
    }
}

#[cfg(test)]
mod tests {
    use super::*;
    use std::thread;

    // Each row's passes are one after the other, so the work at the held point waits for nothing that is
    // still to come.
    #[test]
    fn a_gate_gives_up_unless_each_held_pass_was_released(rt: HostRuntime) {
        let cases = [
            ("no pass", [0, 0, 0].as_slice(), true),
            ("the held point alone", [1, 0, 0].as_slice(), true),
            ("the other point alone", [2, 0, 0].as_slice(), true),
            ("the other point first", [2, 1, 0].as_slice(), false),
            ("the held point first", [1, 2, 0].as_slice(), true),
            ("held again after it gave up", [1, 2, 1].as_slice(), true),
            ("held twice", [2, 1, 1].as_slice(), false),
        ];
        for (case, points, gave_up) in cases {
            let gate = HoldGate::new(1, 2, 10);
            for point in points {
                gate.pass(*point);
            }
            assert_eq!(rt; gate.gave_up(), gave_up, "{case}");
        }
    }

    // One thread is held until the other has passed its point.
    #[test]
    fn a_held_thread_goes_on_when_another_passes(rt: HostRuntime) {
        let gate = HoldGate::new(1, 2, 1_000_000_000);
        thread::join(&rt, || gate.pass(1), || gate.pass(2));
        assert!(rt; !gate.gave_up());
    }
}
