//! The guard and its verdicts.
ghost use Rattle.std.specs.Prelude.{◌↔◌, IsTrue};
ghost use Rattle.hidden_guard.specs.Protection.{Touches};

use range_base::overlaps;
use std::marker::Model;

/// What a guard says of a write.
#[derive(Clone, Copy, Debug, PartialEq, Eq)]
pub enum Verdict {
    /// The guard isn't frozen, and the write changes no protected unit.
    Pass,
    /// The write would change a protected unit, and is the first such write. The guard is now frozen.
    Denied,
    /// The guard was frozen before, by an earlier write.
    Frozen,
}

/// Contracts see its range and whether it is frozen.
#[derive(Debug, Drop)]
pub struct Guard {
    range: Option<(u64, u64)>,
    frozen: bool,
}

impl Model for Guard {
    ghost use Rattle.hidden_guard.specs.Protection.{Protection};

    ghost Value = { Protection };

    ghost view = { λ g. record { range = g.range; frozen = g.frozen } };
}

impl Guard {
    ghost use Rattle.std.specs.Prelude.{◌≡◌, ◌≢◌, ◌↔◌, true, false};
    ghost use Rattle.hidden_guard.specs.Protection.{Touches};

    /// A guard that protects a range, given as its first unit and its count, or nothing. A range may
    /// be empty, and may pass 2^64: units that no container has are protected in vain.
    pub fn new(range: Option<(u64, u64)>) -> Guard
        ensures range { result.range ≡ range }
        ensures open { result.frozen ≡ false }
    {
        Guard {
            range,
            frozen: false,
        }
    }

    /// Whether a write was denied.
    pub fn frozen(&self) -> bool
        ensures { result ≡ self.now.frozen }
    {
        self.frozen
    }

    /// Judges a write of `count` units from `unit` on. A write of no units touches nothing.
    pub fn judge(&mut self, unit: u64, count: u64) -> Verdict
        ensures frozen { (result ≡ Verdict.Frozen) ↔ (self.old.frozen ≡ true) }
        ensures denied { (result ≡ Verdict.Denied)
            ↔ ((self.old.frozen ≡ false) × Touches self.old.range unit count) }
        ensures passed { result ≡ Verdict.Pass
            → (self.old.frozen ≡ false) × ¬ Touches self.old.range unit count }

        // Whatever it says, the range stays, and each verdict but Pass leaves the guard frozen.
        ensures range { self.new.range ≡ self.old.range }
        ensures freezes { (self.new.frozen ≡ false) ↔ (result ≡ Verdict.Pass) }
    {
        if self.frozen {
            return Verdict::Frozen;
        }
        if touches(self.range, unit, count) {
            self.frozen = true;
            return Verdict::Denied;
        }
        Verdict::Pass
    }
}

// Whether one of `count` units from `unit` on is protected.
fn touches(range: Option<(u64, u64)>, unit: u64, count: u64) -> bool
    ensures { IsTrue result ↔ Touches range unit count }
{
    match range {
        None => false,
        Some((first, others)) => overlaps(unit, count, first, others),
    }
}

#[cfg(test)]
mod tests {
    use super::*;

    #[test]
    fn the_first_touching_write_is_denied_and_freezes(rt: HostRuntime) {
        // by hand: each row's writes in turn, and what each gets
        let protected = Some((1281, 511));
        let rows = [
            (
                "no range",
                None,
                (0, u64::MAX),
                Verdict::Pass,
                (1281, 1),
                Verdict::Pass,
            ),
            (
                "below",
                protected,
                (0, 1281),
                Verdict::Pass,
                (1281, 1),
                Verdict::Denied,
            ),
            (
                "the first unit",
                protected,
                (0, 1282),
                Verdict::Denied,
                (0, 1),
                Verdict::Frozen,
            ),
            (
                "the last unit",
                protected,
                (1791, 1),
                Verdict::Denied,
                (1791, 1),
                Verdict::Frozen,
            ),
            (
                "above",
                protected,
                (1792, u64::MAX),
                Verdict::Pass,
                (1792, 0),
                Verdict::Pass,
            ),
            (
                "no units",
                protected,
                (1281, 0),
                Verdict::Pass,
                (1280, 1),
                Verdict::Pass,
            ),
            (
                "an empty range",
                Some((1281, 0)),
                (0, 5000),
                Verdict::Pass,
                (1281, 1),
                Verdict::Pass,
            ),
            (
                "past 2^64",
                Some((1 << 63, u64::MAX)),
                (u64::MAX, 1),
                Verdict::Denied,
                (0, 1),
                Verdict::Frozen,
            ),
        ];
        for (name, range, write, want, next, then) in rows {
            let mut guard = Guard::new(range);
            assert!(rt; !guard.frozen(), "{name}");
            assert_eq!(rt; guard.judge(write.0, write.1), want, "{name}");
            assert_eq!(rt; guard.judge(next.0, next.1), then, "{name}, then");
            assert_eq!(rt; guard.frozen(), then != Verdict::Pass, "{name}");
        }
    }
}
