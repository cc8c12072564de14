//! Plans, their fragments, and that these tile the request.
ghost use Rattle.std.specs.Prelude.{◌≡◌, ◌+◌, ◌<◌, ◌≤◌, ◌^◌, ℕ};
ghost use Rattle.range_base.specs.Range.{IsInRange};
ghost use Rattle.frag_plan.specs.Request.{Request};
ghost use Rattle.frag_plan.specs.Fragments.{fragment, fragment_count, IsInFragment};

use std::cmp::min;
use std::marker::Model;

// How many units a fragment has, but for the last one.
const FRAGMENT: u64 = 512;

/// A fragment: `count` units from `first` on. It has 1 to 512 of them.
#[derive(Clone, Copy, Debug, PartialEq, Eq)]
pub struct Frag {
    pub first: u64,
    pub count: u64,
}

/// The fragments of a request of 1 to 65,536 units, which are 1 to 128. Contracts see the request.
#[derive(Clone, Copy, Debug)]
pub struct Plan {
    first: u64,
    count: u64,
}

impl Model for Plan {
    ghost use Rattle.std.specs.Prelude.{◌+◌, ◌≤◌, ◌^◌};
    ghost use Rattle.frag_plan.specs.Request.{Request};

    ghost Value = { Request };

    ghost view = { λ p. record { first = p.first; count = p.count } };

    ghost invariant = { λ p. p.first + p.count ≤ 2 ^ 55 };

    ghost inverse = { λ r. record { first = r.first; count = r.count } };
}

/// The plan of a request for `count` units from `first` on.
pub fn plan_of(first: u64, count: u64) -> Plan
    requires some { 1 ≤ count }
    requires few { count ≤ 65536 }
    requires within { first + count ≤ 2 ^ 55 }
    ensures { result ≡ record { first = first; count = count } }
{
    Plan { first, count }
}

impl Plan {
    /// How many fragments there are.
    pub fn len(&self) -> u64
        ensures { result ≡ fragment_count self.now }
    {
        (self.count + FRAGMENT - 1) / FRAGMENT
    }

    /// Fragment `k`, counted from 0.
    pub fn get(&self, k: u64) -> Frag
        requires { k < fragment_count self.now }
        ensures { result ≡ fragment self.now k }
    {
        let Plan { first, count } = *self;
        let before = FRAGMENT * k;
        Frag {
            first: first + before,
            count: min(FRAGMENT, count - before),
        }
    }
}

/// The fragments of any request tile it: no unit outside of it is in one, each unit of it is in one,
/// and in no other. Each begins where the one before it ends, and none is empty or has more than 512
/// units.
pub fn fragments_tile()
    ensures inside { (request : Request) (k u : ℕ) → IsInFragment (fragment request k) u
        → IsInRange request.first request.count u }
    ensures covered { (request : Request) (u : ℕ) → IsInRange request.first request.count u
        → (k : ℕ) × (k < fragment_count request) × IsInFragment (fragment request k) u }
    ensures once { (request : Request) (j k u : ℕ) → IsInFragment (fragment request j) u
        → IsInFragment (fragment request k) u → j ≡ k }
    ensures in_order { (request : Request) (k : ℕ) → k + 1 < fragment_count request
        → (fragment request (k + 1)).first
        ≡ (fragment request k).first + (fragment request k).count }
    ensures some { (request : Request) (k : ℕ) → k < fragment_count request
        → 0 < (fragment request k).count }
    ensures small { (request : Request) (k : ℕ) → (fragment request k).count ≤ 512 }
{}

#[cfg(test)]
mod tests {
    use super::*;

    #[test]
    fn a_request_is_cut_every_512_units(rt: HostRuntime) {
        // by hand: first, count, how many fragments, and the last of them
        let top = 1 << 55;
        let rows = [
            ("one unit", 0, 1, 1, 0, 1),
            ("one less than a fragment", 7, 511, 1, 7, 511),
            ("one fragment", 7, 512, 1, 7, 512),
            ("one more", 7, 513, 2, 519, 1),
            ("the largest", 3, 65_536, 128, 65_027, 512),
            ("one less than the largest", 3, 65_535, 128, 65_027, 511),
            ("the last unit", top - 1, 1, 1, top - 1, 1),
            (
                "the largest at the end",
                top - 65_536,
                65_536,
                128,
                top - 512,
                512,
            ),
        ];
        for (name, first, count, len, last, units) in rows {
            let plan = plan_of(first, count);
            assert_eq!(rt; plan.len(), len, "{name}");
            let frag = plan.get(len - 1);
            assert_eq!(rt;
                frag,
                Frag {
                    first: last,
                    count: units
                },
                "{name}"
            );
        }
    }
}
