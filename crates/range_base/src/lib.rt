//! Ranges of whole numbers, and whether two of them overlap.
//!
//! A range is given by its first number and its count, in whatever unit the caller counts: data
//! units of a container or sectors of a volume. A range of count 0 has no numbers and overlaps
//! nothing. The numbers of a range may pass 2^64: no call here wraps or refuses. No call takes memory.
#![tactic(auto)]

ghost use Rattle.std.specs.Prelude.{◌↔◌, ◌+◌, ◌<◌, ℕ, IsTrue, max, min};
ghost use Rattle.range_base.specs.Range.{Overlap};

/// Whether `count` numbers from `first` on and `others` numbers from `other` on have a number in
/// common.
pub fn overlaps(first: u64, count: u64, other: u64, others: u64) -> bool
    ensures { IsTrue result ↔ Overlap first count other others }
{
    if first <= other {
        others > 0 && other - first < count
    } else {
        count > 0 && first - other < others
    }
}

/// Two ranges overlap if and only if the later of their starts is below the earlier of their ends.
pub fn overlap_is_by_ends()
    ensures { (first count other others : ℕ) → Overlap first count other others
        ↔ (max first other < min (first + count) (other + others)) }
{}

#[cfg(test)]
mod tests {
    use super::*;

    #[test]
    fn ranges_overlap_at_their_limits(rt: HostRuntime) {
        // by hand
        let rows = [
            ("just before", 8, 2, 10, 5, false),
            ("the first number", 8, 3, 10, 5, true),
            ("the last number", 14, 1, 10, 5, true),
            ("just after", 15, 1, 10, 5, false),
            ("inside", 11, 1, 10, 5, true),
            ("around", 0, 100, 10, 5, true),
            ("nothing inside", 12, 0, 10, 5, false),
            ("around nothing", 0, 100, 10, 0, false),
            (
                "past 2^64 on both sides",
                u64::MAX,
                u64::MAX,
                u64::MAX,
                1,
                true,
            ),
            ("past 2^64 from below", 1, u64::MAX, u64::MAX, 1, true),
            ("the last number but one", 0, u64::MAX, u64::MAX, 1, false),
        ];
        for (name, first, count, other, others, want) in rows {
            assert_eq!(rt; overlaps(first, count, other, others), want, "{name}");
            assert_eq!(rt;
                overlaps(other, others, first, count),
                want,
                "{name}, turned"
            );
        }
    }
}
