//! A reserved range, and searches among such ranges.
ghost use Rattle.std.specs.Prelude.{◌≡◌, ◌+◌, ◌<◌, ◌≤◌, nat_le, length, All, IfNone, IfSome};
ghost use Rattle.std.specs.List.{AllWithin, HoldsAt};
ghost use Rattle.range_book.specs.Book.{AreApart, HasName};

/// A range of `count` numbers from `first` on, which request `number` of `caller` has reserved.
#[derive(Clone, Copy, Debug, PartialEq, Eq)]
pub struct Reserved {
    pub caller: u64,
    pub number: u64,
    pub first: u64,
    pub count: u64,
}

// Whether a range ends at `place` or before.
fn ends_by(range: &Reserved, place: u64) -> bool
    ensures { result ≡ nat_le (range.now.first + range.now.count) place }
{
    range.count <= place && range.first <= place - range.count
}

// How many ranges end at `place` or before: these come first.
pub(crate) fn over_by(ranges: &[Reserved], place: u64) -> usize
    requires { AreApart ranges.now }
    ensures bound { result ≤ length ranges.now }
    ensures over { AllWithin (λ r. r.first + r.count ≤ place) ranges.now 0 result }
    ensures going_on { AllWithin (λ r. place < r.first + r.count) ranges.now result (length ranges.now) }
{
    ranges.partition_point(|range| ends_by(range, place))
}

// The place of the range with this name.
pub(crate) fn place_of(ranges: &[Reserved], caller: u64, number: u64) -> Option<usize>
    ensures none { IfNone result (All (λ r. ¬ HasName caller number r) ranges.now) }
    ensures bound { IfSome result (λ at. at < length ranges.now) }
    ensures found { IfSome result (HoldsAt (HasName caller number) ranges.now) }
{
    for (i, range) in ranges.iter().enumerate() {
        if range.caller == caller && range.number == number {
            return Some(i);
        }
    }
    None
}
