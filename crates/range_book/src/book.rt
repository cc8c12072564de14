//! The book.
use crate::reserved::{Reserved, over_by, place_of};
use range_base::overlaps;
use std::alloc::Global;
use std::marker::Model;

/// Memory ran out.
#[derive(Clone, Copy, Debug, PartialEq, Eq)]
pub struct NoMemory;

/// Contracts see the ranges in the order of their first numbers, and how many more there is room for.
#[derive(Debug, Drop)]
pub struct Book {
    ranges: Vec<Reserved>,
    capacity: u32,
}

impl Model for Book {
    ghost use Rattle.std.specs.Prelude.{◌-◌, ◌≤◌, vec_len, vec_capacity};
    ghost use Rattle.range_book.specs.Book.{AreApart, Book};

    ghost Value = { Book };

    ghost view = { λ b. record { ranges = b.ranges.items; spare = b.capacity - vec_len b.ranges } };

    ghost invariant = { λ b. AreApart b.ranges.items × (vec_len b.ranges ≤ b.capacity)
        × (b.capacity ≤ vec_capacity b.ranges) };
}

impl Book {
    ghost use Rattle.std.specs.Prelude.{◌≡◌, ◌+◌, ◌≤◌, ◌^◌, ◌↔◌, [], All, Any, IfOk, IfSome, IsNone};
    ghost use Rattle.range_book.specs.declared.reserved.Reserved.{Reserved};
    ghost use Rattle.range_book.specs.Book.{AreApart, HasName, IsAdded, IsFirstToMeet, Meets};

    /// An empty book with room for `capacity` ranges.
    pub fn new(alloc: Global, capacity: u32) -> Result<Book, NoMemory>
        ensures { IfOk result (λ b. b ≡ record { ranges = []; spare = capacity }) }
    {
        match Vec::with_capacity(alloc, capacity as usize) {
            Ok(ranges) => Ok(Book { ranges, capacity }),
            Err(_) => Err(NoMemory),
        }
    }

    /// How many more ranges there is room for.
    pub fn spare(&self) -> u32
        ensures { result ≡ self.now.spare }
    {
        self.capacity - self.ranges.len() as u32
    }

    /// The name, as caller and number, of the lowest range that has a number in common with `count`
    /// numbers from `first` on. None if there is no such range.
    pub fn meets(&self, first: u64, count: u64) -> Option<(u64, u64)>
        ensures none { IsNone result ↔ All (λ r. ¬ Meets first count r) self.now.ranges }
        ensures lowest { IfSome result (λ name. (r : Reserved)
            × IsFirstToMeet first count self.now.ranges r × HasName name.0 name.1 r) }
    {
        let at = over_by(&self.ranges, first);
        if at == self.ranges.len() {
            return None;
        }
        let range = self.ranges[at];
        if overlaps(first, count, range.first, range.count) {
            Some((range.caller, range.number))
        } else {
            None
        }
    }

    /// Reserves `count` numbers from `first` on for request `number` of `caller`. `meets` tests
    /// whether the range is free, and `spare` whether there is room.
    pub fn reserve(&mut self, caller: u64, number: u64, first: u64, count: u64)
        requires room { 1 ≤ self.old.spare }
        requires free { All (λ r. ¬ Meets first count r) self.old.ranges }
        requires some { 1 ≤ count }
        requires within { first + count ≤ 2 ^ 55 }
        requires fresh { All (λ r. ¬ HasName caller number r) self.old.ranges }
        ensures added { IsAdded (record { caller = caller; number = number; first = first; count = count })
            self.old.ranges self.new.ranges }
        ensures apart { AreApart self.new.ranges }
        ensures spare { self.new.spare + 1 ≡ self.old.spare }
    {
        let range = Reserved {
            caller,
            number,
            first,
            count,
        };
        let at = over_by(&self.ranges, first);
        let Ok(()) = self.ranges.insert(at, range) else {
            unreachable!()
        };
    }

    /// Releases the range of request `number` of `caller`.
    pub fn release(&mut self, caller: u64, number: u64)
        requires reserved { Any (HasName caller number) self.old.ranges }
        ensures removed { (r : Reserved) × HasName caller number r
            × IsAdded r self.new.ranges self.old.ranges }
        ensures apart { AreApart self.new.ranges }
        ensures spare { self.new.spare ≡ self.old.spare + 1 }
    {
        let Some(at) = place_of(&self.ranges, caller, number) else {
            unreachable!()
        };
        self.ranges.remove(at);
    }
}

#[cfg(test)]
mod tests {
    use super::*;
    use std::test::Fail;

    #[test]
    fn meets_names_the_lowest_range(rt: HostRuntime) -> Result<(), Fail> {
        // by hand: (caller, number) reserves [first, first + count)
        let mut book = Book::new(rt.alloc(), 4).map_err(|_| "no memory")?;
        assert_eq!(rt; book.spare(), 4);
        assert_eq!(rt; book.meets(0, u64::MAX), None);
        book.reserve(7, 1, 100, 10);
        assert_eq!(rt; book.meets(110, 5), None);
        book.reserve(3, 1, 110, 5);
        assert_eq!(rt; book.meets(20, 10), None);
        book.reserve(7, 2, 20, 10);
        assert_eq!(rt; book.spare(), 1);
        let rows = [
            ("below all", 0, 20, None),
            ("the first number of the lowest", 0, 21, Some((7, 2))),
            ("between", 30, 70, None),
            ("over two", 29, 80, Some((7, 2))),
            ("the last number", 109, 1, Some((7, 1))),
            ("a neighbour", 110, 1, Some((3, 1))),
            ("above all", 115, u64::MAX, None),
            ("nothing", 105, 0, None),
            ("past 2^64", 112, u64::MAX, Some((3, 1))),
        ];
        for (name, first, count, want) in rows {
            assert_eq!(rt; book.meets(first, count), want, "{name}");
        }
        Ok(())
    }

    #[test]
    fn a_released_range_is_free(rt: HostRuntime) -> Result<(), Fail> {
        let mut book = Book::new(rt.alloc(), 1).map_err(|_| "no memory")?;
        book.reserve(7, 1, 100, 10);
        assert_eq!(rt; book.spare(), 0);
        book.release(7, 1);
        assert_eq!(rt; book.spare(), 1);
        assert_eq!(rt; book.meets(0, u64::MAX), None);
        book.reserve(7, 1, 105, 1);
        assert_eq!(rt; book.meets(104, 2), Some((7, 1)));
        Ok(())
    }
}
