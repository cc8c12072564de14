//! A buffer that is handed out part by part.
ghost use Rattle.std.specs.Prelude.{◌≡◌, ◌+◌, ◌/◌, ◌%◌, ◌^◌, ◌<◌, ◌≤◌, length};

use std::cmp::min;
use std::mem::take;

/// A part of a buffer: its index, counted from 0, the number of its first data unit, and its bytes.
/// What is written to the bytes is in the buffer, at their place, once the loan has ended.
#[derive(Drop)]
pub struct Part<'a> {
    pub index: u64,
    pub unit: u64,
    pub bytes: &'a mut [u8],
}

/// What is left of a buffer, cut every `piece` bytes.
#[derive(Drop)]
pub struct Parts<'a> {
    rest: &'a mut [u8],
    unit: u64,
    index: u64,
    piece: usize,
    ghost some: { 0 < piece },
    ghost units: { piece % 512 ≡ 0 },
    ghost whole: { length rest.now % 512 ≡ 0 },
    ghost within: { unit + length rest.now / 512 ≤ 2 ^ 55 },
    ghost counted: { index + length rest.now < 2 ^ 64 },
}

impl<'a> Parts<'a> {
    ghost use Rattle.std.specs.Prelude.{◌≡◌, ◌+◌, ◌/◌, ◌%◌, ◌^◌, ◌<◌, ◌≤◌, ◌↔◌, length, take, drop, IsNone, IfNone, IfSome};
    ghost use Rattle.sector_view.specs.Parts.{next_index, next_unit, piece_of, rest_of};

    /// The parts of `buffer`, whose first data unit has the number `unit`. Each has `piece` bytes, the
    /// last perhaps fewer.
    pub fn new(buffer: &'a mut [u8], unit: u64, piece: usize) -> Parts<'a>
        requires whole { length buffer.old % 512 ≡ 0 }
        requires some { 0 < piece }
        requires units { piece % 512 ≡ 0 }
        requires within { unit + length buffer.old / 512 ≤ 2 ^ 55 }
        ensures buffer { (rest_of result).now ≡ buffer.old }
        ensures same_buffer { (rest_of result).ghost_name ≡ buffer.entry.ghost_name }
        ensures index { next_index result ≡ 0 }
        ensures unit { next_unit result ≡ unit }
        ensures piece { piece_of result ≡ piece }
    {
        Parts {
            rest: buffer,
            unit,
            index: 0,
            piece,
        }
    }

    /// The next part, or None if all were handed out.
    pub fn next(&mut self) -> Option<Part<'a>>
        ensures none { IsNone result ↔ (length (rest_of self.old).now ≡ 0) }
        ensures part { IfSome result (λ part. part.bytes.now
            ≡ take (piece_of self.old) (rest_of self.old).now) }
        ensures index { IfSome result (λ part. part.index ≡ next_index self.old) }
        ensures unit { IfSome result (λ part. part.unit ≡ next_unit self.old) }
        ensures rest { (rest_of self.new).now ≡ drop (piece_of self.old) (rest_of self.old).now }
        ensures next_index { IfSome result (λ _. next_index self.new ≡ next_index self.old + 1) }
        ensures next_unit { IfSome result (λ part. next_unit self.new
            ≡ next_unit self.old + length part.bytes.now / 512) }
        ensures piece { piece_of self.new ≡ piece_of self.old }

        // The last answer changes nothing: the loan of what is left stays this one.
        ensures kept { IfNone result (self.new ≡ self.old) }
    {
        let len = self.rest.len();
        if len == 0 {
            return None;
        }
        let size = min(self.piece, len);
        let (bytes, rest) = take(&mut self.rest).split_at_mut(size);
        let part = Part {
            index: self.index,
            unit: self.unit,
            bytes,
        };
        self.rest = rest;
        self.unit += (size / 512) as u64;
        self.index += 1;
        Some(part)
    }
}

#[cfg(test)]
mod tests {
    use super::*;

    // by hand: five units, cut every two, of which the first has the number 9
    #[test]
    fn what_is_written_through_a_part_is_at_its_place(rt: HostRuntime) {
        let mut buffer = [0; 2560];
        let mut parts = Parts::new(&mut buffer, 9, 1024);
        let rows = [(0, 9u8, 1024), (1, 11, 1024), (2, 13, 512)];
        for (index, unit, len) in rows {
            let next = parts.next().expect(&rt, "a part");
            let Part {
                index: place,
                unit: number,
                bytes,
            } = next;
            assert_eq!(rt; (place, number, bytes.len()), (index, u64::from(unit), len));
            bytes.fill(1 + unit);
        }
        assert!(rt; parts.next().is_none());
        for (i, byte) in buffer.iter().enumerate() {
            let want = if i < 1024 {
                10
            } else if i < 2048 {
                12
            } else {
                14
            };
            assert_eq!(rt; *byte, want, "byte {i}");
        }
    }

    // The loans of two parts don't touch each other.
    #[test]
    fn parts_live_side_by_side(rt: HostRuntime) {
        let mut buffer = [0; 1024];
        let mut parts = Parts::new(&mut buffer, 0, 512);
        let first = parts.next().expect(&rt, "a part");
        let second = parts.next().expect(&rt, "a part");
        second.bytes.fill(2);
        first.bytes.fill(1);
        assert_eq!(rt; second.bytes.first().copied(), Some(2));
        assert_eq!(rt;
            (buffer[0], buffer[511], buffer[512], buffer[1023]),
            (1, 1, 2, 2)
        );
    }
}
