//! A source over memory with planned faults, which gives its bytes in short pieces.
ghost use Rattle.std.specs.Prelude.{◌≡◌, ◌≤◌, ◌<◌, ◌↔◌, [], ℕ, List, Option, Some, length, take, drop, min, IfOk, OnErr, IsErr, IsTrue};
ghost use Rattle.vc_base.specs.Faults.{HasCause};
ghost use Rattle.vc_outside.specs.Input.{Input};
ghost use Rattle.vc_outside.specs.Planned.{counted, counted_if, is_listed};
ghost use Rattle.vc_outside.specs.Told.{Shrinks};

use crate::planned::fails_at;
use crate::source::{Source, give};
use crate::store::Failed;
use std::marker::Model;

/// A source over memory whose calls give at most `cut` bytes and fail as planned. Its calls of `read` are
/// numbered from 0, including those with an empty buffer. Contracts see it as an `Input`.
#[derive(Drop)]
pub struct MemSource {
    bytes: Vec<u8>,
    at: usize,
    cut: usize,
    next: u64,
    fails: Vec<u64>,
    faults: u64,
}

impl Model for MemSource {
    ghost Value = { Input };

    ghost view = { λ s. record { left = drop s.at s.bytes.items; cut = s.cut; next = s.next; fails = s.fails.items; faults = s.faults } };

    ghost invariant = { λ s. (s.at ≤ length s.bytes.items) × (1 ≤ s.cut) };
}

impl MemSource {
    /// A source that gives these bytes, at most `cut` in a call. The calls with the numbers `fails` fail.
    pub fn new(bytes: Vec<u8>, cut: usize, fails: Vec<u64>) -> MemSource
        requires { 1 ≤ cut }
        ensures { result ≡ record { left = bytes.items; cut = cut; next = 0; fails = fails.items; faults = 0 } }
    {
        MemSource {
            bytes,
            at: 0,
            cut,
            next: 0,
            fails,
            faults: 0,
        }
    }
}

impl Source for MemSource {
    ghost left = { λ s. Some s.left };

    ghost faults = { λ s. s.faults };

    fn faults(&self) -> u64 {
        self.faults
    }

    /// Fails if and only if the call's number is listed, and else gives as much as it may.
    fn read(&mut self, buf: &mut [u8]) -> Result<usize, Failed>
        ensures within { IfOk result (λ n. n ≤ length buf.old) }
        ensures given { IfOk result (λ n. Shrinks (Some self.old.left) (Some self.new.left) (take n buf.new)) }
        ensures end { IfOk result (λ n. n ≡ 0 → 0 < length buf.old → self.old.left ≡ []) }
        ensures failed { OnErr result (Some self.new.left ≡ Some self.old.left) }
        ensures cause { HasCause self.old.faults self.new.faults (IsErr result) }
        ensures most { IfOk result (λ n. n ≡ min (min (length buf.old) self.old.cut) (length self.old.left)) }
        ensures listed { IsErr result ↔ IsTrue (is_listed self.old.next self.old.fails) }
        ensures faults { self.new.faults ≡ counted_if (is_listed self.old.next self.old.fails) self.old.faults }
        ensures next { self.new.next ≡ counted self.old.next }
        ensures same_plan { self.new.fails ≡ self.old.fails }
        ensures same_cut { self.new.cut ≡ self.old.cut }
    {
        let number = self.next;
        self.next = number.saturating_add(1);
        if fails_at(number, &self.fails) {
            self.faults = self.faults.saturating_add(1);
            return Err(Failed);
        }
        let n = give(&self.bytes[self.at..], self.cut, buf);
        self.at += n;
        Ok(n)
    }
}

#[cfg(test)]
mod tests {
    use super::*;

    // Calls are numbered with those of empty buffers and those that fail, which lose nothing. By hand.
    #[test]
    fn the_listed_calls_fail_and_lose_nothing(rt: HostRuntime) {
        let (Ok(bytes), Ok(fails)) = (
            Vec::from_slice(rt.alloc(), b"abcdef"),
            Vec::from_slice(rt.alloc(), &[1, 4]),
        ) else {
            return assert!(rt; false, "no memory");
        };
        let mut source = MemSource::new(bytes, 3, fails);
        let mut buf = [b'.'; 4];
        for (room, given, shown) in [
            (2, Ok(2), b"ab..".as_slice()),
            (4, Err(Failed), b"ab..".as_slice()),
            (0, Ok(0), b"ab..".as_slice()),
            (4, Ok(3), b"cde.".as_slice()),
            (4, Err(Failed), b"cde.".as_slice()),
            (4, Ok(1), b"fde.".as_slice()),
            (4, Ok(0), b"fde.".as_slice()),
        ] {
            assert_eq!(rt; source.read(&mut buf[..room]), given);
            assert_eq!(rt; buf.as_slice(), shown);
        }
        assert_eq!(rt; source.faults(), 2);
    }
}
