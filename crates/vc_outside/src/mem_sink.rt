//! A sink over memory with planned faults.
ghost use Rattle.std.specs.Prelude.{◌≡◌, ◌≤◌, ◌<◌, ◌+◌, ◌↔◌, [], ℕ, List, Option, Some, length, take, if◌then◌else◌, is_ok, IfOk, OnOk, OnErr, IsErrOf, IsTrue};
ghost use Rattle.vc_base.specs.Faults.{HasCause, Rose};
ghost use Rattle.vc_outside.specs.Output.{Output};
ghost use Rattle.vc_outside.specs.Planned.{counted, counted_if, is_listed};
ghost use Rattle.vc_outside.specs.Told.{Grows};

use crate::planned::fails_at;
use crate::sink::{OutError, Sink};
use std::alloc::Global;
use std::marker::Model;

/// A sink over memory whose calls fail as planned. Its calls of `write` are numbered from 0, including
/// those of an empty piece. Contracts see it as an `Output`.
#[derive(Drop)]
pub struct MemSink {
    bytes: Vec<u8>,
    next: u64,
    fails: Vec<u64>,
    faults: u64,
}

impl Model for MemSink {
    ghost Value = { Output };

    ghost view = { λ s. record { contents = s.bytes.items; next = s.next; fails = s.fails.items; faults = s.faults } };
}

impl MemSink {
    /// A sink that holds nothing. The calls with the numbers `fails` fail.
    pub fn new(alloc: Global, fails: Vec<u64>) -> MemSink
        ensures { result ≡ record { contents = []; next = 0; fails = fails.items; faults = 0 } }
    {
        MemSink {
            bytes: Vec::new(alloc),
            next: 0,
            fails,
            faults: 0,
        }
    }

    /// What it holds.
    pub fn bytes(&self) -> &[u8]
        ensures { result.now ≡ self.now.contents }
    {
        self.bytes.as_slice()
    }
}

impl Sink for MemSink {
    ghost contents = { λ s. Some s.contents };

    ghost faults = { λ s. s.faults };

    fn faults(&self) -> u64 {
        self.faults
    }

    /// Takes the whole piece, and fails if and only if the call's number is listed.
    fn write(&mut self, piece: &[u8]) -> Result<usize, OutError>
        ensures within { IfOk result (λ n. n ≤ length piece.now) }
        ensures taken { IfOk result (λ n. Grows (Some self.old.contents) (Some self.new.contents) (take n piece.now)) }
        ensures stuck { IfOk result (λ n. n ≡ 0 → 0 < length piece.now → Rose self.old.faults self.new.faults) }
        ensures refused { OnErr result (Some self.new.contents ≡ Some self.old.contents) }
        ensures cause { HasCause self.old.faults self.new.faults (IsErrOf result OutError.Failed) }
        ensures out_of_memory { IsErrOf result OutError.NoMemory → self.new.faults ≡ self.old.faults }
        ensures faults { self.new.faults ≡ counted_if (is_listed self.old.next self.old.fails) self.old.faults }
        ensures whole { IfOk result (λ n. n ≡ length piece.now) }
        ensures failed { IsErrOf result OutError.Failed ↔ IsTrue (is_listed self.old.next self.old.fails) }
        ensures next { self.new.next ≡ counted self.old.next }
        ensures same_plan { self.new.fails ≡ self.old.fails }
    {
        let number = self.next;
        self.next = number.saturating_add(1);
        if fails_at(number, &self.fails) {
            self.faults = self.faults.saturating_add(1);
            return Err(OutError::Failed);
        }
        if self.bytes.extend_from_slice(piece).is_err() {
            return Err(OutError::NoMemory);
        }
        Ok(piece.len())
    }
}

#[cfg(test)]
mod tests {
    use super::*;

    // Calls are numbered with those of empty pieces and those that fail.
    #[test]
    fn the_listed_calls_fail(rt: HostRuntime) {
        let Ok(fails) = Vec::from_slice(rt.alloc(), &[1, 4]) else {
            return assert!(rt; false, "no memory");
        };
        let mut sink = MemSink::new(rt.alloc(), fails);
        for (piece, taken) in [
            (b"ab".as_slice(), Ok(2)),
            (b"cd".as_slice(), Err(OutError::Failed)),
            (b"".as_slice(), Ok(0)),
            (b"ef".as_slice(), Ok(2)),
            (b"".as_slice(), Err(OutError::Failed)),
            (b"g".as_slice(), Ok(1)),
        ] {
            assert_eq!(rt; sink.write(piece), taken);
        }
        assert_eq!(rt; sink.bytes(), b"abefg".as_slice());
        assert_eq!(rt; sink.faults(), 2);
    }
}
