//! What takes the output.
ghost use Rattle.std.specs.Prelude.{◌≡◌, ◌≤◌, ◌<◌, ℕ, List, [], Option, Some, length, take, IfOk, OnErr, IsErrOf};
ghost use Rattle.vc_base.specs.Faults.{HasCause, Rose};
ghost use Rattle.vc_outside.specs.Told.{Grows};

use std::alloc::Global;
use std::marker::Model;

/// Why output wasn't taken.
#[derive(Clone, Copy, Debug, PartialEq, Eq)]
pub enum OutError {
    /// The call failed, and the count of faults rose.
    Failed,
    /// Out of memory. The count of faults is as before.
    NoMemory,
}

/// What takes output, piece by piece.
pub trait Sink {
    // What it holds, if its contents are known.
    ghost contents: { Self → Option (List ℕ) };

    // The count of failed calls.
    ghost faults: { Self → ℕ };

    /// The count of failed calls, which never falls and stays at its last value once that is reached.
    fn faults(&self) -> u64
        ensures { result ≡ faults self.now };

    /// Takes a prefix of the piece and returns its length. To take nothing of a piece that isn't empty
    /// counts as a fault.
    fn write(&mut self, piece: &[u8]) -> Result<usize, OutError>
        ensures within { IfOk result (λ n. n ≤ length piece.now) }
        ensures taken { IfOk result (λ n. Grows (contents self.old) (contents self.new) (take n piece.now)) }
        ensures stuck { IfOk result (λ n. n ≡ 0 → 0 < length piece.now → Rose (faults self.old) (faults self.new)) }
        ensures refused { OnErr result (contents self.new ≡ contents self.old) }
        ensures cause { HasCause (faults self.old) (faults self.new) (IsErrOf result OutError.Failed) }
        ensures out_of_memory { IsErrOf result OutError.NoMemory → faults self.new ≡ faults self.old };
}

/// A sink over memory that never fails. Contracts see it as the list of the bytes that it holds.
#[derive(Drop)]
pub struct SureSink {
    bytes: Vec<u8>,
}

impl Model for SureSink {
    ghost Value = { List ℕ };

    ghost view = { λ s. s.bytes.items };
}

impl SureSink {
    /// A sink that holds nothing.
    pub fn new(alloc: Global) -> SureSink
        ensures { result ≡ [] }
    {
        SureSink {
            bytes: Vec::new(alloc),
        }
    }

    /// What it holds.
    pub fn bytes(&self) -> &[u8]
        ensures { result.now ≡ self.now }
    {
        self.bytes.as_slice()
    }
}

impl Sink for SureSink {
    ghost contents = { λ s. Some s };

    ghost faults = { λ _. 0 };

    fn faults(&self) -> u64 {
        0
    }

    fn write(&mut self, piece: &[u8]) -> Result<usize, OutError> {
        match self.bytes.extend_from_slice(piece) {
            Ok(()) => Ok(piece.len()),
            Err(_) => Err(OutError::NoMemory),
        }
    }
}

#[cfg(test)]
mod tests {
    use super::*;

    // That there is memory, which no clause says.
    #[test]
    fn a_piece_is_taken_whole(rt: HostRuntime) {
        let mut sink = SureSink::new(rt.alloc());
        assert_eq!(rt; sink.write(&[1, 2, 3]), Ok(3));
        assert_eq!(rt; sink.bytes(), [1, 2, 3].as_slice());
    }
}
