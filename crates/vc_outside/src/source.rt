//! Where input comes from.
ghost use Rattle.std.specs.Prelude.{◌≡◌, ◌≤◌, ◌<◌, ℕ, List, [], Option, Some, length, take, drop, min, IfOk, IfSome, OnErr, IsErr};
ghost use Rattle.vc_base.specs.Faults.{HasCause, Rose};
ghost use Rattle.vc_outside.specs.Told.{Shrinks};

use crate::store::Failed;
use std::marker::Model;

/// What gives input, piece by piece. Contracts know each source's count of faults, and what is left of
/// those sources that model it: one over memory does, a file doesn't.
pub trait Source {
    // The bytes that it has still to give, if they are known.
    ghost left: { Self → Option (List ℕ) };

    // The count of failed calls.
    ghost faults: { Self → ℕ };

    /// The count of failed calls, which never falls and stays at its last value once that is reached.
    fn faults(&self) -> u64
        ensures { result ≡ faults self.now };

    /// Puts the next bytes at the start of `buf` and returns how many. It may be fewer than `buf` has
    /// room for, but 0 for a buffer that isn't empty is the end of the input. If it fails, `buf` holds
    /// any bytes.
    fn read(&mut self, buf: &mut [u8]) -> Result<usize, Failed>
        ensures within { IfOk result (λ n. n ≤ length buf.old) }
        ensures given { IfOk result (λ n. Shrinks (left self.old) (left self.new) (take n buf.new)) }
        ensures end { IfOk result (λ n. n ≡ 0 → 0 < length buf.old → IfSome (left self.old) (λ xs. xs ≡ [])) }
        ensures failed { OnErr result (left self.new ≡ left self.old) }
        ensures cause { HasCause (faults self.old) (faults self.new) (IsErr result) };
}

/// What one client sends, and what takes the replies to it.
#[derive(Drop)]
pub struct Client<I, O> {
    pub source: I,
    pub sink: O,
}

/// A source over memory that never fails, and always gives all that there is room for. Contracts see it
/// as the list of the bytes that are left.
#[derive(Drop)]
pub struct SureSource {
    bytes: Vec<u8>,
    at: usize,
}

impl Model for SureSource {
    ghost Value = { List ℕ };

    ghost view = { λ s. drop s.at s.bytes.items };

    ghost invariant = { λ s. s.at ≤ length s.bytes.items };
}

impl SureSource {
    /// A source that gives these bytes.
    pub fn new(bytes: Vec<u8>) -> SureSource
        ensures { result ≡ bytes.items }
    {
        SureSource { bytes, at: 0 }
    }
}

impl Source for SureSource {
    ghost left = { λ s. Some s };

    ghost faults = { λ _. 0 };

    fn faults(&self) -> u64 {
        0
    }

    fn read(&mut self, buf: &mut [u8]) -> Result<usize, Failed>
        ensures within { IfOk result (λ n. n ≤ length buf.old) }
        ensures given { IfOk result (λ n. Shrinks (Some self.old) (Some self.new) (take n buf.new)) }
        ensures end { IfOk result (λ n. n ≡ 0 → 0 < length buf.old → self.old ≡ []) }
        ensures failed { OnErr result (Some self.new ≡ Some self.old) }
        ensures cause { HasCause 0 0 (IsErr result) }
        ensures most { IfOk result (λ n. n ≡ min (length buf.old) (length self.old)) }
    {
        let n = give(&self.bytes[self.at..], buf.len(), buf);
        self.at += n;
        Ok(n)
    }
}

// Puts the first bytes at the start of `buf`, as many as there are and as it has room for, but at most
// `most`, and returns how many.
pub(crate) fn give(bytes: &[u8], most: usize, buf: &mut [u8]) -> usize
    ensures count { result ≡ min (min (length buf.old) most) (length bytes.now) }
    ensures given { take result buf.new ≡ take result bytes.now }
{
    let n = buf.len().min(most).min(bytes.len());
    buf[..n].copy_from_slice(&bytes[..n]);
    n
}
