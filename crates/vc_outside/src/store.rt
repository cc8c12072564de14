//! What reads and writes a container.
ghost use Rattle.std.specs.Prelude.{◌≡◌, ◌≤◌, ◌<◌, ◌+◌, ◌^◌, ℕ, List, Option, Some, length, slice_range, IfSome, OnOk, OnErr, IsErr, IsErrOf, Bool, true, false, ⊤, refl};
ghost use Rattle.vc_base.specs.Faults.{HasCause};
ghost use Rattle.std.proofs.lemmas.Bool.{false≢true};
ghost use Rattle.vc_base.specs.Bytes.{IsBytes};
ghost use Rattle.vc_outside.specs.Crash.{IsLasting, MayStay, Outcomes, Relength, Stays};
ghost use Rattle.vc_outside.specs.Told.{Both, resized, SameOutside, written};

use crate::sink::OutError;
use std::marker::Model;

/// A call failed.
#[derive(Clone, Copy, Debug, PartialEq, Eq)]
pub struct Failed;

/// A container's bytes. Contracts know each store's length and count of faults, and the contents of those
/// stores that model them: one over memory does, a file doesn't.
pub trait Store {
    // The bytes, if the store's contents are known.
    ghost image: { Self → Option (List ℕ) };

    // The number of bytes.
    ghost size: { Self → ℕ };

    // The count of failed calls.
    ghost faults: { Self → ℕ };

    // Whether the store models what a crash may leave.
    ghost tells: { Bool };

    // What a crash at this moment may leave.
    ghost may_leave: { Self → List ℕ → Type 0 };

    // The moment, as a number that doesn't fall.
    ghost moment: { Self → ℕ };

    // What a crash at some moment from that one on might have left, during a call or between two.
    ghost left_since: { Self → ℕ → List ℕ → Type 0 };

    /// The length in bytes.
    fn len(&self) -> u64
        ensures len { result ≡ size self.now }
        ensures bytes { IfSome (image self.now) (IsBytes (size self.now)) };

    /// The count of failed calls, which never falls and stays at its last value once that is reached.
    fn faults(&self) -> u64
        ensures { result ≡ faults self.now };

    /// Reads the bytes from the offset `at` on until `out` is full. If it fails, `out` holds any bytes.
    fn read_at(&mut self, at: u64, out: &mut [u8]) -> Result<(), Failed>
        requires { at + length out.old ≤ size self.old }
        ensures read { OnOk result (IfSome (image self.old) (λ b. out.new ≡ slice_range b at (at + length out.old))) }
        ensures image { image self.new ≡ image self.old }
        ensures size { size self.new ≡ size self.old }
        ensures crash { Outcomes tells (moment self.old) (moment self.new) (left_since self.old) (left_since self.new)
            (may_leave self.old) (may_leave self.new) Stays }
        ensures cause { HasCause (faults self.old) (faults self.new) (IsErr result) };

    /// Writes the bytes at the offset `at`. If it fails, its own range holds any bytes.
    fn write_at(&mut self, at: u64, bytes: &[u8]) -> Result<(), Failed>
        requires { at + length bytes.now ≤ size self.old }
        ensures written { OnOk result (Both (image self.old) (image self.new) (λ b c. c ≡ written at bytes.now b)) }
        ensures outside { OnErr result (Both (image self.old) (image self.new) (SameOutside at (length bytes.now))) }
        ensures size { size self.new ≡ size self.old }
        ensures crash { Outcomes tells (moment self.old) (moment self.new) (left_since self.old) (left_since self.new)
            (may_leave self.old) (may_leave self.new) (SameOutside at (length bytes.now)) }
        ensures cause { HasCause (faults self.old) (faults self.new) (IsErr result) }
        ensures bytes { IfSome (image self.new) (IsBytes (size self.new)) };

    /// Cuts the container after `len` bytes, or lengthens it with zeros.
    fn set_len(&mut self, len: u64) -> Result<(), OutError>
        ensures resized { OnOk result (Both (image self.old) (image self.new) (λ b c. c ≡ resized len b)) }
        ensures size { OnOk result (size self.new ≡ len) }
        ensures same_image { OnErr result (image self.new ≡ image self.old) }
        ensures same_size { OnErr result (size self.new ≡ size self.old) }
        ensures crash { Outcomes tells (moment self.old) (moment self.new) (left_since self.old) (left_since self.new)
            (may_leave self.old) (may_leave self.new) (Relength len) }
        ensures cause { HasCause (faults self.old) (faults self.new) (IsErrOf result OutError.Failed) }
        ensures out_of_memory { IsErrOf result OutError.NoMemory → faults self.new ≡ faults self.old };

    /// Makes all writes lasting: from then on a crash leaves what a read gives.
    fn sync(&mut self) -> Result<(), Failed>
        ensures lasting { OnOk result (IsLasting tells (image self.new) (may_leave self.new)) }
        ensures image { image self.new ≡ image self.old }
        ensures size { size self.new ≡ size self.old }
        ensures crash { Outcomes tells (moment self.old) (moment self.new) (left_since self.old) (left_since self.new)
            (may_leave self.old) (may_leave self.new) Stays }
        ensures cause { HasCause (faults self.old) (faults self.new) (IsErr result) };

    // The image has the store's length.
    ghost image_is_whole: { (s : Self) → IfSome (image s) (λ b. length b ≡ size s) };

    // This moment is one of those since an earlier one.
    ghost counts_now: { tells ≡ true → (s : Self) (t : ℕ) (c : List ℕ) → t ≤ moment s → may_leave s c → left_since s t c };

    // No later moment has come yet.
    ghost only_now: { tells ≡ true → (s : Self) (c : List ℕ) → left_since s (moment s) c → may_leave s c };

    // A crash always leaves something, and it may be the image.
    ghost image_may_stay: { (s : Self) → MayStay tells (image s) (may_leave s) };
}

// Each byte is below 256. It does nothing: a caller's proof needs the fact.
pub(crate) fn bytes_are_known(bytes: &[u8])
    ensures { IsBytes (length bytes.now) bytes.now }
{
    let _ = bytes;
}

/// A store over memory that never fails. Contracts see it as the list of its bytes.
#[derive(Drop)]
pub struct SureStore {
    bytes: Vec<u8>,
}

impl Model for SureStore {
    ghost Value = { List ℕ };

    ghost view = { λ s. s.bytes.items };
}

impl SureStore {
    /// A store of these bytes.
    pub fn new(bytes: Vec<u8>) -> SureStore
        ensures { result ≡ bytes.items }
    {
        SureStore { bytes }
    }

    /// All the bytes.
    pub fn bytes(&self) -> &[u8]
        ensures { result.now ≡ self.now }
    {
        self.bytes.as_slice()
    }
}

impl Store for SureStore {
    ghost image = { λ s. Some s };

    ghost size = { λ s. length s };

    ghost faults = { λ _. 0 };

    ghost tells = { false };

    ghost may_leave = { λ _ _. ⊤ };

    ghost moment = { λ _. 0 };

    ghost left_since = { λ _ _ _. ⊤ };

    fn len(&self) -> u64 {
        bytes_are_known(&self.bytes);
        self.bytes.len() as u64
    }

    fn faults(&self) -> u64 {
        0
    }

    fn read_at(&mut self, at: u64, out: &mut [u8]) -> Result<(), Failed> {
        let from = at as usize;
        out.copy_from_slice(&self.bytes[from..from + out.len()]);
        Ok(())
    }

    fn write_at(&mut self, at: u64, bytes: &[u8]) -> Result<(), Failed> {
        let from = at as usize;
        self.bytes[from..from + bytes.len()].copy_from_slice(bytes);
        bytes_are_known(&self.bytes);
        Ok(())
    }

    fn set_len(&mut self, len: u64) -> Result<(), OutError> {
        match self.bytes.resize(len as usize, 0) {
            Ok(()) => Ok(()),
            Err(_) => Err(OutError::NoMemory),
        }
    }

    fn sync(&mut self) -> Result<(), Failed> {
        Ok(())
    }

    ghost image_is_whole = { λ s. refl };

    ghost counts_now = { λ _ _ _ _ _ _. tt };

    ghost only_now = { λ _ _ _ _. tt };

    ghost image_may_stay = { λ _ modelled. absurd (false≢true modelled) };
}

#[cfg(test)]
mod tests {
    use super::*;

    // That there is memory, which no clause says.
    #[test]
    fn an_empty_store_is_lengthened_with_zeros(rt: HostRuntime) {
        let mut store = SureStore::new(Vec::new(rt.alloc()));
        assert_eq!(rt; store.set_len(262_656), Ok(()));
        assert_eq!(rt; store.bytes().len(), 262_656);
        assert!(rt; store.bytes().iter().all(|byte| *byte == 0));
    }
}
