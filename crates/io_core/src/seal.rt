//! Fragments, enciphered and stored.
ghost use Rattle.std.specs.Prelude.{◌≡◌, ◌≢◌, ◌+◌, ◌*◌, ◌/◌, ◌%◌, ◌^◌, ◌<◌, ◌≤◌, ℕ, List, length};
ghost use Rattle.vc_base.specs.Bytes.{IsBytes, in_pieces, piece};
ghost use Rattle.vc_base.specs.Faults.{HasCause};
ghost use Rattle.vc_outside.specs.Told.{Both, SameOutside, written};
ghost use Rattle.vc_outside.specs.Crash.{Outcomes};
ghost use Rattle.io_core.specs.Laws.Sealed.{Deciphers, IsOutcome};
ghost use Rattle.io_core.specs.declared.part.PartState.TheVariants.{Stored};

use crate::part::PartState;
use cipher_base::UnitCipher;
use sector_model::FaultMark;
use vc_outside::{Failed, Store};

// A fragment's data enciphered from the unit `first` on: as it was handed in, if that is of this data and
// these units, or else made again in the room.
fn sealed_of<'a, C: UnitCipher>(
    cipher: &C,
    room: &'a mut [u8],
    first: u64,
    fragment: &[u8],
    unit: u64,
    plain: &[u8],
    sealed: &'a [u8],
) -> &'a [u8]
    requires room { length fragment.now ≤ length room.old }
    requires whole { length fragment.now % 512 ≡ 0 }
    requires within { first + length fragment.now / 512 ≤ 2 ^ 55 }
    requires sealed { sealed.now ≡ in_pieces 512 (λ i u. C.enciphered cipher.now (unit + i) u) plain.now }
    ensures { result.now ≡ in_pieces 512 (λ i u. C.enciphered cipher.now (first + i) u) fragment.now }
{
    if unit == first && plain == fragment {
        return sealed;
    }
    let again = &mut room[..fragment.len()];
    again.copy_from_slice(fragment);
    cipher.encipher_units(first, again);
    again
}

// Each byte is below 256. It does nothing: a caller's proof needs the fact.
pub(crate) fn bytes_are_known(bytes: &[u8])
    ensures { IsBytes (length bytes.now) bytes.now }
{
    let _ = bytes;
}

// Stores a fragment's data, enciphered, in the units from `first` on.
#[allow(clippy::too_many_arguments)]
pub(crate) fn store_fragment<S: Store, C: UnitCipher>(
    disk: &mut S,
    cipher: &C,
    room: &mut [u8],
    first: u64,
    fragment: &[u8],
    unit: u64,
    plain: &[u8],
    sealed: &[u8],
) -> PartState
    requires room { length fragment.now ≤ length room.old }
    requires whole { length fragment.now % 512 ≡ 0 }
    requires within { first + length fragment.now / 512 ≤ 2 ^ 55 }
    requires some { 0 < length fragment.now }
    requires inside { 512 * first + length fragment.now ≤ S.size disk.old }
    requires sealed { sealed.now ≡ in_pieces 512 (λ i u. C.enciphered cipher.now (unit + i) u) plain.now }
    ensures outcome { IsOutcome (S.faults disk.old) (S.faults disk.new) result }
    ensures outside { Both (S.image disk.old) (S.image disk.new) (SameOutside (512 * first) (length fragment.now)) }
    ensures stored { result ≡ Stored
        → Both (S.image disk.old) (S.image disk.new) (λ _ c. Deciphers (C.deciphered cipher.now) first fragment.now c) }
    ensures written { result ≡ Stored → Both (S.image disk.old) (S.image disk.new) (λ b c.
        c ≡ written (512 * first) (in_pieces 512 (λ i u. C.enciphered cipher.now (first + i) u) fragment.now) b) }
    ensures size { S.size disk.new ≡ S.size disk.old }
    ensures crash { Outcomes S.tells (S.moment disk.old) (S.moment disk.new) (S.left_since disk.old)
        (S.left_since disk.new) (S.may_leave disk.old) (S.may_leave disk.new) (SameOutside (512 * first) (length fragment.now)) }
    ensures cause { HasCause (S.faults disk.old) (S.faults disk.new) (result ≢ Stored) }
{
    bytes_are_known(fragment);
    let before = disk.faults();
    let bytes = sealed_of(cipher, room, first, fragment, unit, plain, sealed);
    if let Err(Failed) = disk.write_at(512 * first, bytes) {
        let after = disk.faults();
        return PartState::Spoilt(FaultMark { before, after });
    }
    PartState::Stored
}
