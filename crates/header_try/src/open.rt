//! Opening over a store.
ghost use Rattle.std.specs.Prelude.{◌≡◌, ◌≤◌, ◌≢◌, ℕ, [], ◌∷◌, IfSome, IfOk, OnOk, IsErr, Err, None, IsErrOf, Contains, MatchOption, find, option_map};
ghost use Rattle.kdf_hmac.specs.Pbkdf2.{IsPim};
ghost use Rattle.vc_base.specs.Faults.{HasCause};
ghost use Rattle.vc_layout.specs.Kinds.{slots_of};
ghost use Rattle.vc_layout.specs.Layout.{IsContainerLength};
ghost use Rattle.vc_header.specs.Header.{fields_of, Meets};
ghost use Rattle.header_seal.specs.Candidates.{candidate_of, candidates_of, first, IsFirst, is_valid_under};
ghost use Rattle.header_seal.specs.Sealed.{plain_by};
ghost use Rattle.vc_outside.specs.Crash.{Outcomes, Stays};
ghost use Rattle.header_try.specs.Laws.Slots.{FoundIn, HasFieldsIn, of_slot};

use crate::open_error::OpenError;
use crate::slot::try_slot;
use header_seal::{Opened, derive};
use kdf_hmac::{Password, Prf};
use vc_header::{HEADER, HeaderView};
use vc_layout::{Kind, Slot, is_container_length, slot_at};
use vc_outside::{Failed, Store};

/// Opens the first valid candidate of a kind. A slot is read only if no slot before it has a valid
/// candidate, and no slot is read twice.
pub fn open_plain<D: Store>(
    disk: &mut D,
    p: &Password,
    pim: u32,
    kind: Kind,
) -> Result<Opened, OpenError>
    requires { IsPim pim }

    // If the store's contents are known: which candidate is opened, and when none is.
    ensures opened { IfOk result (λ o. IfSome (D.image disk.old) (λ b. IsFirst o kind b p.now pim)) }
    ensures none_valid { result ≡ Err OpenError.NoHeader
        → IfSome (D.image disk.old) (λ b. first kind b p.now pim ≡ None) }

    // Why it is refused. It needs no memory.
    ensures length { (n : ℕ) → result ≡ Err (OpenError.Length n) → (n ≡ D.size disk.old) × ¬ IsContainerLength n }
    ensures refused { ¬ IsContainerLength (D.size disk.old) → result ≡ Err (OpenError.Length (D.size disk.old)) }
    ensures cause { HasCause (D.faults disk.old) (D.faults disk.new) (IsErrOf result OpenError.ReadFault) }
    ensures memory { result ≢ Err OpenError.NoMemory }

    // What holds over every store.
    ensures in_range { OnOk result (IsContainerLength (D.size disk.old)) }
    ensures slot { IfOk result (λ o. Contains (slots_of kind) o.slot) }
    ensures meets { IfOk result (λ o. Meets o.fields o.slot (D.size disk.old)) }

    // Nothing of the container changes, and a crash leaves nothing more than before.
    ensures image { D.image disk.new ≡ D.image disk.old }
    ensures size { D.size disk.new ≡ D.size disk.old }
    ensures crash { Outcomes D.tells (D.moment disk.old) (D.moment disk.new) (D.left_since disk.old) (D.left_since disk.new)
        (D.may_leave disk.old) (D.may_leave disk.new) Stays }
{
    let len = disk.len();
    if !is_container_length(len) {
        return Err(OpenError::Length(len));
    }
    let (slot, other) = slots(kind);
    let Ok(found) = open_slot(disk, p, pim, slot, len) else {
        return Err(OpenError::ReadFault);
    };
    if let Some(opened) = found {
        return Ok(opened);
    }
    let Some(other) = other else {
        return Err(OpenError::NoHeader);
    };
    let Ok(found) = open_slot(disk, p, pim, other, len) else {
        return Err(OpenError::ReadFault);
    };
    match found {
        Some(opened) => Ok(opened),
        None => Err(OpenError::NoHeader),
    }
}

/// The slots of a kind: the first, and the second if there is one.
pub fn slots(kind: Kind) -> (Slot, Option<Slot>)
    ensures { MatchOption result.1 (slots_of kind ≡ result.0 ∷ []) (λ other. slots_of kind ≡ result.0 ∷ other ∷ []) }
{
    match kind {
        Kind::Any => (Slot::Standard, Some(Slot::Hidden)),
        Kind::StandardOnly => (Slot::Standard, None),
        Kind::HiddenOnly => (Slot::Hidden, None),
        Kind::AnyBackup => (Slot::BackupStandard, Some(Slot::BackupHidden)),
        Kind::StandardBackup => (Slot::BackupStandard, None),
        Kind::HiddenBackup => (Slot::BackupHidden, None),
    }
}

// Reads a slot's header, and finds the first valid candidate of the slot, if it has one.
fn open_slot<D: Store>(
    disk: &mut D,
    p: &Password,
    pim: u32,
    slot: Slot,
    len: u64,
) -> Result<Option<Opened>, Failed>
    requires pim { IsPim pim }
    requires len { 262656 ≤ len }
    requires size { len ≡ D.size disk.old }
    ensures found { IfOk result (λ r. FoundIn (D.image disk.old) slot p.now pim (option_map candidate_of r)) }
    ensures fields { IfOk result (λ r. IfSome r (λ o. HasFieldsIn (D.image disk.old) p.now pim o)) }
    ensures slot { IfOk result (λ r. IfSome r (λ o. o.slot ≡ slot)) }
    ensures meets { IfOk result (λ r. IfSome r (λ o. Meets o.fields slot len)) }
    ensures cause { HasCause (D.faults disk.old) (D.faults disk.new) (IsErr result) }
    ensures image { D.image disk.new ≡ D.image disk.old }
    ensures size { D.size disk.new ≡ D.size disk.old }
    ensures crash { Outcomes D.tells (D.moment disk.old) (D.moment disk.new) (D.left_since disk.old) (D.left_since disk.new)
        (D.may_leave disk.old) (D.may_leave disk.new) Stays }
{
    let mut header = [0u8; HEADER];
    let Ok(()) = disk.read_at(slot_at(slot, len), &mut header) else {
        return Err(Failed);
    };
    Ok(try_header(p, pim, &header, slot, len))
}

// The first valid candidate of a slot, by its header.
fn try_header(p: &Password, pim: u32, header: &[u8; HEADER], slot: Slot, len: u64) -> Option<Opened>
    requires pim { IsPim pim }
    requires len { 262656 ≤ len }
    ensures first { option_map candidate_of result ≡ find (is_valid_under header.now len p.now pim) (of_slot slot) }
    ensures fields { IfSome result (λ o. o.fields ≡ fields_of (plain_by o.prf o.algorithm p.now pim header.now)) }
    ensures slot { IfSome result (λ o. o.slot ≡ slot) }
    ensures meets { IfSome result (λ o. Meets o.fields slot len) }
{
    match try_prf(Prf::Sha512, p, pim, header, slot, len) {
        Some(opened) => Some(opened),
        None => try_prf(Prf::Sha256, p, pim, header, slot, len),
    }
}

// The first valid candidate with this slot and PRF.
fn try_prf(
    prf: Prf,
    p: &Password,
    pim: u32,
    header: &[u8; HEADER],
    slot: Slot,
    len: u64,
) -> Option<Opened>
    requires pim { IsPim pim }
    requires len { 262656 ≤ len }
    ensures first { option_map candidate_of result
        ≡ find (is_valid_under header.now len p.now pim) (candidates_of slot prf) }
    ensures fields { IfSome result (λ o. o.fields ≡ fields_of (plain_by o.prf o.algorithm p.now pim header.now)) }
    ensures slot { IfSome result (λ o. o.slot ≡ slot) }
    ensures meets { IfSome result (λ o. Meets o.fields slot len) }
{
    let derived = derive(prf, p, pim, HeaderView::new(header).salt());
    match try_slot(&derived, header, slot, len) {
        Some((algorithm, fields)) => Some(Opened {
            slot,
            prf,
            algorithm,
            fields,
        }),
        None => None,
    }
}
