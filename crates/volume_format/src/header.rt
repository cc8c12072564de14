//! The headers of new volumes.
ghost use Rattle.std.specs.Prelude.{◌≡◌, ◌≤◌, ℕ, ◌+◌, ◌-◌, OnOk, IsErr};
ghost use Rattle.vc_base.specs.Faults.{HasCause};
ghost use Rattle.kdf_hmac.specs.Pbkdf2.{IsPim, derived};
ghost use Rattle.vc_layout.specs.Layout.{place_of};
ghost use Rattle.vc_outside.specs.Told.{Both, SameOutside, written};
ghost use Rattle.header_seal.specs.Sealed.{OpensAgain, sealed_by};
ghost use Rattle.volume_format.specs.Formatted.{body_under, outer_fields, sealing_of};
ghost use Rattle.volume_format.specs.Hidden.{header_under, hidden_fields, hidden_sealing_of};

use crate::hidden::HiddenSpec;
use crate::outer::FormatSpec;
use algorithm_names::Algorithm;
use header_seal::{derive, seal};
use kdf_hmac::{Password, Prf};
use vc_header::{BODY, Fields, MATERIAL, SALT, header_of};
use vc_layout::{GROUP, Slot, slot_at};
use vc_outside::{Failed, Store};

/// The fields of both headers of an outer volume.
pub(crate) fn outer_fields(spec: &FormatSpec, material: [u8; MATERIAL]) -> Fields
    requires { 262656 ≤ spec.now.size }
    ensures { result ≡ outer_fields spec.now material }
{
    let volume_size = spec.size - 2 * GROUP;
    Fields {
        hidden_size: 0,
        volume_size,
        start: GROUP,
        encrypted: volume_size,
        flags: 0,
        sector: spec.sector,
        material,
    }
}

/// The fields of both headers of a hidden volume that starts at byte `start` of its container.
pub(crate) fn hidden_fields(spec: &HiddenSpec, start: u64, material: [u8; MATERIAL]) -> Fields
    ensures { (len : ℕ) → start ≡ len - 131072 - spec.now.size → result ≡ hidden_fields len spec.now material }
{
    Fields {
        hidden_size: spec.size,
        volume_size: spec.size,
        start,
        encrypted: spec.size,
        flags: 0,
        sector: spec.sector,
        material,
    }
}

/// Writes the body of a slot's header behind its salt, which is there already.
pub(crate) fn write_body<D: Store>(
    disk: &mut D,
    spec: &FormatSpec,
    slot: Slot,
    salt: &[u8; SALT],
    fields: &Fields,
) -> Result<(), Failed>
    requires pim { IsPim spec.now.pim }
    requires long { 262656 ≤ spec.now.size }
    requires size { D.size disk.old ≡ spec.now.size }
    ensures written { OnOk result (Both (D.image disk.old) (D.image disk.new) (λ b c.
        c ≡ written (place_of slot spec.now.size + 64) (body_under (sealing_of spec.now) salt.now fields.now) b)) }
    ensures opens_again { OpensAgain spec.now.algorithm
        (derived spec.now.prf spec.now.password spec.now.pim salt.now) fields.now }
    ensures size { D.size disk.new ≡ D.size disk.old }
    ensures cause { HasCause (D.faults disk.old) (D.faults disk.new) (IsErr result) }
{
    let body = sealed_body(
        &spec.password,
        spec.pim,
        spec.prf,
        spec.algorithm,
        salt,
        fields,
    );
    disk.write_at(slot_at(slot, spec.size) + SALT as u64, &body)
}

/// Writes a whole header into a slot of a container of `len` bytes.
pub(crate) fn write_header<D: Store>(
    disk: &mut D,
    spec: &HiddenSpec,
    slot: Slot,
    len: u64,
    salt: &[u8; SALT],
    fields: &Fields,
) -> Result<(), Failed>
    requires pim { IsPim spec.now.pim }
    requires long { 262656 ≤ len }
    requires size { D.size disk.old ≡ len }
    ensures written { OnOk result (Both (D.image disk.old) (D.image disk.new) (λ b c.
        c ≡ written (place_of slot len) (header_under (hidden_sealing_of spec.now) salt.now fields.now) b)) }
    ensures outside { Both (D.image disk.old) (D.image disk.new) (SameOutside (place_of slot len) 512) }
    ensures opens_again { OpensAgain spec.now.algorithm
        (derived spec.now.prf spec.now.password spec.now.pim salt.now) fields.now }
    ensures size { D.size disk.new ≡ D.size disk.old }
    ensures cause { HasCause (D.faults disk.old) (D.faults disk.new) (IsErr result) }
{
    let body = sealed_body(
        &spec.password,
        spec.pim,
        spec.prf,
        spec.algorithm,
        salt,
        fields,
    );
    disk.write_at(slot_at(slot, len), &header_of(salt, &body))
}

// The body for fields, enciphered under what password, PIM and salt derive.
fn sealed_body(
    password: &Password,
    pim: u32,
    prf: Prf,
    algorithm: Algorithm,
    salt: &[u8; SALT],
    fields: &Fields,
) -> [u8; BODY]
    requires { IsPim pim }
    ensures body { result ≡ sealed_by prf algorithm password.now pim salt.now fields.now }
    ensures opens_again { OpensAgain algorithm (derived prf password.now pim salt.now) fields.now }
{
    let keys = derive(prf, password, pim, salt);
    seal(algorithm, &keys, fields)
}
