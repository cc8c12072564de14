//! The hidden volume.
ghost use Rattle.std.specs.Prelude.{◌≡◌, ◌≢◌, ◌≤◌, ◌+◌, ◌-◌, ◌↔◌, Err, OnOk, IsErr, IsErrOf, length};
ghost use Rattle.kdf_hmac.specs.Pbkdf2.{IsPim};
ghost use Rattle.vc_base.specs.Faults.{HasCause};
ghost use Rattle.vc_layout.specs.Layout.{IsHideable};
ghost use Rattle.vc_layout.specs.declared.slots.Slot.TheVariants.{Hidden, BackupHidden};
ghost use Rattle.vc_layout.specs.declared.kind.Kind.TheVariants.{HiddenOnly};
ghost use Rattle.vc_header.specs.Header.{Meets};
ghost use Rattle.vc_outside.specs.Crash.{IsLasting};
ghost use Rattle.vc_outside.specs.Told.{Both};
ghost use Rattle.volume_format.specs.Stream.{advanced};
ghost use Rattle.volume_format.specs.Formatted.{key_bytes, material_of};
ghost use Rattle.volume_format.specs.Hidden.{formatted_hidden, hidden_fields, hidden_sealing_of, OnlyHiddenSlots};
ghost use Rattle.volume_format.specs.Opens.{HasBothHeaders};
ghost use Rattle.volume_format.specs.Laws.Made.{IsHidden};

use crate::draw::{key_material, next_salt};
use crate::format_error::FormatError;
use crate::header::{hidden_fields, write_header};
use algorithm_names::Algorithm;
use header_seal::headers_open_again;
use kdf_hmac::{Password, Prf};
use rand_chacha::ChaCha20Rng;
use vc_header::validity_is_decided;
use vc_layout::{Slot, hidden_of};
use vc_outside::{Failed, Store};

/// What a new hidden volume is to be. The size is the volume's, in bytes; a PIM of 0 is none.
#[derive(Drop)]
pub struct HiddenSpec {
    pub password: Password,
    pub pim: u32,
    pub prf: Prf,
    pub algorithm: Algorithm,
    pub size: u64,
    pub sector: u32,
}

/// Gives the container a hidden volume at the end of its data area: writes the hidden header and its backup,
/// and makes both lasting. No other byte changes, so the hidden volume's sectors are what the bytes there
/// decipher to. It doesn't open the outer volume, and nothing tests that its password differs.
pub fn format_hidden<D: Store>(
    disk: &mut D,
    rng: &mut ChaCha20Rng,
    spec: &HiddenSpec,
) -> Result<(), FormatError>
    requires { IsPim spec.now.pim }

    // What is made, if the store's contents are known.
    ensures formatted { OnOk result (Both (D.image disk.old) (D.image disk.new) (λ b c.
        c ≡ formatted_hidden rng.old spec.now b)) }
    ensures lasting { OnOk result (IsLasting D.tells (D.image disk.new) (D.may_leave disk.new)) }
    ensures drawn { OnOk result (rng.new ≡ advanced rng.old (key_bytes spec.now.algorithm + 128)) }

    // Both headers open it.
    ensures headers { OnOk result (Both (D.image disk.old) (D.image disk.new) (λ b c.
        HasBothHeaders HiddenOnly Hidden BackupHidden (hidden_sealing_of spec.now)
        (hidden_fields (length b) spec.now (material_of rng.old 0 spec.now.algorithm)) c)) }
    ensures meets { OnOk result (
        Meets (hidden_fields (D.size disk.old) spec.now (material_of rng.old 0 spec.now.algorithm)) Hidden (D.size disk.old)
        × Meets (hidden_fields (D.size disk.old) spec.now (material_of rng.old 0 spec.now.algorithm)) BackupHidden
        (D.size disk.old)) }

    // Why it is refused, and what is as before.
    ensures hideable { OnOk result (IsHideable (D.size disk.old) spec.now.size spec.now.sector) }
    ensures bad_size { result ≡ Err FormatError.BadSize ↔ ¬ IsHideable (D.size disk.old) spec.now.size spec.now.sector }
    ensures nothing_changed { result ≡ Err FormatError.BadSize → disk.new ≡ disk.old }
    ensures nothing_drawn { result ≡ Err FormatError.BadSize → rng.new ≡ rng.old }
    ensures memory { result ≢ Err FormatError.NoMemory }
    ensures cause { HasCause (D.faults disk.old) (D.faults disk.new) (IsErrOf result FormatError.WriteFault) }
    ensures outside { Both (D.image disk.old) (D.image disk.new) OnlyHiddenSlots }
    ensures size { D.size disk.new ≡ D.size disk.old }
{
    let len = disk.len();
    let Some(volume) = hidden_of(len, spec.size, spec.sector) else {
        return Err(FormatError::BadSize);
    };
    match make_hidden(disk, rng, spec, len, volume.start) {
        Ok(()) => Ok(()),
        Err(Failed) => Err(FormatError::WriteFault),
    }
}

// Writes both headers of a hidden volume that starts at byte `start`, and makes them lasting.
fn make_hidden<D: Store>(
    disk: &mut D,
    rng: &mut ChaCha20Rng,
    spec: &HiddenSpec,
    len: u64,
    start: u64,
) -> Result<(), Failed>
    requires pim { IsPim spec.now.pim }
    requires hideable { IsHideable len spec.now.size spec.now.sector }
    requires start { start ≡ len - 131072 - spec.now.size }
    requires size { D.size disk.old ≡ len }
    ensures written { OnOk result (Both (D.image disk.old) (D.image disk.new) (IsHidden rng.old spec.now)) }
    ensures lasting { OnOk result (IsLasting D.tells (D.image disk.new) (D.may_leave disk.new)) }
    ensures drawn { OnOk result (rng.new ≡ advanced rng.old (key_bytes spec.now.algorithm + 128)) }
    ensures cause { HasCause (D.faults disk.old) (D.faults disk.new) (IsErr result) }
    ensures outside { Both (D.image disk.old) (D.image disk.new) OnlyHiddenSlots }
    ensures size { D.size disk.new ≡ D.size disk.old }
{
    write_headers(disk, rng, spec, len, start)?;
    disk.sync()?;
    Ok(())
}

// The master keys are drawn first, then the salts in the order of their slots.
fn write_headers<D: Store>(
    disk: &mut D,
    rng: &mut ChaCha20Rng,
    spec: &HiddenSpec,
    len: u64,
    start: u64,
) -> Result<(), Failed>
    requires pim { IsPim spec.now.pim }
    requires hideable { IsHideable len spec.now.size spec.now.sector }
    requires start { start ≡ len - 131072 - spec.now.size }
    requires size { D.size disk.old ≡ len }
    ensures written { OnOk result (Both (D.image disk.old) (D.image disk.new) (IsHidden rng.old spec.now)) }
    ensures drawn { rng.new ≡ advanced rng.old (key_bytes spec.now.algorithm + 128) }
    ensures cause { HasCause (D.faults disk.old) (D.faults disk.new) (IsErr result) }
    ensures outside { Both (D.image disk.old) (D.image disk.new) OnlyHiddenSlots }
    ensures size { D.size disk.new ≡ D.size disk.old }
{
    headers_open_again();
    validity_is_decided();
    let material = key_material(rng, spec.algorithm);
    let salt = next_salt(rng);
    let backup_salt = next_salt(rng);
    let fields = hidden_fields(spec, start, material);
    write_header(disk, spec, Slot::Hidden, len, &salt, &fields)?;
    write_header(disk, spec, Slot::BackupHidden, len, &backup_salt, &fields)?;
    Ok(())
}
