//! The outer volume.
ghost use Rattle.std.specs.Prelude.{◌≡◌, ◌≤◌, ◌+◌, ◌↔◌, Err, OnOk, IsErr, IsErrOf};
ghost use Rattle.kdf_hmac.specs.Pbkdf2.{IsPim};
ghost use Rattle.vc_base.specs.Faults.{HasCause};
ghost use Rattle.vc_layout.specs.Layout.{IsFormattable};
ghost use Rattle.vc_layout.specs.declared.slots.Slot.TheVariants.{Standard, BackupStandard};
ghost use Rattle.vc_layout.specs.declared.kind.Kind.TheVariants.{StandardOnly};
ghost use Rattle.vc_header.specs.Header.{Meets};
ghost use Rattle.vc_outside.specs.Crash.{IsLasting};
ghost use Rattle.vc_outside.specs.Told.{Both};
ghost use Rattle.volume_format.specs.Stream.{advanced};
ghost use Rattle.volume_format.specs.Formatted.{formatted, key_bytes, material_of, outer_fields, sealing_of};
ghost use Rattle.volume_format.specs.Opens.{HasBothHeaders};
ghost use Rattle.volume_format.specs.Laws.Made.{IsFormatted};

use crate::draw::{key_material, salt_at};
use crate::fill::fill;
use crate::format_error::FormatError;
use crate::header::{outer_fields, write_body};
use algorithm_names::Algorithm;
use header_seal::headers_open_again;
use kdf_hmac::{Password, Prf};
use rand_chacha::ChaCha20Rng;
use vc_header::validity_is_decided;
use vc_layout::{Slot, outer_of, slot_at};
use vc_outside::{Failed, OutError, Store};

/// What a new outer volume is to be. The size is the container's, in bytes, and the sector's size that of the
/// volume; a PIM of 0 is none.
#[derive(Drop)]
pub struct FormatSpec {
    pub password: Password,
    pub pim: u32,
    pub prf: Prf,
    pub algorithm: Algorithm,
    pub size: u64,
    pub sector: u32,
}

/// Makes the container one with a new outer volume: sets its length, fills it from the random
/// stream, writes the standard header and its backup, and makes all of it last.
pub fn format_outer<D: Store>(
    disk: &mut D,
    rng: &mut ChaCha20Rng,
    spec: &FormatSpec,
) -> Result<(), FormatError>
    requires { IsPim spec.now.pim }

    // What is made, if the store's contents are known.
    ensures formatted { OnOk result (Both (D.image disk.old) (D.image disk.new) (λ _ b.
        b ≡ formatted rng.old spec.now)) }
    ensures size { OnOk result (D.size disk.new ≡ spec.now.size) }
    ensures lasting { OnOk result (IsLasting D.tells (D.image disk.new) (D.may_leave disk.new)) }
    ensures drawn { OnOk result (rng.new ≡ advanced rng.old (spec.now.size + key_bytes spec.now.algorithm)) }

    // Both headers open it.
    ensures headers { OnOk result (Both (D.image disk.old) (D.image disk.new) (λ _ b.
        HasBothHeaders StandardOnly Standard BackupStandard (sealing_of spec.now)
        (outer_fields spec.now (material_of rng.old spec.now.size spec.now.algorithm)) b)) }
    ensures meets { OnOk result (
        Meets (outer_fields spec.now (material_of rng.old spec.now.size spec.now.algorithm)) Standard spec.now.size
        × Meets (outer_fields spec.now (material_of rng.old spec.now.size spec.now.algorithm)) BackupStandard spec.now.size) }

    // Why it is refused, and what is then as before.
    ensures formattable { OnOk result (IsFormattable spec.now.size spec.now.sector) }
    ensures bad_size { result ≡ Err FormatError.BadSize ↔ ¬ IsFormattable spec.now.size spec.now.sector }
    ensures nothing_changed { result ≡ Err FormatError.BadSize → disk.new ≡ disk.old }
    ensures nothing_drawn { result ≡ Err FormatError.BadSize → rng.new ≡ rng.old }
    ensures same_image { result ≡ Err FormatError.NoMemory → D.image disk.new ≡ D.image disk.old }
    ensures same_size { result ≡ Err FormatError.NoMemory → D.size disk.new ≡ D.size disk.old }
    ensures same_faults { result ≡ Err FormatError.NoMemory → D.faults disk.new ≡ D.faults disk.old }
    ensures same_stream { result ≡ Err FormatError.NoMemory → rng.new ≡ rng.old }
    ensures cause { HasCause (D.faults disk.old) (D.faults disk.new)
        (IsErrOf result FormatError.WriteFault) }
{
    let Some(_outer) = outer_of(spec.size, spec.sector) else {
        return Err(FormatError::BadSize);
    };
    match disk.set_len(spec.size) {
        Ok(()) => match make(disk, rng, spec) {
            Ok(()) => Ok(()),
            Err(Failed) => Err(FormatError::WriteFault),
        },
        Err(OutError::NoMemory) => Err(FormatError::NoMemory),
        Err(OutError::Failed) => Err(FormatError::WriteFault),
    }
}

// Writes the volume into a container of the asked size, and makes it last.
fn make<D: Store>(disk: &mut D, rng: &mut ChaCha20Rng, spec: &FormatSpec) -> Result<(), Failed>
    requires pim { IsPim spec.now.pim }
    requires formattable { IsFormattable spec.now.size spec.now.sector }
    requires size { D.size disk.old ≡ spec.now.size }
    ensures written { OnOk result (Both (D.image disk.old) (D.image disk.new) (λ _ b.
        IsFormatted rng.old spec.now b)) }
    ensures size { D.size disk.new ≡ spec.now.size }
    ensures lasting { OnOk result (IsLasting D.tells (D.image disk.new) (D.may_leave disk.new)) }
    ensures drawn { OnOk result (rng.new ≡ advanced rng.old (spec.now.size + key_bytes spec.now.algorithm)) }
    ensures cause { HasCause (D.faults disk.old) (D.faults disk.new) (IsErr result) }
{
    write_volume(disk, rng, spec)?;
    disk.sync()?;
    Ok(())
}

// Fills a container of the asked size and writes both headers. The salts are the bytes of the fill
// in their slots; the master keys are drawn after it.
fn write_volume<D: Store>(
    disk: &mut D,
    rng: &mut ChaCha20Rng,
    spec: &FormatSpec,
) -> Result<(), Failed>
    requires pim { IsPim spec.now.pim }
    requires formattable { IsFormattable spec.now.size spec.now.sector }
    requires size { D.size disk.old ≡ spec.now.size }
    ensures written { OnOk result (Both (D.image disk.old) (D.image disk.new) (λ _ b.
        IsFormatted rng.old spec.now b)) }
    ensures size { D.size disk.new ≡ spec.now.size }
    ensures drawn { OnOk result (rng.new ≡ advanced rng.old (spec.now.size + key_bytes spec.now.algorithm)) }
    ensures cause { HasCause (D.faults disk.old) (D.faults disk.new) (IsErr result) }
{
    headers_open_again();
    validity_is_decided();
    let salt = salt_at(rng, slot_at(Slot::Standard, spec.size));
    let backup_salt = salt_at(rng, slot_at(Slot::BackupStandard, spec.size));
    fill(disk, rng, spec.size)?;
    let material = key_material(rng, spec.algorithm);
    let fields = outer_fields(spec, material);
    write_body(disk, spec, Slot::Standard, &salt, &fields)?;
    write_body(disk, spec, Slot::BackupStandard, &backup_salt, &fields)?;
    Ok(())
}
