//! The call that expands a container.
ghost use Rattle.std.specs.Prelude.{◌≡◌, ◌≤◌, ◌<◌, ◌⊎◌, ◌+◌, ◌-◌, ◌↔◌, Err, OnOk, IsErr, IsErrOf, IsFalse, IsTrue};
ghost use Rattle.kdf_hmac.specs.Pbkdf2.{IsPim};
ghost use Rattle.vc_base.specs.Faults.{HasCause};
ghost use Rattle.vc_layout.specs.Layout.{IsSectorSize};
ghost use Rattle.vc_layout.specs.declared.kind.Kind.TheVariants.{StandardOnly};
ghost use Rattle.vc_layout.specs.declared.slots.Slot.TheVariants.{Standard, BackupStandard};
ghost use Rattle.vc_header.specs.Header.{Meets};
ghost use Rattle.vc_outside.specs.Crash.{IsLasting};
ghost use Rattle.vc_outside.specs.Told.{Both, written};
ghost use Rattle.volume_format.specs.Formatted.{with_body};
ghost use Rattle.volume_format.specs.Hidden.{with_header};
ghost use Rattle.volume_format.specs.Opens.{HasBothHeaders};
ghost use Rattle.volume_format.specs.Stream.{advanced, stream_bytes};
ghost use Rattle.header_change.specs.Changed.{new_sealing};
ghost use Rattle.header_change.specs.Moments.{AtEachMoment};
ghost use Rattle.vol_expand.specs.Expanded.{expanded, expanded_fields, fill_bytes, is_expandable, words_of};
ghost use Rattle.vol_expand.specs.Stops.{ArrayBegins, Carries, Expands, IsOpened, OldOrNew, PartsStay};

use crate::end::write_end;
use crate::expand_error::ExpandError;
use header_change::restore;
use header_seal::Opened;
use kdf_hmac::Password;
use rand_chacha::ChaCha20Rng;
use vc_header::Fields;
use vc_layout::{GROUP, LONGEST_FORMATTED};
use vc_outside::{Failed, OutError, Store};

/// Gives the container of the opened standard header `size` bytes, and its volume all of them up to the new backup
/// headers: sets the length, fills the new end, writes the new backup and makes all of it lasting, then writes the
/// standard header and makes that lasting. It ends at the first failure. Both headers are under the password and the
/// PIM, with the opened header's PRF and algorithm.
pub fn expand<D: Store>(
    disk: &mut D,
    rng: &mut ChaCha20Rng,
    from: &Opened,
    p: &Password,
    pim: u32,
    size: u64,
) -> Result<(), ExpandError>
    requires pim { IsPim pim }
    requires slot { from.now.slot ≡ Standard }
    requires meets { Meets from.now.fields from.now.slot (D.size disk.old) }

    // What is made, if the store's contents are known.
    ensures expanded { OnOk result (Both (D.image disk.old) (D.image disk.new) (λ b c.
        c ≡ expanded rng.old (new_sealing p.now pim from.now.prf from.now) from.now.fields size b)) }
    ensures headers { OnOk result (Both (D.image disk.old) (D.image disk.new) (λ _ c.
        HasBothHeaders StandardOnly Standard BackupStandard (new_sealing p.now pim from.now.prf from.now)
        (expanded_fields size from.now.fields) c)) }
    ensures array { OnOk result (Both (D.image disk.old) (D.image disk.new) (ArrayBegins from.now.algorithm
        from.now.fields (expanded_fields size from.now.fields))) }
    ensures size { OnOk result (D.size disk.new ≡ size) }
    ensures lasting { OnOk result (IsLasting D.tells (D.image disk.new) (D.may_leave disk.new)) }
    ensures drawn { OnOk result (rng.new ≡ advanced rng.old (words_of (size - (D.size disk.old - 131072)) + 64)) }

    // Why it is refused, and what is then as before.
    ensures expandable { OnOk result (IsTrue (is_expandable (D.size disk.old) size from.now.fields.sector)) }
    ensures bad_size { result ≡ Err ExpandError.BadSize
        ↔ IsFalse (is_expandable (D.size disk.old) size from.now.fields.sector) }
    ensures nothing_changed { result ≡ Err ExpandError.BadSize → disk.new ≡ disk.old }
    ensures nothing_drawn { result ≡ Err ExpandError.BadSize → rng.new ≡ rng.old }
    ensures same_image { result ≡ Err ExpandError.NoMemory → D.image disk.new ≡ D.image disk.old }
    ensures same_size { result ≡ Err ExpandError.NoMemory → D.size disk.new ≡ D.size disk.old }
    ensures same_faults { result ≡ Err ExpandError.NoMemory → D.faults disk.new ≡ D.faults disk.old }
    ensures same_stream { result ≡ Err ExpandError.NoMemory → rng.new ≡ rng.old }
    ensures cause { HasCause (D.faults disk.old) (D.faults disk.new) (IsErrOf result ExpandError.DiskFault) }

    // What holds whatever the result is.
    ensures outside { Both (D.image disk.old) (D.image disk.new) (PartsStay 512 (D.size disk.old - 131072)) }
    ensures either_size { (D.size disk.new ≡ D.size disk.old) ⊎ (D.size disk.new ≡ size) }

    // What a crash at any moment of the call leaves, if the store models it: a header that opens the old data.
    ensures crash { AtEachMoment D.tells (D.moment disk.old) (D.moment disk.new) (D.left_since disk.old)
        (D.left_since disk.new) (D.may_leave disk.old) (D.may_leave disk.new)
        (Expands (D.size disk.old - 131072) size (new_sealing p.now pim from.now.prf from.now)
        (expanded_fields size from.now.fields)) }
    ensures either_carries { OldOrNew D.tells (D.image disk.old) (D.may_leave disk.old)
        (D.left_since disk.new (D.moment disk.old)) Carries (new_sealing p.now pim from.now.prf from.now)
        from.now.fields size }
    ensures either_opens { OldOrNew D.tells (D.image disk.old) (D.may_leave disk.old)
        (D.left_since disk.new (D.moment disk.old)) IsOpened (new_sealing p.now pim from.now.prf from.now)
        from.now.fields size }
{
    let len = disk.len();
    if !is_expandable(len, size, from.fields.sector) {
        return Err(ExpandError::BadSize);
    }
    match disk.set_len(size) {
        Ok(()) => match rewrite(disk, rng, &grown(from, size), p, pim, len, size) {
            Ok(()) => Ok(()),
            Err(Failed) => Err(ExpandError::DiskFault),
        },
        Err(OutError::NoMemory) => Err(ExpandError::NoMemory),
        Err(OutError::Failed) => Err(ExpandError::DiskFault),
    }
}

// Whether a container of `len` bytes can get `size` bytes, if its volume's sectors have `sector` bytes.
fn is_expandable(len: u64, size: u64, sector: u32) -> bool
    requires { IsSectorSize sector }
    ensures { result ≡ is_expandable len size sector }
{
    len < size && size <= LONGEST_FORMATTED && size % u64::from(sector) == 0
}

// The opened header with the fields of a container of `size` bytes.
fn grown(from: &Opened, size: u64) -> Opened
    requires { from.now.fields.start + 131072 ≤ size }
    ensures { result ≡ record from.now { fields = expanded_fields size from.now.fields } }
{
    let volume_size = size - GROUP - from.fields.start;
    Opened {
        fields: Fields {
            volume_size,
            encrypted: volume_size,
            ..from.fields
        },
        ..*from
    }
}

// Writes all of a container that had `len` bytes and has `size` of them now: the new end, then the standard header.
fn rewrite<D: Store>(
    disk: &mut D,
    rng: &mut ChaCha20Rng,
    grown: &Opened,
    p: &Password,
    pim: u32,
    len: u64,
    size: u64,
) -> Result<(), Failed>
    requires pim { IsPim pim }
    requires long { 262656 ≤ len }
    requires longer { len < size }
    requires size { D.size disk.old ≡ size }
    requires slot { grown.now.slot ≡ Standard }
    requires meets { Meets grown.now.fields Standard size }
    ensures written { OnOk result (Both (D.image disk.old) (D.image disk.new) (λ b c.
        c ≡ with_header (new_sealing p.now pim grown.now.prf grown.now)
        (stream_bytes rng.old (words_of (size - (len - 131072))) 64) grown.now.fields Standard
        (with_body (new_sealing p.now pim grown.now.prf grown.now) grown.now.fields BackupStandard
        (written (len - 131072) (fill_bytes rng.old (size - (len - 131072))) b)))) }
    ensures headers { OnOk result (Both (D.image disk.old) (D.image disk.new) (λ _ c.
        HasBothHeaders StandardOnly Standard BackupStandard (new_sealing p.now pim grown.now.prf grown.now)
        grown.now.fields c)) }
    ensures lasting { OnOk result (IsLasting D.tells (D.image disk.new) (D.may_leave disk.new)) }
    ensures drawn { OnOk result (rng.new ≡ advanced rng.old (words_of (size - (len - 131072)) + 64)) }
    ensures outside { Both (D.image disk.old) (D.image disk.new) (PartsStay 512 (len - 131072)) }
    ensures crash { AtEachMoment D.tells (D.moment disk.old) (D.moment disk.new) (D.left_since disk.old)
        (D.left_since disk.new) (D.may_leave disk.old) (D.may_leave disk.new)
        (Expands (len - 131072) size (new_sealing p.now pim grown.now.prf grown.now) grown.now.fields) }
    ensures size { D.size disk.new ≡ D.size disk.old }
    ensures cause { HasCause (D.faults disk.old) (D.faults disk.new) (IsErr result) }
{
    write_end(disk, rng, grown, p, pim, len, size)?;
    disk.sync()?;
    restore(disk, rng, grown, p, pim)
}
