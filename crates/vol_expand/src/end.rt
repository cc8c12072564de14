//! The new end of the container: the fill, and in it the new backup of the standard header.
ghost use Rattle.std.specs.Prelude.{◌≡◌, ◌≤◌, ◌<◌, ◌+◌, ◌-◌, OnOk, IsErr};
ghost use Rattle.kdf_hmac.specs.Pbkdf2.{IsPim, derived};
ghost use Rattle.vc_base.specs.Faults.{HasCause};
ghost use Rattle.vc_layout.specs.declared.slots.Slot.TheVariants.{Standard, BackupStandard};
ghost use Rattle.vc_header.specs.Header.{Meets};
ghost use Rattle.vc_outside.specs.Crash.{Outcomes};
ghost use Rattle.vc_outside.specs.Told.{Both, SameOutside, written};
ghost use Rattle.header_seal.specs.Sealed.{OpensAgain, sealed_by};
ghost use Rattle.volume_format.specs.Formatted.{with_body};
ghost use Rattle.volume_format.specs.Stream.{advanced};
ghost use Rattle.header_change.specs.Changed.{new_sealing};
ghost use Rattle.header_change.specs.Moments.{AtEachMoment};
ghost use Rattle.vol_expand.specs.Expanded.{fill_bytes, words_of};
ghost use Rattle.vol_expand.specs.Stops.{Grows, HasNewBackup, PartsStay};

use crate::fill::{fill, salt_in_fill};
use header_seal::{Opened, derive, headers_open_again, seal};
use kdf_hmac::Password;
use rand_chacha::ChaCha20Rng;
use vc_header::SALT;
use vc_layout::{GROUP, Slot, slot_at};
use vc_outside::{Failed, Store};

/// Fills a container of `size` bytes from where its backup headers were when it had `len` bytes, and writes the body
/// of the new backup, with the fields of `grown`, behind the salt that the fill left in its slot.
pub(crate) fn write_end<D: Store>(
    disk: &mut D,
    rng: &mut ChaCha20Rng,
    grown: &Opened,
    p: &Password,
    pim: u32,
    len: u64,
    size: u64,
) -> Result<(), Failed>
    requires pim { IsPim pim }
    requires long { 262656 ≤ len }
    requires longer { len < size }
    requires size { D.size disk.old ≡ size }
    requires meets { Meets grown.now.fields Standard size }
    ensures written { OnOk result (Both (D.image disk.old) (D.image disk.new) (λ b c.
        c ≡ with_body (new_sealing p.now pim grown.now.prf grown.now) grown.now.fields BackupStandard
        (written (len - 131072) (fill_bytes rng.old (size - (len - 131072))) b))) }
    ensures backup { OnOk result (Both (D.image disk.old) (D.image disk.new) (λ _ c.
        HasNewBackup (new_sealing p.now pim grown.now.prf grown.now) grown.now.fields size c)) }
    ensures drawn { OnOk result (rng.new ≡ advanced rng.old (words_of (size - (len - 131072)))) }
    ensures outside { Both (D.image disk.old) (D.image disk.new) (PartsStay 0 (len - 131072)) }
    ensures crash { AtEachMoment D.tells (D.moment disk.old) (D.moment disk.new) (D.left_since disk.old)
        (D.left_since disk.new) (D.may_leave disk.old) (D.may_leave disk.new) (Grows (len - 131072) size) }
    ensures size { D.size disk.new ≡ D.size disk.old }
    ensures cause { HasCause (D.faults disk.old) (D.faults disk.new) (IsErr result) }
{
    headers_open_again();
    let salt = salt_in_fill(rng, size - len);
    fill(disk, rng, len - GROUP, size)?;
    write_body(disk, grown, p, pim, size, &salt)
}

// Writes the body of the backup behind its salt, which is there already.
fn write_body<D: Store>(
    disk: &mut D,
    grown: &Opened,
    p: &Password,
    pim: u32,
    size: u64,
    salt: &[u8; SALT],
) -> Result<(), Failed>
    requires pim { IsPim pim }
    requires long { 262656 ≤ size }
    requires size { D.size disk.old ≡ size }
    ensures written { OnOk result (Both (D.image disk.old) (D.image disk.new) (λ b c.
        c ≡ written (size - 131072 + 64)
        (sealed_by grown.now.prf grown.now.algorithm p.now pim salt.now grown.now.fields) b)) }
    ensures opens_again { OpensAgain grown.now.algorithm
        (derived grown.now.prf p.now pim salt.now) grown.now.fields }
    ensures outside { Both (D.image disk.old) (D.image disk.new) (SameOutside (size - 131072 + 64) 448) }
    ensures crash { Outcomes D.tells (D.moment disk.old) (D.moment disk.new) (D.left_since disk.old)
        (D.left_since disk.new) (D.may_leave disk.old) (D.may_leave disk.new)
        (SameOutside (size - 131072 + 64) 448) }
    ensures size { D.size disk.new ≡ D.size disk.old }
    ensures cause { HasCause (D.faults disk.old) (D.faults disk.new) (IsErr result) }
{
    let keys = derive(grown.prf, p, pim, salt);
    let body = seal(grown.algorithm, &keys, &grown.fields);
    disk.write_at(slot_at(Slot::BackupStandard, size) + SALT as u64, &body)
}
