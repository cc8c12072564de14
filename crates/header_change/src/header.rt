//! One header, made and stored.
ghost use Rattle.std.specs.Prelude.{◌≡◌, ◌≤◌, OnOk, IsErr};
ghost use Rattle.kdf_hmac.specs.Pbkdf2.{IsPim, derived};
ghost use Rattle.vc_base.specs.Faults.{HasCause};
ghost use Rattle.vc_layout.specs.Layout.{place_of};
ghost use Rattle.vc_outside.specs.Crash.{IsLasting, Outcomes};
ghost use Rattle.vc_outside.specs.Told.{Both, SameOutside, written};
ghost use Rattle.header_seal.specs.Sealed.{OpensAgain};
ghost use Rattle.volume_format.specs.Hidden.{header_under};
ghost use Rattle.header_change.specs.Changed.{new_sealing};
ghost use Rattle.header_change.specs.Moments.{AtEachMoment};
ghost use Rattle.header_change.specs.Pair.{backup_of, primary_of};

use header_seal::{Opened, derive, seal};
use kdf_hmac::{Password, Prf};
use vc_header::{HEADER, SALT, header_of};
use vc_layout::{Slot, slot_at};
use vc_outside::{Failed, Store};

/// The primary slot of a slot's pair, and its backup.
pub(crate) fn pair_of(slot: Slot) -> (Slot, Slot)
    ensures primary { result.0 ≡ primary_of slot }
    ensures backup { result.1 ≡ backup_of slot }
{
    match slot {
        Slot::Standard | Slot::BackupStandard => (Slot::Standard, Slot::BackupStandard),
        Slot::Hidden | Slot::BackupHidden => (Slot::Hidden, Slot::BackupHidden),
    }
}

/// A header with this salt that carries the fields of an opened one.
pub(crate) fn new_header(
    from: &Opened,
    p: &Password,
    pim: u32,
    prf: Prf,
    salt: &[u8; SALT],
) -> [u8; HEADER]
    requires { IsPim pim }
    ensures header { result ≡ header_under (new_sealing p.now pim prf from.now) salt.now from.now.fields }
    ensures opens_again { OpensAgain from.now.algorithm (derived prf p.now pim salt.now) from.now.fields }
{
    let keys = derive(prf, p, pim, salt);
    header_of(salt, &seal(from.algorithm, &keys, &from.fields))
}

/// Writes a header into a slot of a container of `len` bytes, and makes it lasting.
pub(crate) fn write_lasting<D: Store>(
    disk: &mut D,
    slot: Slot,
    len: u64,
    header: &[u8; HEADER],
) -> Result<(), Failed>
    requires long { 262656 ≤ len }
    requires size { D.size disk.old ≡ len }
    ensures written { OnOk result (Both (D.image disk.old) (D.image disk.new) (λ b c.
        c ≡ written (place_of slot len) header.now b)) }
    ensures outside { Both (D.image disk.old) (D.image disk.new) (SameOutside (place_of slot len) 512) }
    ensures lasting { OnOk result (IsLasting D.tells (D.image disk.new) (D.may_leave disk.new)) }
    ensures crash { AtEachMoment D.tells (D.moment disk.old) (D.moment disk.new) (D.left_since disk.old)
        (D.left_since disk.new) (D.may_leave disk.old) (D.may_leave disk.new) (SameOutside (place_of slot len) 512) }
    ensures size { D.size disk.new ≡ D.size disk.old }
    ensures cause { HasCause (D.faults disk.old) (D.faults disk.new) (IsErr result) }
{
    write_header(disk, slot, len, header)?;
    disk.sync()
}

/// Writes a header into a slot of a container of `len` bytes.
pub(crate) fn write_header<D: Store>(
    disk: &mut D,
    slot: Slot,
    len: u64,
    header: &[u8; HEADER],
) -> Result<(), Failed>
    requires long { 262656 ≤ len }
    requires size { D.size disk.old ≡ len }
    ensures written { OnOk result (Both (D.image disk.old) (D.image disk.new) (λ b c.
        c ≡ written (place_of slot len) header.now b)) }
    ensures outside { Both (D.image disk.old) (D.image disk.new) (SameOutside (place_of slot len) 512) }
    ensures crash { Outcomes D.tells (D.moment disk.old) (D.moment disk.new) (D.left_since disk.old)
        (D.left_since disk.new) (D.may_leave disk.old) (D.may_leave disk.new) (SameOutside (place_of slot len) 512) }
    ensures size { D.size disk.new ≡ D.size disk.old }
    ensures cause { HasCause (D.faults disk.old) (D.faults disk.new) (IsErr result) }
{
    disk.write_at(slot_at(slot, len), header)
}
