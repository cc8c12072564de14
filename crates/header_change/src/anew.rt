//! A volume with another password, and a primary header from its backup.
ghost use Rattle.std.specs.Prelude.{◌≡◌, OnOk, IsErr};
ghost use Rattle.kdf_hmac.specs.Pbkdf2.{IsPim};
ghost use Rattle.vc_base.specs.Faults.{HasCause};
ghost use Rattle.vc_header.specs.Header.{Meets};
ghost use Rattle.vc_outside.specs.Crash.{IsLasting};
ghost use Rattle.vc_outside.specs.Told.{Both};
ghost use Rattle.volume_format.specs.Stream.{advanced};
ghost use Rattle.header_change.specs.Changed.{changed, HasPair, HasPrimary, new_sealing, restored};
ghost use Rattle.header_change.specs.Moments.{AtEachMoment, BackupStays, Changes, EitherStays, HasFields, IsOpen};
ghost use Rattle.header_change.specs.Pair.{OnlyPair, OnlyPrimary};

use crate::header::{new_header, pair_of, write_lasting};
use header_seal::{Opened, headers_open_again};
use kdf_hmac::{Password, Prf};
use rand_chacha::ChaCha20Rng;
use vc_header::validity_is_decided;
use vc_outside::{Failed, Store};
use volume_format::next_salt;

/// Gives the opened volume another password, PIM and PRF: writes the primary header of the opened one's pair
/// and makes it lasting, then its backup. It ends at the first failure. The master keys stay, so an old copy of
/// a header still opens by the old password.
pub fn change<D: Store>(
    disk: &mut D,
    rng: &mut ChaCha20Rng,
    from: &Opened,
    p: &Password,
    pim: u32,
    prf: Prf,
) -> Result<(), Failed>
    requires pim { IsPim pim }
    requires meets { Meets from.now.fields from.now.slot (D.size disk.old) }

    // What is made, if the store's contents are known.
    ensures changed { OnOk result (Both (D.image disk.old) (D.image disk.new) (λ b c.
        c ≡ changed rng.old (new_sealing p.now pim prf from.now) from.now b)) }
    ensures headers { OnOk result (Both (D.image disk.old) (D.image disk.new) (λ _ c.
        HasPair from.now.slot (new_sealing p.now pim prf from.now) from.now.fields c)) }
    ensures lasting { OnOk result (IsLasting D.tells (D.image disk.new) (D.may_leave disk.new)) }

    // What holds whatever the result is.
    ensures cause { HasCause (D.faults disk.old) (D.faults disk.new) (IsErr result) }
    ensures drawn { rng.new ≡ advanced rng.old 128 }
    ensures outside { Both (D.image disk.old) (D.image disk.new) (OnlyPair from.now.slot) }
    ensures size { D.size disk.new ≡ D.size disk.old }

    // What a crash at any moment of the call leaves, if the store models it: a header that opens.
    ensures crash { AtEachMoment D.tells (D.moment disk.old) (D.moment disk.new) (D.left_since disk.old)
        (D.left_since disk.new) (D.may_leave disk.old) (D.may_leave disk.new)
        (Changes from.now.slot (new_sealing p.now pim prf from.now) from.now.fields) }
    ensures either_carries { EitherStays D.tells (D.may_leave disk.old) (D.left_since disk.new (D.moment disk.old))
        HasFields from.now.slot (new_sealing p.now pim prf from.now) from.now.fields }
    ensures either_opens { EitherStays D.tells (D.may_leave disk.old) (D.left_since disk.new (D.moment disk.old))
        IsOpen from.now.slot (new_sealing p.now pim prf from.now) from.now.fields }
{
    headers_open_again();
    validity_is_decided();
    let len = disk.len();
    let (primary, backup) = pair_of(from.slot);
    let salt = next_salt(rng);
    let backup_salt = next_salt(rng);
    let header = new_header(from, p, pim, prf, &salt);
    let backup_header = new_header(from, p, pim, prf, &backup_salt);
    write_lasting(disk, primary, len, &header)?;
    write_lasting(disk, backup, len, &backup_header)
}

/// Writes the primary header of the opened one's pair anew, with its fields and PRF, and makes it lasting. The
/// opened header is mostly the pair's backup, which stays as it is, so nothing is lost if the call fails.
pub fn restore<D: Store>(
    disk: &mut D,
    rng: &mut ChaCha20Rng,
    from: &Opened,
    p: &Password,
    pim: u32,
) -> Result<(), Failed>
    requires pim { IsPim pim }
    requires meets { Meets from.now.fields from.now.slot (D.size disk.old) }

    // What is made, if the store's contents are known.
    ensures restored { OnOk result (Both (D.image disk.old) (D.image disk.new) (λ b c.
        c ≡ restored rng.old (new_sealing p.now pim from.now.prf from.now) from.now b)) }
    ensures header { OnOk result (Both (D.image disk.old) (D.image disk.new) (λ _ c.
        HasPrimary from.now.slot (new_sealing p.now pim from.now.prf from.now) from.now.fields c)) }
    ensures lasting { OnOk result (IsLasting D.tells (D.image disk.new) (D.may_leave disk.new)) }

    // What holds whatever the result is.
    ensures cause { HasCause (D.faults disk.old) (D.faults disk.new) (IsErr result) }
    ensures drawn { rng.new ≡ advanced rng.old 64 }
    ensures outside { Both (D.image disk.old) (D.image disk.new) (OnlyPrimary from.now.slot) }
    ensures size { D.size disk.new ≡ D.size disk.old }

    // What a crash at any moment of the call leaves, if the store models it: the backup as it was.
    ensures crash { AtEachMoment D.tells (D.moment disk.old) (D.moment disk.new) (D.left_since disk.old)
        (D.left_since disk.new) (D.may_leave disk.old) (D.may_leave disk.new) (OnlyPrimary from.now.slot) }
    ensures backup_carries { BackupStays D.tells (D.may_leave disk.old) (D.left_since disk.new (D.moment disk.old))
        HasFields from.now.slot from.now.fields }
    ensures backup_opens { BackupStays D.tells (D.may_leave disk.old) (D.left_since disk.new (D.moment disk.old))
        IsOpen from.now.slot from.now.fields }
{
    headers_open_again();
    validity_is_decided();
    let len = disk.len();
    let (primary, _backup) = pair_of(from.slot);
    let salt = next_salt(rng);
    let header = new_header(from, p, pim, from.prf, &salt);
    write_lasting(disk, primary, len, &header)
}
