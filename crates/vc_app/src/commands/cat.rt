//! `cat`: sectors of the plain volume, deciphered and written.
ghost use Rattle.std.specs.Prelude.{◌≡◌, ◌≤◌, ◌+◌, ◌*◌, ◌/◌, ◌%◌, ◌^◌, IfSome, IsErr, IsErrOf, OnOk, length, min};
ghost use Rattle.std.specs.Thread.{IsSync};
ghost use Rattle.vc_base.specs.Bytes.{in_pieces};
ghost use Rattle.vc_base.specs.Faults.{HasCause};
ghost use Rattle.cascade_set.specs.Volume.{plain_units};
ghost use Rattle.kdf_hmac.specs.Pbkdf2.{IsPim};
ghost use Rattle.vc_layout.specs.Layout.{IsSectorSize};
ghost use Rattle.vc_header.specs.Header.{Meets};
ghost use Rattle.vc_outside.specs.Crash.{Outcomes, Stays};
ghost use Rattle.vc_outside.specs.Told.{Grows, GrowsByFront};
ghost use Rattle.vc_app.specs.Cat.{asked, cat_status, promise};
ghost use Rattle.vc_app.specs.declared.commands.cat.CatError.TheVariants.{Open, Work};
ghost use Rattle.vc_app.specs.Laws.Units.{AreUnits};
ghost use Rattle.vc_app.specs.Promise.{Kept, LeavesNoMore, seen};
ghost use Rattle.vc_app.specs.Status.{ended};

use crate::access::Access;
use crate::counts::{Counts, WorkError};
use crate::output::write_all;
use crate::status::Status;
use cascade_set::{Keyed, Keys};
use cipher_base::UnitCipher;
use header_try::{OpenError, Opened};
use sector_view::decipher_all;
use std::alloc::Global;
use std::mem::swap;
use std::thread::{Threads, join_mut};
use vc_layout::DATA_UNIT;
use vc_outside::{Failed, Sink, Store};

/// The most data units that a buffer holds: 1 MiB, which several threads decipher in parts.
const BUFFER_UNITS: u64 = 2048;

/// What `cat` is asked: `count` sectors from `first` on, of the volume that is opened.
#[derive(Drop)]
pub struct Cat {
    pub first: u64,
    pub count: u64,
    pub access: Access,
}

/// Why `cat` failed. The container is as before in every case.
#[derive(Clone, Copy, Debug, PartialEq, Eq)]
pub enum CatError {
    /// No header was opened.
    Open(OpenError),
    /// The volume doesn't have all of the asked sectors.
    BadSize,
    /// Reading or writing sectors stopped. A prefix of them may have been written.
    Work(WorkError),
}

impl From<OpenError> for CatError {
    ghost from_gives = { λ e c. c ≡ Open e };

    fn from(error: OpenError) -> CatError {
        CatError::Open(error)
    }
}

impl From<WorkError> for CatError {
    ghost from_gives = { λ e c. c ≡ Work e };

    fn from(error: WorkError) -> CatError {
        CatError::Work(error)
    }
}

impl From<Result<(), CatError>> for Status {
    ghost from_gives = { λ r s. s ≡ ended cat_status r };

    fn from(ended: Result<(), CatError>) -> Status {
        match ended {
            Ok(()) => Status::Done,
            Err(CatError::Open(error)) => Status::from(error),
            Err(CatError::BadSize) => Status::BadSize,
            Err(CatError::Work(error)) => Status::from(error),
        }
    }
}

/// Opens the volume and writes the asked sectors.
pub fn run_cat<R: Threads + Sync, D: Store, O: Sink>(
    rt: &R,
    alloc: Global,
    disk: &mut D,
    out: &mut O,
    command: &Cat,
) -> Result<(), CatError>
    requires { IsPim command.now.access.pim }
    ensures { Kept (promise command.now) (ended cat_status result)
        (seen ⟦<D as Store>⟧ ⟦<O as Sink>⟧ disk.old out.old) (seen ⟦<D as Store>⟧ ⟦<O as Sink>⟧ disk.new out.new) }
{
    let counts = Counts::new(disk, out);
    let opened = command.access.open(rt, alloc, disk)?;
    let sectors = opened.fields.volume_size / u64::from(opened.fields.sector);
    if command.first > sectors || command.count > sectors - command.first {
        return Err(CatError::BadSize);
    }
    let written = write_sectors(rt, alloc, disk, out, command, &opened);
    counts.settle(disk, out, written)?;
    Ok(())
}

// Writes the asked sectors of an opened volume, which has them.
fn write_sectors<R: Threads + Sync, D: Store, O: Sink>(
    rt: &R,
    alloc: Global,
    disk: &mut D,
    out: &mut O,
    command: &Cat,
    opened: &Opened,
) -> Result<(), WorkError>
    requires meets { Meets opened.now.fields opened.now.slot (D.size disk.old) }
    requires small { D.size disk.old ≤ 2 ^ 60 }
    requires within { command.now.first + command.now.count ≤ opened.now.fields.volume_size / opened.now.fields.sector }
    ensures done { OnOk result (IfSome (D.image disk.old) (λ b.
        Grows (O.contents out.old) (O.contents out.new) (asked command.now opened.now b))) }
    ensures front { IfSome (D.image disk.old) (λ b.
        GrowsByFront (O.contents out.old) (O.contents out.new) (asked command.now opened.now b)) }
    ensures disk_cause { HasCause (D.faults disk.old) (D.faults disk.new) (IsErrOf result WorkError.DiskFault) }
    ensures out_cause { HasCause (O.faults out.old) (O.faults out.new) (IsErrOf result WorkError.OutFault) }
    ensures image { D.image disk.new ≡ D.image disk.old }
    ensures size { D.size disk.new ≡ D.size disk.old }
    ensures crash { LeavesNoMore (seen ⟦<D as Store>⟧ ⟦<O as Sink>⟧ disk.old out.old)
        (seen ⟦<D as Store>⟧ ⟦<O as Sink>⟧ disk.new out.new) }
{
    let keyed = Keyed::new(&Keys {
        algorithm: opened.algorithm,
        material: opened.fields.material,
    });
    let unit = opened.fields.start / DATA_UNIT + units_of(command.first, opened.fields.sector);
    let count = units_of(command.count, opened.fields.sector);
    write_units(rt, alloc, disk, out, &keyed, unit, count)
}

// The data units that so many sectors have.
fn units_of(sectors: u64, sector: u32) -> u64
    requires size { IsSectorSize sector }
    requires small { sectors * sector ≤ 2 ^ 60 }
    ensures units { result ≡ sector / 512 * sectors }
    ensures bytes { result * 512 ≡ sectors * sector }
{
    u64::from(sector) / DATA_UNIT * sectors
}

// Writes `count` deciphered data units, of which the first has the number `unit`. While one part is deciphered, the next
// one is read into a second buffer, and then the buffers change roles. A single part takes no second buffer.
fn write_units<R: Threads + Sync, D: Store, O: Sink, C: UnitCipher + Sync>(
    rt: &R,
    alloc: Global,
    disk: &mut D,
    out: &mut O,
    cipher: &C,
    unit: u64,
    count: u64,
) -> Result<(), WorkError>
    requires within { (unit + count) * 512 ≤ D.size disk.old }
    requires small { D.size disk.old ≤ 2 ^ 60 }
    ensures done { OnOk result (IfSome (D.image disk.old) (λ b.
        Grows (O.contents out.old) (O.contents out.new) (plain_units (C.deciphered cipher.now) b unit count))) }
    ensures front { IfSome (D.image disk.old) (λ b.
        GrowsByFront (O.contents out.old) (O.contents out.new) (plain_units (C.deciphered cipher.now) b unit count)) }
    ensures disk_cause { HasCause (D.faults disk.old) (D.faults disk.new) (IsErrOf result WorkError.DiskFault) }
    ensures out_cause { HasCause (O.faults out.old) (O.faults out.new) (IsErrOf result WorkError.OutFault) }
    ensures image { D.image disk.new ≡ D.image disk.old }
    ensures size { D.size disk.new ≡ D.size disk.old }
    ensures crash { LeavesNoMore (seen ⟦<D as Store>⟧ ⟦<O as Sink>⟧ disk.old out.old)
        (seen ⟦<D as Store>⟧ ⟦<O as Sink>⟧ disk.new out.new) }
{
    let first = bytes_of_part(count);
    let second = bytes_of_part(count - count.min(BUFFER_UNITS));
    let Ok(mut current) = vec![in alloc; 0u8; first] else {
        return Err(WorkError::NoMemory);
    };
    let Ok(mut ahead) = vec![in alloc; 0u8; second] else {
        return Err(WorkError::NoMemory);
    };
    let Ok(()) = disk.read_at(unit * DATA_UNIT, &mut current) else {
        return Err(WorkError::DiskFault);
    };
    let mut at = unit;
    let mut left = count;
    'parts: while left > BUFFER_UNITS {
        let next = bytes_of_part(left - BUFFER_UNITS);
        ahead.truncate(next);
        write_part(rt, disk, out, cipher, at, &mut current, &mut ahead)?;
        swap(&mut current, &mut ahead);
        at += BUFFER_UNITS;
        left -= BUFFER_UNITS;
    }
    let last = current.as_mut_slice();
    decipher_all(rt, cipher, at, last);
    write_all(out, last)
}

// The length in bytes of the next part, if so many data units are left.
fn bytes_of_part(units: u64) -> usize
    ensures { result ≡ min units 2048 * 512 }
{
    units.min(BUFFER_UNITS) as usize * 512
}

// Deciphers and writes data units that were read, of which the first has the number `unit`, and meanwhile reads those
// after them. If the read fails, what was deciphered is written all the same.
fn write_part<R: Threads + Sync, D: Store, O: Sink, C: UnitCipher + Sync>(
    rt: &R,
    disk: &mut D,
    out: &mut O,
    cipher: &C,
    unit: u64,
    bytes: &mut [u8],
    ahead: &mut [u8],
) -> Result<(), WorkError>
    requires whole { length bytes.old % 512 ≡ 0 }
    requires within { unit * 512 + length bytes.old + length ahead.old ≤ D.size disk.old }
    requires small { D.size disk.old ≤ 2 ^ 60 }
    requires were_read { AreUnits (D.image disk.old) unit bytes.old }
    ensures read { OnOk result (AreUnits (D.image disk.old) (unit + length bytes.old / 512) ahead.new) }
    ensures done { OnOk result (IfSome (D.image disk.old) (λ b.
        Grows (O.contents out.old) (O.contents out.new)
        (plain_units (C.deciphered cipher.now) b unit (length bytes.old / 512)))) }
    ensures front { IfSome (D.image disk.old) (λ b.
        GrowsByFront (O.contents out.old) (O.contents out.new)
        (plain_units (C.deciphered cipher.now) b unit (length bytes.old / 512))) }
    ensures disk_cause { HasCause (D.faults disk.old) (D.faults disk.new) (IsErrOf result WorkError.DiskFault) }
    ensures out_cause { HasCause (O.faults out.old) (O.faults out.new) (IsErrOf result WorkError.OutFault) }
    ensures image { D.image disk.new ≡ D.image disk.old }
    ensures size { D.size disk.new ≡ D.size disk.old }
    ensures crash { LeavesNoMore (seen ⟦<D as Store>⟧ ⟦<O as Sink>⟧ disk.old out.old)
        (seen ⟦<D as Store>⟧ ⟦<O as Sink>⟧ disk.new out.new) }
{
    let read = decipher_and_read(rt, disk, cipher, unit, bytes, ahead);
    write_all(out, bytes)?;
    let Ok(()) = read else {
        return Err(WorkError::DiskFault);
    };
    Ok(())
}

// Deciphers data units, of which the first has the number `unit`, and meanwhile reads those after them.
fn decipher_and_read<R: Threads + Sync, D: Store, C: UnitCipher + Sync>(
    rt: &R,
    disk: &mut D,
    cipher: &C,
    unit: u64,
    bytes: &mut [u8],
    ahead: &mut [u8],
) -> Result<(), Failed>
    requires whole { length bytes.old % 512 ≡ 0 }
    requires within { unit * 512 + length bytes.old + length ahead.old ≤ D.size disk.old }
    requires small { D.size disk.old ≤ 2 ^ 60 }
    ensures deciphered { bytes.new ≡ in_pieces 512 (λ i u. C.deciphered cipher.now (unit + i) u) bytes.old }
    ensures read { OnOk result (AreUnits (D.image disk.old) (unit + length bytes.old / 512) ahead.new) }
    ensures cause { HasCause (D.faults disk.old) (D.faults disk.new) (IsErr result) }
    ensures image { D.image disk.new ≡ D.image disk.old }
    ensures size { D.size disk.new ≡ D.size disk.old }
    ensures crash { Outcomes D.tells (D.moment disk.old) (D.moment disk.new) (D.left_since disk.old) (D.left_since disk.new)
        (D.may_leave disk.old) (D.may_leave disk.new) Stays }
{
    let next = unit * DATA_UNIT + bytes.len() as u64;
    let (_, read) = join_mut(
        rt,
        &mut ||
            requires sync { IsSync R.row × IsSync C.row }
            requires whole { length bytes.now % 512 ≡ 0 }
            requires within { unit + length bytes.now / 512 ≤ 2 ^ 55 }
            ensures { bytes.exit.now ≡ in_pieces 512
                (λ i u. C.deciphered cipher.entry.now (unit + i) u) bytes.entry.now }
        { decipher_all(rt, cipher, unit, bytes) },
        &mut ||
            requires { next + length ahead.now ≤ D.size disk.now }
        { disk.read_at(next, ahead) },
    );
    read
}
