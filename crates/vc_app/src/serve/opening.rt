//! Opening a volume that is to be served.
ghost use Rattle.std.specs.Prelude.{◌≡◌, ◌≢◌, ◌≤◌, ◌<◌, ◌⊎◌, ℕ, true, IfErr, IfOk, IfSome, IsErrOf, None, OnOk, Some};
ghost use Rattle.vc_base.specs.Faults.{Rose};
ghost use Rattle.kdf_hmac.specs.Pbkdf2.{IsPim};
ghost use Rattle.vc_layout.specs.Layout.{IsContainerLength};
ghost use Rattle.vc_header.specs.Header.{Meets};
ghost use Rattle.vc_outside.specs.Crash.{Outcomes, Stays};
ghost use Rattle.vc_app.specs.Access.{opened};
ghost use Rattle.vc_app.specs.Laws.Hidden.{Unprotected};
ghost use Rattle.vc_app.specs.Serve.{hidden_units, Protects, Refuses};

use crate::access::Access;
use crate::serve::asked::Asked;
use crate::status::Status;
use header_try::{OpenError, Opened};
use std::alloc::Global;
use std::thread::Threads;
use vc_header::protect_of;
use vc_outside::{Gate, Store};

// Opens the volume's header, and then the hidden one that is protected. Returns the first, and the data units of the
// hidden volume. Being out of memory hides no fault of a read.
pub(crate) fn open_asked<R: Threads + Sync, D: Store, G: Gate>(
    rt: &R,
    alloc: Global,
    disk: &mut D,
    asked: &Asked,
    gate: &G,
) -> Result<(Opened, Option<(u64, u64)>), Status>
    requires pim { IsPim asked.now.access.pim }
    requires protect_pim { IfSome asked.now.protect (λ p. IsPim p.pim) }
    requires workers { (1 ≤ asked.now.workers) × (asked.now.workers ≤ 8) }
    ensures opened { IfOk result (λ r. IfSome (D.image disk.old) (λ b. opened asked.now.access b ≡ Some r.0)) }
    ensures meets { IfOk result (λ r. Meets r.0.fields r.0.slot (D.size disk.old)) }
    ensures in_range { OnOk result (IsContainerLength (D.size disk.old)) }
    ensures range { IfOk result (λ r. Protects asked.now.protect (D.image disk.old) r.1) }
    ensures refused { IfErr result (λ s. Refuses asked.now (D.image disk.old) (D.size disk.old)
        (D.faults disk.old) (D.faults disk.new) s) }
    ensures later { D.faults disk.old ≤ D.faults disk.new }
    ensures image { D.image disk.new ≡ D.image disk.old }
    ensures size { D.size disk.new ≡ D.size disk.old }
    ensures crash { Outcomes D.tells (D.moment disk.old) (D.moment disk.new) (D.left_since disk.old)
        (D.left_since disk.new) (D.may_leave disk.old) (D.may_leave disk.new) Stays }
{
    let faults = disk.faults();
    let opened = match asked.access.open_by(rt, alloc, disk, asked.workers, gate) {
        Ok(opened) => opened,
        Err(error) => return Err(Status::from(error)),
    };
    match &asked.protect {
        None => Ok((opened, None)),
        Some(access) => match open_hidden(rt, alloc, disk, access, faults, asked.workers, gate) {
            Ok(units) => Ok((opened, Some(units))),
            Err(status) => Err(status),
        },
    }
}

// Opens the hidden header that is protected, once the volume's own was opened, and returns the data units of the
// hidden volume. `faults` is the container's count when the call began.
fn open_hidden<R: Threads + Sync, D: Store, G: Gate>(
    rt: &R,
    alloc: Global,
    disk: &mut D,
    access: &Access,
    faults: u64,
    workers: u32,
    gate: &G,
) -> Result<(u64, u64), Status>
    requires pim { IsPim access.now.pim }
    requires workers { (1 ≤ workers) × (workers ≤ 8) }
    requires in_range { IsContainerLength (D.size disk.old) }
    requires faults { faults ≤ D.faults disk.old }
    ensures units { IfOk result (λ r. Protects (Some access.now) (D.image disk.old) (Some r)) }
    ensures refused { IfErr result (λ s. Unprotected access.now (D.image disk.old) faults (D.faults disk.new) s) }
    ensures later { D.faults disk.old ≤ D.faults disk.new }
    ensures image { D.image disk.new ≡ D.image disk.old }
    ensures size { D.size disk.new ≡ D.size disk.old }
    ensures crash { Outcomes D.tells (D.moment disk.old) (D.moment disk.new) (D.left_since disk.old)
        (D.left_since disk.new) (D.may_leave disk.old) (D.may_leave disk.new) Stays }
{
    match access.open_by(rt, alloc, disk, workers, gate) {
        Ok(opened) => Ok(protect_of(&opened.fields)),
        Err(OpenError::NoHeader) => Err(Status::NoHidden),
        Err(OpenError::NoMemory) => Err(memory_status(disk, faults)),
        Err(OpenError::Length(_) | OpenError::ReadFault) => Err(Status::DiskFault),
    }
}

// The status of a call that is out of memory. `faults` is the container's count when the call began: being out of
// memory hides no fault.
pub(crate) fn memory_status<D: Store>(disk: &D, faults: u64) -> Status
    requires later { faults ≤ D.faults disk.now }
    ensures { ((result ≡ Status.DiskFault) × Rose faults (D.faults disk.now))
        ⊎ ((result ≡ Status.NoMemory) × (D.faults disk.now ≡ faults)) }
{
    if disk.faults() != faults {
        return Status::DiskFault;
    }
    Status::NoMemory
}
