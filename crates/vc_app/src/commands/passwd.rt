//! `passwd`: another password for a volume.
ghost use Rattle.std.specs.Prelude.{◌≡◌};
ghost use Rattle.kdf_hmac.specs.Pbkdf2.{IsPim};
ghost use Rattle.vc_app.specs.Passwd.{passwd_status, promise};
ghost use Rattle.vc_app.specs.declared.commands.passwd.PasswdError.TheVariants.{Open, Work};
ghost use Rattle.vc_app.specs.Promise.{Kept, seen};
ghost use Rattle.vc_app.specs.Status.{ended};

use crate::access::Access;
use crate::counts::{Counts, WorkError};
use crate::status::Status;
use header_change::change;
use header_try::OpenError;
use kdf_hmac::{Password, Prf};
use rand_chacha::ChaCha20Rng;
use rand_core::SeedableRng;
use std::alloc::Global;
use std::thread::Threads;
use vc_outside::{Sink, Store};

/// What `passwd` is asked: what opens the volume now, and the new password, PIM and PRF. With no PRF that of
/// the opened header stays.
#[derive(Drop)]
pub struct Passwd {
    pub access: Access,
    pub password: Password,
    pub pim: u32,
    pub prf: Option<Prf>,
}

/// Why `passwd` failed.
#[derive(Clone, Copy, Debug, PartialEq, Eq)]
pub enum PasswdError {
    /// No header was opened. Nothing changed.
    Open(OpenError),
    /// The work stopped. After a fault of the output both headers are written; after one of the container only
    /// bytes of these two slots may have changed.
    Work(WorkError),
}

impl From<OpenError> for PasswdError {
    ghost from_gives = { λ e p. p ≡ Open e };

    fn from(error: OpenError) -> PasswdError {
        PasswdError::Open(error)
    }
}

impl From<WorkError> for PasswdError {
    ghost from_gives = { λ e p. p ≡ Work e };

    fn from(error: WorkError) -> PasswdError {
        PasswdError::Work(error)
    }
}

impl From<Result<(), PasswdError>> for Status {
    ghost from_gives = { λ r s. s ≡ ended passwd_status r };

    fn from(ended: Result<(), PasswdError>) -> Status {
        match ended {
            Ok(()) => Status::Done,
            Err(PasswdError::Open(error)) => Status::from(error),
            Err(PasswdError::Work(error)) => Status::from(error),
        }
    }
}

/// Opens the volume, writes both headers of its pair under the new password, and says so.
pub fn run_passwd<R: Threads + Sync, D: Store, O: Sink>(
    rt: &R,
    alloc: Global,
    disk: &mut D,
    out: &mut O,
    command: &Passwd,
    random: [u8; 32],
) -> Result<(), PasswdError>
    requires pim { IsPim command.now.access.pim }
    requires new_pim { IsPim command.now.pim }
    ensures { Kept (promise command.now random) (ended passwd_status result)
        (seen ⟦<D as Store>⟧ ⟦<O as Sink>⟧ disk.old out.old) (seen ⟦<D as Store>⟧ ⟦<O as Sink>⟧ disk.new out.new) }
{
    let counts = Counts::new(disk, out);
    let opened = command.access.open(rt, alloc, disk)?;
    let prf = command.prf.unwrap_or(opened.prf);
    let mut rng = ChaCha20Rng::from_seed(random);
    match change(disk, &mut rng, &opened, &command.password, command.pim, prf) {
        Ok(()) => {}
        Err(_) => return Err(PasswdError::Work(WorkError::DiskFault)),
    }
    counts.finish(disk, out, b"ok\n")?;
    Ok(())
}
