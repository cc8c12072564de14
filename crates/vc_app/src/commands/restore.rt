//! `restore`: the primary header of a volume from its backup.
ghost use Rattle.std.specs.Prelude.{◌≡◌};
ghost use Rattle.kdf_hmac.specs.Pbkdf2.{IsPim};
ghost use Rattle.vc_app.specs.Restore.{promise, restore_status};
ghost use Rattle.vc_app.specs.declared.commands.restore.RestoreError.TheVariants.{Open, Work};
ghost use Rattle.vc_app.specs.Promise.{Kept, seen};
ghost use Rattle.vc_app.specs.Status.{ended};

use crate::access::Access;
use crate::counts::{Counts, WorkError};
use crate::status::Status;
use header_change::restore;
use header_try::OpenError;
use rand_chacha::ChaCha20Rng;
use rand_core::SeedableRng;
use std::alloc::Global;
use std::thread::Threads;
use vc_outside::{Sink, Store};

/// Why `restore` failed.
#[derive(Clone, Copy, Debug, PartialEq, Eq)]
pub enum RestoreError {
    /// No backup header was opened. Nothing changed.
    Open(OpenError),
    /// The work stopped. After a fault of the output the header is written; after one of the container only bytes
    /// of its slot may have changed.
    Work(WorkError),
}

impl From<OpenError> for RestoreError {
    ghost from_gives = { λ e r. r ≡ Open e };

    fn from(error: OpenError) -> RestoreError {
        RestoreError::Open(error)
    }
}

impl From<WorkError> for RestoreError {
    ghost from_gives = { λ e r. r ≡ Work e };

    fn from(error: WorkError) -> RestoreError {
        RestoreError::Work(error)
    }
}

impl From<Result<(), RestoreError>> for Status {
    ghost from_gives = { λ r s. s ≡ ended restore_status r };

    fn from(ended: Result<(), RestoreError>) -> Status {
        match ended {
            Ok(()) => Status::Done,
            Err(RestoreError::Open(error)) => Status::from(error),
            Err(RestoreError::Work(error)) => Status::from(error),
        }
    }
}

/// Opens a backup header, writes the primary header of its pair from it, and says so. The access is to a kind of
/// backup headers.
pub fn run_restore<R: Threads + Sync, D: Store, O: Sink>(
    rt: &R,
    alloc: Global,
    disk: &mut D,
    out: &mut O,
    access: &Access,
    random: [u8; 32],
) -> Result<(), RestoreError>
    requires { IsPim access.now.pim }
    ensures { Kept (promise access.now random) (ended restore_status result)
        (seen ⟦<D as Store>⟧ ⟦<O as Sink>⟧ disk.old out.old) (seen ⟦<D as Store>⟧ ⟦<O as Sink>⟧ disk.new out.new) }
{
    let counts = Counts::new(disk, out);
    let opened = access.open(rt, alloc, disk)?;
    let mut rng = ChaCha20Rng::from_seed(random);
    match restore(disk, &mut rng, &opened, &access.password, access.pim) {
        Ok(()) => {}
        Err(_) => return Err(RestoreError::Work(WorkError::DiskFault)),
    }
    counts.finish(disk, out, b"ok\n")?;
    Ok(())
}
