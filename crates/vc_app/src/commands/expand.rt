//! `expand`: a longer container, in place.
ghost use Rattle.std.specs.Prelude.{◌≡◌};
ghost use Rattle.kdf_hmac.specs.Pbkdf2.{IsPim};
ghost use Rattle.vc_layout.specs.declared.kind.Kind.TheVariants.{StandardOnly};
ghost use Rattle.vc_app.specs.Expand.{expand_status, promise};
ghost use Rattle.vc_app.specs.declared.commands.expand.ExpandError.TheVariants.{Open, Work};
ghost use Rattle.vc_app.specs.Promise.{Kept, seen};
ghost use Rattle.vc_app.specs.Status.{ended};

use crate::access::Access;
use crate::counts::{Counts, WorkError};
use crate::status::Status;
use header_try::OpenError;
use rand_chacha::ChaCha20Rng;
use rand_core::SeedableRng;
use std::alloc::Global;
use std::thread::Threads;
use vc_outside::{Sink, Store};
use vol_expand::{ExpandError as GrowthError, expand};

/// What `expand` is asked: what opens the standard volume, and the container's new size in bytes.
#[derive(Drop)]
pub struct Expand {
    pub access: Access,
    pub size: u64,
}

/// Why `expand` failed.
#[derive(Clone, Copy, Debug, PartialEq, Eq)]
pub enum ExpandError {
    /// No header was opened. Nothing changed.
    Open(OpenError),
    /// The container can't get this size. Nothing changed.
    BadSize,
    /// The work stopped. After a fault of the output the container is expanded. After one of the container its old
    /// header opens or the new backup does, to a volume that begins with the old volume's bytes.
    Work(WorkError),
}

impl From<OpenError> for ExpandError {
    ghost from_gives = { λ e x. x ≡ Open e };

    fn from(error: OpenError) -> ExpandError {
        ExpandError::Open(error)
    }
}

impl From<WorkError> for ExpandError {
    ghost from_gives = { λ e x. x ≡ Work e };

    fn from(error: WorkError) -> ExpandError {
        ExpandError::Work(error)
    }
}

impl From<Result<(), ExpandError>> for Status {
    ghost from_gives = { λ r s. s ≡ ended expand_status r };

    fn from(ended: Result<(), ExpandError>) -> Status {
        match ended {
            Ok(()) => Status::Done,
            Err(ExpandError::Open(error)) => Status::from(error),
            Err(ExpandError::BadSize) => Status::BadSize,
            Err(ExpandError::Work(error)) => Status::from(error),
        }
    }
}

/// Opens the standard header, gives the container its new size and the volume all of it, and says so. The access is
/// to the standard header alone.
pub fn run_expand<R: Threads + Sync, D: Store, O: Sink>(
    rt: &R,
    alloc: Global,
    disk: &mut D,
    out: &mut O,
    command: &Expand,
    random: [u8; 32],
) -> Result<(), ExpandError>
    requires pim { IsPim command.now.access.pim }
    requires kind { command.now.access.kind ≡ StandardOnly }
    ensures { Kept (promise command.now random) (ended expand_status result)
        (seen ⟦<D as Store>⟧ ⟦<O as Sink>⟧ disk.old out.old) (seen ⟦<D as Store>⟧ ⟦<O as Sink>⟧ disk.new out.new) }
{
    let counts = Counts::new(disk, out);
    let opened = command.access.open(rt, alloc, disk)?;
    let mut rng = ChaCha20Rng::from_seed(random);
    let access = &command.access;
    match expand(
        disk,
        &mut rng,
        &opened,
        &access.password,
        access.pim,
        command.size,
    ) {
        Ok(()) => {}
        Err(GrowthError::BadSize) => return Err(ExpandError::BadSize),
        Err(GrowthError::DiskFault) => return Err(ExpandError::Work(WorkError::DiskFault)),
        Err(GrowthError::NoMemory) => {
            if counts.disk_failed(disk) {
                return Err(ExpandError::Work(WorkError::DiskFault));
            }
            return Err(ExpandError::Work(WorkError::NoMemory));
        }
    }
    counts.finish(disk, out, b"ok\n")?;
    Ok(())
}
