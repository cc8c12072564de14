//! `hide`: a hidden volume in a container.
ghost use Rattle.std.specs.Prelude.{◌≡◌};
ghost use Rattle.kdf_hmac.specs.Pbkdf2.{IsPim};
ghost use Rattle.vc_app.specs.Hide.{hide_status, promise};
ghost use Rattle.vc_app.specs.Promise.{Kept, seen};
ghost use Rattle.vc_app.specs.Status.{ended};

use crate::counts::{Counts, WorkError};
use crate::status::Status;
use rand_chacha::ChaCha20Rng;
use rand_core::SeedableRng;
use vc_layout::is_container_length;
use vc_outside::{Sink, Store};
use volume_format::{FormatError as HiddenError, HiddenSpec, format_hidden};

/// Why `hide` failed.
#[derive(Clone, Copy, Debug, PartialEq, Eq)]
pub enum HideError {
    /// The container has this many bytes, fewer or more than a container may have. Nothing changed.
    Length(u64),
    /// The container can't have a hidden volume of the asked size. Nothing changed.
    BadSize,
    /// The work stopped. After a fault of the output the hidden volume is made; after one of the container only
    /// bytes of its two header slots may have changed.
    Work(WorkError),
}

impl From<WorkError> for HideError {
    ghost use Rattle.vc_app.specs.declared.commands.hide.HideError.{HideError};

    ghost from_gives = { λ e h. h ≡ HideError.Work e };

    fn from(error: WorkError) -> HideError {
        HideError::Work(error)
    }
}

impl From<Result<(), HideError>> for Status {
    ghost from_gives = { λ r s. s ≡ ended hide_status r };

    fn from(ended: Result<(), HideError>) -> Status {
        match ended {
            Ok(()) => Status::Done,
            Err(HideError::Length(len)) => Status::Length(len),
            Err(HideError::BadSize) => Status::BadSize,
            Err(HideError::Work(error)) => Status::from(error),
        }
    }
}

/// Makes the hidden volume, from the stream of a random key, and says so.
pub fn run_hide<D: Store, O: Sink>(
    disk: &mut D,
    out: &mut O,
    spec: &HiddenSpec,
    random: [u8; 32],
) -> Result<(), HideError>
    requires { IsPim spec.now.pim }
    ensures { Kept (promise spec.now random) (ended hide_status result)
        (seen ⟦<D as Store>⟧ ⟦<O as Sink>⟧ disk.old out.old) (seen ⟦<D as Store>⟧ ⟦<O as Sink>⟧ disk.new out.new) }
{
    let counts = Counts::new(disk, out);
    let len = disk.len();
    if !is_container_length(len) {
        return Err(HideError::Length(len));
    }
    let mut rng = ChaCha20Rng::from_seed(random);
    match format_hidden(disk, &mut rng, spec) {
        Ok(()) => {}
        Err(HiddenError::BadSize) => return Err(HideError::BadSize),
        Err(HiddenError::WriteFault) => return Err(HideError::Work(WorkError::DiskFault)),
        Err(HiddenError::NoMemory) => unreachable!(),
    }
    counts.finish(disk, out, b"ok\n")?;
    Ok(())
}
