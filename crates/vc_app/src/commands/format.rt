//! `format`: a new container with an outer volume.
ghost use Rattle.std.specs.Prelude.{◌≡◌};
ghost use Rattle.kdf_hmac.specs.Pbkdf2.{IsPim};
ghost use Rattle.vc_app.specs.Format.{format_status, promise};
ghost use Rattle.vc_app.specs.declared.commands.format.FormatError.TheVariants.{Work};
ghost use Rattle.vc_app.specs.Promise.{Kept, seen};
ghost use Rattle.vc_app.specs.Status.{ended};

use crate::counts::{Counts, WorkError};
use crate::status::Status;
use rand_chacha::ChaCha20Rng;
use rand_core::SeedableRng;
use vc_outside::{Sink, Store};
use volume_format::{FormatError as OuterError, FormatSpec, format_outer};

/// Why `format` failed.
#[derive(Clone, Copy, Debug, PartialEq, Eq)]
pub enum FormatError {
    /// No container can have the asked size. Nothing changed.
    BadSize,
    /// The work stopped. After a fault of the output the container is made; after one of the container it holds
    /// nothing of use; out of memory, it is one or as before.
    Work(WorkError),
}

impl From<WorkError> for FormatError {
    ghost from_gives = { λ e f. f ≡ Work e };

    fn from(error: WorkError) -> FormatError {
        FormatError::Work(error)
    }
}

impl From<Result<(), FormatError>> for Status {
    ghost from_gives = { λ r s. s ≡ ended format_status r };

    fn from(ended: Result<(), FormatError>) -> Status {
        match ended {
            Ok(()) => Status::Done,
            Err(FormatError::BadSize) => Status::BadSize,
            Err(FormatError::Work(error)) => Status::from(error),
        }
    }
}

/// Formats the container, from the stream of a random key, and says so.
pub fn run_format<D: Store, O: Sink>(
    disk: &mut D,
    out: &mut O,
    spec: &FormatSpec,
    random: [u8; 32],
) -> Result<(), FormatError>
    requires { IsPim spec.now.pim }
    ensures { Kept (promise spec.now random) (ended format_status result)
        (seen ⟦<D as Store>⟧ ⟦<O as Sink>⟧ disk.old out.old) (seen ⟦<D as Store>⟧ ⟦<O as Sink>⟧ disk.new out.new) }
{
    let counts = Counts::new(disk, out);
    let mut rng = ChaCha20Rng::from_seed(random);
    match format_outer(disk, &mut rng, spec) {
        Ok(()) => {}
        Err(OuterError::BadSize) => return Err(FormatError::BadSize),
        Err(OuterError::WriteFault) => return Err(FormatError::Work(WorkError::DiskFault)),
        Err(OuterError::NoMemory) => return Err(FormatError::Work(WorkError::NoMemory)),
    }
    counts.finish(disk, out, b"ok\n")?;
    Ok(())
}
