//! `info`: what the opened header says.
ghost use Rattle.std.specs.Prelude.{◌≡◌, ◌≤◌, IfOk, IsErrOf, OnOk, string_bytes};
ghost use Rattle.kdf_hmac.specs.Pbkdf2.{IsPim};
ghost use Rattle.vc_outside.specs.Told.{Grows, GrowsByFront};
ghost use Rattle.vc_app.specs.Info.{info_status, promise, text_of};
ghost use Rattle.vc_app.specs.declared.commands.info.InfoError.TheVariants.{Open, Work};
ghost use Rattle.vc_app.specs.Promise.{Kept, seen};
ghost use Rattle.vc_app.specs.Laws.Settled.{Settled};
ghost use Rattle.vc_app.specs.Status.{ended};

use crate::access::Access;
use crate::counts::{Counts, WorkError};
use crate::output::push_line;
use crate::status::Status;
use header_try::{OpenError, Opened};
use std::alloc::{AllocError, Global};
use std::thread::Threads;
use vc_outside::{Sink, Store};

/// Why `info` failed. The container is as before in every case.
#[derive(Clone, Copy, Debug, PartialEq, Eq)]
pub enum InfoError {
    /// No header was opened.
    Open(OpenError),
    /// The text wasn't written whole.
    Work(WorkError),
}

impl From<OpenError> for InfoError {
    ghost from_gives = { λ e i. i ≡ Open e };

    fn from(error: OpenError) -> InfoError {
        InfoError::Open(error)
    }
}

impl From<WorkError> for InfoError {
    ghost from_gives = { λ e i. i ≡ Work e };

    fn from(error: WorkError) -> InfoError {
        InfoError::Work(error)
    }
}

impl From<Result<(), InfoError>> for Status {
    ghost from_gives = { λ r s. s ≡ ended info_status r };

    fn from(ended: Result<(), InfoError>) -> Status {
        match ended {
            Ok(()) => Status::Done,
            Err(InfoError::Open(error)) => Status::from(error),
            Err(InfoError::Work(error)) => Status::from(error),
        }
    }
}

/// Opens the volume and writes six lines about its header.
pub fn run_info<R: Threads + Sync, D: Store, O: Sink>(
    rt: &R,
    alloc: Global,
    disk: &mut D,
    out: &mut O,
    access: &Access,
) -> Result<(), InfoError>
    requires { IsPim access.now.pim }
    ensures { Kept (promise access.now) (ended info_status result)
        (seen ⟦<D as Store>⟧ ⟦<O as Sink>⟧ disk.old out.old) (seen ⟦<D as Store>⟧ ⟦<O as Sink>⟧ disk.new out.new) }
{
    let counts = Counts::new(disk, out);
    let opened = access.open(rt, alloc, disk)?;
    write_text(alloc, &counts, disk, out, &opened)?;
    Ok(())
}

// Ends the call with the text about an opened header.
fn write_text<D: Store, O: Sink>(
    alloc: Global,
    counts: &Counts,
    disk: &D,
    out: &mut O,
    opened: &Opened,
) -> Result<(), WorkError>
    requires disk { counts.now.disk ≤ D.faults disk.now }
    requires out { counts.now.out ≡ O.faults out.old }
    ensures done { OnOk result (Grows (O.contents out.old) (O.contents out.new) (text_of opened.now)) }
    ensures front { GrowsByFront (O.contents out.old) (O.contents out.new) (text_of opened.now) }
    ensures quiet { IsErrOf result WorkError.DiskFault → O.contents out.new ≡ O.contents out.old }
    ensures settled { Settled result counts.now.disk (D.faults disk.now) counts.now.out (O.faults out.new) }
{
    match text(alloc, opened) {
        Ok(text) => counts.finish(disk, out, text.as_bytes()),
        Err(_) => counts.settle(disk, out, Err(WorkError::NoMemory)),
    }
}

fn text(alloc: Global, opened: &Opened) -> Result<String, AllocError>
    ensures { IfOk result (λ s. string_bytes s ≡ text_of opened.now) }
{
    let mut text = String::new(alloc);
    push_line(&mut text, "slot", opened.slot.name())?;
    push_line(&mut text, "prf", opened.prf.name())?;
    push_line(&mut text, "algorithm", opened.algorithm.name())?;
    push_line(&mut text, "start", opened.fields.start)?;
    push_line(&mut text, "size", opened.fields.volume_size)?;
    push_line(&mut text, "sector", opened.fields.sector)?;
    Ok(text)
}
