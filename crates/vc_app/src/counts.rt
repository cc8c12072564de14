//! The counts of faults, from a call's start to its end.
ghost use Rattle.std.specs.Prelude.{◌≡◌, ◌≢◌, ◌⊎◌, ◌≤◌, IsOk, IsErrOf, OnOk, MatchBool};
ghost use Rattle.vc_base.specs.Faults.{HasCause};
ghost use Rattle.vc_outside.specs.Told.{Grows, GrowsByFront};
ghost use Rattle.vc_app.specs.Laws.Settled.{Settled};

use crate::output::write_all;
use vc_outside::{Sink, Store};

/// Why the work of a command stopped, once nothing refused it.
#[derive(Clone, Copy, Debug, PartialEq, Eq)]
pub enum WorkError {
    /// The container failed.
    DiskFault,
    /// The output failed.
    OutFault,
    /// Out of memory.
    NoMemory,
}

/// Both counts of faults when a call began.
#[derive(Clone, Copy)]
pub struct Counts {
    disk: u64,
    out: u64,
}

impl Counts {
    pub fn new<D: Store, O: Sink>(disk: &D, out: &O) -> Counts
        ensures disk { result.disk ≡ D.faults disk.now }
        ensures out { result.out ≡ O.faults out.now }
    {
        Counts {
            disk: disk.faults(),
            out: out.faults(),
        }
    }

    /// Whether the container's count isn't what it was.
    pub(crate) fn disk_failed<D: Store>(&self, disk: &D) -> bool
        ensures { MatchBool result (D.faults disk.now ≢ self.now.disk) (D.faults disk.now ≡ self.now.disk) }
    {
        disk.faults() != self.disk
    }

    /// The end of a call. A fault that a call recovered from is a fault all the same, and being out of memory
    /// hides none.
    pub fn settle<D: Store, O: Sink>(
        &self,
        disk: &D,
        out: &O,
        ended: Result<(), WorkError>,
    ) -> Result<(), WorkError>
        requires disk { HasCause self.now.disk (D.faults disk.now) (IsErrOf ended WorkError.DiskFault) }
        requires out { HasCause self.now.out (O.faults out.now) (IsErrOf ended WorkError.OutFault) }
        ensures done { OnOk result (IsOk ended) }
        ensures fault { IsErrOf result WorkError.DiskFault →
            IsErrOf ended WorkError.DiskFault ⊎ (D.faults disk.now ≢ self.now.disk) }
        ensures settled { Settled result self.now.disk (D.faults disk.now) self.now.out (O.faults out.now) }
    {
        match ended {
            Err(WorkError::DiskFault) => return Err(WorkError::DiskFault),
            Err(WorkError::OutFault) => return Err(WorkError::OutFault),
            Ok(()) | Err(WorkError::NoMemory) => {}
        }
        if self.disk_failed(disk) {
            return Err(WorkError::DiskFault);
        }
        if out.faults() != self.out {
            return Err(WorkError::OutFault);
        }
        ended
    }

    /// The end of a call that has done its work on the container, and writes a text. A fault that the container
    /// recovered from is known before anything is written.
    pub fn finish<D: Store, O: Sink>(
        &self,
        disk: &D,
        out: &mut O,
        text: &[u8],
    ) -> Result<(), WorkError>
        requires disk { self.now.disk ≤ D.faults disk.now }
        requires out { self.now.out ≡ O.faults out.old }
        ensures done { OnOk result (Grows (O.contents out.old) (O.contents out.new) text.now) }
        ensures front { GrowsByFront (O.contents out.old) (O.contents out.new) text.now }
        ensures quiet { IsErrOf result WorkError.DiskFault → O.contents out.new ≡ O.contents out.old }
        ensures settled { Settled result self.now.disk (D.faults disk.now) self.now.out (O.faults out.new) }
    {
        if self.disk_failed(disk) {
            return Err(WorkError::DiskFault);
        }
        let written = write_all(out, text);
        self.settle(disk, out, written)
    }
}
