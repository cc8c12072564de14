//! Output, written whole, and its lines.
ghost use Rattle.std.specs.Prelude.{◌≡◌, ◌≤◌, ◌-◌, ◌++◌, length, IfSome, IsErrOf, OnErr, OnOk, string_bytes};
ghost use Rattle.vc_base.specs.Faults.{HasCause};
ghost use Rattle.vc_outside.specs.Told.{Grows, GrowsByFront};
ghost use Rattle.vc_app.specs.Info.{text_line};

use crate::counts::WorkError;
use std::alloc::AllocError;
use std::fmt::Display;
use vc_outside::{OutError, Sink};

/// Writes all bytes, in as many pieces as the sink takes them in. If it fails, a prefix of them was written.
pub fn write_all<O: Sink>(out: &mut O, bytes: &[u8]) -> Result<(), WorkError>
    ensures done { OnOk result (Grows (O.contents out.old) (O.contents out.new) bytes.now) }
    ensures front { GrowsByFront (O.contents out.old) (O.contents out.new) bytes.now }
    ensures cause { HasCause (O.faults out.old) (O.faults out.new) (IsErrOf result WorkError.OutFault) }
    ensures not_disk { IsErrOf result WorkError.DiskFault → ⊥ }
{
    let mut at = 0;
    while at < bytes.len() {
        let taken = match out.write(&bytes[at..]) {
            Ok(taken) => taken,
            Err(OutError::Failed) => return Err(WorkError::OutFault),
            Err(OutError::NoMemory) => return Err(WorkError::NoMemory),
        };
        if taken == 0 {
            return Err(WorkError::OutFault);
        }
        at += taken;
    }
    Ok(())
}

/// Adds a name and a value, as a line.
pub(crate) fn push_line<V: Display + Drop>(
    text: &mut String,
    name: &str,
    value: V,
) -> Result<(), AllocError>
    ensures { OnOk result (IfSome (V.output value) (λ v.
        string_bytes text.new ≡ string_bytes text.old ++ text_line name.now v)) }
{
    text.push_str(name)?;
    text.push_str(" ")?;
    text.write(value)?;
    text.push_str("\n")
}
