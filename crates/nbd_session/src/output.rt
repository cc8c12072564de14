//! Bytes for a sink, written whole.
ghost use Rattle.std.specs.Prelude.{◌≡◌, IsErrOf, OnErr, OnOk};
ghost use Rattle.nbd_session.specs.Sent.{GrowsInPart};
ghost use Rattle.vc_base.specs.Faults.{HasCause};
ghost use Rattle.vc_outside.specs.Told.{Grows};

use vc_outside::{OutError, Sink};

// Writes all bytes, in one call if the sink takes them whole. If it fails, only a part of them was written.
pub(crate) fn send<O: Sink>(sink: &mut O, bytes: &[u8]) -> Result<(), OutError>
    ensures done { OnOk result (Grows (O.contents sink.old) (O.contents sink.new) bytes.now) }
    ensures part { OnErr result (GrowsInPart (O.contents sink.old) (O.contents sink.new) bytes.now) }
    ensures cause { HasCause (O.faults sink.old) (O.faults sink.new) (IsErrOf result OutError.Failed) }
{
    let mut at = 0;
    while at < bytes.len() {
        let taken = match sink.write(&bytes[at..]) {
            Ok(taken) => taken,
            Err(error) => return Err(error),
        };
        if taken == 0 {
            return Err(OutError::Failed);
        }
        at += taken;
    }
    Ok(())
}
