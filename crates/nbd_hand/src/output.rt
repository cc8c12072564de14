//! Bytes for a sink, written whole.
ghost use Rattle.std.specs.Prelude.{◌≡◌, IsErrOf, None, OnErr, OnOk, Some};
ghost use Rattle.nbd_hand.specs.Laws.Sent.{GrowsInPart, Replied};
ghost use Rattle.vc_base.specs.Faults.{HasCause};
ghost use Rattle.vc_outside.specs.Told.{Grows};

use crate::end::HandEnd;
use vc_outside::{OutError, Sink};

// Writes all bytes, in one call if the sink takes them whole. If it fails, only a part of them was written.
fn send<O: Sink>(sink: &mut O, bytes: &[u8]) -> Result<(), OutError>
    ensures done { OnOk result (Grows (O.contents sink.old) (O.contents sink.new) bytes.now) }
    ensures part { OnErr result (GrowsInPart (O.contents sink.old) (O.contents sink.new) bytes.now) }
    ensures cause { HasCause (O.faults sink.old) (O.faults sink.new) (IsErrOf result OutError.Failed) }
{
    let mut at = 0;
    while at < bytes.len() {
        let taken = match sink.write(&bytes[at..]) {
            Ok(taken) => taken,
            Err(error) => return Err(error),
        };
        if taken == 0 {
            return Err(OutError::Failed);
        }
        at += taken;
    }
    Ok(())
}

// Writes all bytes, and returns how the handshake ends if the sink refuses them.
pub(crate) fn send_whole<O: Sink>(sink: &mut O, bytes: &[u8]) -> Option<HandEnd>
    ensures replied { Replied (O.contents sink.old) (O.contents sink.new) bytes.now None result }
    ensures cause { HasCause (O.faults sink.old) (O.faults sink.new) (result ≡ Some HandEnd.WriteFault) }
{
    match send(sink, bytes) {
        Ok(()) => None,
        Err(OutError::Failed) => Some(HandEnd::WriteFault),
        Err(OutError::NoMemory) => Some(HandEnd::NoMemory),
    }
}
