//! The reply of a lane.
ghost use Rattle.std.specs.Prelude.{◌≡◌, Some};
ghost use Rattle.nbd_session.specs.Sent.{Replied};
ghost use Rattle.pipe_lane.specs.Lanes.{reply_of};
ghost use Rattle.vc_base.specs.Faults.{HasCause};

use crate::lane::Reply;
use nbd_session::{reply_alone, reply_data};
use nbd_wire::{End, Outcome, REPLY};
use vc_outside::Sink;

/// Writes a reply. Returns how the session ends if the sink doesn't take all of it.
pub fn send_reply<O: Sink>(sink: &mut O, reply: Reply) -> Option<End>
    ensures replied { Replied (O.contents sink.old) (O.contents sink.new) (reply_of reply) result }
    ensures cause { HasCause (O.faults sink.old) (O.faults sink.new) (result ≡ Some End.WriteFault) }
{
    match reply {
        Reply::Alone(request, outcome) => reply_alone(sink, &request, outcome),
        Reply::Data(request, mut buf) => {
            if buf.len() < REPLY {
                return reply_alone(sink, &request, Outcome::Done);
            }
            reply_data(sink, &request, &mut buf)
        }
    }
}
