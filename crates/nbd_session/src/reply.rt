//! Replies, written whole.
ghost use Rattle.std.specs.Prelude.{◌≡◌, ◌≤◌, ◌++◌, drop, length, Some};
ghost use Rattle.nbd_session.specs.Sent.{Replied};
ghost use Rattle.nbd_wire.specs.Replies.{error_of};
ghost use Rattle.nbd_wire.specs.Wire.{reply};
ghost use Rattle.vc_base.specs.Faults.{HasCause};

use crate::output::send;
use nbd_wire::{End, Outcome, REPLY, Request, write_reply};
use vc_outside::{OutError, Sink};

// Writes a reply, and returns how the session ends if the sink refuses it.
fn send_whole<O: Sink>(sink: &mut O, bytes: &[u8]) -> Option<End>
    ensures replied { Replied (O.contents sink.old) (O.contents sink.new) bytes.now result }
    ensures cause { HasCause (O.faults sink.old) (O.faults sink.new) (result ≡ Some End.WriteFault) }
{
    match send(sink, bytes) {
        Ok(()) => None,
        Err(OutError::Failed) => Some(End::WriteFault),
        Err(OutError::NoMemory) => Some(End::NoMemory),
    }
}

/// Replies to a request without data. Returns how the session ends if the sink doesn't take the whole reply.
pub fn reply_alone<O: Sink>(sink: &mut O, request: &Request, outcome: Outcome) -> Option<End>
    ensures replied { Replied (O.contents sink.old) (O.contents sink.new) (reply (error_of outcome) request.now.cookie) result }
    ensures cause { HasCause (O.faults sink.old) (O.faults sink.new) (result ≡ Some End.WriteFault) }
{
    let mut head = [0u8; REPLY];
    write_reply(outcome.error(), request.cookie, &mut head);
    send_whole(sink, &head)
}

/// Replies to a read that was done. The data are in the buffer already, behind 16 bytes, which the reply takes.
/// Returns how the session ends if the sink doesn't take all.
pub fn reply_data<O: Sink>(sink: &mut O, request: &Request, buf: &mut [u8]) -> Option<End>
    requires room { 16 ≤ length buf.old }
    ensures replied { Replied (O.contents sink.old) (O.contents sink.new) (reply 0 request.now.cookie ++ drop 16 buf.old) result }
    ensures cause { HasCause (O.faults sink.old) (O.faults sink.new) (result ≡ Some End.WriteFault) }
{
    let mut head = [0u8; REPLY];
    write_reply(0, request.cookie, &mut head);
    buf[..REPLY].copy_from_slice(&head);
    send_whole(sink, buf)
}
