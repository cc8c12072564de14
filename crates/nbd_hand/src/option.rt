//! The options of a client, one at a time.
ghost use Rattle.std.specs.Prelude.{◌≡◌, ◌==◌, ◌&&◌, nat_lt, IfSome, IsNone, Some};
ghost use Rattle.nbd_hand.specs.Laws.Onward.{Answers, LastOption};
ghost use Rattle.nbd_hand.specs.Laws.Sent.{Replied};
ghost use Rattle.nbd_hand.specs.Options.{leads, replies};
ghost use Rattle.vc_base.specs.Faults.{HasCause};

use crate::asked::{Asked, take_asked};
use crate::end::{HandEnd, Refusal};
use crate::head::take_head;
use crate::input::end_of;
use crate::output::send_whole;
use crate::reply::replies;
use vc_outside::{Client, Sink, Source};

// NBD_OPT_EXPORT_NAME, NBD_OPT_ABORT, NBD_OPT_LIST, NBD_OPT_INFO and NBD_OPT_GO.
pub(crate) const EXPORT_NAME: u32 = 1;

pub(crate) const ABORT: u32 = 2;

pub(crate) const LIST: u32 = 3;

pub(crate) const INFO: u32 = 6;

pub(crate) const GO: u32 = 7;

// Takes the next option, with all its data, and then answers it. Returns how the handshake ends, or None if the next option
// follows.
pub(crate) fn answer_option<I: Source, O: Sink>(
    link: &mut Client<I, O>,
    size: u64,
    zeros: bool,
) -> Option<HandEnd>
    ensures goes_on { IsNone result → Answers size zeros (I.left link.old.source) (I.left link.new.source)
        (O.contents link.old.sink) (O.contents link.new.sink) }
    ensures ends { IfSome result (λ how. LastOption size zeros (I.left link.old.source) (I.left link.new.source)
        (O.contents link.old.sink) (O.contents link.new.sink) how) }
    ensures read_fault { HasCause (I.faults link.old.source) (I.faults link.new.source) (result ≡ Some HandEnd.ReadFault) }
    ensures write_fault { HasCause (O.faults link.old.sink) (O.faults link.new.sink) (result ≡ Some HandEnd.WriteFault) }
{
    let head = match take_head(&mut link.source) {
        Ok(head) => head,
        Err(end) => return Some(end),
    };
    if names_an_export(head.number, head.length) {
        return Some(HandEnd::Refused(Refusal::Name(head.length)));
    }
    match take_asked(&mut link.source, head.number, head.length) {
        Ok(what) => answer(&mut link.sink, size, zeros, head.number, what),
        Err(stop) => Some(end_of(stop)),
    }
}

// Whether option 1 asks for another export than the one with the empty name.
fn names_an_export(number: u32, n: u32) -> bool
    ensures { result ≡ ((number == 1) && nat_lt 0 n) }
{
    number == EXPORT_NAME && 0 < n
}

// Replies to an option, and returns how the handshake ends, or None if the next option follows.
fn answer<O: Sink>(
    sink: &mut O,
    size: u64,
    zeros: bool,
    number: u32,
    what: Asked,
) -> Option<HandEnd>
    ensures replied { Replied (O.contents sink.old) (O.contents sink.new) (replies size zeros number what) (leads number what) result }
    ensures cause { HasCause (O.faults sink.old) (O.faults sink.new) (result ≡ Some HandEnd.WriteFault) }
{
    let reply = replies(size, zeros, number, what);
    if let Some(end) = send_whole(sink, reply.bytes()) {
        return Some(end);
    }
    leads(number, what)
}

// How the handshake ends after the reply to an option, or None if the next option follows.
fn leads(number: u32, what: Asked) -> Option<HandEnd>
    ensures { result ≡ leads number what }
{
    if number == EXPORT_NAME {
        return Some(HandEnd::Go);
    }
    if number == ABORT {
        return Some(HandEnd::Aborted);
    }
    if number == GO {
        return match what {
            Asked::Default => Some(HandEnd::Go),
            Asked::Named => None,
            Asked::Malformed => None,
        };
    }
    None
}
