//! The handshake: the greeting, the flags of the client, and then its options.
ghost use Rattle.std.specs.Prelude.{◌≡◌};
ghost use Rattle.nbd_hand.specs.Hand.{after_greeting, Does, options, Shakes};
ghost use Rattle.vc_base.specs.Faults.{HasCause};

use crate::end::{HandEnd, Refusal};
use crate::input::{end_of, take};
use crate::option::answer_option;
use crate::output::send_whole;
use byteorder::{BigEndian, ByteOrder};
use vc_outside::{Client, Sink, Source};

// NBDMAGIC, IHAVEOPT, and the flags NBD_FLAG_FIXED_NEWSTYLE and NBD_FLAG_NO_ZEROES.
const GREETING: [u8; 18] = *b"NBDMAGICIHAVEOPT\x00\x03";

// The client's flags that are known: NBD_FLAG_C_FIXED_NEWSTYLE and NBD_FLAG_C_NO_ZEROES.
const CLIENT_FLAGS: u32 = 3;

const NO_ZEROES: u32 = 2;

// The most options that are answered.
const MOST_OPTIONS: u32 = 1024;

/// Greets a client and answers its options, until it starts the session or leaves, for one export of `size` bytes
/// whose name is empty (NBD protocol, "Fixed newstyle negotiation"). Returns how it ended: after `Go` the source has
/// the bytes of the session left. It takes no memory of its own, whatever lengths the options name, and it always
/// returns: at most 1,024 options are answered.
pub fn handshake<I: Source, O: Sink>(link: &mut Client<I, O>, size: u64) -> HandEnd
    ensures done { Shakes size (I.left link.old.source) (I.left link.new.source) (O.contents link.old.sink) (O.contents link.new.sink) result }
    ensures read_fault { HasCause (I.faults link.old.source) (I.faults link.new.source) (result ≡ HandEnd.ReadFault) }
    ensures write_fault { HasCause (O.faults link.old.sink) (O.faults link.new.sink) (result ≡ HandEnd.WriteFault) }
{
    if let Some(end) = send_whole(&mut link.sink, &GREETING) {
        return end;
    }
    take_flags(link, size)
}

// Takes the client's flags, and then its options.
fn take_flags<I: Source, O: Sink>(link: &mut Client<I, O>, size: u64) -> HandEnd
    ensures done { Does (after_greeting size) (I.left link.old.source) (I.left link.new.source)
        (O.contents link.old.sink) (O.contents link.new.sink) result }
    ensures read_fault { HasCause (I.faults link.old.source) (I.faults link.new.source) (result ≡ HandEnd.ReadFault) }
    ensures write_fault { HasCause (O.faults link.old.sink) (O.faults link.new.sink) (result ≡ HandEnd.WriteFault) }
{
    let mut bytes = [0u8; 4];
    if let Err(stop) = take(&mut link.source, &mut bytes) {
        return end_of(stop);
    }
    let flags = BigEndian::read_u32(&bytes);
    if flags > CLIENT_FLAGS {
        return HandEnd::Refused(Refusal::Flags(flags));
    }
    answer_options(link, size, flags < NO_ZEROES)
}

// Takes and answers options until one of them ends the handshake.
fn answer_options<I: Source, O: Sink>(link: &mut Client<I, O>, size: u64, zeros: bool) -> HandEnd
    ensures done { Does (options size zeros 1024) (I.left link.old.source) (I.left link.new.source)
        (O.contents link.old.sink) (O.contents link.new.sink) result }
    ensures read_fault { HasCause (I.faults link.old.source) (I.faults link.new.source) (result ≡ HandEnd.ReadFault) }
    ensures write_fault { HasCause (O.faults link.old.sink) (O.faults link.new.sink) (result ≡ HandEnd.WriteFault) }
{
    let mut left = MOST_OPTIONS;
    'options: while left > 0 {
        if let Some(end) = answer_option(link, size, zeros) {
            return end;
        }
        left -= 1;
    }
    HandEnd::Refused(Refusal::TooMany)
}
