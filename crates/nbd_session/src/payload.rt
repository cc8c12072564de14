//! The payload of a write.
ghost use Rattle.std.specs.Prelude.{◌≡◌, length, Err, IfErr, IfOk, IfSome, option_map};
ghost use Rattle.nbd_session.specs.Taken.{CutsPayload, TakesPayload};
ghost use Rattle.nbd_wire.specs.Frames.{payload_length};
ghost use Rattle.vc_base.specs.Faults.{HasCause};

use crate::input::{end_of, fill, skip};
use nbd_wire::{End, Request};
use std::alloc::Global;
use vc_outside::Source;

// The kind of a request with a payload.
const WRITE: u16 = 1;

// Takes a payload of `n` bytes. It is None if there is no memory for it: its bytes were taken all the same.
pub(crate) fn take_payload<I: Source>(
    alloc: Global,
    source: &mut I,
    n: u32,
) -> Result<Option<Vec<u8>>, End>
    ensures taken { IfOk result (λ kept. TakesPayload (I.left source.old) (I.left source.new) n (option_map (λ v. v.items) kept)) }
    ensures cut { IfErr result (λ how. CutsPayload (I.left source.old) (I.left source.new) n how) }
    ensures cause { HasCause (I.faults source.old) (I.faults source.new) (result ≡ Err End.ReadFault) }
{
    let Ok(mut kept) = vec![in alloc; 0u8; n as usize] else {
        return pass_payload(source, n);
    };
    let taken = fill(source, &mut kept, n as usize);
    match taken.stop {
        None => Ok(Some(kept)),
        Some(stop) => Err(end_of(stop, false)),
    }
}

// Takes a payload of `n` bytes away.
fn pass_payload<I: Source>(source: &mut I, n: u32) -> Result<Option<Vec<u8>>, End>
    ensures taken { IfOk result (λ kept. TakesPayload (I.left source.old) (I.left source.new) n (option_map (λ v. v.items) kept)) }
    ensures cut { IfErr result (λ how. CutsPayload (I.left source.old) (I.left source.new) n how) }
    ensures cause { HasCause (I.faults source.old) (I.faults source.new) (result ≡ Err End.ReadFault) }
{
    match skip(source, n) {
        None => Ok(None),
        Some(stop) => Err(end_of(stop, false)),
    }
}

/// Takes what follows a request's head: the payload of a write, otherwise nothing. It is None if it isn't wanted,
/// if there is no memory for it, or if the request has none; its bytes are taken all the same. Fails as the session
/// ends if the source ends or fails first.
pub fn take_rest<I: Source>(
    alloc: Global,
    source: &mut I,
    request: &Request,
    wanted: bool,
) -> Result<Option<Vec<u8>>, End>
    ensures taken { IfOk result (λ kept. TakesPayload (I.left source.old) (I.left source.new) (payload_length request.now) (option_map (λ v. v.items) kept)) }
    ensures size { IfOk result (λ kept. IfSome kept (λ v. length v.items ≡ request.now.length)) }
    ensures cut { IfErr result (λ how. CutsPayload (I.left source.old) (I.left source.new) (payload_length request.now) how) }
    ensures cause { HasCause (I.faults source.old) (I.faults source.new) (result ≡ Err End.ReadFault) }
{
    if request.kind != WRITE {
        return Ok(None);
    }
    if wanted {
        return take_payload(alloc, source, request.length);
    }
    pass_payload(source, request.length)
}
