//! The next request of a source.
ghost use Rattle.std.specs.Prelude.{◌≡◌, Err, IfErr, IfOk};
ghost use Rattle.nbd_session.specs.Taken.{NoRequest, TakesHead};
ghost use Rattle.vc_base.specs.Faults.{HasCause};

use crate::input::{end_of, fill};
use nbd_wire::{BadMagic, End, HEAD, Request, read_request};
use vc_outside::Source;

// The bytes of the magic.
const MAGIC: usize = 4;

/// Takes the next head, 28 bytes, or returns how the session ends. The magic counts as soon as it is there, and a
/// head without it is not waited for.
pub fn next_request<I: Source>(source: &mut I) -> Result<Request, End>
    ensures head { IfOk result (λ r. TakesHead (I.left source.old) (I.left source.new) r) }
    ensures none { IfErr result (λ how. NoRequest (I.left source.old) (I.left source.new) how) }
    ensures cause { HasCause (I.faults source.old) (I.faults source.new) (result ≡ Err End.ReadFault) }
{
    let mut head = [0u8; HEAD];
    let first = fill(source, &mut head, MAGIC);
    if let Some(stop) = first.stop {
        return Err(end_of(stop, first.count == 0));
    }
    if let Err(bad) = read_request(&head) {
        return Err(bad_end(bad));
    }
    let rest = fill(source, &mut head[first.count..], HEAD - first.count);
    if let Some(stop) = rest.stop {
        return Err(end_of(stop, false));
    }
    match read_request(&head) {
        Ok(request) => Ok(request),
        Err(bad) => Err(bad_end(bad)),
    }
}

// How a session ends at these four bytes.
fn bad_end(bad: BadMagic) -> End
    ensures { result ≡ End.BadMagic bad.0 }
{
    let magic = bad.0;
    End::BadMagic(magic)
}
