//! Requests that were taken of a client and aren't carried out yet.
ghost use Rattle.std.specs.Prelude.{◌≡◌, ◌≢◌, List, ℕ, Option, Err, IfErr, IfOk};
ghost use Rattle.nbd_session.specs.Taken.{NoRequest, TakesHead};
ghost use Rattle.nbd_wire.specs.Frames.{Frame};
ghost use Rattle.pipe_lane.specs.Queue.{IsNext, TakesRequest};
ghost use Rattle.vc_base.specs.Faults.{HasCause};
ghost use Rattle.vc_layout.specs.Layout.{IsSectorSize};

use nbd_session::{next_request, take_rest};
use nbd_wire::{Ask, End, Request, ask_of};
use std::alloc::Global;
use vc_outside::Source;

/// A request that was taken whole.
#[derive(Drop)]
pub struct Queued {
    pub request: Request,
    pub ask: Ask,
    /// The payload of a write, or None if there is no memory for it. Any other request has none.
    pub payload: Option<Vec<u8>>,
}

/// What comes next from a client.
#[derive(Drop)]
pub enum Next {
    /// It has to be taken of the source.
    Unknown,
    /// A request, which was taken and isn't in a wave yet.
    Asked(Queued),
    /// There is no other request: the session ends so.
    Over(End),
}

// Takes the next request of the source, or returns how the session ends.
fn take_request<I: Source>(alloc: Global, source: &mut I, sector: u32) -> Result<Queued, End>
    requires sector { IsSectorSize sector }
    ensures asked { IfOk result (λ q. TakesRequest sector (I.left source.old) (I.left source.new) q) }
    ensures over { IfErr result (λ how. NoRequest (I.left source.old) (I.left source.new) how) }
    ensures cause { HasCause (I.faults source.old) (I.faults source.new) (result ≡ Err End.ReadFault) }
{
    match next_request(source) {
        Ok(request) => take_behind(alloc, source, sector, &request),
        Err(end) => Err(end),
    }
}

// Takes what follows a request's head.
fn take_behind<I: Source>(
    alloc: Global,
    source: &mut I,
    sector: u32,
    request: &Request,
) -> Result<Queued, End>
    requires sector { IsSectorSize sector }
    ensures asked { (before : Option (List ℕ)) → TakesHead before (I.left source.old) request.now
        → IfOk result (λ q. TakesRequest sector before (I.left source.new) q) }
    ensures over { (before : Option (List ℕ)) → TakesHead before (I.left source.old) request.now
        → IfErr result (λ how. NoRequest before (I.left source.new) how) }
    ensures cause { HasCause (I.faults source.old) (I.faults source.new) (result ≡ Err End.ReadFault) }
{
    let ask = ask_of(request, sector);
    if let Ask::Disconnect = ask {
        return Err(End::Done);
    }
    match take_rest(alloc, source, request, is_write(ask)) {
        Ok(payload) => Ok(Queued {
            request: *request,
            ask,
            payload,
        }),
        Err(end) => Err(end),
    }
}

// Whether a payload is wanted.
fn is_write(ask: Ask) -> bool {
    matches!(ask, Ask::Write { .. })
}

/// Takes the next request of the source unless it is known what is next.
pub fn find_next<I: Source>(alloc: Global, source: &mut I, sector: u32, next: Next) -> Next
    requires sector { IsSectorSize sector }
    ensures known { result ≢ Next.Unknown }
    ensures same { next ≢ Next.Unknown → result ≡ next }
    ensures is { (left : Option (List ℕ)) (fs : List Frame) → IsNext sector left (I.left source.old) fs next
        → IsNext sector left (I.left source.new) fs result }
    ensures cause { (before : ℕ) → HasCause before (I.faults source.old) (next ≡ Next.Over End.ReadFault)
        → HasCause before (I.faults source.new) (result ≡ Next.Over End.ReadFault) }
{
    let Next::Unknown = next else {
        return next;
    };
    match take_request(alloc, source, sector) {
        Ok(queued) => Next::Asked(queued),
        Err(end) => Next::Over(end),
    }
}
