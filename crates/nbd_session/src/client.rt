//! A session with one client.
ghost use Rattle.std.specs.Prelude.{◌≡◌, ℕ, List, Option, IfSome, IsNone, Some, true};
ghost use Rattle.frag_pool.specs.Bench.{is_empty};
ghost use Rattle.hist_lock.specs.Known.{view};
ghost use Rattle.io_queue.specs.Pass.{Call, IsPass, NothingOpen};
ghost use Rattle.nbd_session.specs.Laws.Onward.{Answers};
ghost use Rattle.nbd_session.specs.Taken.{TakesHead};
ghost use Rattle.nbd_session.specs.Session.{events_of, Serves};
ghost use Rattle.sector_model.specs.declared.entry.Entry.{Entry};
ghost use Rattle.vc_base.specs.Faults.{HasCause};
ghost use Rattle.vc_layout.specs.Layout.{IsSectorSize};

use crate::answer::answer;
use crate::head::next_request;
use crate::payload::take_rest;
use cipher_base::UnitCipher;
use frag_pool::Bench;
use hist_lock::Pass;
use io_core::Core;
use io_queue::Volume;
use nbd_wire::{Ask, End, Request, ask_of};
use std::alloc::Global;
use std::sync::Wait;
use std::thread::Threads;
use vc_outside::{Client, Gate, Sink, Source, Store};

/// Serves one client: takes its requests one by one, has the volume carry them out and replies to each, in
/// order, until it ends. Returns how it ended, and how many replies were written whole. `bench` is for the
/// fragments of its writes, of which helpers may take some; it is empty before and after. A session holds the
/// memory of one request at a time. If there is none for a read's or a write's data, the request is replied to
/// with the error for that, nothing is done, and the session goes on.
pub fn session<
    R: Threads + Wait + Sync,
    S: Store,
    C: UnitCipher + Sync,
    I: Source,
    O: Sink,
    G: Gate,
>(
    rt: &R,
    alloc: Global,
    volume: &Volume<S, C>,
    pass: &mut Pass<Core<S, C>>,
    bench: &mut Bench,
    gate: &G,
    link: &mut Client<I, O>,
) -> (End, u64)
    requires pass { IsPass volume.now.lock.table.shared.table_id volume.now.geometry volume.now.cipher pass.old.seat }
    requires open { NothingOpen (view pass.old.seat) }
    requires bench { is_empty bench.old ≡ true }
    requires sector { IsSectorSize volume.now.geometry.sector }
    ensures pass { IsPass volume.now.lock.table.shared.table_id volume.now.geometry volume.now.cipher pass.new.seat }
    ensures open { NothingOpen (view pass.new.seat) }
    ensures bench { is_empty bench.new ≡ true }
    ensures served { (es : List Entry) × Call (view pass.old.seat) (view pass.new.seat) es
        × Serves volume.now.geometry.sector (I.left link.old.source) (I.left link.new.source)
        (O.contents link.old.sink) (O.contents link.new.sink) (events_of es) result.1 result.0 }
    ensures read_fault { HasCause (I.faults link.old.source) (I.faults link.new.source) (result.0 ≡ End.ReadFault) }
    ensures write_fault { HasCause (O.faults link.old.sink) (O.faults link.new.sink) (result.0 ≡ End.WriteFault) }
{
    'requests: for n in 0..u64::MAX {
        if let Some(end) = serve_next(rt, alloc, volume, pass, bench, gate, link) {
            return (end, n);
        }
    }
    for _ in rt.forever() {}
    unreachable!()
}

// Takes the next request and answers it, or returns how the session ends.
fn serve_next<
    R: Threads + Wait + Sync,
    S: Store,
    C: UnitCipher + Sync,
    I: Source,
    O: Sink,
    G: Gate,
>(
    rt: &R,
    alloc: Global,
    volume: &Volume<S, C>,
    pass: &mut Pass<Core<S, C>>,
    bench: &mut Bench,
    gate: &G,
    link: &mut Client<I, O>,
) -> Option<End>
    requires pass { IsPass volume.now.lock.table.shared.table_id volume.now.geometry volume.now.cipher pass.old.seat }
    requires open { NothingOpen (view pass.old.seat) }
    requires bench { is_empty bench.old ≡ true }
    requires sector { IsSectorSize volume.now.geometry.sector }
    ensures pass { IsPass volume.now.lock.table.shared.table_id volume.now.geometry volume.now.cipher pass.new.seat }
    ensures open { NothingOpen (view pass.new.seat) }
    ensures bench { is_empty bench.new ≡ true }
    ensures goes_on { IsNone result → (es : List Entry) × Call (view pass.old.seat) (view pass.new.seat) es
        × Answers volume.now.geometry.sector (I.left link.old.source) (I.left link.new.source)
        (O.contents link.old.sink) (O.contents link.new.sink) (events_of es) }
    ensures ends { IfSome result (λ how. (es : List Entry) × Call (view pass.old.seat) (view pass.new.seat) es
        × Serves volume.now.geometry.sector (I.left link.old.source) (I.left link.new.source)
        (O.contents link.old.sink) (O.contents link.new.sink) (events_of es) 0 how) }
    ensures read_fault { HasCause (I.faults link.old.source) (I.faults link.new.source) (result ≡ Some End.ReadFault) }
    ensures write_fault { HasCause (O.faults link.old.sink) (O.faults link.new.sink) (result ≡ Some End.WriteFault) }
{
    match next_request(&mut link.source) {
        Ok(request) => serve_request(rt, alloc, volume, pass, bench, gate, link, &request),
        Err(end) => Some(end),
    }
}

// Takes what follows a request's head and answers it, or returns how the session ends.
fn serve_request<
    R: Threads + Wait + Sync,
    S: Store,
    C: UnitCipher + Sync,
    I: Source,
    O: Sink,
    G: Gate,
>(
    rt: &R,
    alloc: Global,
    volume: &Volume<S, C>,
    pass: &mut Pass<Core<S, C>>,
    bench: &mut Bench,
    gate: &G,
    link: &mut Client<I, O>,
    request: &Request,
) -> Option<End>
    requires pass { IsPass volume.now.lock.table.shared.table_id volume.now.geometry volume.now.cipher pass.old.seat }
    requires open { NothingOpen (view pass.old.seat) }
    requires bench { is_empty bench.old ≡ true }
    requires sector { IsSectorSize volume.now.geometry.sector }
    ensures pass { IsPass volume.now.lock.table.shared.table_id volume.now.geometry volume.now.cipher pass.new.seat }
    ensures open { NothingOpen (view pass.new.seat) }
    ensures bench { is_empty bench.new ≡ true }
    ensures goes_on { (before : Option (List ℕ)) → TakesHead before (I.left link.old.source) request.now → IsNone result
        → (es : List Entry) × Call (view pass.old.seat) (view pass.new.seat) es
        × Answers volume.now.geometry.sector before (I.left link.new.source)
        (O.contents link.old.sink) (O.contents link.new.sink) (events_of es) }
    ensures ends { (before : Option (List ℕ)) → TakesHead before (I.left link.old.source) request.now → IfSome result
        (λ how. (es : List Entry) × Call (view pass.old.seat) (view pass.new.seat) es
        × Serves volume.now.geometry.sector before (I.left link.new.source)
        (O.contents link.old.sink) (O.contents link.new.sink) (events_of es) 0 how) }
    ensures read_fault { HasCause (I.faults link.old.source) (I.faults link.new.source) (result ≡ Some End.ReadFault) }
    ensures write_fault { HasCause (O.faults link.old.sink) (O.faults link.new.sink) (result ≡ Some End.WriteFault) }
{
    let ask = ask_of(request, volume.geometry().sector);
    if let Ask::Disconnect = ask {
        return Some(End::Done);
    }
    match take_rest(alloc, &mut link.source, request, is_write(ask)) {
        Ok(kept) => answer(
            rt,
            alloc,
            volume,
            pass,
            bench,
            gate,
            &mut link.sink,
            request,
            ask,
            kept,
        ),
        Err(end) => Some(end),
    }
}

// Whether a payload is wanted.
fn is_write(ask: Ask) -> bool {
    matches!(ask, Ask::Write { .. })
}
