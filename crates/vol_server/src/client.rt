//! One client: its handshake, if it has one, and its session.
ghost use Rattle.std.specs.Prelude.{◌≡◌, List, true};
ghost use Rattle.frag_pool.specs.Bench.{is_empty};
ghost use Rattle.hist_lock.specs.Known.{view};
ghost use Rattle.io_queue.specs.Pass.{Call, IsPass, NothingOpen};
ghost use Rattle.sector_model.specs.declared.entry.Entry.{Entry};
ghost use Rattle.vc_base.specs.Faults.{HasCause};
ghost use Rattle.vc_layout.specs.Layout.{IsSectorSize};
ghost use Rattle.vol_server.specs.Laws.Tasks.{HasServed};
ghost use Rattle.vol_server.specs.Served.{Follows, Greets};

use crate::task::Service;
use cipher_base::UnitCipher;
use frag_pool::Bench;
use hist_lock::Pass;
use io_core::Core;
use io_queue::Volume;
use nbd_hand::{HandEnd, handshake};
use nbd_session::session;
use nbd_wire::End;
use std::alloc::Global;
use std::sync::Wait;
use std::thread::Threads;
use vc_outside::{Client, Gate, Sink, Source, Store};

/// Serves one client, with a handshake first if there is an export of so many bytes to name.
pub(crate) fn serve_client<
    R: Threads + Wait + Sync,
    S: Store,
    C: UnitCipher + Sync,
    I: Source,
    O: Sink,
    G: Gate,
>(
    rt: &R,
    alloc: Global,
    volume: &Volume<S, C>,
    pass: &mut Pass<Core<S, C>>,
    gate: &G,
    export: Option<u64>,
    service: &mut Service<I, O>,
)
    requires pass { IsPass volume.now.lock.table.shared.table_id volume.now.geometry volume.now.cipher pass.old.seat }
    requires open { NothingOpen (view pass.old.seat) }
    requires bench { is_empty service.old.bench ≡ true }
    requires sector { IsSectorSize volume.now.geometry.sector }
    ensures pass { IsPass volume.now.lock.table.shared.table_id volume.now.geometry volume.now.cipher pass.new.seat }
    ensures open { NothingOpen (view pass.new.seat) }
    ensures served { (es : List Entry) × Call (view pass.old.seat) (view pass.new.seat) es
        × HasServed ⟦<I as Source>⟧ ⟦<O as Sink>⟧ export volume.now.geometry.sector service.old service.new es }
{
    let hand = greet(&mut service.client, export);
    let (end, replies) = follow(
        rt,
        alloc,
        volume,
        pass,
        &mut service.bench,
        gate,
        &mut service.client,
        hand,
    );
    service.hand = hand;
    service.end = end;
    service.replies = replies;
}

// The handshake, or none, which counts as `Go`.
fn greet<I: Source, O: Sink>(link: &mut Client<I, O>, export: Option<u64>) -> HandEnd
    ensures greeted { Greets export (I.left link.old.source) (I.left link.new.source)
        (O.contents link.old.sink) (O.contents link.new.sink) result }
    ensures read_fault { HasCause (I.faults link.old.source) (I.faults link.new.source) (result ≡ HandEnd.ReadFault) }
    ensures write_fault { HasCause (O.faults link.old.sink) (O.faults link.new.sink) (result ≡ HandEnd.WriteFault) }
{
    match export {
        Some(size) => handshake(link, size),
        None => HandEnd::Go,
    }
}

// What follows a handshake: a session after `Go`, and nothing otherwise.
fn follow<R: Threads + Wait + Sync, S: Store, C: UnitCipher + Sync, I: Source, O: Sink, G: Gate>(
    rt: &R,
    alloc: Global,
    volume: &Volume<S, C>,
    pass: &mut Pass<Core<S, C>>,
    bench: &mut Bench,
    gate: &G,
    link: &mut Client<I, O>,
    hand: HandEnd,
) -> (End, u64)
    requires pass { IsPass volume.now.lock.table.shared.table_id volume.now.geometry volume.now.cipher pass.old.seat }
    requires open { NothingOpen (view pass.old.seat) }
    requires bench { is_empty bench.old ≡ true }
    requires sector { IsSectorSize volume.now.geometry.sector }
    ensures pass { IsPass volume.now.lock.table.shared.table_id volume.now.geometry volume.now.cipher pass.new.seat }
    ensures open { NothingOpen (view pass.new.seat) }
    ensures followed { (es : List Entry) × Call (view pass.old.seat) (view pass.new.seat) es
        × Follows hand volume.now.geometry.sector (I.left link.old.source) (I.left link.new.source)
        (O.contents link.old.sink) (O.contents link.new.sink) es result.1 result.0 }
    ensures read_fault { HasCause (I.faults link.old.source) (I.faults link.new.source) (result.0 ≡ End.ReadFault) }
    ensures write_fault { HasCause (O.faults link.old.sink) (O.faults link.new.sink) (result.0 ≡ End.WriteFault) }
{
    let HandEnd::Go = hand else {
        return (End::Done, 0);
    };
    session(rt, alloc, volume, pass, bench, gate, link)
}
