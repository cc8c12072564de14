//! The answer to one request: the volume's call, and the reply.
ghost use Rattle.std.specs.Prelude.{◌≡◌, ◌≢◌, ◌+◌, ℕ, length, true, IfSome, List, Some};
ghost use Rattle.frag_pool.specs.Bench.{is_empty};
ghost use Rattle.hist_lock.specs.Known.{view};
ghost use Rattle.io_queue.specs.Pass.{IsPass, NothingOpen};
ghost use Rattle.nbd_session.specs.Laws.Acts.{Acts, IsRange};
ghost use Rattle.nbd_wire.specs.Classes.{asked};
ghost use Rattle.vc_base.specs.Faults.{HasCause};
ghost use Rattle.vc_layout.specs.Layout.{IsSectorSize};

use crate::reply::{reply_alone, reply_data};
use crate::sectors::{flush_volume, read_sectors, write_request};
use cipher_base::UnitCipher;
use frag_pool::Bench;
use hist_lock::Pass;
use io_core::Core;
use io_queue::Volume;
use nbd_wire::{Ask, End, Outcome, REPLY, Request};
use std::alloc::Global;
use std::sync::Wait;
use std::thread::Threads;
use vc_outside::{Gate, Sink, Store};

// Answers a request by what it asks. `kept` is the payload of a write, or None if there is no memory for it.
pub(crate) fn answer<R: Threads + Wait + Sync, S: Store, C: UnitCipher + Sync, O: Sink, G: Gate>(
    rt: &R,
    alloc: Global,
    volume: &Volume<S, C>,
    pass: &mut Pass<Core<S, C>>,
    bench: &mut Bench,
    gate: &G,
    sink: &mut O,
    request: &Request,
    ask: Ask,
    kept: Option<Vec<u8>>,
) -> Option<End>
    requires pass { IsPass volume.now.lock.table.shared.table_id volume.now.geometry volume.now.cipher pass.old.seat }
    requires open { NothingOpen (view pass.old.seat) }
    requires bench { is_empty bench.old ≡ true }
    requires sector { IsSectorSize volume.now.geometry.sector }
    requires asked { asked volume.now.geometry.sector request.now ≡ ask }
    requires stays { ask ≢ Ask.Disconnect }
    requires size { IfSome kept (λ v. length v.items ≡ request.now.length) }
    ensures pass { IsPass volume.now.lock.table.shared.table_id volume.now.geometry volume.now.cipher pass.new.seat }
    ensures open { NothingOpen (view pass.new.seat) }
    ensures bench { is_empty bench.new ≡ true }
    ensures acts { (payload : List ℕ) → IfSome kept (λ v. v.items ≡ payload) → Acts volume.now.geometry.sector (record { request = request.now; payload = payload })
        (view pass.old.seat) (view pass.new.seat) (O.contents sink.old) (O.contents sink.new) result }
    ensures cause { HasCause (O.faults sink.old) (O.faults sink.new) (result ≡ Some End.WriteFault) }
{
    // Proofs know the range of what is read: an offset is below 2^64.
    let _offset = request.offset;
    match ask {
        Ask::Read { first, count } => {
            answer_read(rt, alloc, volume, pass, sink, request, first, count)
        }
        Ask::Write { first, count, fua } => {
            answer_write(
                rt, alloc, volume, pass, bench, gate, sink, request, first, count, fua, kept,
            )
        }
        Ask::Flush => answer_flush(rt, volume, pass, sink, request),
        Ask::Malformed => reply_alone(sink, request, Outcome::Malformed),
        Ask::Disconnect => unreachable!(),
    }
}

// Answers a read. The data are read to where the reply takes them from.
fn answer_read<R: Threads + Wait + Sync, S: Store, C: UnitCipher + Sync, O: Sink>(
    rt: &R,
    alloc: Global,
    volume: &Volume<S, C>,
    pass: &mut Pass<Core<S, C>>,
    sink: &mut O,
    request: &Request,
    first: u64,
    count: u64,
) -> Option<End>
    requires pass { IsPass volume.now.lock.table.shared.table_id volume.now.geometry volume.now.cipher pass.old.seat }
    requires open { NothingOpen (view pass.old.seat) }
    requires sector { IsSectorSize volume.now.geometry.sector }
    requires asked { asked volume.now.geometry.sector request.now ≡ Ask.Read first count }
    requires range { IsRange volume.now.geometry.sector request.now first count }
    ensures pass { IsPass volume.now.lock.table.shared.table_id volume.now.geometry volume.now.cipher pass.new.seat }
    ensures open { NothingOpen (view pass.new.seat) }
    ensures acts { (payload : List ℕ) → Acts volume.now.geometry.sector (record { request = request.now; payload = payload })
        (view pass.old.seat) (view pass.new.seat) (O.contents sink.old) (O.contents sink.new) result }
    ensures cause { HasCause (O.faults sink.old) (O.faults sink.new) (result ≡ Some End.WriteFault) }
{
    let Ok(mut buf) = vec![in alloc; 0u8; REPLY + request.length as usize] else {
        return reply_alone(sink, request, Outcome::NoMemory);
    };
    answer_in(rt, volume, pass, sink, request, first, count, &mut buf)
}

// Answers a read by a buffer for the reply and its data.
fn answer_in<R: Threads + Wait + Sync, S: Store, C: UnitCipher + Sync, O: Sink>(
    rt: &R,
    volume: &Volume<S, C>,
    pass: &mut Pass<Core<S, C>>,
    sink: &mut O,
    request: &Request,
    first: u64,
    count: u64,
    buf: &mut [u8],
) -> Option<End>
    requires pass { IsPass volume.now.lock.table.shared.table_id volume.now.geometry volume.now.cipher pass.old.seat }
    requires open { NothingOpen (view pass.old.seat) }
    requires sector { IsSectorSize volume.now.geometry.sector }
    requires asked { asked volume.now.geometry.sector request.now ≡ Ask.Read first count }
    requires range { IsRange volume.now.geometry.sector request.now first count }
    requires room { length buf.old ≡ 16 + request.now.length }
    ensures pass { IsPass volume.now.lock.table.shared.table_id volume.now.geometry volume.now.cipher pass.new.seat }
    ensures open { NothingOpen (view pass.new.seat) }
    ensures acts { (payload : List ℕ) → Acts volume.now.geometry.sector (record { request = request.now; payload = payload })
        (view pass.old.seat) (view pass.new.seat) (O.contents sink.old) (O.contents sink.new) result }
    ensures cause { HasCause (O.faults sink.old) (O.faults sink.new) (result ≡ Some End.WriteFault) }
{
    let outcome = read_sectors(rt, volume, pass, first, count, &mut buf[REPLY..]);
    let Outcome::Done = outcome else {
        return reply_alone(sink, request, outcome);
    };
    reply_data(sink, request, buf)
}

// Answers a write. The reply follows the deposit, and with FUA the flush.
fn answer_write<R: Threads + Wait + Sync, S: Store, C: UnitCipher, O: Sink, G: Gate>(
    rt: &R,
    alloc: Global,
    volume: &Volume<S, C>,
    pass: &mut Pass<Core<S, C>>,
    bench: &mut Bench,
    gate: &G,
    sink: &mut O,
    request: &Request,
    first: u64,
    count: u64,
    fua: bool,
    kept: Option<Vec<u8>>,
) -> Option<End>
    requires pass { IsPass volume.now.lock.table.shared.table_id volume.now.geometry volume.now.cipher pass.old.seat }
    requires open { NothingOpen (view pass.old.seat) }
    requires bench { is_empty bench.old ≡ true }
    requires sector { IsSectorSize volume.now.geometry.sector }
    requires asked { asked volume.now.geometry.sector request.now ≡ Ask.Write first count fua }
    requires range { IsRange volume.now.geometry.sector request.now first count }
    requires size { IfSome kept (λ v. length v.items ≡ request.now.length) }
    ensures pass { IsPass volume.now.lock.table.shared.table_id volume.now.geometry volume.now.cipher pass.new.seat }
    ensures open { NothingOpen (view pass.new.seat) }
    ensures bench { is_empty bench.new ≡ true }
    ensures acts { (payload : List ℕ) → IfSome kept (λ v. v.items ≡ payload) → Acts volume.now.geometry.sector (record { request = request.now; payload = payload })
        (view pass.old.seat) (view pass.new.seat) (O.contents sink.old) (O.contents sink.new) result }
    ensures cause { HasCause (O.faults sink.old) (O.faults sink.new) (result ≡ Some End.WriteFault) }
{
    let Some(payload) = kept else {
        return reply_alone(sink, request, Outcome::NoMemory);
    };
    let written = write_request(
        rt, alloc, volume, pass, bench, gate, first, count, fua, payload,
    );
    reply_alone(sink, request, written)
}

// Answers a flush.
fn answer_flush<R: Threads + Wait + Sync, S: Store, C: UnitCipher, O: Sink>(
    rt: &R,
    volume: &Volume<S, C>,
    pass: &mut Pass<Core<S, C>>,
    sink: &mut O,
    request: &Request,
) -> Option<End>
    requires pass { IsPass volume.now.lock.table.shared.table_id volume.now.geometry volume.now.cipher pass.old.seat }
    requires open { NothingOpen (view pass.old.seat) }
    requires asked { asked volume.now.geometry.sector request.now ≡ Ask.Flush }
    ensures pass { IsPass volume.now.lock.table.shared.table_id volume.now.geometry volume.now.cipher pass.new.seat }
    ensures open { NothingOpen (view pass.new.seat) }
    ensures acts { (payload : List ℕ) → Acts volume.now.geometry.sector (record { request = request.now; payload = payload })
        (view pass.old.seat) (view pass.new.seat) (O.contents sink.old) (O.contents sink.new) result }
    ensures cause { HasCause (O.faults sink.old) (O.faults sink.new) (result ≡ Some End.WriteFault) }
{
    let flushed = flush_volume(rt, volume, pass);
    reply_alone(sink, request, flushed)
}
