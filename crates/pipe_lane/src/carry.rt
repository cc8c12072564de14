//! What a lane does in a wave.
ghost use Rattle.std.specs.Prelude.{◌≡◌, ◌+◌, ℕ, drop, length, true, IfSome, List};
ghost use Rattle.frag_pool.specs.Bench.{is_empty};
ghost use Rattle.hist_lock.specs.Known.{view};
ghost use Rattle.io_queue.specs.Pass.{Call, IsPass, NothingOpen};
ghost use Rattle.nbd_session.specs.Laws.Acts.{IsRange};
ghost use Rattle.nbd_session.specs.Outcomes.{data_of};
ghost use Rattle.nbd_session.specs.Session.{events_of};
ghost use Rattle.nbd_wire.specs.Classes.{asked};
ghost use Rattle.nbd_wire.specs.Frames.{Frame};
ghost use Rattle.nbd_wire.specs.Replies.{ReadLeaves};
ghost use Rattle.pipe_lane.specs.Lanes.{CanCarry, CarriesOut, IsCarriedOut, IsLane};
ghost use Rattle.pipe_lane.specs.Queue.{IsQueued};
ghost use Rattle.sector_model.specs.declared.entry.Entry.{Entry};
ghost use Rattle.vc_layout.specs.Layout.{IsSectorSize};

use crate::lane::{Lane, Reply, Stage};
use crate::queued::Queued;
use cipher_base::UnitCipher;
use frag_pool::Bench;
use hist_lock::Pass;
use io_core::Core;
use io_queue::Volume;
use nbd_session::{flush_volume, read_sectors, write_request};
use nbd_wire::{Ask, Outcome, REPLY, Request};
use std::alloc::Global;
use std::mem;
use std::sync::Wait;
use std::thread::Threads;
use vc_outside::{Gate, Store};

/// Carries out the request that waits in a lane, if one does. Nothing is written to the client.
pub fn carry_out<R: Threads + Wait + Sync, S: Store, C: UnitCipher + Sync, G: Gate>(
    rt: &R,
    alloc: Global,
    volume: &Volume<S, C>,
    gate: &G,
    lane: &mut Lane<Core<S, C>>,
)
    requires sector { IsSectorSize volume.now.geometry.sector }
    requires lane { IsLane volume.now.lock.table.shared.table_id volume.now.geometry volume.now.cipher lane.old }
    requires waits { CanCarry volume.now.geometry.sector lane.old.stage }
    ensures lane { IsLane volume.now.lock.table.shared.table_id volume.now.geometry volume.now.cipher lane.new }
    ensures carried { CarriesOut volume.now.geometry.sector (view lane.old.pass.seat) (view lane.new.pass.seat)
        lane.old.stage lane.new.stage }
{
    let stage = mem::replace(&mut lane.stage, Stage::Free);
    let then = carry_stage(
        rt,
        alloc,
        volume,
        &mut lane.pass,
        &mut lane.bench,
        gate,
        stage,
    );
    lane.stage = then;
}

// What becomes of a lane's stage.
fn carry_stage<R: Threads + Wait + Sync, S: Store, C: UnitCipher + Sync, G: Gate>(
    rt: &R,
    alloc: Global,
    volume: &Volume<S, C>,
    pass: &mut Pass<Core<S, C>>,
    bench: &mut Bench,
    gate: &G,
    stage: Stage,
) -> Stage
    requires pass { IsPass volume.now.lock.table.shared.table_id volume.now.geometry volume.now.cipher pass.old.seat }
    requires open { NothingOpen (view pass.old.seat) }
    requires bench { is_empty bench.old ≡ true }
    requires sector { IsSectorSize volume.now.geometry.sector }
    requires waits { CanCarry volume.now.geometry.sector stage }
    ensures pass { IsPass volume.now.lock.table.shared.table_id volume.now.geometry volume.now.cipher pass.new.seat }
    ensures open { NothingOpen (view pass.new.seat) }
    ensures bench { is_empty bench.new ≡ true }
    ensures carried { CarriesOut volume.now.geometry.sector (view pass.old.seat) (view pass.new.seat) stage result }
{
    match stage {
        Stage::Waits(queued) => {
            let reply = carry(rt, alloc, volume, pass, bench, gate, queued);
            Stage::Done(reply)
        }
        Stage::Done(reply) => Stage::Done(reply),
        Stage::Free => Stage::Free,
    }
}

// Carries out a request by what it asks.
fn carry<R: Threads + Wait + Sync, S: Store, C: UnitCipher + Sync, G: Gate>(
    rt: &R,
    alloc: Global,
    volume: &Volume<S, C>,
    pass: &mut Pass<Core<S, C>>,
    bench: &mut Bench,
    gate: &G,
    queued: Queued,
) -> Reply
    requires pass { IsPass volume.now.lock.table.shared.table_id volume.now.geometry volume.now.cipher pass.old.seat }
    requires open { NothingOpen (view pass.old.seat) }
    requires bench { is_empty bench.old ≡ true }
    requires sector { IsSectorSize volume.now.geometry.sector }
    requires queued { (f : Frame) × IsQueued volume.now.geometry.sector f queued }
    ensures pass { IsPass volume.now.lock.table.shared.table_id volume.now.geometry volume.now.cipher pass.new.seat }
    ensures open { NothingOpen (view pass.new.seat) }
    ensures bench { is_empty bench.new ≡ true }
    ensures carried { (f : Frame) → IsQueued volume.now.geometry.sector f queued
        → IsCarriedOut volume.now.geometry.sector f (view pass.old.seat) (view pass.new.seat) result }
{
    let Queued {
        request,
        ask,
        payload,
    } = queued;
    // Proofs know the range of what is read: an offset is below 2^64.
    let _offset = request.offset;
    match ask {
        Ask::Read { first, count } => carry_read(rt, alloc, volume, pass, request, first, count),
        Ask::Write { first, count, fua } => carry_write(
            rt, alloc, volume, pass, bench, gate, request, first, count, fua, payload,
        ),
        Ask::Flush => {
            let flushed = flush_volume(rt, volume, pass);
            Reply::Alone(request, flushed)
        }
        Ask::Malformed => Reply::Alone(request, Outcome::Malformed),
        Ask::Disconnect => unreachable!(),
    }
}

// Carries out a read. The data are read to where the reply takes them from.
fn carry_read<R: Threads + Wait + Sync, S: Store, C: UnitCipher + Sync>(
    rt: &R,
    alloc: Global,
    volume: &Volume<S, C>,
    pass: &mut Pass<Core<S, C>>,
    request: Request,
    first: u64,
    count: u64,
) -> Reply
    requires pass { IsPass volume.now.lock.table.shared.table_id volume.now.geometry volume.now.cipher pass.old.seat }
    requires open { NothingOpen (view pass.old.seat) }
    requires sector { IsSectorSize volume.now.geometry.sector }
    requires asked { asked volume.now.geometry.sector request ≡ Ask.Read first count }
    requires range { IsRange volume.now.geometry.sector request first count }
    ensures pass { IsPass volume.now.lock.table.shared.table_id volume.now.geometry volume.now.cipher pass.new.seat }
    ensures open { NothingOpen (view pass.new.seat) }
    ensures carried { (payload : List ℕ) → IsCarriedOut volume.now.geometry.sector (record { request = request; payload = payload })
        (view pass.old.seat) (view pass.new.seat) result }
{
    let Ok(buf) = vec![in alloc; 0u8; REPLY + request.length as usize] else {
        return Reply::Alone(request, Outcome::NoMemory);
    };
    carry_in(rt, volume, pass, request, first, count, buf)
}

// Carries out a read by a buffer for the reply and its data.
fn carry_in<R: Threads + Wait + Sync, S: Store, C: UnitCipher + Sync>(
    rt: &R,
    volume: &Volume<S, C>,
    pass: &mut Pass<Core<S, C>>,
    request: Request,
    first: u64,
    count: u64,
    buf: Vec<u8>,
) -> Reply
    requires pass { IsPass volume.now.lock.table.shared.table_id volume.now.geometry volume.now.cipher pass.old.seat }
    requires open { NothingOpen (view pass.old.seat) }
    requires sector { IsSectorSize volume.now.geometry.sector }
    requires asked { asked volume.now.geometry.sector request ≡ Ask.Read first count }
    requires range { IsRange volume.now.geometry.sector request first count }
    requires room { length buf.items ≡ 16 + request.length }
    ensures pass { IsPass volume.now.lock.table.shared.table_id volume.now.geometry volume.now.cipher pass.new.seat }
    ensures open { NothingOpen (view pass.new.seat) }
    ensures carried { (payload : List ℕ) → IsCarriedOut volume.now.geometry.sector (record { request = request; payload = payload })
        (view pass.old.seat) (view pass.new.seat) result }
{
    let mut buf = buf;
    let outcome = read_behind(rt, volume, pass, &request, first, count, &mut buf);
    let Outcome::Done = outcome else {
        return Reply::Alone(request, outcome);
    };
    Reply::Data(request, buf)
}

// Reads sectors behind the 16 bytes that the reply's head takes.
fn read_behind<R: Threads + Wait + Sync, S: Store, C: UnitCipher + Sync>(
    rt: &R,
    volume: &Volume<S, C>,
    pass: &mut Pass<Core<S, C>>,
    request: &Request,
    first: u64,
    count: u64,
    buf: &mut [u8],
) -> Outcome
    requires pass { IsPass volume.now.lock.table.shared.table_id volume.now.geometry volume.now.cipher pass.old.seat }
    requires open { NothingOpen (view pass.old.seat) }
    requires sector { IsSectorSize volume.now.geometry.sector }
    requires range { IsRange volume.now.geometry.sector request.now first count }
    requires room { length buf.old ≡ 16 + request.now.length }
    ensures pass { IsPass volume.now.lock.table.shared.table_id volume.now.geometry volume.now.cipher pass.new.seat }
    ensures open { NothingOpen (view pass.new.seat) }
    ensures call { (es : List Entry) × Call (view pass.old.seat) (view pass.new.seat) es
        × ReadLeaves volume.now.geometry.sector first count result (events_of es) (data_of result (drop 16 buf.new)) }
{
    let _ = request;
    read_sectors(rt, volume, pass, first, count, &mut buf[REPLY..])
}

// Carries out a write whose payload was kept.
fn carry_write<R: Threads + Wait + Sync, S: Store, C: UnitCipher, G: Gate>(
    rt: &R,
    alloc: Global,
    volume: &Volume<S, C>,
    pass: &mut Pass<Core<S, C>>,
    bench: &mut Bench,
    gate: &G,
    request: Request,
    first: u64,
    count: u64,
    fua: bool,
    kept: Option<Vec<u8>>,
) -> Reply
    requires pass { IsPass volume.now.lock.table.shared.table_id volume.now.geometry volume.now.cipher pass.old.seat }
    requires open { NothingOpen (view pass.old.seat) }
    requires bench { is_empty bench.old ≡ true }
    requires sector { IsSectorSize volume.now.geometry.sector }
    requires asked { asked volume.now.geometry.sector request ≡ Ask.Write first count fua }
    requires range { IsRange volume.now.geometry.sector request first count }
    requires size { IfSome kept (λ v. length v.items ≡ request.length) }
    ensures pass { IsPass volume.now.lock.table.shared.table_id volume.now.geometry volume.now.cipher pass.new.seat }
    ensures open { NothingOpen (view pass.new.seat) }
    ensures bench { is_empty bench.new ≡ true }
    ensures carried { (payload : List ℕ) → IfSome kept (λ v. v.items ≡ payload)
        → IsCarriedOut volume.now.geometry.sector (record { request = request; payload = payload }) (view pass.old.seat) (view pass.new.seat) result }
{
    let Some(payload) = kept else {
        return Reply::Alone(request, Outcome::NoMemory);
    };
    let written = write_request(
        rt, alloc, volume, pass, bench, gate, first, count, fua, payload,
    );
    Reply::Alone(request, written)
}
