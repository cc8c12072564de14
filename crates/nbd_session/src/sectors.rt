//! What a request does with the volume.
ghost use Rattle.std.specs.Prelude.{◌≡◌, ◌<◌, ◌≤◌, ◌*◌, ◌^◌, false, true, length, List};
ghost use Rattle.frag_pool.specs.Bench.{is_empty};
ghost use Rattle.hist_lock.specs.Known.{view};
ghost use Rattle.io_queue.specs.Pass.{Call, IsPass, NothingOpen};
ghost use Rattle.nbd_session.specs.Outcomes.{data_of, outcome_of};
ghost use Rattle.nbd_session.specs.Session.{events_of};
ghost use Rattle.nbd_wire.specs.Replies.{FlushLeaves, ReadLeaves, WriteLeaves};
ghost use Rattle.sector_model.specs.declared.entry.Entry.{Entry};
ghost use Rattle.vc_layout.specs.Layout.{IsSectorSize};

use cipher_base::UnitCipher;
use frag_pool::Bench;
use hist_lock::Pass;
use io_core::Core;
use io_queue::{IoError, Volume};
use nbd_wire::Outcome;
use std::alloc::Global;
use std::sync::Wait;
use std::thread::Threads;
use vc_outside::{Gate, Store};

/// Reads `count` sectors from `first` on, which are the data of the reply.
pub fn read_sectors<R: Threads + Wait + Sync, S: Store, C: UnitCipher + Sync>(
    rt: &R,
    volume: &Volume<S, C>,
    pass: &mut Pass<Core<S, C>>,
    first: u64,
    count: u64,
    out: &mut [u8],
) -> Outcome
    requires pass { IsPass volume.now.lock.table.shared.table_id volume.now.geometry volume.now.cipher pass.old.seat }
    requires open { NothingOpen (view pass.old.seat) }
    requires sector { IsSectorSize volume.now.geometry.sector }
    requires some { 0 < length out.old }
    requires whole { length out.old ≡ volume.now.geometry.sector * count }
    requires small { length out.old ≤ 2 ^ 25 }
    requires within { first < 2 ^ 55 }
    ensures pass { IsPass volume.now.lock.table.shared.table_id volume.now.geometry volume.now.cipher pass.new.seat }
    ensures open { NothingOpen (view pass.new.seat) }
    ensures call { (es : List Entry) × Call (view pass.old.seat) (view pass.new.seat) es
        × ReadLeaves volume.now.geometry.sector first count result (events_of es) (data_of result out.new) }
{
    let _ = count;
    outcome_of(volume.read(rt, pass, first, out), Outcome::ReadBeyond)
}

// Writes `count` sectors, without a flush.
fn write_sectors<R: Threads + Wait + Sync, S: Store, C: UnitCipher, G: Gate>(
    rt: &R,
    alloc: Global,
    volume: &Volume<S, C>,
    pass: &mut Pass<Core<S, C>>,
    bench: &mut Bench,
    gate: &G,
    first: u64,
    count: u64,
    payload: Vec<u8>,
) -> Outcome
    requires pass { IsPass volume.now.lock.table.shared.table_id volume.now.geometry volume.now.cipher pass.old.seat }
    requires open { NothingOpen (view pass.old.seat) }
    requires bench { is_empty bench.old ≡ true }
    requires sector { IsSectorSize volume.now.geometry.sector }
    requires some { 0 < length payload.items }
    requires whole { length payload.items ≡ volume.now.geometry.sector * count }
    requires small { length payload.items ≤ 2 ^ 25 }
    requires within { first < 2 ^ 55 }
    ensures pass { IsPass volume.now.lock.table.shared.table_id volume.now.geometry volume.now.cipher pass.new.seat }
    ensures open { NothingOpen (view pass.new.seat) }
    ensures bench { is_empty bench.new ≡ true }
    ensures call { (es : List Entry) × Call (view pass.old.seat) (view pass.new.seat) es
        × WriteLeaves first count false payload.items result (events_of es) }
{
    let _ = count;
    outcome_of(
        volume.write(rt, alloc, pass, bench, gate, first, payload),
        Outcome::WriteBeyond,
    )
}

/// Writes `count` sectors from `first` on. With `fua` a flush follows if they are stored.
pub fn write_request<R: Threads + Wait + Sync, S: Store, C: UnitCipher, G: Gate>(
    rt: &R,
    alloc: Global,
    volume: &Volume<S, C>,
    pass: &mut Pass<Core<S, C>>,
    bench: &mut Bench,
    gate: &G,
    first: u64,
    count: u64,
    fua: bool,
    payload: Vec<u8>,
) -> Outcome
    requires pass { IsPass volume.now.lock.table.shared.table_id volume.now.geometry volume.now.cipher pass.old.seat }
    requires open { NothingOpen (view pass.old.seat) }
    requires bench { is_empty bench.old ≡ true }
    requires sector { IsSectorSize volume.now.geometry.sector }
    requires some { 0 < length payload.items }
    requires whole { length payload.items ≡ volume.now.geometry.sector * count }
    requires small { length payload.items ≤ 2 ^ 25 }
    requires within { first < 2 ^ 55 }
    ensures pass { IsPass volume.now.lock.table.shared.table_id volume.now.geometry volume.now.cipher pass.new.seat }
    ensures open { NothingOpen (view pass.new.seat) }
    ensures bench { is_empty bench.new ≡ true }
    ensures call { (es : List Entry) × Call (view pass.old.seat) (view pass.new.seat) es
        × WriteLeaves first count fua payload.items result (events_of es) }
{
    let stored = write_sectors(rt, alloc, volume, pass, bench, gate, first, count, payload);
    if !fua {
        return stored;
    }
    let Outcome::Done = stored else {
        return stored;
    };
    flush_volume(rt, volume, pass)
}

/// Flushes the volume.
pub fn flush_volume<R: Threads + Wait + Sync, S: Store, C: UnitCipher>(
    rt: &R,
    volume: &Volume<S, C>,
    pass: &mut Pass<Core<S, C>>,
) -> Outcome
    requires pass { IsPass volume.now.lock.table.shared.table_id volume.now.geometry volume.now.cipher pass.old.seat }
    requires open { NothingOpen (view pass.old.seat) }
    ensures pass { IsPass volume.now.lock.table.shared.table_id volume.now.geometry volume.now.cipher pass.new.seat }
    ensures open { NothingOpen (view pass.new.seat) }
    ensures call { (es : List Entry) × Call (view pass.old.seat) (view pass.new.seat) es × FlushLeaves result (events_of es) }
{
    outcome_of(volume.flush(rt, pass), Outcome::ReadBeyond)
}

// The outcome of a call by what it returned. `beyond` is that of one past the volume's end.
fn outcome_of(answer: Result<(), IoError>, beyond: Outcome) -> Outcome
    ensures { result ≡ outcome_of beyond answer }
{
    match answer {
        Ok(()) => Outcome::Done,
        Err(IoError::Range) => beyond,
        Err(IoError::Denied) => Outcome::Denied,
        Err(IoError::Frozen) => Outcome::Frozen,
        Err(IoError::Fault(_)) => Outcome::Fault,
        Err(IoError::NoMemory) => Outcome::NoMemory,
    }
}
