//! Threads that make requests to a volume over a store whose calls fail as planned.
ghost use Rattle.std.specs.Prelude.{◌≡◌, true, IfOk, IfSome};
ghost use Rattle.frag_pool.specs.Bench.{is_empty};
ghost use Rattle.hist_lock.specs.Known.{view};
ghost use Rattle.io_queue.specs.Laws.Idle.{IsIdle};
ghost use Rattle.io_queue.specs.Pass.{IsPass, NothingOpen};

use super::requests::{Asks, LAST, Request, SECTORS};
use super::{Turned, put};
use crate::Volume;
use cipher_base::{UnitCipher, Xts};
use frag_pool::{Bench, Pool};
use hist_lock::Pass;
use io_core::Core;
use std::alloc::{AllocError, Global};
use std::hint::spin_loop;
use std::sync::Wait;
use std::sync::atomic::AtomicU64;
use std::sync::atomic::Ordering::SeqCst;
use std::thread;
use std::thread::Threads;
use vc_layout::Geometry;
use vc_outside::{Gate, MemStore, Store};

// The volume is the container's units 1 to 8, of 10.
const START: usize = 512;

const VOLUME: usize = 512 * SECTORS;

const CONTAINER: usize = START + VOLUME + 512;

const SMALL: Geometry = Geometry {
    start: 512,
    sectors: 8,
    sector: 512,
};

// What is around the volume.
const OUTSIDE: u8 = 0xdd;

const CIPHER: Xts<Turned> = Xts {
    main: Turned,
    tweak: Turned,
};

// A thread's pass, its bench and its requests.
#[derive(Drop)]
struct Client {
    pass: Pass<Core<MemStore, Xts<Turned>>>,
    bench: Bench,
    requests: Vec<Request>,
}

/// What came of a run.
#[derive(Drop)]
pub struct Outcome {
    /// The requests, by threads.
    pub threads: Vec<Vec<Request>>,
    /// The volume's sectors, deciphered.
    pub bytes: Vec<u8>,
    /// How many calls of the store failed.
    pub faults: u64,
}

/// Lets each list of requests be made by a thread of its own, and closes the volume. The calls of the store
/// with the numbers `fails` fail.
pub fn run<R: Threads + Wait + Sync, G: Gate + Sync>(
    rt: &R,
    alloc: Global,
    gate: &G,
    lists: Vec<Vec<Request>>,
    fails: Vec<u64>,
    protects: bool,
) -> Result<Outcome, &'static str> {
    let Some((volume, mut pass)) = open(alloc, fails, protects) else {
        return Err("no memory");
    };
    let Ok(threads) = make_by_threads(rt, alloc, gate, &volume, &mut pass, lists) else {
        return Err("no memory");
    };
    let Ok((disk, _pass)) = volume.close(pass) else {
        return Err("the volume can't be closed");
    };
    let Ok(bytes) = deciphered(alloc, disk.bytes()) else {
        return Err("no memory");
    };
    if disk.bytes().iter().take(START).any(|byte| *byte != OUTSIDE)
        || disk
            .bytes()
            .iter()
            .skip(START + VOLUME)
            .any(|byte| *byte != OUTSIDE)
    {
        return Err("a byte outside of the volume");
    }
    Ok(Outcome {
        threads,
        bytes,
        faults: disk.faults(),
    })
}

// A volume of zeros that two writes at a time may be pending on.
fn open(
    alloc: Global,
    fails: Vec<u64>,
    protects: bool,
) -> Option<
    (
        Volume<MemStore, Xts<Turned>>,
        Pass<Core<MemStore, Xts<Turned>>>,
    ),
>
    ensures pass { IfSome result (λ r. IsPass r.0.lock.table.shared.table_id r.0.geometry r.0.cipher r.1.seat) }
    ensures open { IfSome result (λ r. NothingOpen (view r.1.seat)) }
    ensures sector { IfSome result (λ r. r.0.geometry.sector ≡ 512) }
{
    let mut bytes = vec![in alloc; OUTSIDE; CONTAINER].ok()?;
    let units = &mut bytes[START..START + VOLUME];
    units.fill(0);
    CIPHER.encipher_units(1, units);
    let disk = MemStore::new(alloc, bytes, fails, None, 64, 1 << 16).ok()?;
    if disk.len() < CONTAINER as u64 {
        return None;
    }
    let protect = if protects { Some((LAST + 1, 1)) } else { None };
    Volume::open(alloc, disk, SMALL, CIPHER, protect, 2).ok()
}

// Splits a pass for each list, lets threads make the requests, and joins the passes.
fn make_by_threads<R: Threads + Wait + Sync, G: Gate + Sync>(
    rt: &R,
    alloc: Global,
    gate: &G,
    volume: &Volume<MemStore, Xts<Turned>>,
    pass: &mut Pass<Core<MemStore, Xts<Turned>>>,
    lists: Vec<Vec<Request>>,
) -> Result<Vec<Vec<Request>>, AllocError>
    requires pass { IsPass volume.now.lock.table.shared.table_id volume.now.geometry volume.now.cipher pass.old.seat }
    requires open { NothingOpen (view pass.old.seat) }
    requires sector { volume.now.geometry.sector ≡ 512 }
    ensures pass { IsPass volume.now.lock.table.shared.table_id volume.now.geometry volume.now.cipher pass.new.seat }
    ensures open { NothingOpen (view pass.new.seat) }
{
    let mut clients = Vec::new(alloc);
    for requests in lists {
        clients.reserve(1)?;
        let client = new_client(rt, volume, pass, new_bench(alloc)?, requests);
        clients.push_reserved(client);
    }
    let all = clients.len() as u64;
    let begun = AtomicU64::new(0);
    thread::for_each_mut(
        rt,
        clients.as_mut_slice(),
        24,
        &|_, client: &mut Client|
            requires idle { IsIdle volume.now.lock.table.shared.table_id volume.now.geometry volume.now.cipher client.old.pass.seat }
            requires empty { is_empty client.old.bench ≡ true }
            requires sector { volume.now.geometry.sector ≡ 512 }
            ensures idle { IsIdle volume.entry.now.lock.table.shared.table_id volume.entry.now.geometry volume.entry.now.cipher client.new.pass.seat }
        {
            begin_together(&begun, all);
            make_by(rt, alloc, gate, volume, client)
        },
    );
    let mut made = Vec::new(alloc);
    while let Some(client) = clients.pop() {
        let Client {
            pass: other,
            bench: _,
            requests,
        } = client;
        volume.join(pass, other);
        made.push(requests)?;
    }
    Ok(made)
}

fn new_client<R: Threads + Wait + Sync>(
    rt: &R,
    volume: &Volume<MemStore, Xts<Turned>>,
    pass: &mut Pass<Core<MemStore, Xts<Turned>>>,
    bench: Bench,
    requests: Vec<Request>,
) -> Client
    requires pass { IsPass volume.now.lock.table.shared.table_id volume.now.geometry volume.now.cipher pass.old.seat }
    requires open { NothingOpen (view pass.old.seat) }
    requires empty { is_empty bench ≡ true }
    ensures pass { IsPass volume.now.lock.table.shared.table_id volume.now.geometry volume.now.cipher pass.new.seat }
    ensures open { NothingOpen (view pass.new.seat) }
    ensures idle { IsIdle volume.now.lock.table.shared.table_id volume.now.geometry volume.now.cipher result.pass.seat }
    ensures empty { is_empty result.bench ≡ true }
{
    Client {
        pass: volume.split(rt, pass),
        bench,
        requests,
    }
}

// A bench of a pool without helpers.
fn new_bench(alloc: Global) -> Result<Bench, AllocError>
    ensures empty { IfOk result (λ b. is_empty b ≡ true) }
{
    let (mut benches, _) = Pool::new(alloc, 1, 0)?;
    let Some(bench) = benches.pop() else {
        unreachable!()
    };
    Ok(bench)
}

// Waits until all threads have begun, for some milliseconds at most.
fn begin_together(begun: &AtomicU64, all: u64) {
    begun.fetch_add(1, SeqCst);
    for _ in 0..20_000 {
        if begun.load(SeqCst) >= all {
            return;
        }
        spin_loop();
    }
}

fn make_by<R: Threads + Wait + Sync, G: Gate>(
    rt: &R,
    alloc: Global,
    gate: &G,
    volume: &Volume<MemStore, Xts<Turned>>,
    client: &mut Client,
)
    requires idle { IsIdle volume.now.lock.table.shared.table_id volume.now.geometry volume.now.cipher client.old.pass.seat }
    requires empty { is_empty client.old.bench ≡ true }
    requires sector { volume.now.geometry.sector ≡ 512 }
    ensures idle { IsIdle volume.now.lock.table.shared.table_id volume.now.geometry volume.now.cipher client.new.pass.seat }
{
    make_all(
        rt,
        alloc,
        gate,
        volume,
        &mut client.pass,
        &mut client.bench,
        &mut client.requests,
    );
}

fn make_all<R: Threads + Wait + Sync, G: Gate>(
    rt: &R,
    alloc: Global,
    gate: &G,
    volume: &Volume<MemStore, Xts<Turned>>,
    pass: &mut Pass<Core<MemStore, Xts<Turned>>>,
    bench: &mut Bench,
    requests: &mut [Request],
)
    requires pass { IsPass volume.now.lock.table.shared.table_id volume.now.geometry volume.now.cipher pass.old.seat }
    requires open { NothingOpen (view pass.old.seat) }
    requires empty { is_empty bench.old ≡ true }
    requires sector { volume.now.geometry.sector ≡ 512 }
    ensures pass { IsPass volume.now.lock.table.shared.table_id volume.now.geometry volume.now.cipher pass.new.seat }
    ensures open { NothingOpen (view pass.new.seat) }
    ensures empty { is_empty bench.new ≡ true }
{
    for request in requests.iter_mut() {
        make(rt, alloc, gate, volume, pass, bench, request);
    }
}

fn make<R: Threads + Wait + Sync, G: Gate>(
    rt: &R,
    alloc: Global,
    gate: &G,
    volume: &Volume<MemStore, Xts<Turned>>,
    pass: &mut Pass<Core<MemStore, Xts<Turned>>>,
    bench: &mut Bench,
    request: &mut Request,
)
    requires pass { IsPass volume.now.lock.table.shared.table_id volume.now.geometry volume.now.cipher pass.old.seat }
    requires open { NothingOpen (view pass.old.seat) }
    requires empty { is_empty bench.old ≡ true }
    requires sector { volume.now.geometry.sector ≡ 512 }
    ensures pass { IsPass volume.now.lock.table.shared.table_id volume.now.geometry volume.now.cipher pass.new.seat }
    ensures open { NothingOpen (view pass.new.seat) }
    ensures empty { is_empty bench.new ≡ true }
{
    match request.asks {
        Asks::Write(first, byte) => {
            request.result = put(
                rt,
                alloc,
                volume,
                pass,
                bench,
                gate,
                u64::from(first),
                2,
                byte,
            );
        }
        Asks::Read(first) => {
            request.result = volume.read(rt, pass, u64::from(first), &mut request.out);
        }
        Asks::Flush => {
            request.result = volume.flush(rt, pass);
        }
    }
}

// The volume's sectors of a container.
fn deciphered(alloc: Global, container: &[u8]) -> Result<Vec<u8>, AllocError> {
    let mut bytes = Vec::new(alloc);
    for byte in container.iter().skip(START).take(VOLUME) {
        bytes.push(*byte)?;
    }
    if bytes.len() == VOLUME {
        CIPHER.decipher_units(1, &mut bytes);
    }
    Ok(bytes)
}
