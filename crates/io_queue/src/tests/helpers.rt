//! Writes of several fragments, with threads that help.
ghost use Rattle.std.specs.Prelude.{◌≡◌, ◌<◌, ◌≤◌, true, length, IfOk, IfSome};
ghost use Rattle.frag_pool.specs.Bench.{is_empty};
ghost use Rattle.hist_lock.specs.Known.{view};
ghost use Rattle.io_queue.specs.Laws.Idle.{IsIdle};
ghost use Rattle.io_queue.specs.Pass.{IsPass, NothingOpen};

use super::Turned;
use crate::{IoError, Volume};
use cipher_base::{UnitCipher, Xts};
use frag_pool::{Bench, Helper, Job, Pool};
use hist_lock::Pass;
use io_core::Core;
use sector_model::{Answer, FaultMark, PlainVolume};
use std::alloc::{AllocError, Global};
use std::process::Abort;
use std::sync::Wait;
use std::sync::atomic::AtomicU64;
use std::sync::atomic::Ordering::SeqCst;
use std::test::Fail;
use std::thread;
use std::thread::Threads;
use vc_layout::Geometry;
use vc_outside::{Gate, HoldGate, MemStore, NoGate, Store};

// A write's sectors: two fragments of 512 units, and one of 100.
const COUNT: usize = 1124;

const BYTES: usize = 512 * COUNT;

// The volume has room for three writes, from the container's unit 1 on.
const SECTORS: usize = 3 * COUNT;

const CONTAINER: usize = 512 + 512 * SECTORS + 512;

const LARGE: Geometry = Geometry {
    start: 512,
    sectors: 3372,
    sector: 512,
};

const CIPHER: Xts<Turned> = Xts {
    main: Turned,
    tweak: Turned,
};

// The bytes of write `n`. Each data unit is enciphered with its own number.
fn bytes_of(alloc: Global, n: u8) -> Result<Vec<u8>, AllocError>
    ensures { IfOk result (λ bytes. length bytes.items ≡ 575488) }
{
    vec![in alloc; n | 0x40; BYTES]
}

// What a thread has: its pass, and a client's bench or a helper.
#[derive(Drop)]
struct Task {
    pass: Pass<Core<MemStore, Xts<Turned>>>,
    bench: Option<Bench>,
    helper: Option<Helper>,
    results: [Result<(), IoError>; 3],
}

// What came of a run.
#[derive(Drop)]
struct Outcome {
    results: [Result<(), IoError>; 3],
    /// The volume's sectors, deciphered.
    bytes: Vec<u8>,
    /// How many fragments helpers took.
    helped: u64,
}

// Lets a client make three writes, one after the other's sectors, with this many helpers. The calls of the store
// with the numbers `fails` fail.
fn run<R: Threads + Wait + Sync, G: Gate + Sync>(
    rt: &R,
    alloc: Global,
    gate: &G,
    helpers: u32,
    fails: Vec<u64>,
) -> Result<Outcome, &'static str>
    requires few { helpers ≤ 3 }
{
    let Some((volume, mut pass)) = open(alloc, fails) else {
        return Err("no memory");
    };
    let helped = AtomicU64::new(0);
    let Ok(results) = run_all(rt, alloc, gate, &volume, &mut pass, helpers, &helped) else {
        return Err("no memory");
    };
    let Ok((disk, _pass)) = volume.close(pass) else {
        return Err("the volume can't be closed");
    };
    let Ok(bytes) = deciphered(alloc, disk.bytes()) else {
        return Err("no memory");
    };
    Ok(Outcome {
        results,
        bytes,
        helped: helped.load(SeqCst),
    })
}

// A volume of zeros.
fn open(
    alloc: Global,
    fails: Vec<u64>,
) -> Option<
    (
        Volume<MemStore, Xts<Turned>>,
        Pass<Core<MemStore, Xts<Turned>>>,
    ),
>
    ensures pass { IfSome result (λ r. IsPass r.0.lock.table.shared.table_id r.0.geometry r.0.cipher r.1.seat) }
    ensures open { IfSome result (λ r. NothingOpen (view r.1.seat)) }
    ensures sector { IfSome result (λ r. r.0.geometry.sector ≡ 512) }
{
    let mut bytes = vec![in alloc; 0u8; CONTAINER].ok()?;
    let units = &mut bytes[512..512 + 512 * SECTORS];
    CIPHER.encipher_units(1, units);
    let disk = MemStore::new(alloc, bytes, fails, None, 64, 1 << 24).ok()?;
    if disk.len() < CONTAINER as u64 {
        return None;
    }
    Volume::open(alloc, disk, LARGE, CIPHER, None, 2).ok()
}

// Splits a pass for the client and for each helper, lets threads work, and joins the passes. Returns what came
// of the writes.
fn run_all<R: Threads + Wait + Sync, G: Gate + Sync>(
    rt: &R,
    alloc: Global,
    gate: &G,
    volume: &Volume<MemStore, Xts<Turned>>,
    pass: &mut Pass<Core<MemStore, Xts<Turned>>>,
    helpers: u32,
    helped: &AtomicU64,
) -> Result<[Result<(), IoError>; 3], AllocError>
    requires few { helpers ≤ 3 }
    requires pass { IsPass volume.now.lock.table.shared.table_id volume.now.geometry volume.now.cipher pass.old.seat }
    requires open { NothingOpen (view pass.old.seat) }
    requires sector { volume.now.geometry.sector ≡ 512 }
    ensures pass { IsPass volume.now.lock.table.shared.table_id volume.now.geometry volume.now.cipher pass.new.seat }
    ensures open { NothingOpen (view pass.new.seat) }
{
    let (bench, mut hands) = new_pool(alloc, helpers)?;
    let mut tasks = Vec::new(alloc);
    tasks.reserve(1)?;
    let client = new_task(rt, volume, pass, Some(bench), None);
    tasks.push_reserved(client);
    for _ in 0..helpers {
        tasks.reserve(1)?;
        let task = new_task(rt, volume, pass, None, hands.pop());
        tasks.push_reserved(task);
    }
    let ended = AtomicU64::new(0);
    thread::for_each_mut(
        rt,
        tasks.as_mut_slice(),
        24,
        &|_, task: &mut Task|
            requires idle { IsIdle volume.now.lock.table.shared.table_id volume.now.geometry volume.now.cipher task.old.pass.seat }
            requires empty { IfSome task.old.bench (λ b. is_empty b ≡ true) }
            requires sector { volume.now.geometry.sector ≡ 512 }
            ensures idle { IsIdle volume.entry.now.lock.table.shared.table_id volume.entry.now.geometry volume.entry.now.cipher task.new.pass.seat }
        { work(rt, alloc, gate, volume, &ended, helped, task) },
    );
    let mut results = [Err(IoError::NoMemory); 3];
    while let Some(task) = tasks.pop() {
        let Task {
            pass: other,
            bench: _,
            helper: _,
            results: found,
        } = task;
        volume.join(pass, other);
        results = found;
    }
    Ok(results)
}

// The bench of one client, and helpers.
fn new_pool(alloc: Global, helpers: u32) -> Result<(Bench, Vec<Helper>), AllocError>
    requires few { helpers ≤ 3 }
    ensures empty { IfOk result (λ r. is_empty r.0 ≡ true) }
{
    let (mut benches, hands) = Pool::new(alloc, 1, helpers)?;
    let Some(bench) = benches.pop() else {
        unreachable!()
    };
    Ok((bench, hands))
}

fn new_task<R: Threads + Wait + Sync>(
    rt: &R,
    volume: &Volume<MemStore, Xts<Turned>>,
    pass: &mut Pass<Core<MemStore, Xts<Turned>>>,
    bench: Option<Bench>,
    helper: Option<Helper>,
) -> Task
    requires pass { IsPass volume.now.lock.table.shared.table_id volume.now.geometry volume.now.cipher pass.old.seat }
    requires open { NothingOpen (view pass.old.seat) }
    requires empty { IfSome bench (λ b. is_empty b ≡ true) }
    ensures pass { IsPass volume.now.lock.table.shared.table_id volume.now.geometry volume.now.cipher pass.new.seat }
    ensures open { NothingOpen (view pass.new.seat) }
    ensures idle { IsIdle volume.now.lock.table.shared.table_id volume.now.geometry volume.now.cipher result.pass.seat }
    ensures empty { IfSome result.bench (λ b. is_empty b ≡ true) }
{
    Task {
        pass: volume.split(rt, pass),
        bench,
        helper,
        results: [Err(IoError::NoMemory); 3],
    }
}

fn work<R: Threads + Wait + Sync, G: Gate>(
    rt: &R,
    alloc: Global,
    gate: &G,
    volume: &Volume<MemStore, Xts<Turned>>,
    ended: &AtomicU64,
    helped: &AtomicU64,
    task: &mut Task,
)
    requires idle { IsIdle volume.now.lock.table.shared.table_id volume.now.geometry volume.now.cipher task.old.pass.seat }
    requires empty { IfSome task.old.bench (λ b. is_empty b ≡ true) }
    requires sector { volume.now.geometry.sector ≡ 512 }
    ensures idle { IsIdle volume.now.lock.table.shared.table_id volume.now.geometry volume.now.cipher task.new.pass.seat }
{
    match (&mut task.bench, &mut task.helper) {
        (Some(bench), _) => {
            task.results = write_all(rt, alloc, gate, volume, &mut task.pass, bench);
            ended.fetch_add(1, SeqCst);
            volume.tell_news();
        }
        (None, Some(helper)) => help(rt, gate, volume, ended, helped, &mut task.pass, helper),
        (None, None) => {}
    }
}

// Makes the three writes.
fn write_all<R: Threads + Wait + Sync, G: Gate>(
    rt: &R,
    alloc: Global,
    gate: &G,
    volume: &Volume<MemStore, Xts<Turned>>,
    pass: &mut Pass<Core<MemStore, Xts<Turned>>>,
    bench: &mut Bench,
) -> [Result<(), IoError>; 3]
    requires pass { IsPass volume.now.lock.table.shared.table_id volume.now.geometry volume.now.cipher pass.old.seat }
    requires open { NothingOpen (view pass.old.seat) }
    requires empty { is_empty bench.old ≡ true }
    requires sector { volume.now.geometry.sector ≡ 512 }
    ensures pass { IsPass volume.now.lock.table.shared.table_id volume.now.geometry volume.now.cipher pass.new.seat }
    ensures open { NothingOpen (view pass.new.seat) }
{
    let first = write(rt, alloc, gate, volume, pass, bench, 0);
    let second = write(rt, alloc, gate, volume, pass, bench, 1);
    let third = write(rt, alloc, gate, volume, pass, bench, 2);
    [first, second, third]
}

fn write<R: Threads + Wait + Sync, G: Gate>(
    rt: &R,
    alloc: Global,
    gate: &G,
    volume: &Volume<MemStore, Xts<Turned>>,
    pass: &mut Pass<Core<MemStore, Xts<Turned>>>,
    bench: &mut Bench,
    n: u8,
) -> Result<(), IoError>
    requires pass { IsPass volume.now.lock.table.shared.table_id volume.now.geometry volume.now.cipher pass.old.seat }
    requires open { NothingOpen (view pass.old.seat) }
    requires empty { is_empty bench.old ≡ true }
    requires sector { volume.now.geometry.sector ≡ 512 }
    ensures pass { IsPass volume.now.lock.table.shared.table_id volume.now.geometry volume.now.cipher pass.new.seat }
    ensures open { NothingOpen (view pass.new.seat) }
    ensures empty { is_empty bench.new ≡ true }
{
    let Ok(bytes) = bytes_of(alloc, n) else {
        return Err(IoError::NoMemory);
    };
    volume.write(
        rt,
        alloc,
        pass,
        bench,
        gate,
        COUNT as u64 * u64::from(n),
        bytes,
    )
}

// Helps until the client has ended, and sleeps while there is nothing to do.
fn help<R: Threads + Wait + Sync, G: Gate>(
    rt: &R,
    gate: &G,
    volume: &Volume<MemStore, Xts<Turned>>,
    ended: &AtomicU64,
    helped: &AtomicU64,
    pass: &mut Pass<Core<MemStore, Xts<Turned>>>,
    helper: &mut Helper,
)
    requires pass { IsPass volume.now.lock.table.shared.table_id volume.now.geometry volume.now.cipher pass.old.seat }
    requires open { NothingOpen (view pass.old.seat) }
    ensures pass { IsPass volume.now.lock.table.shared.table_id volume.now.geometry volume.now.cipher pass.new.seat }
    ensures open { NothingOpen (view pass.new.seat) }
{
    for _ in rt.forever() {
        let seen = volume.news();
        if ended.load(SeqCst) != 0 {
            break;
        }
        if volume.help_one(rt, pass, helper, gate) {
            helped.fetch_add(1, SeqCst);
        } else {
            volume.wait_for_news(rt, seen);
        }
    }
}

// The volume's sectors of a container.
fn deciphered(alloc: Global, container: &[u8]) -> Result<Vec<u8>, AllocError> {
    let mut bytes = vec![in alloc; 0u8; 512 * SECTORS]?;
    if container.len() == CONTAINER {
        bytes
            .as_mut_slice()
            .copy_from_slice(&container[512..512 + 512 * SECTORS]);
        CIPHER.decipher_units(1, &mut bytes);
    }
    Ok(bytes)
}

// What a plain volume has after the writes, but for one that is left out.
fn plain_of(alloc: Global, without: Option<u8>) -> Result<PlainVolume, AllocError> {
    let zeros = vec![in alloc; 0u8; 512 * SECTORS]?;
    let mut plain = PlainVolume::new(zeros, 512, None);
    add(alloc, &mut plain, 0, without)?;
    add(alloc, &mut plain, 1, without)?;
    add(alloc, &mut plain, 2, without)?;
    Ok(plain)
}

// Adds the write `n`, if it isn't the one that is left out.
fn add(alloc: Global, plain: &mut PlainVolume, n: u8, without: Option<u8>) -> Result<(), AllocError>
    requires units { plain.old.volume.per_sector ≡ 1 }
    requires few { n ≤ 2 }
    ensures units { plain.new.volume.per_sector ≡ 1 }
{
    if without != Some(n) {
        let bytes = bytes_of(alloc, n)?;
        let _ = plain.write(COUNT as u64 * u64::from(n), &bytes) == Answer::Done;
    }
    Ok(())
}

#[test]
fn helped_writes_are_those_of_a_plain_volume(rt: HostRuntime) -> Result<(), Fail> {
    let plain = plain_of(rt.alloc(), None)?;
    for helpers in [0, 1, 2, 3] {
        for _ in 0..4 {
            let outcome = run(&rt, rt.alloc(), &NoGate, helpers, Vec::new(rt.alloc()))?;
            assert_eq!(rt;
                outcome.results,
                [Ok(()), Ok(()), Ok(())],
                "{helpers} helpers"
            );
            assert!(rt;
                plain.bytes() == outcome.bytes.as_slice(),
                "{helpers} helpers"
            );
        }
    }
    Ok(())
}

// The writes make three calls each, in the order of the writes.
#[test]
fn a_failed_fragment_is_the_fault_of_its_own_write(rt: HostRuntime) -> Result<(), Fail> {
    let mark = FaultMark {
        before: 0,
        after: 1,
    };
    for failing in 0..9u64 {
        let fails = vec![in rt.alloc(); failing; 1]?;
        let outcome = run(&rt, rt.alloc(), &NoGate, 2, fails)?;
        let failed = (failing / 3) as usize;
        let plain = plain_of(rt.alloc(), Some(failed as u8))?;
        for i in 0..3usize {
            let want = if i == failed {
                Err(IoError::Fault(mark))
            } else {
                Ok(())
            };
            assert_eq!(rt; outcome.results[i], want, "call {failing} fails, write {i}");
            let same = are_alike(plain.bytes(), &outcome.bytes, i);
            assert!(rt; i == failed || same, "call {failing} fails, write {i}");
        }
    }
    Ok(())
}

// Whether the sectors of write `n` have the same bytes.
fn are_alike(plain: &[u8], bytes: &[u8], n: usize) -> bool {
    let from = BYTES.saturating_mul(n);
    let ours = bytes.iter().skip(from).take(BYTES);
    plain.iter().skip(from).take(BYTES).eq(ours)
}

// Who gets the first fragment is held until another thread has the second one.
#[test]
fn a_helper_takes_a_fragment_while_the_client_has_another(rt: HostRuntime) -> Result<(), Fail> {
    let gate = HoldGate::new(100, 101, 1_000_000_000);
    let outcome = run(&rt, rt.alloc(), &gate, 1, Vec::new(rt.alloc()))?;
    assert!(rt; !gate.gave_up());
    assert!(rt; outcome.helped != 0);
    assert!(rt; outcome.results == [Ok(()), Ok(()), Ok(())]);
    Ok(())
}

#[test]
fn a_helper_of_an_empty_pool_does_nothing(rt: HostRuntime) -> Result<(), Fail> {
    let Some((volume, mut pass)) = open(rt.alloc(), Vec::new(rt.alloc())) else {
        return Err("no memory".into());
    };
    let (mut benches, mut helpers) = Pool::new(rt.alloc(), 1, 1)?;
    let Some(mut helper) = helpers.pop() else {
        return Err("no helper".into());
    };
    assert!(rt;
        !volume.help_one(&rt, &mut pass, &mut helper, &NoGate),
        "no job"
    );
    let job = Job::new(rt.alloc(), 1, 0, 0, 1, &[0; 512])?;
    assert!(rt; benches[0].push(job).is_ok());
    assert!(rt;
        volume.help_one(&rt, &mut pass, &mut helper, &NoGate),
        "a job"
    );
    assert!(rt;
        !volume.help_one(&rt, &mut pass, &mut helper, &NoGate),
        "no job again"
    );
    Ok(())
}
