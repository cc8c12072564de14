//! What no clause says: that None comes only from empty deques, and whole runs by several threads.
ghost use Rattle.std.specs.Prelude.{◌≡◌, ◌<◌, ◌≤◌, ℕ, List, refl};

use crate::bench::Bench;
use crate::helper::Helper;
use crate::job::Job;
use crate::pool::{Pool, SURE};
use cipher_base::{BlockCipher, Xts};
use std::alloc::{AllocError, Global};
use std::process::Abort;
use std::sync::Wait;
use std::sync::atomic::{AtomicU64, Ordering};
use std::test::Fail;
use std::thread;
use std::thread::Threads;

// A cipher that changes nothing. XTS adds its tweak twice then, so that it changes nothing either.
#[derive(Clone, Copy)]
struct Same;

impl BlockCipher for Same {
    ghost use Rattle.std.proofs.Common.{refl};

    ghost enciphered = { λ _ b. b };

    ghost deciphered = { λ _ b. b };

    fn encipher(&self, _block: &mut [u8; 16]) {}

    fn decipher(&self, _block: &mut [u8; 16]) {}

    ghost enciphered_is_block = { λ _ b is. is };

    ghost deciphered_is_block = { λ _ b is. is };

    ghost deciphers = { λ _ b _. refl };

    ghost enciphers = { λ _ b _. refl };
}

// A job of one data unit.
fn small(alloc: Global, caller: u64, index: u64) -> Result<Job, AllocError> {
    Job::new(alloc, caller, 0, index, 0, &[0; 512])
}

#[test]
fn a_job_becomes_a_piece_with_its_names_and_bytes(rt: HostRuntime) -> Result<(), Fail> {
    let mut bytes = [0u8; 1024];
    for (i, byte) in bytes.iter_mut().enumerate() {
        *byte = (i % 251) as u8;
    }
    let job = Job::new(rt.alloc(), 2, 3, 5, 7, &bytes)?;
    let piece = job.encipher(&Xts::new(Same, Same));
    let names = (piece.caller, piece.number, piece.index, piece.unit);
    assert_eq!(rt; names, (2, 3, 5, 7));
    assert!(rt;
        piece.plain.as_slice() == bytes.as_slice(),
        "the plain bytes"
    );
    assert!(rt;
        piece.cipher.as_slice() == bytes.as_slice(),
        "the enciphered bytes"
    );
    Ok(())
}

// The index of a job, and 99 for none.
fn index_of(job: Option<Job>) -> u64 {
    match job {
        Some(job) => job.index,
        None => 99,
    }
}

#[test]
fn none_comes_only_from_empty_deques(rt: HostRuntime) -> Result<(), Fail> {
    let (mut benches, mut helpers) = Pool::new(rt.alloc(), 2, 2)?;
    assert_eq!(rt; (benches.len(), helpers.len()), (2, 2));
    for index in 0..4 {
        let job = small(rt.alloc(), 1, index)?;
        assert!(rt; benches[1].push(job).is_ok(), "push {index}");
    }
    // The helpers find bench 0 empty, and go on to the other.
    assert_eq!(rt; index_of(helpers[0].steal(&rt)), 0);
    assert_eq!(rt; index_of(benches[0].take()), 99);
    assert_eq!(rt; index_of(benches[1].take()), 1);
    assert_eq!(rt; index_of(helpers[1].steal(&rt)), 2);
    assert!(rt; !benches[1].clean, "it has a job");
    assert_eq!(rt; index_of(helpers[0].steal(&rt)), 3);
    assert_eq!(rt; index_of(helpers[0].steal(&rt)), 99);
    assert_eq!(rt; index_of(benches[1].take()), 99);
    assert!(rt; benches[1].clean, "it has none");
    Ok(())
}

#[test]
fn a_bench_takes_more_jobs_than_it_promises(rt: HostRuntime) -> Result<(), Fail> {
    let (mut benches, _helpers) = Pool::new(rt.alloc(), 1, 0)?;
    let count = 3 * u64::from(SURE);
    for index in 0..count {
        let job = small(rt.alloc(), 0, index)?;
        assert!(rt; benches[0].push(job).is_ok(), "push {index}");
    }
    for index in 0..count {
        assert_eq!(rt; index_of(benches[0].take()), index);
    }
    assert_eq!(rt; index_of(benches[0].take()), 99);
    Ok(())
}

// What one thread has: the bench of a client with jobs to push, or a helper. It notes the names of
// the jobs that it got.
#[derive(Drop)]
struct Task {
    bench: Option<Bench>,
    jobs: Vec<Job>,
    helper: Option<Helper>,
    got: Vec<(u64, u64)>,
}

fn note(got: &mut Vec<(u64, u64)>, job: Job) {
    if got.len() < got.capacity() {
        got.push_reserved((job.caller, job.index));
    }
}

// Pushes all jobs, and takes what no helper got.
fn push_and_take(bench: &mut Bench, jobs: &mut Vec<Job>, got: &mut Vec<(u64, u64)>) {
    for _ in 0..JOBS {
        if let Some(job) = jobs.pop() {
            if let Err(job) = bench.push(job) {
                note(got, job);
            }
        }
    }
    for _ in 0..100_000 {
        match bench.take() {
            Some(job) => note(got, job),
            None => break,
        }
    }
}

// Steals until all clients have ended.
fn help<R: Threads + Wait>(
    rt: &R,
    helper: &mut Helper,
    ended: &AtomicU64,
    clients: u64,
    got: &mut Vec<(u64, u64)>,
) {
    for _ in rt.forever() {
        match helper.steal(rt) {
            Some(job) => note(got, job),
            None => {
                if ended.load(Ordering::SeqCst) >= clients {
                    break;
                }
                thread::yield_now();
            }
        }
    }
}

fn work<R: Threads + Wait>(rt: &R, task: &mut Task, ended: &AtomicU64, clients: u64) {
    if let Some(bench) = &mut task.bench {
        push_and_take(bench, &mut task.jobs, &mut task.got);
        ended.fetch_add(1, Ordering::SeqCst);
    }
    if let Some(helper) = &mut task.helper {
        help(rt, helper, ended, clients, &mut task.got);
    }
}

const JOBS: u64 = 200;

// The tasks of these clients, each with 200 jobs, and then those of the helpers.
fn tasks_of(alloc: Global, clients: u32, helpers: u32) -> Result<Vec<Task>, AllocError>
    requires clients { 0 < clients }
    requires few { clients ≤ 16 }
    requires helpers { helpers ≤ 8 }
{
    let (mut benches, mut hands) = Pool::new(alloc, clients, helpers)?;
    let mut tasks = Vec::new(alloc);
    for _ in 0..clients {
        let Some(bench) = benches.pop() else {
            break;
        };
        let caller = benches.len() as u64;
        let mut jobs = Vec::new(alloc);
        for index in 0..JOBS {
            jobs.reserve(1)?;
            jobs.push_reserved(small(alloc, caller, index)?);
        }
        tasks.reserve(1)?;
        tasks.push_reserved(Task {
            bench: Some(bench),
            jobs,
            helper: None,
            got: Vec::with_capacity(alloc, 4000)?,
        });
    }
    for _ in 0..helpers {
        let Some(helper) = hands.pop() else {
            break;
        };
        tasks.reserve(1)?;
        tasks.push_reserved(Task {
            bench: None,
            jobs: Vec::new(alloc),
            helper: Some(helper),
            got: Vec::with_capacity(alloc, 4000)?,
        });
    }
    Ok(tasks)
}

fn times_got(tasks: &[Task], caller: u64, index: u64) -> u64 {
    let mut times = 0u64;
    for task in tasks.iter() {
        for got in task.got.iter() {
            if *got == (caller, index) {
                times = times.wrapping_add(1);
            }
        }
    }
    times
}

#[test]
fn every_job_is_got_once_by_threads(rt: HostRuntime) -> Result<(), Fail> {
    for (clients, helpers) in [(1, 0), (1, 4), (3, 2), (4, 8), (16, 8)] {
        let mut tasks = tasks_of(rt.alloc(), clients, helpers)?;
        let ended = AtomicU64::new(0);
        thread::for_each_mut(
            &rt,
            tasks.as_mut_slice(),
            24,
            &|_, task: &mut Task| { work(&rt, task, &ended, u64::from(clients)) },
        );
        let mut total = 0u64;
        for task in tasks.iter() {
            total = total.wrapping_add(task.got.len() as u64);
        }
        assert_eq!(rt;
            total,
            u64::from(clients) * JOBS,
            "{clients} clients, {helpers} helpers"
        );
        for caller in 0..u64::from(clients) {
            for index in 0..JOBS {
                let times = times_got(tasks.as_slice(), caller, index);
                assert_eq!(rt;
                    times,
                    1,
                    "{clients} clients, {helpers} helpers: {caller}, {index}"
                );
            }
        }
    }
    Ok(())
}
