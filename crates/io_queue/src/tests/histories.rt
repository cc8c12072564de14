//! What threads did to a volume at once is what a plain volume does in one order.
use super::orders::is_explained;
use super::requests::Asks::{Flush, Read, Write};
use super::requests::{Asks, Request};
use super::threads::{Outcome, run};
use crate::IoError;
use sector_model::FaultMark;
use std::alloc::{AllocError, Global};
use std::process::Abort;
use std::sync::Wait;
use std::test::Fail;
use std::thread::Threads;
use vc_outside::{HoldGate, NoGate};

fn requests_of(alloc: Global, asks: &[Asks]) -> Result<Vec<Request>, AllocError> {
    let mut requests = Vec::new(alloc);
    for ask in asks {
        requests.push(Request::new(*ask))?;
    }
    Ok(requests)
}

fn lists_of(alloc: Global, rows: &[&[Asks]]) -> Result<Vec<Vec<Request>>, AllocError> {
    let mut lists = Vec::new(alloc);
    for asks in rows {
        lists.push(requests_of(alloc, asks)?)?;
    }
    Ok(lists)
}

// How many requests failed.
fn failed(outcome: &Outcome) -> u64 {
    let mut failed = 0u64;
    for requests in outcome.threads.iter() {
        for request in requests.iter() {
            if request.has_failed() {
                failed = failed.saturating_add(1);
            }
        }
    }
    failed
}

// Numbers by xorshift.
#[derive(Drop)]
struct Numbers(u64);

impl Numbers {
    // One of 0, 1, up to 7.
    fn next(&mut self) -> u8 {
        self.0 ^= self.0 << 13;
        self.0 ^= self.0 >> 7;
        self.0 ^= self.0 << 17;
        ((self.0 >> 20) % 8) as u8
    }
}

// Requests from any sector on, each write with a byte of its own. One from the last sector on passes the end,
// and a write from the one before touches the protected sector.
fn random_requests(
    alloc: Global,
    numbers: &mut Numbers,
    thread: u8,
    count: u8,
) -> Result<Vec<Request>, AllocError> {
    let mut requests = Vec::new(alloc);
    for i in 0..count {
        let first = numbers.next();
        let asks = match numbers.next() {
            0..=4 => Write(first, (thread << 4) | i),
            5..=6 => Read(first),
            _ => Flush,
        };
        requests.push(Request::new(asks))?;
    }
    Ok(requests)
}

// Lets threads make random requests over a store of which two calls may fail. Returns whether one order explains
// what came of it, and each failed call is the Fault of one request.
fn random_run<R: Threads + Wait + Sync>(
    rt: &R,
    alloc: Global,
    seed: u64,
    threads: u8,
    count: u8,
) -> Result<bool, &'static str> {
    let mut numbers = Numbers(seed.wrapping_mul(0x9e37_79b9_7f4a_7c15) | 1);
    let mut lists = Vec::new(alloc);
    for thread in 0..threads {
        let Ok(requests) = random_requests(alloc, &mut numbers, thread, count) else {
            return Err("no memory");
        };
        if lists.push(requests).is_err() {
            return Err("no memory");
        }
    }
    let protects = numbers.next() < 4;
    let mut fails = Vec::new(alloc);
    for _ in 0..2 {
        if fails.push(u64::from(numbers.next())).is_err() {
            return Err("no memory");
        }
    }
    let outcome = run(rt, alloc, &NoGate, lists, fails, protects)?;
    let Ok(explained) = is_explained(alloc, &outcome.threads, protects, &outcome.bytes) else {
        return Err("no memory");
    };
    Ok(explained && failed(&outcome) == outcome.faults)
}

// The first seed of which a run isn't right.
fn first_wrong<R: Threads + Wait + Sync>(
    rt: &R,
    alloc: Global,
    runs: u64,
    threads: u8,
    count: u8,
) -> Result<Option<u64>, &'static str> {
    for seed in 0..runs {
        if !random_run(rt, alloc, seed, threads, count)? {
            return Ok(Some(seed));
        }
    }
    Ok(None)
}

#[test]
fn what_threads_did_is_what_one_order_gives(rt: HostRuntime) -> Result<(), Fail> {
    let rows: [(&str, &[&[Asks]]); 6] = [
        (
            "two threads apart",
            &[
                &[Write(0, 1), Read(0), Write(0, 2), Flush],
                &[Write(2, 3), Write(2, 4), Read(2), Flush],
            ],
        ),
        (
            "two threads in the same sectors",
            &[
                &[Write(0, 1), Write(0, 2), Read(0), Flush],
                &[Write(0, 3), Write(0, 4), Read(0), Flush],
            ],
        ),
        (
            "two threads that meet in one sector",
            &[
                &[Write(0, 1), Write(0, 2), Read(1), Flush],
                &[Write(1, 3), Write(1, 4), Read(0), Flush],
            ],
        ),
        (
            "four threads apart",
            &[
                &[Write(0, 1), Read(0)],
                &[Write(2, 2), Read(2)],
                &[Write(4, 3), Read(4)],
                &[Write(6, 4), Flush],
            ],
        ),
        (
            "four threads in the same sectors",
            &[
                &[Write(0, 1), Read(0)],
                &[Write(0, 2), Read(0)],
                &[Write(0, 3), Flush],
                &[Write(0, 4), Read(0)],
            ],
        ),
        (
            "four threads, each meeting the next",
            &[
                &[Write(0, 1), Read(1)],
                &[Write(1, 2), Read(0)],
                &[Write(2, 3), Write(0, 4)],
                &[Write(3, 5), Flush],
            ],
        ),
    ];
    for (case, asks) in rows {
        for _ in 0..100 {
            let outcome = run(
                &rt,
                rt.alloc(),
                &NoGate,
                lists_of(rt.alloc(), asks)?,
                Vec::new(rt.alloc()),
                false,
            )?;
            assert!(rt;
                is_explained(rt.alloc(), &outcome.threads, false, &outcome.bytes)?,
                "{case}"
            );
            assert_eq!(rt; failed(&outcome), 0, "{case}");
        }
    }
    Ok(())
}

// The requests of one thread make their calls in order.
#[test]
fn a_failed_call_is_the_fault_of_its_own_request(rt: HostRuntime) -> Result<(), Fail> {
    let asks: &[Asks] = &[Write(0, 1), Read(0), Flush, Write(1, 2), Read(1), Flush];
    let mark = FaultMark {
        before: 0,
        after: 1,
    };
    for failing in 0..7u64 {
        let outcome = run(
            &rt,
            rt.alloc(),
            &NoGate,
            lists_of(rt.alloc(), &[asks])?,
            vec![in rt.alloc(); failing; 1]?,
            false,
        )?;
        for requests in outcome.threads.iter() {
            for (i, request) in requests.iter().enumerate() {
                let want = if i as u64 == failing {
                    Err(IoError::Fault(mark))
                } else {
                    Ok(())
                };
                assert_eq!(rt; request.result, want, "call {failing} fails, request {i}");
            }
        }
        assert!(rt;
            is_explained(rt.alloc(), &outcome.threads, false, &outcome.bytes)?,
            "call {failing}"
        );
    }
    Ok(())
}

#[test]
fn random_requests_of_two_threads_are_one_order(rt: HostRuntime) -> Result<(), Fail> {
    assert_eq!(rt; first_wrong(&rt, rt.alloc(), 1000, 2, 4)?, None);
    Ok(())
}

#[test]
fn random_requests_of_four_threads_are_one_order(rt: HostRuntime) -> Result<(), Fail> {
    assert_eq!(rt; first_wrong(&rt, rt.alloc(), 1000, 4, 2)?, None);
    Ok(())
}

// The first thread's write is held once it is admitted, until the second one's has ended.
#[test]
fn a_write_does_not_wait_for_one_of_other_sectors(rt: HostRuntime) -> Result<(), Fail> {
    let gate = HoldGate::new(1, 512 + 2, 1_000_000_000);
    let lists = lists_of(rt.alloc(), &[&[Write(0, 1)], &[Write(2, 2)]])?;
    let outcome = run(&rt, rt.alloc(), &gate, lists, Vec::new(rt.alloc()), false)?;
    assert!(rt; !gate.gave_up());
    assert!(rt; is_explained(rt.alloc(), &outcome.threads, false, &outcome.bytes)?);
    Ok(())
}
