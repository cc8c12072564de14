//! Which order of the requests of several threads explains what came of them.
//!
//! An order is a number. Its digits, from the highest on and in the base that is the number of threads, say whose
//! request comes next. So it keeps each thread's own order. Of two threads with four requests each there are 256
//! such numbers, and of four threads with two each 65,536. If an order goes wrong at one step, all that begin
//! with the same steps are passed over.
use super::requests::{Plain, Request};
use std::alloc::{AllocError, Global};

// How many orders are tried at most.
const MOST: u64 = 65_536;

/// Whether a plain volume gives the same results and bytes in one of the orders.
pub fn is_explained(
    alloc: Global,
    threads: &[Vec<Request>],
    protects: bool,
    bytes: &[u8],
) -> Result<bool, AllocError> {
    let base = threads.len() as u64;
    let count = count(threads);
    let orders = power(base, count);
    let mut order = 0u64;
    for _ in 0..MOST {
        if order >= orders {
            break;
        }
        let Some(step) = wrong_step(alloc, threads, order, count, protects, bytes)? else {
            return Ok(true);
        };
        let width = power(base, count.saturating_sub(step).saturating_sub(1));
        let place = order.checked_div(width).unwrap_or(0);
        order = place.saturating_add(1).saturating_mul(width);
    }
    Ok(false)
}

// The step at which the order gives another result. The bytes are compared after the last one.
fn wrong_step(
    alloc: Global,
    threads: &[Vec<Request>],
    order: u64,
    count: usize,
    protects: bool,
    bytes: &[u8],
) -> Result<Option<usize>, AllocError> {
    let mut plain = Plain::new(alloc, protects)?;
    let mut next = [0usize; 4];
    let base = threads.len() as u64;
    for step in 0..count {
        let width = power(base, count - step - 1);
        let place = order.checked_div(width).unwrap_or(0);
        let who = place.checked_rem(base).unwrap_or(0) as usize % 4;
        let Some(request) = request_of(threads, who, next[who]) else {
            return Ok(Some(step));
        };
        if !plain.follows(request) {
            return Ok(Some(step));
        }
        next[who] = next[who].saturating_add(1);
    }
    if plain.bytes() == bytes {
        return Ok(None);
    }
    Ok(Some(count))
}

fn power(base: u64, exponent: usize) -> u64 {
    let mut power = 1u64;
    for _ in 0..exponent {
        power = power.saturating_mul(base);
    }
    power
}

// How many requests there are.
fn count(threads: &[Vec<Request>]) -> usize {
    let mut count = 0usize;
    for requests in threads {
        count = count.saturating_add(requests.len());
    }
    count
}

fn request_of(threads: &[Vec<Request>], who: usize, index: usize) -> Option<&Request> {
    threads.get(who)?.get(index)
}
