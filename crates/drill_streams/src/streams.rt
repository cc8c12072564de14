//! The bytes of the three clients, and the counts of the summary.
ghost use Rattle.std.specs.Prelude.{◌≡◌, ◌≤◌, ◌<◌, ◌==◌, ◌/◌, ◌++◌, if◌then◌else◌, IfOk, OnOk};
ghost use Rattle.drill_streams.specs.Drill.{bytes_of, count_of_writes, frame_of, reads, reads_in, requests, sectors, sectors_in, stream, word, writes};

use crate::bytes::{add_data, head};
use crate::requests::{READ, REQUESTS, SECTOR, WRITE, request, word};
use nbd_wire::{HEAD, Request};
use std::alloc::{AllocError, Global};

/// Out of memory.
#[derive(Clone, Copy, Debug, PartialEq, Eq)]
pub struct NoMemory;

/// The bytes of the clients 0, 1 and 2, and the counts of all their requests.
#[derive(Drop)]
pub struct Streams {
    pub first: Vec<u8>,
    pub second: Vec<u8>,
    pub third: Vec<u8>,
    pub reads: u64,
    pub writes: u64,
    pub sectors: u64,
}

// The counts of the requests of a client.
#[derive(Clone, Copy)]
struct Counts {
    reads: u64,
    writes: u64,
    sectors: u64,
}

// The last head of a client.
const DISCONNECT: Request = Request {
    flags: 0,
    kind: 2,
    cookie: 0,
    offset: 0,
    length: 0,
};

/// The bytes of the clients of the drill of n. The room for each is taken once.
pub fn streams_of(alloc: Global, n: u64) -> Result<Streams, NoMemory>
    ensures first { IfOk result (λ s. s.first.items ≡ stream n 0) }
    ensures second { IfOk result (λ s. s.second.items ≡ stream n 1) }
    ensures third { IfOk result (λ s. s.third.items ≡ stream n 2) }
    ensures reads { IfOk result (λ s. s.reads ≡ reads n) }
    ensures writes { IfOk result (λ s. s.writes ≡ writes n) }
    ensures sectors { IfOk result (λ s. s.sectors ≡ sectors n) }
{
    let of_first = counted(n, 0);
    let of_second = counted(n, 1);
    let of_third = counted(n, 2);
    let Ok(first) = client_bytes(alloc, n, 0, of_first.sectors) else {
        return Err(NoMemory);
    };
    let Ok(second) = client_bytes(alloc, n, 1, of_second.sectors) else {
        return Err(NoMemory);
    };
    let Ok(third) = client_bytes(alloc, n, 2, of_third.sectors) else {
        return Err(NoMemory);
    };
    Ok(Streams {
        first,
        second,
        third,
        reads: of_first.reads + of_second.reads + of_third.reads,
        writes: of_first.writes + of_second.writes + of_third.writes,
        sectors: of_first.sectors + of_second.sectors + of_third.sectors,
    })
}

// The counts of the requests of a client.
fn counted(n: u64, client: u64) -> Counts
    requires { client < 3 }
    ensures reads { result.reads ≡ reads_in (requests n client) }
    ensures writes { result.writes ≡ count_of_writes (requests n client) }
    ensures sectors { result.sectors ≡ sectors_in (requests n client) }
    ensures few { (result.reads ≤ 12) × (result.writes ≤ 12) × (result.sectors ≤ 18432) }
{
    let mut reads = 0;
    let mut writes = 0;
    let mut sectors = 0;
    for index in 0..REQUESTS {
        let request = request(client, index, word(n, client, index));
        reads += one_if(request.kind == READ);
        writes += one_if(request.kind == WRITE);
        sectors += written(&request);
    }
    Counts {
        reads,
        writes,
        sectors,
    }
}

// What a request counts for among those of a kind.
fn one_if(is: bool) -> u64
    ensures value { result ≡ (if is then 1 else 0) }
    ensures few { result ≤ 1 }
{
    if is { 1 } else { 0 }
}

// How many sectors a request writes.
fn written(q: &Request) -> u64
    ensures value { result ≡ (if q.now.kind == 1 then q.now.length / 512 else 0) }
    ensures few { result ≤ q.now.length / 512 }
{
    if q.kind == WRITE {
        u64::from(q.length / SECTOR)
    } else {
        0
    }
}

// The bytes of a client whose writes have so many sectors.
fn client_bytes(alloc: Global, n: u64, client: u64, sectors: u64) -> Result<Vec<u8>, AllocError>
    requires client { client < 3 }
    requires sectors { sectors ≤ 18432 }
    ensures { IfOk result (λ v. v.items ≡ stream n client) }
{
    let heads = HEAD * (REQUESTS as usize + 1);
    let mut bytes = Vec::with_capacity(alloc, heads + SECTOR as usize * sectors as usize)?;
    for index in 0..REQUESTS {
        add_request(&mut bytes, n, client, index)?;
    }
    bytes.extend_from_slice(&head(&DISCONNECT))?;
    Ok(bytes)
}

// Adds the bytes of a request.
fn add_request(bytes: &mut Vec<u8>, n: u64, client: u64, index: u64) -> Result<(), AllocError>
    requires client { client < 3 }
    requires index { index < 12 }
    ensures { OnOk result (bytes.new.items ≡ bytes.old.items ++ bytes_of (frame_of client index (word n client index))) }
{
    let word = word(n, client, index);
    let request = request(client, index, word);
    bytes.extend_from_slice(&head(&request))?;
    if request.kind == WRITE {
        add_data(bytes, word)?;
    }
    Ok(())
}
