//! Writes of several fragments, with and without helpers. Requests and replies are by hand from `docs/PROTOCOL.md`.
ghost use Rattle.std.specs.Prelude.{◌≤◌};

use super::{READ, REPLY, Turned, WRITE};
use crate::serve;
use cipher_base::Xts;
use io_queue::Volume;
use nbd_wire::End;
use std::alloc::{AllocError, AllocGlobal, Global};
use std::process::Abort;
use std::sync::Wait;
use std::test::Fail;
use std::thread::Threads;
use vc_layout::Geometry;
use vc_outside::{Client, Gate, HoldGate, NoGate, SureSink, SureSource, SureStore};

// 1,200 sectors of 512 bytes, from byte 512 on. Each client writes 600 of them, in fragments of 512 and 88.
const LARGE: Geometry = Geometry {
    start: 512,
    sectors: 1200,
    sector: 512,
};

const CONTAINER: usize = 614912;

// The bytes of the volume.
const VOLUME: usize = 614400;

// The offsets of the halves, and their length: 600 times 512.
const OFFSETS: [[u8; 8]; 2] = [[0, 0, 0, 0, 0, 0, 0, 0], [0, 0, 0, 0, 0, 4, 0xb0, 0]];

const LENGTH: &[u8] = &[0, 4, 0xb0, 0];

// What a client writes to its half of the volume: no two neighbouring sectors are the same, and no two fragments.
fn extend_by_half(bytes: &mut Vec<u8>, half: usize) -> Result<(), AllocError>
    requires { half ≤ 1 }
{
    for sector in 600 * half..600 * half + 600 {
        let len = bytes.len();
        bytes.resize(len + 512, (sector % 251) as u8)?;
    }
    Ok(())
}

// A client that writes its half of the volume and reads it.
fn client_of(alloc: Global, half: usize) -> Result<Client<SureSource, SureSink>, AllocError>
    requires { half ≤ 1 }
{
    let mut bytes = Vec::new(alloc);
    bytes.extend_from_slice(WRITE)?;
    bytes.extend_from_slice(&[0, 0, 0, 0, 0, 0, 0, 1])?;
    bytes.extend_from_slice(&OFFSETS[half])?;
    bytes.extend_from_slice(LENGTH)?;
    extend_by_half(&mut bytes, half)?;
    bytes.extend_from_slice(READ)?;
    bytes.extend_from_slice(&[0, 0, 0, 0, 0, 0, 0, 2])?;
    bytes.extend_from_slice(&OFFSETS[half])?;
    bytes.extend_from_slice(LENGTH)?;
    Ok(Client {
        source: SureSource::new(bytes),
        sink: SureSink::new(alloc),
    })
}

// Serves both clients, each of which reads what it wrote. The volume then has the bytes of both.
fn expect_both<R: AllocGlobal + Abort + Threads + Wait + Sync, G: Gate>(
    rt: &R,
    helpers: u32,
    gate: &G,
) -> Result<(), Fail>
    requires { helpers ≤ 8 }
{
    let alloc = rt.alloc();
    let zeros = vec![in alloc; 0u8; CONTAINER].map_err(|_| "no memory")?;
    let cipher = Xts::new(Turned, Turned);
    let Ok((volume, mut pass)) = Volume::open(alloc, SureStore::new(zeros), LARGE, cipher, None, 2)
    else {
        return Err("no memory".into());
    };
    let left = client_of(alloc, 0)?;
    let right = client_of(alloc, 1)?;
    let clients = Vec::from_array(alloc, [left, right])?;
    let Ok(served) = serve(rt, alloc, &volume, &mut pass, clients, helpers, gate) else {
        return Err("no memory".into());
    };
    assert_eq!(rt;
        served.ends.as_slice(),
        [End::Done, End::Done].as_slice(),
        "{helpers}"
    );
    assert_eq!(rt; served.replies.as_slice(), [2, 2].as_slice(), "{helpers}");
    assert_eq!(rt; served.callers.as_slice(), [1, 2].as_slice(), "{helpers}");
    assert_eq!(rt; served.clients.len(), 2);
    for (half, client) in served.clients.iter().enumerate() {
        let mut want = Vec::new(alloc);
        for cookie in [1, 2] {
            want.extend_from_slice(REPLY)?;
            want.extend_from_slice(&[0, 0, 0, 0])?;
            want.extend_from_slice(&[0, 0, 0, 0, 0, 0, 0, cookie])?;
        }
        extend_by_half(&mut want, half & 1)?;
        assert!(rt; client.sink.bytes() == want.as_slice(), "{helpers}");
    }
    let mut bytes = vec![in alloc; 0u8; VOLUME].map_err(|_| "no memory")?;
    let read = volume.read(rt, &mut pass, 0, &mut bytes);
    assert_eq!(rt; read, Ok(()));
    let mut want = Vec::new(alloc);
    extend_by_half(&mut want, 0)?;
    extend_by_half(&mut want, 1)?;
    assert!(rt; bytes.as_slice() == want.as_slice(), "{helpers}");
    // each pass is joined again, the helpers' too
    assert!(rt; volume.close(pass).is_ok());
    Ok(())
}

#[test]
fn clients_read_what_they_wrote_with_any_number_of_helpers(rt: HostRuntime) -> Result<(), Fail> {
    for helpers in [0, 1, 2, 3] {
        expect_both(&rt, helpers, &NoGate)?;
    }
    Ok(())
}

// Who has enciphered the first fragment of the first client's write is held until the second one is enciphered, too: so
// two threads take part in it. By the points of `io_queue`.
#[test]
fn a_helper_enciphers_a_fragment_of_a_write(rt: HostRuntime) -> Result<(), Fail> {
    let gate = HoldGate::new(100, 101, 1_000_000_000);
    expect_both(&rt, 1, &gate)?;
    assert!(rt; !gate.gave_up());
    Ok(())
}
