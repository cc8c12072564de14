//! The bytes of a request: its head, and the data of a write.
ghost use Rattle.std.specs.Prelude.{◌≡◌, ◌++◌, ◌*◌, ◌+◌, ◌/◌, ◌%◌, ◌<◌, ◌∷◌, [], OnOk};
ghost use Rattle.drill_streams.specs.Drill.{count_of, data_of, head};
ghost use Rattle.vc_base.specs.Bytes.{joined};

use nbd_wire::{HEAD, Request};
use std::alloc::AllocError;

// The head of a request.
pub(crate) fn head(q: &Request) -> [u8; HEAD]
    ensures { result ≡ head q.now }
{
    let [f0, f1] = q.flags.to_be_bytes();
    let [k0, k1] = q.kind.to_be_bytes();
    let [c0, c1, c2, c3, c4, c5, c6, c7] = q.cookie.to_be_bytes();
    let [o0, o1, o2, o3, o4, o5, o6, o7] = q.offset.to_be_bytes();
    let [l0, l1, l2, l3] = q.length.to_be_bytes();
    [
        0x25, 0x60, 0x95, 0x13, f0, f1, k0, k1, c0, c1, c2, c3, c4, c5, c6, c7, o0, o1, o2, o3, o4,
        o5, o6, o7, l0, l1, l2, l3,
    ]
}

// A sector of the data of a write: bytes that count up, from this one on.
fn counting(start: u8) -> [u8; 512]
    ensures { result ≡ joined (λ i. (start + i) % 256 ∷ []) 512 }
{
    let mut sector = [0u8; 512];
    for i in 0..512 {
        sector[i] = start.wrapping_add((i % 256) as u8);
    }
    sector
}

// Adds the data of a write with this word. Each sector has the same bytes, as 512 is twice 256.
pub(crate) fn add_data(bytes: &mut Vec<u8>, word: u32) -> Result<(), AllocError>
    ensures { OnOk result (bytes.new.items ≡ bytes.old.items ++ data_of word) }
{
    let sector = counting((word / 16_777_216) as u8);
    for _ in 0..1 + word / 8192 % 1536 {
        bytes.extend_from_slice(&sector)?;
    }
    Ok(())
}
