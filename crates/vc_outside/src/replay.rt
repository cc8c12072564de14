//! What events leave of an image, by the pick of a crash: 0 the old bytes, 1 the new ones, 2 bytes a5.
ghost use Rattle.std.specs.Prelude.{◌≡◌, ◌+◌, ◌<◌, ◌≤◌, length, OnOk};
ghost use Rattle.vc_outside.specs.Laws.Log.{event_of, EndsBy};
ghost use Rattle.vc_outside.specs.Record.{after, picked, relengthed, torn};
ghost use Rattle.vc_outside.specs.Laws.Invariant.{Fits};
ghost use Rattle.vc_outside.specs.Told.{written};

use crate::record::Call;
use std::alloc::AllocError;

const OLD: u8 = 0;

const NEW: u8 = 1;

const FILL: u8 = 0xa5;

// Writes the piece over the bytes from `at` on.
pub(crate) fn overwrite(image: &mut Vec<u8>, at: u64, piece: &[u8])
    requires { at + length piece.now ≤ length image.old.items }
    ensures { image.new.items ≡ written at piece.now image.old.items }
{
    let from = at as usize;
    image[from..from + piece.len()].copy_from_slice(piece);
}

// The same with bytes a5 in place of the piece.
fn overfill(image: &mut Vec<u8>, at: u64, piece: &[u8])
    requires { at + length piece.now ≤ length image.old.items }
    ensures { image.new.items ≡ torn 2 at piece.now image.old.items }
{
    let from = at as usize;
    image[from..from + piece.len()].fill(FILL);
}

// What a pick leaves of a write. The old image may be too short for it.
fn tear(image: &mut Vec<u8>, pick: u8, at: u64, piece: &[u8])
    requires { 0 < pick → at + length piece.now ≤ length image.old.items }
    ensures { image.new.items ≡ torn pick at piece.now image.old.items }
{
    match pick {
        OLD => {}
        NEW => overwrite(image, at, piece),
        _ => overfill(image, at, piece),
    }
}

// What a pick leaves of a change of the length.
fn relength(image: &mut Vec<u8>, pick: u8, len: u64) -> Result<(), AllocError>
    ensures { OnOk result (image.new.items ≡ relengthed pick len image.old.items) }
{
    if pick == OLD {
        return Ok(());
    }
    image.resize(len as usize, 0)
}

// What a sync leaves: all that a read gives.
fn settle(image: &mut Vec<u8>, read: &[u8]) -> Result<(), AllocError>
    ensures { OnOk result (image.new.items ≡ read.now) }
{
    image.clear();
    image.extend_from_slice(read)
}

// One event more, for what a read gives and for what the pick leaves.
pub(crate) fn replay(
    call: Call,
    bytes: &[u8],
    pick: u8,
    read: &mut Vec<u8>,
    image: &mut Vec<u8>,
) -> Result<(), AllocError>
    requires ends { EndsBy (length bytes.now) call }
    requires fits { Fits (event_of bytes.now call) read.old.items }
    requires long { 0 < pick → length image.old.items ≡ length read.old.items }
    ensures read { OnOk result (read.new.items ≡ after (event_of bytes.now call) read.old.items) }
    ensures image { OnOk result (image.new.items ≡ picked pick (event_of bytes.now call) read.old.items image.old.items) }
{
    match call {
        Call::Write { at, from, len } => {
            let piece = &bytes[from..from + len];
            tear(image, pick, at, piece);
            overwrite(read, at, piece);
            Ok(())
        }
        Call::Loss { at, from, len } => {
            tear(image, pick, at, &bytes[from..from + len]);
            Ok(())
        }
        Call::Length { len } => {
            relength(image, pick, len)?;
            read.resize(len as usize, 0)
        }
        Call::Sync => settle(image, read),
    }
}
