//! Command lines run over a store and a sink, and containers in memory that they make.
use crate::lines::{HIDE, MIB, arguments_of};
use std::alloc::AllocError;
use std::thread::Threads;
use vc_app::{Status, run_plain};
use vc_outside::{Sink, Store, SureSink, SureStore};

/// The end of a command line over a store and a sink.
pub fn run_into<R: Threads + Sync + AllocGlobal, D: Store + Drop, O: Sink + Drop>(
    rt: &R,
    line: &str,
    disk: D,
    out: O,
) -> Result<(Status, D, O), AllocError> {
    let arguments = arguments_of(rt.alloc(), line)?;
    Ok(run_plain(rt, rt.alloc(), arguments.as_slice(), disk, out))
}

/// The same over a sink that never fails.
pub fn run<R: Threads + Sync + AllocGlobal, D: Store + Drop>(
    rt: &R,
    line: &str,
    disk: D,
) -> Result<(Status, D, SureSink), AllocError> {
    run_into(rt, line, disk, SureSink::new(rt.alloc()))
}

/// A container of 1 MiB, with a hidden volume or without one.
pub fn container<R: Threads + Sync + AllocGlobal>(
    rt: &R,
    hides: bool,
) -> Result<Vec<u8>, AllocError> {
    let (_, disk, _) = run(rt, MIB, SureStore::new(Vec::new(rt.alloc())))?;
    if !hides {
        return Vec::from_slice(rt.alloc(), disk.bytes());
    }
    let (_, disk, _) = run(rt, HIDE, disk)?;
    Vec::from_slice(rt.alloc(), disk.bytes())
}

/// What a command writes of a container.
pub fn shown<R: Threads + Sync + AllocGlobal>(
    rt: &R,
    line: &str,
    image: &[u8],
) -> Result<Vec<u8>, AllocError> {
    let disk = SureStore::new(Vec::from_slice(rt.alloc(), image)?);
    let (_, _, out) = run(rt, line, disk)?;
    Vec::from_slice(rt.alloc(), out.bytes())
}
