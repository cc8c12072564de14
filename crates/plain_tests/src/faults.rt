//! `format` and `info` if one call of the container or of the output fails.
ghost use Rattle.std.specs.Prelude.{◌≡◌};

use std::process::Abort;
use std::test::Fail;
use std::thread::Threads;
use trial_lines::{
    FORMAT, INFO, Miss, MissingStore, SMALL_TEXT, SlowSink, column, number, run, run_into,
    way_named,
};
use vc_app::Status;
use vc_outside::{MemSink, MemStore, Sink, Store, SureStore};

// An empty store whose call with this number fails, and each after it too if it stops.
fn failing<R: AllocGlobal>(rt: &R, at: u64, stops: bool) -> Result<MemStore, Fail> {
    let alloc = rt.alloc();
    let mut fails = Vec::new(alloc);
    let mut stop = None;
    if stops {
        stop = Some(at);
    } else {
        fails.push(at)?;
    }
    let disk = MemStore::new(alloc, Vec::new(alloc), fails, stop, 4_096, 16 << 20)?;
    Ok(disk)
}

// The smallest container, as `format` makes it.
fn whole<R: Threads + Sync + AllocGlobal + Abort>(rt: &R) -> Result<Vec<u8>, Fail> {
    let (status, disk, _out) = run(rt, FORMAT, SureStore::new(Vec::new(rt.alloc())))?;
    assert_eq!(rt; status, Status::Done);
    Ok(Vec::from_slice(rt.alloc(), disk.bytes())?)
}

// The calls of `format` are the length, five pieces of the image, two headers and the sync.
#[test]
fn each_failing_call_of_format_is_a_container_fault(rt: HostRuntime) -> Result<(), Fail> {
    let image = whole(&rt)?;
    for stops in [false, true] {
        for at in 0..9 {
            let (status, disk, out) = run(&rt, FORMAT, failing(&rt, at, stops)?)?;
            assert_eq!(rt; status, Status::DiskFault, "call {at} {stops}");
            assert_eq!(rt; out.bytes().len(), 0, "call {at} {stops}");
            assert_eq!(rt; disk.faults(), 1, "call {at} {stops}");
        }
        let (status, disk, out) = run(&rt, FORMAT, failing(&rt, 9, stops)?)?;
        assert_eq!(rt; status, Status::Done, "{stops}");
        assert_eq!(rt; out.bytes(), b"ok\n".as_slice(), "{stops}");
        assert_eq!(rt; disk.faults(), 0, "{stops}");
        for pick in 0..3 {
            let left = disk.after_crash(pick)?;
            assert!(rt; left.as_slice() == image.as_slice(), "crash {pick}");
        }
    }
    Ok(())
}

#[test]
fn a_failing_sink_leaves_the_container_whole(rt: HostRuntime) -> Result<(), Fail> {
    let alloc = rt.alloc();
    let image = whole(&rt)?;
    for (at, wanted, made) in [
        (0, Status::OutFault, b"".as_slice()),
        (1, Status::Done, b"ok\n".as_slice()),
    ] {
        let mut fails = Vec::new(alloc);
        fails.push(at)?;
        // no call of the store fails
        let disk = failing(&rt, 100, false)?;
        let (status, disk, out) = run_into(&rt, FORMAT, disk, MemSink::new(alloc, fails))?;
        assert_eq!(rt; status, wanted, "write {at}");
        assert_eq!(rt; out.bytes(), made, "write {at}");
        assert!(rt; disk.bytes() == image.as_slice(), "write {at}");
        for pick in 0..3 {
            let left = disk.after_crash(pick)?;
            assert!(rt;
                left.as_slice() == image.as_slice(),
                "write {at}, crash {pick}"
            );
        }
    }
    Ok(())
}

// Status, bytes written, faults counted, how the sink takes its pieces, command.
static TEXTS: &str = "\
0;3;0;pieces;1;format
8;0;1;pieces;0;format
8;2;1;full;2;format
0;3;0;full;3;format
9;0;0;memory;0;format
8;3;1;recovers;0;format
0;72;0;pieces;1;info
8;0;1;pieces;0;info
8;71;1;full;71;info
0;72;0;full;72;info
8;0;1;fails;0;info
9;0;0;memory;0;info
8;72;1;recovers;0;info";

#[test]
fn a_sink_takes_what_it_can_of_a_text(rt: HostRuntime) -> Result<(), Fail> {
    let alloc = rt.alloc();
    let image = whole(&rt)?;
    for row in TEXTS.split('\n') {
        let is_format = column(row, 5) == "format";
        let line = if is_format { FORMAT } else { INFO };
        let text = if is_format { "ok\n" } else { SMALL_TEXT };
        let disk = SureStore::new(image.clone()?);
        let sink = SlowSink::new(alloc, way_named(column(row, 3), number(row, 4)));
        let (status, disk, out) = run_into(&rt, line, disk, sink)?;
        assert_eq!(rt; u64::from(status.code()), number(row, 0), "{row}");
        assert_eq!(rt; out.taken.len() as u64, number(row, 1), "{row}");
        assert_eq!(rt; out.faults, number(row, 2), "{row}");
        assert!(rt; text.as_bytes().starts_with(&out.taken), "{row}");
        assert!(rt; disk.bytes() == image.as_slice(), "{row}");
    }
    Ok(())
}

// Also if the store recovered from the fault: nothing was written by then. Both headers are read first.
#[test]
fn a_missed_read_is_a_container_fault_of_info(rt: HostRuntime) -> Result<(), Fail> {
    let image = whole(&rt)?;
    for (at, miss, wanted, length) in [
        (0, Miss::Fails, Status::DiskFault, 0),
        (0, Miss::Recovers, Status::DiskFault, 0),
        (1, Miss::Fails, Status::DiskFault, 0),
        (1, Miss::Recovers, Status::DiskFault, 0),
        (2, Miss::Fails, Status::Done, 72),
    ] {
        let disk = MissingStore::new(image.clone()?, at, miss);
        let (status, _disk, out) = run(&rt, INFO, disk)?;
        assert_eq!(rt; status, wanted, "read {at}, {miss:?}");
        assert_eq!(rt; out.bytes().len(), length, "read {at}, {miss:?}");
    }
    Ok(())
}
