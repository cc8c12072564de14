//! `passwd`, `restore` and `expand` that stop or fail at one of their calls, and what opens afterwards.
use std::alloc::Global;
use std::test::Fail;
use std::thread::Threads;
use trial_lines::{column, number, run};
use vc_app::Status;
use vc_outside::{MemStore, SureStore};

static HIDDEN: &str = "format|c1.vc|--size|263168|--password|correct horse|--random|@|--pim|1";

static HIDE: &str = "hide|c1.vc|--size|512|--password|old horse|--random|#|--pim|1";

static LARGE: &str =
    "format|c1.vc|--size|266240|--password|old horse|--random|@|--pim|1|--sector|4096";

static CHANGE_HIDDEN: &str =
    "passwd|c1.vc|--kind|hidden|--password|old horse|--pim|1|--new|new horse|--new-pim|2|--random|@";

static CHANGE_LARGE: &str =
    "passwd|c1.vc|--kind|standard|--password|old horse|--pim|1|--new|new horse|--new-pim|2|--random|#";

static RESTORE: &str = "restore|c1.vc|--kind|standard|--password|old horse|--pim|1|--random|#";

// How the two passwords open the two headers of a kind, each with its bit in a mask.
static OPENINGS: &str = "\
1;info|c1.vc|--password|old horse|--pim|1
2;info|c1.vc|--password|old horse|--pim|1|--backup
4;info|c1.vc|--password|new horse|--pim|2
8;info|c1.vc|--password|new horse|--pim|2|--backup";

// The call that stops, the exit status, which openings succeed if the ranges that weren't synced have their old bytes,
// their new ones or others; and which do after that call alone failed. A write that fails stores its first half. The
// calls of `passwd` are the read, the primary header, a sync, the backup and a sync. By hand.
static CHANGES: &str = "\
0;7;3;3;3;3
1;7;3;6;2;2
2;7;3;6;2;6
3;7;6;12;4;4
4;7;6;12;4;12
5;0;12;12;12;12";

// The same for `restore` over a damaged header: the read, the primary header and a sync.
static RESTORES: &str = "\
0;7;2;2;2;2
1;7;2;3;2;2
2;7;2;3;2;3
3;0;3;3;3;3";

// A store in memory with these bytes, one call of which fails, and if it stops, each one after it too.
fn missing(alloc: Global, image: &[u8], at: u64, stops: bool) -> Result<MemStore, Fail> {
    let mut fails = Vec::new(alloc);
    let mut stop = None;
    if stops {
        stop = Some(at);
    } else {
        fails.push(at)?;
    }
    let bytes = Vec::from_slice(alloc, image)?;
    Ok(MemStore::new(alloc, bytes, fails, stop, 4_096, 1 << 20)?)
}

// The bits of the openings that succeed.
fn opened<R: Threads + Sync + AllocGlobal>(rt: &R, image: &[u8]) -> Result<u64, Fail> {
    let mut mask = 0;
    for row in OPENINGS.split('\n') {
        let disk = SureStore::new(Vec::from_slice(rt.alloc(), image)?);
        let (status, _, _) = run(rt, column(row, 1), disk)?;
        if status == Status::Done {
            mask |= number(row, 0);
        }
    }
    Ok(mask)
}

// The container of a row: with a hidden volume, with large sectors, or with these and a damaged header.
fn container<R: Threads + Sync + AllocGlobal>(rt: &R, line: &str) -> Result<Vec<u8>, Fail> {
    let alloc = rt.alloc();
    let disk = SureStore::new(Vec::new(alloc));
    if line == CHANGE_HIDDEN {
        let (_, disk, _) = run(rt, HIDDEN, disk)?;
        let (_, disk, _) = run(rt, HIDE, disk)?;
        return Ok(Vec::from_slice(alloc, disk.bytes())?);
    }
    let (_, disk, _) = run(rt, LARGE, disk)?;
    let mut image = Vec::from_slice(alloc, disk.bytes())?;
    if line == RESTORE {
        for byte in image.iter_mut().take(512) {
            *byte = 0;
        }
    }
    Ok(image)
}

#[test]
fn a_stop_leaves_a_header_that_opens(rt: HostRuntime) -> Result<(), Fail> {
    for (line, rows) in [
        (CHANGE_HIDDEN, CHANGES),
        (CHANGE_LARGE, CHANGES),
        (RESTORE, RESTORES),
    ] {
        let image = container(&rt, line)?;
        for row in rows.split('\n') {
            let at = number(row, 0);
            let disk = missing(rt.alloc(), &image, at, true)?;
            let (status, disk, _) = run(&rt, line, disk)?;
            assert_eq!(rt; u64::from(status.code()), number(row, 1), "{line}, {row}");
            for (pick, place) in [(0, 2), (1, 3), (2, 4)] {
                let left = disk.after_crash(pick)?;
                assert_eq!(rt;
                    opened(&rt, &left)?,
                    number(row, place),
                    "{line}, {row}, {pick}"
                );
            }
            let disk = missing(rt.alloc(), &image, at, false)?;
            let (status, disk, _) = run(&rt, line, disk)?;
            assert_eq!(rt;
                u64::from(status.code()),
                number(row, 1),
                "{line}, {row}, failing"
            );
            assert_eq!(rt;
                opened(&rt, disk.bytes())?,
                number(row, 5),
                "{line}, {row}, failing"
            );
        }
    }
    Ok(())
}

static EXPAND: &str =
    "expand|c1.vc|--size|270336|--password|old horse|--pim|1|--random|#|--no-hidden";

static CAT: &str = "cat|c1.vc|0|1|--password|old horse|--pim|1";

static CAT_BACKUP: &str = "cat|c1.vc|0|1|--password|old horse|--pim|1|--backup";

// The read, the length, five pieces of the fill, the backup header, a sync, the standard header and a sync. The old
// data is there by one of the headers after each stop.
#[test]
fn an_expansion_that_stops_keeps_the_data(rt: HostRuntime) -> Result<(), Fail> {
    let alloc = rt.alloc();
    let image = container(&rt, CHANGE_LARGE)?;
    let disk = SureStore::new(Vec::from_slice(alloc, &image)?);
    let (_, _, data) = run(&rt, CAT, disk)?;
    assert_eq!(rt; data.bytes().len(), 4_096);
    for stop in 0..12 {
        let disk = missing(alloc, &image, stop, true)?;
        let (status, disk, _) = run(&rt, EXPAND, disk)?;
        assert_eq!(rt; status == Status::Done, stop == 11, "stop {stop}");
        for pick in 0..3 {
            let left = disk.after_crash(pick)?;
            let other = Vec::from_slice(alloc, &left)?;
            let (_, _, first) = run(&rt, CAT, SureStore::new(left))?;
            let (_, _, second) = run(&rt, CAT_BACKUP, SureStore::new(other))?;
            let kept = first.bytes() == data.bytes() || second.bytes() == data.bytes();
            assert!(rt; kept, "stop {stop}, pick {pick}");
        }
    }
    Ok(())
}
