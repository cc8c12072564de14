//! `drill` through `run_serve`. The text is that of `scripts/drill_model.py`.
use std::process::Abort;
use std::sync::Wait;
use std::test::Fail;
use std::thread::Threads;
use trial_lines::{
    DISCONNECT, Link, NEVER, SlowSink, WHOLE, Way, arguments_of, client, run, serve,
};
use vc_app::{Status, run_serve};
use vc_outside::{Client, Gate, HoldGate, NoGate, Source, SureStore};

static SEVEN: &str = "\
drill 7
clients 3
requests 36
reads 5
writes 31
sectors 23934
plain a8422f3c2f64c0ac06f49fad0791aab43371f898debef6bbb9cba079e9465b76
";

// Runs the drill of 7 over a container of three bytes, with so many clients, and all but the output stays as it was.
fn expect_seven<R: Threads + Wait + Sync + AllocGlobal + Abort, G: Gate>(
    rt: &R,
    count: usize,
    gate: &G,
) -> Result<(), Fail> {
    let alloc = rt.alloc();
    let mut clients = Vec::new(alloc);
    for _ in 0..count {
        let sent = Vec::from_slice(alloc, DISCONNECT)?;
        clients.push(client(alloc, sent, 4096, NEVER, WHOLE)?)?;
    }
    let mut ended = serve(rt, "drill|7", &[1, 2, 3], NEVER, clients, gate)?;
    assert_eq!(rt; ended.status, Status::Done, "{count} clients");
    assert!(rt; ended.out.bytes() == SEVEN.as_bytes(), "{count} clients");
    assert!(rt;
        ended.disk.bytes() == [1, 2, 3].as_slice(),
        "{count} clients"
    );
    assert_eq!(rt;
        (ended.ends.len(), ended.replies.len(), ended.callers.len()),
        (0, 0, 0),
        "{count} clients"
    );
    assert!(rt; ended.pass.is_none(), "{count} clients");
    assert_eq!(rt; ended.clients.len(), count);
    for link in ended.clients.iter_mut() {
        assert_eq!(rt; link.sink.taken.len(), 0, "{count} clients");
        // no byte of it was taken
        assert_eq!(rt; link.source.read(&mut [0; 64]), Ok(28), "{count} clients");
    }
    Ok(())
}

// Client 0 of the drill is held before it enciphers its first write, until a write of client 1 has ended.
#[test]
fn a_drill_is_served_side_by_side_and_touches_nothing(rt: HostRuntime) -> Result<(), Fail> {
    let gate = HoldGate::new(1, 514, 1_000_000_000);
    expect_seven(&rt, 0, &gate)?;
    assert!(rt; !gate.gave_up());
    expect_seven(&rt, 17, &NoGate)
}

// An output that takes a few bytes at a time, or fails after so many pieces.
#[test]
fn a_failing_output_has_the_first_lines(rt: HostRuntime) -> Result<(), Fail> {
    let alloc = rt.alloc();
    let arguments = arguments_of(alloc, "drill|7")?;
    for (way, status) in [
        (Way::Pieces(1), Status::Done),
        (Way::Pieces(50), Status::Done),
        (Way::Full(50), Status::OutFault),
        (Way::PiecesFail(40, 3), Status::OutFault),
    ] {
        let none: Vec<Link> = Vec::new(alloc);
        let disk = SureStore::new(Vec::new(alloc));
        let out = SlowSink::new(alloc, way);
        let ended = run_serve(&rt, alloc, arguments.as_slice(), disk, none, out, &NoGate);
        assert_eq!(rt; ended.status, status);
        let taken = ended.out.taken.as_slice();
        assert!(rt; SEVEN.as_bytes().starts_with(taken));
        assert_eq!(rt; taken.len() == SEVEN.len(), status == Status::Done);
    }
    Ok(())
}

#[test]
fn drills_outside_of_the_range_are_no_command(rt: HostRuntime) -> Result<(), Fail> {
    let alloc = rt.alloc();
    for line in [
        "drill|4294967296",
        "drill|-1",
        "drill|",
        "drill",
        "drill|7|7",
    ] {
        let ended = serve(&rt, line, &[], NEVER, Vec::new(alloc), &NoGate)?;
        assert_eq!(rt; ended.status, Status::Usage, "{line}");
        assert_eq!(rt; ended.out.bytes().len(), 0, "{line}");
    }
    // the other top call has no drill
    let (status, _, out) = run(&rt, "drill|7", SureStore::new(Vec::new(alloc)))?;
    assert_eq!(rt; status, Status::Usage);
    assert_eq!(rt; out.bytes().len(), 0);
    Ok(())
}
