//! Work that is held until other work has gone on: it goes on only if both run side by side.
use std::sync::Wait;
use std::test::Fail;
use std::thread::Threads;
use trial_lines::{
    CAT_OUTER, DISCONNECT, Ended, NEVER, Turn, WHOLE, client, container, replies_to, sent_by,
    serve, shown,
};
use vc_app::Status;
use vc_outside::{Gate, HoldGate, NoGate};

static SERVE: &str = "serve|c1.vc|--password|correct horse|--pim|1";

static ONE_HELPER: &str = "serve|c1.vc|--password|correct horse|--pim|1|--helpers|1";

static FOUR_HELPERS: &str = "serve|c1.vc|--password|correct horse|--pim|1|--helpers|4";

// The clients write sectors that are far from each other.
const FIRST: &[Turn] = &[Turn(0, 1, 0, 512, 0, 0x11)];

const SECOND: &[Turn] = &[Turn(0, 1, 0x80000, 1024, 0, 0x22)];

// Serves a client for each list of requests.
fn served<R: Threads + Wait + Sync + AllocGlobal, G: Gate>(
    rt: &R,
    line: &str,
    image: &[u8],
    sessions: &[&[Turn]],
    gate: &G,
) -> Result<Ended, Fail> {
    let alloc = rt.alloc();
    let mut clients = Vec::new(alloc);
    for turns in sessions {
        let mut sent = sent_by(alloc, turns)?;
        sent.extend_from_slice(DISCONNECT)?;
        clients.push(client(alloc, sent, 4096, NEVER, WHOLE)?)?;
    }
    serve(rt, line, image, NEVER, clients, gate)
}

// The work at the first point goes on when other work passes the second one: client 0 before it enciphers, and client 1
// once its write has ended; the same the other way round; and derivations of the opening by four workers.
#[test]
fn clients_and_derivations_go_on_beside_one_that_is_held(rt: HostRuntime) -> Result<(), Fail> {
    let alloc = rt.alloc();
    let image = container(&rt, false)?;
    let mut plain = shown(&rt, CAT_OUTER, &image)?;
    let first = replies_to(alloc, &mut plain, FIRST)?;
    let second = replies_to(alloc, &mut plain, SECOND)?;
    for (hold, until) in [(1, 514), (513, 2), (100_000, 200_003), (100_003, 200_000)] {
        let gate = HoldGate::new(hold, until, 1_000_000_000);
        let ended = served(&rt, SERVE, &image, &[FIRST, SECOND], &gate)?;
        assert_eq!(rt; ended.status, Status::Done, "{hold} until {until}");
        assert!(rt; !gate.gave_up(), "{hold} until {until}");
        assert_eq!(rt;
            ended.callers.as_slice(),
            [1, 2].as_slice(),
            "{hold} until {until}"
        );
        assert_eq!(rt; ended.clients.len(), 2, "{hold} until {until}");
        for (link, want) in ended.clients.iter().zip([&first, &second]) {
            assert!(rt; link.sink.taken == *want, "{hold} until {until}");
        }
        let bytes = ended.disk.bytes();
        assert!(rt;
            shown(&rt, CAT_OUTER, bytes)? == plain,
            "{hold} until {until}"
        );
    }
    Ok(())
}

// The whole volume is written in three fragments, while two sectors are read at the border of the first two.
const ALL: &[Turn] = &[Turn(0, 1, 0, 786_432, 0, 0x33)];

const BORDER: &[Turn] = &[Turn(0, 0, 511 * 512, 1024, 0, 0)];

#[test]
fn a_read_sees_all_of_a_write_or_nothing(rt: HostRuntime) -> Result<(), Fail> {
    let alloc = rt.alloc();
    let image = container(&rt, false)?;
    let mut plain = shown(&rt, CAT_OUTER, &image)?;
    let old = replies_to(alloc, &mut plain, BORDER)?;
    let written = replies_to(alloc, &mut plain, ALL)?;
    let new = replies_to(alloc, &mut plain, BORDER)?;
    for round in 0..3 {
        let ended = served(&rt, FOUR_HELPERS, &image, &[ALL, BORDER], &NoGate)?;
        assert_eq!(rt; ended.status, Status::Done, "round {round}");
        assert_eq!(rt; ended.clients.len(), 2, "round {round}");
        for (link, wants) in ended
            .clients
            .iter()
            .zip([[&written, &written], [&old, &new]])
        {
            let [want, other] = wants;
            let taken = &link.sink.taken;
            assert!(rt; *taken == *want || *taken == *other, "round {round}");
        }
        let bytes = ended.disk.bytes();
        assert!(rt; shown(&rt, CAT_OUTER, bytes)? == plain, "round {round}");
    }
    Ok(())
}

// A write of two fragments. Each is held, once enciphered, until the other is: so two threads encipher them.
const TWO: &[Turn] = &[Turn(0, 1, 0, 524_288, 0, 0x44)];

#[test]
fn a_helper_enciphers_beside_its_client(rt: HostRuntime) -> Result<(), Fail> {
    let alloc = rt.alloc();
    let image = container(&rt, false)?;
    let mut plain = shown(&rt, CAT_OUTER, &image)?;
    let want = replies_to(alloc, &mut plain, TWO)?;
    for (hold, until) in [(100, 101), (101, 100)] {
        let gate = HoldGate::new(hold, until, 1_000_000_000);
        let ended = served(&rt, ONE_HELPER, &image, &[TWO], &gate)?;
        assert_eq!(rt; ended.status, Status::Done, "{hold} until {until}");
        assert!(rt; !gate.gave_up(), "{hold} until {until}");
        assert_eq!(rt; ended.clients.len(), 1, "{hold} until {until}");
        for link in ended.clients.iter() {
            assert!(rt; link.sink.taken == want, "{hold} until {until}");
        }
        let bytes = ended.disk.bytes();
        assert!(rt;
            shown(&rt, CAT_OUTER, bytes)? == plain,
            "{hold} until {until}"
        );
    }
    Ok(())
}
