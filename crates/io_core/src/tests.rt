//! Events over a store in memory, with a cipher that does nothing.
ghost use Rattle.std.specs.Prelude.{◌≡◌, ◌%◌, Any, IfSome, length, refl, true};
ghost use Rattle.sector_model.specs.History.{HasName};
ghost use Rattle.io_core.specs.State.{write_of};

mod scripts;
mod turned_down;

use crate::{Admit, Close, Core, Deposit, Fetch, Prepared};
use cipher_base::UnitCipher;
use sector_model::FaultMark;
use std::alloc::Global;
use std::test::Fail;
use vc_layout::Geometry;
use vc_outside::{MemStore, Store, SureStore};

#[derive(Clone, Copy)]
struct Same;

impl UnitCipher for Same {
    ghost enciphered = { λ _ _ u. u };

    ghost deciphered = { λ _ _ u. u };

    fn encipher_units(&self, first: u64, units: &mut [u8]) {
        let _ = first;
        let _ = units;
    }

    fn decipher_units(&self, first: u64, units: &mut [u8]) {
        let _ = first;
        let _ = units;
    }

    ghost enciphered_is_unit = { λ _ _ _ _ bytes. bytes };

    ghost deciphered_is_unit = { λ _ _ _ _ bytes. bytes };

    ghost deciphers = { λ _ _ _ _ _. refl };

    ghost enciphers = { λ _ _ _ _ _. refl };
}

// Four sectors of 512 bytes from byte 512 on. By hand: the first sync fails, and counts one fault.
#[test]
fn a_flush_tells_the_failure_of_its_sync(rt: HostRuntime) -> Result<(), Fail> {
    let bytes = vec![in rt.alloc(); 0u8; 4096].map_err(|_| "no memory")?;
    let fails = vec![in rt.alloc(); 0u64; 1].map_err(|_| "no memory")?;
    let Ok(disk) = MemStore::new(rt.alloc(), bytes, fails, None, 16, 4096) else {
        return Err("no memory".into());
    };
    let geometry = Geometry {
        start: 512,
        sectors: 4,
        sector: 512,
    };
    let Ok(mut core) = Core::new(rt.alloc(), disk, geometry, Same, Some((3, 1)), 1) else {
        return Err("no memory".into());
    };
    assert!(rt; core.fits(3, 1));
    assert!(rt; !core.fits(3, 2));
    assert_eq!(rt;
        core.flush_turn(),
        Err(FaultMark {
            before: 0,
            after: 1
        })
    );
    assert_eq!(rt; core.flush_turn(), Ok(()));
    assert_eq!(rt; core.pending(), 0);
    assert_eq!(rt; core.geometry(), geometry);
    let _ = core.into_store();
    Ok(())
}

// The last of four sectors is protected, and one write may be pending. Each answer is by hand.
#[test]
fn one_write_is_pending_at_a_time(rt: HostRuntime) -> Result<(), Fail> {
    let bytes = vec![in rt.alloc(); 0u8; 4096].map_err(|_| "no memory")?;
    let geometry = Geometry {
        start: 512,
        sectors: 4,
        sector: 512,
    };
    let disk = SureStore::new(bytes);
    let Ok(mut core) = Core::new(rt.alloc(), disk, geometry, Same, Some((4, 1)), 1) else {
        return Err("no memory".into());
    };
    let data = vec![in rt.alloc(); 9u8; 512].map_err(|_| "no memory")?;
    let first = Prepared::new(rt.alloc(), 1, 0, 0, data).map_err(|_| "no memory")?;
    let Admit::In = core.admit_write(first) else {
        return Err("the first write".into());
    };
    assert_eq!(rt; core.pending(), 1);
    Ok(())
}

// A core of a volume of 1536 sectors from byte 512 on, over zeros. A write of nines to all of it is pending, as
// request 0 of caller 1. The store's call with the number `failing` fails.
fn with_three_fragments(rt: &HostRuntime, failing: u64) -> Option<Core<MemStore, Same>>
    ensures { IfSome result (λ c. Any (λ p. HasName 1 0 (write_of p)) c.pending) }
{
    let zeros = vec![in rt.alloc(); 0u8; 787_456].ok()?;
    let fails = vec![in rt.alloc(); failing; 1].ok()?;
    let Ok(disk) = MemStore::new(rt.alloc(), zeros, fails, None, 16, 787_456) else {
        return None;
    };
    let geometry = Geometry {
        start: 512,
        sectors: 1536,
        sector: 512,
    };
    let Ok(mut core) = Core::new(rt.alloc(), disk, geometry, Same, None, 1) else {
        return None;
    };
    let nines = vec![in rt.alloc(); 9u8; 786_432].ok()?;
    let Ok(write) = Prepared::new(rt.alloc(), 1, 0, 0, nines) else {
        return None;
    };
    match core.admit_write(write) {
        Admit::In => Some(core),
        _ => None,
    }
}

// The same over any store, with this data.
fn with_a_write<S: Store + Drop>(alloc: Global, disk: S, bytes: Vec<u8>) -> Option<Core<S, Same>>
    requires disk { S.size disk ≡ 787456 }
    requires bytes { length bytes.items ≡ 786432 }
    ensures { IfSome result (λ c. Any (λ p. HasName 1 0 (write_of p)) c.pending) }
{
    let geometry = Geometry {
        start: 512,
        sectors: 1536,
        sector: 512,
    };
    let Ok(mut core) = Core::new(alloc, disk, geometry, Same, None, 1) else {
        return None;
    };
    let Ok(write) = Prepared::new(alloc, 1, 0, 0, bytes) else {
        return None;
    };
    match core.admit_write(write) {
        Admit::In => Some(core),
        _ => None,
    }
}

// Hands in this data for a fragment of that write.
fn hand_in<S: Store>(core: &mut Core<S, Same>, index: u64, unit: u64, handed: &[u8]) -> Deposit
    requires { length handed.now % 512 ≡ 0 }
    ensures { Any (λ p. HasName 1 0 (write_of p)) core.old.pending → Any (λ p. HasName 1 0 (write_of p)) core.new.pending }
{
    core.deposit(1, 0, index, unit, handed, handed)
}

// Whether that write can't be closed yet.
fn is_waiting(core: &mut Core<MemStore, Same>) -> bool
    requires { Any (λ p. HasName 1 0 (write_of p)) core.old.pending }
    ensures { result ≡ true → Any (λ p. HasName 1 0 (write_of p)) core.new.pending }
{
    if let Close::Waiting = core.close_write(1, 0) {
        return true;
    }
    false
}

// By hand: a write to the store that fails stores the first half of its bytes, and counts one fault. The call
// with the number 3 is never made.
#[test]
fn three_fragments_are_stored_in_each_order(rt: HostRuntime) -> Result<(), Fail> {
    let orders = [
        [0u64, 1, 2],
        [0, 2, 1],
        [1, 0, 2],
        [1, 2, 0],
        [2, 0, 1],
        [2, 1, 0],
    ];
    for order in orders {
        for failing in 0..4u64 {
            let Some(mut core) = with_three_fragments(&rt, failing) else {
                return Err("no memory".into());
            };
            for (call, index) in order.iter().enumerate() {
                let want = if call as u64 == failing {
                    Deposit::Spoilt(FaultMark {
                        before: 0,
                        after: 1,
                    })
                } else {
                    Deposit::Stored
                };
                assert_eq!(rt; hand_in(&mut core, *index, 0, &[]), want);
                assert_eq!(rt;
                    hand_in(&mut core, *index, 0, &[]),
                    Deposit::Stray,
                    "it waits no more"
                );
            }
            let stored = core.disk.bytes().iter().filter(|byte| **byte == 9).count();
            assert_eq!(rt; stored, if failing < 3 { 655_360 } else { 786_432 });
        }
    }
    Ok(())
}

// A store of so many zeros.
fn empty_disk(alloc: Global, len: usize) -> Option<SureStore>
    ensures { IfSome result (λ d. length d ≡ len) }
{
    match vec![in alloc; 0u8; len] {
        Ok(zeros) => Some(SureStore::new(zeros)),
        Err(_) => None,
    }
}

// Byte i of the data is i modulo 251, so no two sectors of it are alike.
fn byte_of(i: usize) -> u8 {
    (i % 251) as u8
}

// Whether these bytes have that data from byte 512 on, and zeros before and behind it.
fn holds_the_write(bytes: &[u8]) -> bool {
    let data = bytes.iter().skip(512).take(786_432);
    let before = bytes.iter().take(512);
    let behind = bytes.iter().skip(786_944);
    data.enumerate().all(|(i, byte)| *byte == byte_of(i))
        && before.chain(behind).all(|byte| *byte == 0)
}

// Deposits the fragments of that write in this order, and ends it. None if one isn't stored.
fn end_in_order(core: &mut Core<SureStore, Same>, order: [u64; 3]) -> Option<Close>
    requires { Any (λ p. HasName 1 0 (write_of p)) core.old.pending }
{
    let [first, second, third] = order;
    let one = hand_in(core, first, 0, &[]);
    let two = hand_in(core, second, 0, &[]);
    let three = hand_in(core, third, 0, &[]);
    let end = core.close_write(1, 0);
    if one == Deposit::Stored && two == Deposit::Stored && three == Deposit::Stored {
        Some(end)
    } else {
        None
    }
}

// By hand: the data is at its place, and before and behind it the store has its zeros.
#[test]
fn three_fragments_make_the_write_in_each_order(rt: HostRuntime) -> Result<(), Fail> {
    let orders = [
        [0u64, 1, 2],
        [0, 2, 1],
        [1, 0, 2],
        [1, 2, 0],
        [2, 0, 1],
        [2, 1, 0],
    ];
    for order in orders {
        let Some(disk) = empty_disk(rt.alloc(), 787_456) else {
            return Err("no memory".into());
        };
        let mut data = vec![in rt.alloc(); 0u8; 786_432].map_err(|_| "no memory")?;
        for (i, byte) in data.iter_mut().enumerate() {
            *byte = byte_of(i);
        }
        let Some(mut core) = with_a_write(rt.alloc(), disk, data) else {
            return Err("no memory".into());
        };
        let Some(Close::Done(bytes)) = end_in_order(&mut core, order) else {
            return Err("each fragment is stored, and the write ends".into());
        };
        assert_eq!(rt; bytes.len(), 786_432);
        assert_eq!(rt; core.pending(), 0);
        assert!(rt; holds_the_write(core.disk.bytes()));
    }
    Ok(())
}

// What is handed in is other data, then the fragment's data for other units, and then that for its own.
#[test]
fn a_fragment_has_its_own_data_whatever_is_handed_in(rt: HostRuntime) -> Result<(), Fail> {
    let Some(mut core) = with_three_fragments(&rt, 9) else {
        return Err("no memory".into());
    };
    let nines = [9u8; 262_144];
    assert_eq!(rt; hand_in(&mut core, 0, 1, &[0; 512]), Deposit::Stored);
    assert_eq!(rt; hand_in(&mut core, 2, 1, &nines), Deposit::Stored);
    assert_eq!(rt; hand_in(&mut core, 1, 513, &nines), Deposit::Stored);
    assert_eq!(rt;
        hand_in(&mut core, 3, 1537, &nines),
        Deposit::Stray,
        "past the last fragment"
    );
    let stored = core.disk.bytes().iter().filter(|byte| **byte == 9).count();
    assert_eq!(rt; stored, 786_432);
    Ok(())
}

// By hand: the second write to the store fails and stores the first half of its 256 KiB. The write ends once no
// fragment is waiting, and with the mark of that failure.
#[test]
fn a_lost_write_tells_its_first_failure(rt: HostRuntime) -> Result<(), Fail> {
    let Some(mut core) = with_three_fragments(&rt, 1) else {
        return Err("no memory".into());
    };
    assert_eq!(rt; hand_in(&mut core, 0, 0, &[]), Deposit::Stored);
    let mark = FaultMark {
        before: 0,
        after: 1,
    };
    assert_eq!(rt; hand_in(&mut core, 1, 0, &[]), Deposit::Spoilt(mark));
    if !is_waiting(&mut core) {
        return Err("a fragment is waiting".into());
    }
    assert_eq!(rt; core.pending(), 1);
    assert_eq!(rt; hand_in(&mut core, 2, 0, &[]), Deposit::Stored);
    match core.close_write(1, 0) {
        Close::Lost(first) => assert_eq!(rt; first, mark),
        _ => return Err("it was lost".into()),
    }
    assert_eq!(rt; core.pending(), 0);
    assert_eq!(rt; hand_in(&mut core, 0, 0, &[]), Deposit::Stray);
    for (name, sector, want) in [
        ("before the volume", 0, 0),
        ("the first fragment", 1, 9),
        ("the last sector of it", 512, 9),
        ("the first half of the second one", 513, 9),
        ("the last sector of that half", 768, 9),
        ("the other half", 769, 0),
        ("the last sector of the second one", 1024, 0),
        ("the third one", 1025, 9),
        ("the last sector of the volume", 1536, 9),
        ("behind the volume", 1537, 0),
    ] {
        assert_eq!(rt;
            core.disk.bytes().get(512 * sector).copied(),
            Some(want),
            "{name}"
        );
    }
    Ok(())
}

#[test]
fn an_ended_write_hands_its_data_back(rt: HostRuntime) -> Result<(), Fail> {
    let Some(mut core) = with_three_fragments(&rt, 9) else {
        return Err("no memory".into());
    };
    let _ = hand_in(&mut core, 2, 0, &[]);
    let _ = hand_in(&mut core, 0, 0, &[]);
    let _ = hand_in(&mut core, 1, 0, &[]);
    match core.close_write(1, 0) {
        Close::Done(bytes) => assert_eq!(rt; bytes.len(), 786_432),
        _ => return Err("it ended".into()),
    }
    assert_eq!(rt; core.pending(), 0);
    Ok(())
}

// Reads as many sectors as the buffer has. None if they aren't sectors of the volume.
fn read_back(core: &mut Core<MemStore, Same>, first: u64, out: &mut [u8]) -> Option<Fetch>
    ensures { core.new.pending ≡ core.old.pending }
{
    let count = out.len() as u64 / 512;
    if core.geometry().sector != 512
        || count == 0
        || out.len() % 512 != 0
        || !core.fits(first, count)
    {
        return None;
    }
    Some(core.fetch(first, out))
}

// By hand: the three deposits are the store's calls 0 to 2, and a read that has to wait makes no call. So the
// call with the number 3 is the first read after the write, which counts one fault.
#[test]
fn a_read_waits_for_the_end_of_a_write(rt: HostRuntime) -> Result<(), Fail> {
    let Some(mut core) = with_three_fragments(&rt, 3) else {
        return Err("no memory".into());
    };
    let mut sector = [7u8; 512];
    assert_eq!(rt; read_back(&mut core, 0, &mut sector), Some(Fetch::Later));
    let _ = hand_in(&mut core, 0, 0, &[]);
    let _ = hand_in(&mut core, 1, 0, &[]);
    let _ = hand_in(&mut core, 2, 0, &[]);
    assert_eq!(rt;
        read_back(&mut core, 1535, &mut sector),
        Some(Fetch::Later),
        "all of it is stored, but it hasn't ended"
    );
    let kept = sector.iter().filter(|byte| **byte == 7).count();
    assert_eq!(rt; kept, 512);
    let Close::Done(_) = core.close_write(1, 0) else {
        return Err("it ended".into());
    };
    let mark = FaultMark {
        before: 0,
        after: 1,
    };
    assert_eq!(rt;
        read_back(&mut core, 0, &mut sector),
        Some(Fetch::Failed(mark))
    );
    for first in [0u64, 768, 1535] {
        let mut read = [0u8; 512];
        assert_eq!(rt; read_back(&mut core, first, &mut read), Some(Fetch::Got));
        let nines = read.iter().filter(|byte| **byte == 9).count();
        assert_eq!(rt; nines, 512, "sector {first}");
    }
    Ok(())
}
