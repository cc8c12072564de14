//! Writes that aren't admitted.
use super::Same;
use super::scripts::{admit_by, new_core, new_store};
use crate::{Admit, Core};
use std::alloc::Global;
use std::test::Fail;
use vc_outside::MemStore;

// The answer to a write of this many sectors, if it hands the write back unless it is In.
fn answer(
    core: &mut Core<MemStore, Same>,
    alloc: Global,
    number: u64,
    first: u64,
    sectors: u64,
) -> &'static str {
    let len = (sectors as usize).saturating_mul(512);
    let Ok(bytes) = vec![in alloc; 9u8; len] else {
        return "no memory";
    };
    let (name, write) = match admit_by(core, alloc, number, first, bytes) {
        None => return "not asked",
        Some(Admit::In) => return "in",
        Some(Admit::Denied(write)) => ("denied", write),
        Some(Admit::Frozen(write)) => ("frozen", write),
        Some(Admit::Later(write)) => ("later", write),
    };
    if write.number != number || write.first != first || write.bytes.len() != len {
        return "another write is handed back";
    }
    name
}

// A volume of 48 sectors from byte 1024 on, of which the last one is protected. Three writes may be pending.
// Each answer is by hand.
#[test]
fn a_write_is_turned_down_for_the_first_cause(rt: HostRuntime) -> Result<(), Fail> {
    let fails = Vec::new(rt.alloc());
    let Some(disk) = new_store(rt.alloc(), 24_576, fails) else {
        return Err("no memory".into());
    };
    let Some(mut core) = new_core(rt.alloc(), disk, false, false, Some((49, 1))) else {
        return Err("no memory".into());
    };
    let mut number = 0u64;
    for (name, first, sectors, want) in [
        ("the first one", 1u64, 2u64, "in"),
        ("over its last sector", 2, 1, "later"),
        ("up to its first sector", 0, 2, "later"),
        ("behind it", 3, 2, "in"),
        ("before it", 0, 1, "in"),
        ("behind all, when three are pending", 5, 1, "later"),
        ("over all, up to the protected sector", 0, 47, "later"),
        ("over all and the protected sector", 0, 48, "denied"),
        ("the same, once frozen", 0, 48, "frozen"),
        ("behind all, once frozen", 5, 1, "frozen"),
        ("over the first one, once frozen", 1, 2, "frozen"),
    ] {
        assert_eq!(rt;
            answer(&mut core, rt.alloc(), number, first, sectors),
            want,
            "{name}"
        );
        number = number.saturating_add(1);
    }
    Ok(())
}
