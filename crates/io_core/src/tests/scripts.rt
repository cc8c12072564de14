//! Random scripts of events over a store whose calls fail at random, beside a plain volume.
//!
//! A write is put into the plain volume when it is admitted. After each close and flush the sectors that no
//! pending write has are compared. If fragments failed, the plain volume gets what is stored, once it is
//! shown to be the write's data in the fragments that were stored, and in the others what a failed call of
//! the store leaves: the first half of the new bytes, and behind it the old ones.
ghost use Rattle.std.specs.Prelude.{◌≡◌, ◌<◌, ◌%◌, true, false, length, All, Any};
ghost use Rattle.sector_model.specs.Array.{AreSectors, Fits, sectors_of};
ghost use Rattle.sector_model.specs.History.{HasName};
ghost use Rattle.io_core.specs.Sound.{volume};
ghost use Rattle.io_core.specs.State.{write_of};

use super::Same;
use crate::pending::place_of;
use crate::{Admit, Close, Core, Deposit, Fetch, PartState, Prepared};
use sector_model::{Answer, FaultMark, PlainVolume};
use std::alloc::Global;
use std::test::Fail;
use vc_layout::Geometry;
use vc_outside::{MemStore, Store};

const START: usize = 1024;

const FRAGMENT: usize = 262_144;

const CAPACITY: u32 = 3;

type Checked = Result<(), &'static str>;

// Numbers by xorshift.
#[derive(Drop)]
struct Numbers(u64);

impl Numbers {
    fn next(&mut self) -> u64 {
        self.0 ^= self.0 << 13;
        self.0 ^= self.0 >> 7;
        self.0 ^= self.0 << 17;
        self.0
    }

    // One of 0, 1, up to n - 1; 0 if n is 0.
    fn below(&mut self, n: u64) -> u64 {
        self.next().checked_rem(n).unwrap_or(0)
    }
}

// A plain volume whose sectors have 512 or 4096 bytes.
#[derive(Drop)]
struct Plain {
    volume: PlainVolume,
    units: u64,
    ghost per_sector: { volume.volume.per_sector ≡ units },
}

impl Plain {
    fn new(bytes: Vec<u8>, large: bool, protect: Option<(u64, u64)>) -> Option<Plain> {
        if bytes.len() > 1 << 30 || bytes.len() % 4096 != 0 {
            return None;
        }
        if large {
            return Some(Plain {
                volume: PlainVolume::new(bytes, 4096, protect),
                units: 8,
            });
        }
        Some(Plain {
            volume: PlainVolume::new(bytes, 512, protect),
            units: 1,
        })
    }

    // None if these are no sectors.
    fn write(&mut self, first: u64, bytes: &[u8]) -> Option<Answer> {
        if bytes.is_empty() || first > 1 << 30 {
            return None;
        }
        match self.units {
            1 if bytes.len() % 512 == 0 => Some(self.volume.write(first, bytes)),
            8 if bytes.len() % 4096 == 0 => Some(self.volume.write(first, bytes)),
            _ => None,
        }
    }
}

// A pending write, as the test knows it.
#[derive(Drop)]
struct Open {
    number: u64,
    first: u64,
    data: Vec<u8>,
    // What its sectors held before.
    old: Vec<u8>,
    parts: Vec<PartState>,
}

// A core, and what is known of it.
#[derive(Drop)]
struct Pair {
    core: Core<MemStore, Same>,
    plain: Plain,
    open: Vec<Open>,
    large: bool,
    sectors: u64,
    protect: bool,
    frozen: bool,
    // The next call of the store, which ones fail, and how many have failed.
    call: u64,
    fails: Vec<u64>,
    faults: u64,
    number: u64,
}

impl Pair {
    fn sector(&self) -> usize {
        if self.large { 4096 } else { 512 }
    }

    // Whether the store's next call fails, and its mark.
    fn next_call(&mut self) -> Option<FaultMark> {
        let fails = self.fails.contains(&self.call);
        self.call = self.call.saturating_add(1);
        if !fails {
            return None;
        }
        let before = self.faults;
        self.faults = before.saturating_add(1);
        Some(FaultMark {
            before,
            after: self.faults,
        })
    }
}

// At most `len` bytes from `from` on.
fn cut(bytes: &[u8], from: usize, len: usize) -> &[u8] {
    let from = from.min(bytes.len());
    let to = from.saturating_add(len).min(bytes.len());
    &bytes[from..to]
}

fn copy_of(alloc: Global, bytes: &[u8]) -> Option<Vec<u8>> {
    let mut copy = Vec::new(alloc);
    copy.extend_from_slice(bytes).ok()?;
    Some(copy)
}

// Whether these are sectors of the volume.
fn are_sectors(core: &Core<MemStore, Same>, first: u64, bytes: &[u8]) -> bool
    ensures { result ≡ true → (0 < length bytes.now) × AreSectors (volume core.now) bytes.now
        × Fits (volume core.now) first (sectors_of (volume core.now) bytes.now) }
{
    let len = bytes.len() as u64;
    match core.geometry().sector {
        512 => len > 0 && len % 512 == 0 && core.fits(first, len / 512),
        4096 => len > 0 && len % 4096 == 0 && core.fits(first, len / 4096),
        _ => false,
    }
}

// Whether the write of this number is pending.
fn is_pending(core: &Core<MemStore, Same>, number: u64) -> bool
    ensures absent { result ≡ false → All (λ p. ¬ HasName 1 number (write_of p)) core.now.pending }
    ensures present { result ≡ true → Any (λ p. HasName 1 number (write_of p)) core.now.pending }
{
    match place_of(&core.pending, 1, number) {
        None => false,
        Some(_) => true,
    }
}

pub(super) fn admit_by(
    core: &mut Core<MemStore, Same>,
    alloc: Global,
    number: u64,
    first: u64,
    data: Vec<u8>,
) -> Option<Admit> {
    if data.len() > 1 << 25 || data.len() % 512 != 0 || first > 1 << 40 {
        return None;
    }
    if is_pending(core, number) || !are_sectors(core, first, &data) {
        return None;
    }
    let write = Prepared::new(alloc, 1, number, first, data).ok()?;
    Some(core.admit_write(write))
}

fn close_by(core: &mut Core<MemStore, Same>, number: u64) -> Option<Close> {
    if !is_pending(core, number) {
        return None;
    }
    Some(core.close_write(1, number))
}

fn fetch_by(core: &mut Core<MemStore, Same>, first: u64, out: &mut [u8]) -> Option<Fetch> {
    if !are_sectors(core, first, out) {
        return None;
    }
    Some(core.fetch(first, out))
}

// Hands in this data, which the cipher leaves as it is.
fn hand_in(
    core: &mut Core<MemStore, Same>,
    number: u64,
    index: u64,
    unit: u64,
    handed: &[u8],
) -> Deposit
    requires { length handed.now % 512 ≡ 0 }
{
    core.deposit(1, number, index, unit, handed, handed)
}

// What the sectors of a write now hold: what of its fragments was stored, and in the others what a failed call leaves.
fn left_by(write: &Open, now: &[u8]) -> bool {
    for (index, part) in write.parts.iter().enumerate() {
        let from = index.saturating_mul(FRAGMENT);
        let data = cut(&write.data, from, FRAGMENT);
        let old = cut(&write.old, from, FRAGMENT);
        let stored = cut(now, from, FRAGMENT);
        let half = data.len() / 2;
        let is_left = match part {
            PartState::Waiting => stored == old,
            PartState::Stored => stored == data,
            PartState::Spoilt(_) => {
                cut(stored, 0, half) == cut(data, 0, half)
                    && cut(stored, half, FRAGMENT) == cut(old, half, FRAGMENT)
            }
        };
        if !is_left {
            return false;
        }
    }
    true
}

// The first `len` bytes of the volume as they are stored, which the cipher leaves as they are.
fn stored(core: &Core<MemStore, Same>, len: usize) -> &[u8] {
    cut(core.disk.bytes(), START, len)
}

// Compares the volume with the plain one, sector by sector, and what is outside of it with what it was.
fn compare(pair: &Pair) -> Checked {
    let sector = pair.sector();
    let len = sector.saturating_mul(pair.sectors as usize);
    let units = stored(&pair.core, len);
    let plain = pair.plain.volume.bytes();
    for i in 0..pair.sectors {
        let at = sector.saturating_mul(i as usize);
        let now = cut(units, at, sector);
        match covering(&pair.open, i, 1, sector) {
            Some(write) => {
                let from = sector.saturating_mul(i.saturating_sub(write.first) as usize);
                if cut(plain, at, sector) != cut(&write.data, from, sector) {
                    return Err("a pending write isn't in the array");
                }
            }
            None => {
                if now != cut(plain, at, sector) {
                    return Err("a sector differs");
                }
            }
        }
    }
    for write in pair.open.iter() {
        let at = sector.saturating_mul(write.first as usize);
        if !left_by(write, cut(units, at, write.data.len())) {
            return Err("a fragment differs");
        }
    }
    let bytes = pair.core.disk.bytes();
    if cut(bytes, 0, START).iter().any(|byte| *byte != 0xee) {
        return Err("a byte before the volume");
    }
    if cut(bytes, START.saturating_add(len), FRAGMENT)
        .iter()
        .any(|byte| *byte != 0xee)
    {
        return Err("a byte behind the volume");
    }
    Ok(())
}

// The pending write that overlaps these sectors.
fn covering(open: &[Open], first: u64, count: u64, sector: usize) -> Option<&Open> {
    for write in open {
        let sectors = write.data.len().checked_div(sector).unwrap_or(0) as u64;
        if write.first < first.saturating_add(count)
            && first < write.first.saturating_add(sectors)
        {
            return Some(write);
        }
    }
    None
}

// A write of random sectors, some of which pass the volume's end.
fn admit(pair: &mut Pair, alloc: Global, numbers: &mut Numbers) -> Checked {
    let sector = pair.sector();
    let most = if numbers.below(8) == 0 {
        pair.sectors
    } else {
        6
    };
    let first = numbers.below(pair.sectors);
    let count = numbers.below(most).saturating_add(1);
    let len = sector.saturating_mul(count as usize);
    let Ok(mut data) = vec![in alloc; 0u8; len] else {
        return Err("no memory");
    };
    for unit in data.chunks_mut(512) {
        unit.fill((numbers.next() % 256) as u8);
    }
    let Some(copy) = copy_of(alloc, &data) else {
        return Err("no memory");
    };
    let at = sector.saturating_mul(first as usize);
    let Some(old) = copy_of(alloc, cut(pair.plain.volume.bytes(), at, len)) else {
        return Err("no memory");
    };
    let number = pair.number;
    pair.number = number.saturating_add(1);
    let meets = covering(&pair.open, first, count, sector).is_some();
    let full = pair.open.len() >= CAPACITY as usize;
    let Some(answer) = admit_by(&mut pair.core, alloc, number, first, copy) else {
        return if first.saturating_add(count) > pair.sectors {
            Ok(())
        } else {
            Err("a write that fits")
        };
    };
    if let Admit::Later(_) = answer {
        return if (meets || full) && !pair.frozen {
            Ok(())
        } else {
            Err("a write is put off")
        };
    }
    match (answer, pair.plain.write(first, &data)) {
        (Admit::In, Some(Answer::Done)) => {
            if meets || full {
                return Err("a write should be put off");
            }
            let Ok(parts) = vec![in alloc; PartState::Waiting; len.div_ceil(FRAGMENT)] else {
                return Err("no memory");
            };
            let write = Open {
                number,
                first,
                data,
                old,
                parts,
            };
            if pair.open.push(write).is_err() {
                return Err("no memory");
            }
            Ok(())
        }
        (Admit::Denied(_), Some(Answer::Denied)) => {
            pair.frozen = true;
            Ok(())
        }
        (Admit::Frozen(_), Some(Answer::Frozen)) => Ok(()),
        _ => Err("an admission"),
    }
}

// A fragment of a pending write, or one past its last: what is handed in is its own, for its units or for others,
// or nothing.
fn deposit(pair: &mut Pair, numbers: &mut Numbers) -> Checked {
    let chosen = numbers.below(pair.open.len() as u64) as usize;
    let units = (pair.sector() / 512) as u64;
    let Some(write) = pair.open.get(chosen) else {
        return Ok(());
    };
    let index = numbers.below((write.parts.len() as u64).saturating_add(1));
    let fragment = cut(
        &write.data,
        (index as usize).saturating_mul(FRAGMENT),
        FRAGMENT,
    );
    let first = (START as u64 / 512)
        .saturating_add(units.saturating_mul(write.first))
        .saturating_add(index.saturating_mul(512));
    let (unit, handed) = match numbers.below(4) {
        0 => (first, cut(fragment, 0, 0)),
        1 => (first.saturating_add(1), fragment),
        2 => (first, cut(&write.old, 0, fragment.len())),
        _ => (first, fragment),
    };
    let number = write.number;
    let waiting = write.parts.get(index as usize).copied() == Some(PartState::Waiting);
    if handed.len() % 512 != 0 {
        return Err("a fragment has whole units");
    }
    let answer = hand_in(&mut pair.core, number, index, unit, handed);
    if !waiting {
        return if answer == Deposit::Stray {
            Ok(())
        } else {
            Err("a stray fragment")
        };
    }
    let mark = pair.next_call();
    let want = match mark {
        Some(mark) => Deposit::Spoilt(mark),
        None => Deposit::Stored,
    };
    if answer != want {
        return Err("a fragment");
    }
    let Some(write) = pair.open.get_mut(chosen) else {
        return Err("a pending write");
    };
    if let Some(part) = write.parts.get_mut(index as usize) {
        *part = match mark {
            Some(mark) => PartState::Spoilt(mark),
            None => PartState::Stored,
        };
    }
    Ok(())
}

// The end of a pending write, as its fragments say.
fn close(pair: &mut Pair, alloc: Global, numbers: &mut Numbers) -> Checked {
    let chosen = numbers.below(pair.open.len() as u64) as usize;
    let Some(write) = pair.open.get(chosen) else {
        return Ok(());
    };
    let mut lost = None;
    let mut waiting = false;
    for part in write.parts.iter() {
        match part {
            PartState::Waiting => waiting = true,
            PartState::Stored => {}
            PartState::Spoilt(mark) => {
                if lost.is_none() {
                    lost = Some(*mark);
                }
            }
        }
    }
    let Some(answer) = close_by(&mut pair.core, write.number) else {
        return Err("a close");
    };
    if waiting {
        let Close::Waiting = answer else {
            return Err("a fragment is waiting");
        };
        return compare(pair);
    }
    compare(pair)?;
    if chosen >= pair.open.len() {
        return Err("a pending write");
    }
    let write = pair.open.remove(chosen);
    match (answer, lost) {
        (Close::Done(bytes), None) => {
            if bytes.as_slice() != write.data.as_slice() {
                return Err("a write's data is handed back");
            }
        }
        (Close::Lost(told), Some(mark)) => {
            if told != mark {
                return Err("the mark of the first failure");
            }
            take_over(pair, alloc, &write)?;
        }
        _ => return Err("how a write ends"),
    }
    compare(pair)
}

// The plain volume gets what is stored in the sectors of this write.
fn take_over(pair: &mut Pair, alloc: Global, write: &Open) -> Checked {
    let sector = pair.sector();
    let len = sector.saturating_mul(pair.sectors as usize);
    let at = sector.saturating_mul(write.first as usize);
    let units = stored(&pair.core, len);
    let Some(mut bytes) = copy_of(alloc, pair.plain.volume.bytes()) else {
        return Err("no memory");
    };
    for (i, byte) in bytes.iter_mut().enumerate().skip(at).take(write.data.len()) {
        *byte = units.get(i).copied().unwrap_or(0);
    }
    let Some(plain) = new_plain(
        alloc,
        bytes,
        pair.large,
        pair.protect,
        pair.sectors,
        pair.frozen,
    ) else {
        return Err("a plain volume");
    };
    pair.plain = plain;
    Ok(())
}

// A read of random sectors.
fn fetch(pair: &mut Pair, alloc: Global, numbers: &mut Numbers) -> Checked {
    let sector = pair.sector();
    let first = numbers.below(pair.sectors);
    let count = numbers.below(6).saturating_add(1);
    let len = sector.saturating_mul(count as usize);
    let Ok(mut out) = vec![in alloc; 0x11u8; len] else {
        return Err("no memory");
    };
    let meets = covering(&pair.open, first, count, sector).is_some();
    let Some(answer) = fetch_by(&mut pair.core, first, &mut out) else {
        return if first.saturating_add(count) > pair.sectors {
            Ok(())
        } else {
            Err("a read that fits")
        };
    };
    if meets {
        return if answer == Fetch::Later {
            Ok(())
        } else {
            Err("a read is put off")
        };
    }
    if let Some(mark) = pair.next_call() {
        return if answer == Fetch::Failed(mark) {
            Ok(())
        } else {
            Err("a read fails")
        };
    }
    if answer != Fetch::Got {
        return Err("a read");
    }
    let at = sector.saturating_mul(first as usize);
    if cut(pair.plain.volume.bytes(), at, len) != out.as_slice() {
        return Err("what is read");
    }
    Ok(())
}

fn flush(pair: &mut Pair) -> Checked {
    let answer = pair.core.flush_turn();
    let want = match pair.next_call() {
        Some(mark) => Err(mark),
        None => Ok(()),
    };
    if answer != want {
        return Err("a flush");
    }
    compare(pair)
}

// The first protected unit of the volume, of three: the last ones of the third quarter.
fn protected_from(large: bool, sectors: u64) -> u64 {
    let units = if large { 8 } else { 1 };
    sectors.saturating_mul(units) / 4 * 3
}

fn new_plain(
    alloc: Global,
    bytes: Vec<u8>,
    large: bool,
    protect: bool,
    sectors: u64,
    frozen: bool,
) -> Option<Plain> {
    let from = protected_from(large, sectors);
    let range = if protect { Some((from, 3)) } else { None };
    let mut plain = Plain::new(bytes, large, range)?;
    if frozen {
        let zeros = vec![in alloc; 0u8; 4096].ok()?;
        let first = if large { from / 8 } else { from };
        if plain.write(first, &zeros)? != Answer::Denied {
            return None;
        }
    }
    Some(plain)
}

// How many sectors the volume has. A write to all of a big one has three fragments.
fn sectors_in(large: bool, big: bool) -> u64 {
    match (large, big) {
        (false, false) => 48,
        (true, false) => 24,
        (false, true) => 1536,
        (true, true) => 192,
    }
}

// A store of a volume of zeros, with bytes 0xee around it.
pub(super) fn new_store(alloc: Global, len: usize, fails: Vec<u64>) -> Option<MemStore> {
    let all = len.saturating_add(START).saturating_add(512);
    let mut bytes = vec![in alloc; 0u8; all].ok()?;
    for (i, byte) in bytes.iter_mut().enumerate() {
        if i < START || i >= len.saturating_add(START) {
            *byte = 0xee;
        }
    }
    MemStore::new(alloc, bytes, fails, None, 512, 1 << 25).ok()
}

// A core of the volume in that store. Its protected range is counted from the container's start.
pub(super) fn new_core(
    alloc: Global,
    disk: MemStore,
    large: bool,
    big: bool,
    range: Option<(u64, u64)>,
) -> Option<Core<MemStore, Same>> {
    let size = disk.len();
    if large {
        let sectors = if big { 192u64 } else { 24 };
        if size < 1024 + 4096 * sectors {
            return None;
        }
        let geometry = Geometry {
            start: 1024,
            sectors,
            sector: 4096,
        };
        return Core::new(alloc, disk, geometry, Same, range, CAPACITY).ok();
    }
    let sectors = if big { 1536u64 } else { 48 };
    if size < 1024 + 512 * sectors {
        return None;
    }
    let geometry = Geometry {
        start: 1024,
        sectors,
        sector: 512,
    };
    Core::new(alloc, disk, geometry, Same, range, CAPACITY).ok()
}

fn new_pair(
    alloc: Global,
    large: bool,
    protect: bool,
    big: bool,
    numbers: &mut Numbers,
) -> Option<Pair> {
    let sectors = sectors_in(large, big);
    let len = (sectors as usize).saturating_mul(if large { 4096 } else { 512 });
    let mut fails = Vec::new(alloc);
    for call in 0..128u64 {
        if numbers.below(6) == 0 {
            fails.push(call).ok()?;
        }
    }
    let mut copy = Vec::new(alloc);
    copy.extend_from_slice(&fails).ok()?;
    let disk = new_store(alloc, len, copy)?;
    let from = protected_from(large, sectors);
    let range = if protect {
        Some((from.saturating_add(START as u64 / 512), 3))
    } else {
        None
    };
    let zeros = vec![in alloc; 0u8; len].ok()?;
    Some(Pair {
        core: new_core(alloc, disk, large, big, range)?,
        plain: new_plain(alloc, zeros, large, protect, sectors, false)?,
        open: Vec::new(alloc),
        large,
        sectors,
        protect,
        frozen: false,
        call: 0,
        fails,
        faults: 0,
        number: 0,
    })
}

fn step(pair: &mut Pair, alloc: Global, numbers: &mut Numbers) -> Checked {
    match numbers.below(10) {
        0..=2 => admit(pair, alloc, numbers),
        3..=5 => deposit(pair, numbers),
        6 => close(pair, alloc, numbers),
        7..=8 => fetch(pair, alloc, numbers),
        _ => flush(pair),
    }
}

// A script of events, after which all writes end.
fn script(alloc: Global, seed: u64, large: bool, protect: bool) -> Checked {
    let mut numbers = Numbers(seed.wrapping_mul(0x9e37_79b9_7f4a_7c15) | 1);
    let Some(mut pair) = new_pair(alloc, large, protect, seed % 50 == 0, &mut numbers) else {
        return Err("no memory");
    };
    for _ in 0..24 {
        step(&mut pair, alloc, &mut numbers)?;
    }
    for _ in 0..400 {
        if pair.open.is_empty() {
            break;
        }
        deposit(&mut pair, &mut numbers)?;
        close(&mut pair, alloc, &mut numbers)?;
    }
    if !pair.open.is_empty() {
        return Err("a write never ends");
    }
    flush(&mut pair)
}

// The seed of the first script that goes wrong, and how.
fn first_failure(alloc: Global, large: bool, protect: bool) -> Option<(u64, &'static str)> {
    for seed in 0..2500u64 {
        if let Err(message) = script(alloc, seed, large, protect) {
            return Some((seed, message));
        }
    }
    None
}

#[test]
fn scripts_over_small_sectors(rt: HostRuntime) -> Result<(), Fail> {
    assert_eq!(rt; first_failure(rt.alloc(), false, false), None);
    Ok(())
}

#[test]
fn scripts_over_small_sectors_with_a_protected_range(rt: HostRuntime) -> Result<(), Fail> {
    assert_eq!(rt; first_failure(rt.alloc(), false, true), None);
    Ok(())
}

#[test]
fn scripts_over_large_sectors(rt: HostRuntime) -> Result<(), Fail> {
    assert_eq!(rt; first_failure(rt.alloc(), true, false), None);
    Ok(())
}

#[test]
fn scripts_over_large_sectors_with_a_protected_range(rt: HostRuntime) -> Result<(), Fail> {
    assert_eq!(rt; first_failure(rt.alloc(), true, true), None);
    Ok(())
}
