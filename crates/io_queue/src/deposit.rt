//! The fragments of an admitted write, enciphered and deposited.
ghost use Rattle.std.specs.Prelude.{◌≡◌, ◌+◌, ◌/◌, ◌%◌, ◌^◌, ◌≤◌, ℕ, [], length, List, min, true};
ghost use Rattle.frag_pool.specs.Bench.{is_empty, SameBench};
ghost use Rattle.hist_lock.specs.Known.{view};
ghost use Rattle.sector_model.specs.History.{Write};
ghost use Rattle.io_queue.specs.Laws.Opens.{Opens};
ghost use Rattle.io_queue.specs.Laws.Works.{IsWorkOf};
ghost use Rattle.io_queue.specs.Pass.{Call, IsPass, StandsFor};

use crate::points::fragment_points;
use crate::volume::Volume;
use crate::work::Work;
use crate::write_acts::DepositPart;
use cipher_base::UnitCipher;
use frag_pool::Bench;
use hist_lock::Pass;
use io_core::Core;
use sector_view::View;
use std::cmp::min;
use std::sync::Wait;
use std::thread::Threads;
use vc_outside::{Gate, Store};

/// A fragment's data units, but for the last one's.
pub(crate) const FRAGMENT: u64 = 512;

/// A fragment's bytes, but for the last one's.
pub(crate) const FRAGMENT_BYTES: usize = 262_144;

impl<S: Store, C: UnitCipher> Volume<S, C> {
    // Enciphers a fragment in the room, and deposits it in one turn.
    fn deposit_part<R: Threads + Wait + Sync>(
        &self,
        rt: &R,
        pass: &mut Pass<Core<S, C>>,
        index: u64,
        unit: u64,
        plain: &[u8],
        room: &mut [u8],
    )
        requires pass { IsPass self.now.lock.table.shared.table_id self.now.geometry self.now.cipher pass.old.seat }
        requires room { length plain.now ≤ length room.old }
        requires whole { length plain.now % 512 ≡ 0 }
        requires within { unit + length plain.now / 512 ≤ 2 ^ 55 }
        ensures pass { IsPass self.now.lock.table.shared.table_id self.now.geometry self.now.cipher pass.new.seat }
        ensures call { Call (view pass.old.seat) (view pass.new.seat) [] }
        ensures open { (ws : List Write) → Opens (view pass.old.seat) ws → Opens (view pass.new.seat) ws }
        ensures room { length room.new ≡ length room.old }
    {
        let sealed = &mut room[..plain.len()];
        sealed.copy_from_slice(plain);
        self.cipher.encipher_units(unit, sealed);
        let mut act = DepositPart {
            cipher: &self.cipher,
            caller: pass.number(),
            number: 0,
            index,
            unit,
            plain,
            sealed,
        };
        self.turn(rt, pass, &mut act);
    }

    // Does so with each fragment of a write whose first unit is `unit`.
    pub(crate) fn deposit_all<R: Threads + Wait + Sync, G: Gate>(
        &self,
        rt: &R,
        pass: &mut Pass<Core<S, C>>,
        gate: &G,
        unit: u64,
        plain: &[u8],
        room: &mut [u8],
    )
        requires pass { IsPass self.now.lock.table.shared.table_id self.now.geometry self.now.cipher pass.old.seat }
        requires room { min (length plain.now) 262144 ≤ length room.old }
        requires whole { length plain.now % 512 ≡ 0 }
        requires within { unit + length plain.now / 512 ≤ 2 ^ 55 }
        ensures pass { IsPass self.now.lock.table.shared.table_id self.now.geometry self.now.cipher pass.new.seat }
        ensures call { Call (view pass.old.seat) (view pass.new.seat) [] }
        ensures open { (ws : List Write) → Opens (view pass.old.seat) ws → Opens (view pass.new.seat) ws }
    {
        let view = View::new(plain);
        let units = plain.len() as u64 / 512;
        for index in 0..units.div_ceil(FRAGMENT) {
            let from = FRAGMENT * index;
            let part = view.part(from, min(FRAGMENT, units - from));
            fragment_points(gate, pass.number(), index);
            self.deposit_part(rt, pass, index, unit + from, part, room);
        }
    }

    // Does so with the work of a write, but for fragments that helpers got and don't have deposited yet.
    pub(crate) fn deposit_work<R: Threads + Wait + Sync, G: Gate>(
        &self,
        rt: &R,
        pass: &mut Pass<Core<S, C>>,
        bench: &mut Bench,
        gate: &G,
        unit: u64,
        work: Work,
    )
        requires pass { IsPass self.now.lock.table.shared.table_id self.now.geometry self.now.cipher pass.old.seat }
        requires empty { is_empty bench.old ≡ true }
        requires work { (n : ℕ) × (bytes : List ℕ) × IsWorkOf n unit bytes work
            × (length bytes % 512 ≡ 0) × (unit + length bytes / 512 ≤ 2 ^ 51) }
        ensures pass { IsPass self.now.lock.table.shared.table_id self.now.geometry self.now.cipher pass.new.seat }
        ensures call { Call (view pass.old.seat) (view pass.new.seat) [] }
        ensures open { (ws : List Write) → Opens (view pass.old.seat) ws → Opens (view pass.new.seat) ws }
        ensures empty { is_empty bench.new ≡ true }
        ensures bench { SameBench bench.old bench.new }
    {
        match work {
            Work::Alone(plain, mut room) => self.deposit_all(
                rt, pass, gate, unit, &plain, &mut room,
            ),
            Work::Shared(jobs) => {
                self.push_all(rt, pass, bench, gate, jobs);
                self.take_all(rt, pass, bench, gate);
            }
        }
    }
}
