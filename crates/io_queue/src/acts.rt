//! The events of the core as acts, each in one turn of the lock.
ghost use Rattle.std.specs.Prelude.{◌≡◌, ◌+◌, ◌≤◌, [], ◌∷◌, length};
ghost use Rattle.sector_model.specs.Plain.{entry};
ghost use Rattle.sector_model.specs.declared.entry.Event.TheVariants.{Beyond};
ghost use Rattle.io_core.specs.Entries.{flush_event};
ghost use Rattle.io_queue.specs.Laws.Acts.{fetched, MayFetch};

use cipher_base::UnitCipher;
use hist_lock::Act;
use io_core::{Core, Fetch};
use sector_model::FaultMark;
use vc_layout::Geometry;
use vc_outside::Store;

// A request that passes the end of a volume of so many sectors.
#[derive(Drop)]
pub(crate) struct PassEnd {
    pub sectors: u64,
    pub first: u64,
    pub count: u64,
}

impl<S: Store, C: UnitCipher> Act<Core<S, C>> for PassEnd {
    ghost may = { λ a base _. (base.geometry.sectors ≡ a.sectors) × ¬ (a.first + a.count ≤ a.sectors) };

    ghost allows = { λ old _ caller es. es ≡ entry caller 0 (Beyond old.first old.count) ∷ [] };

    ghost adds = { λ old _ _ _ caller. entry caller 0 (Beyond old.first old.count) ∷ [] };

    fn act(&mut self, value: &mut Core<S, C>, caller: u64) {
        let _ = value;
        let _ = caller;
    }
}

// A flush.
#[derive(Drop)]
pub(crate) struct Flush {
    pub answer: Result<(), FaultMark>,
}

impl<S: Store, C: UnitCipher> Act<Core<S, C>> for Flush {
    ghost may = { λ _ _ _. Unit {0} };

    ghost allows = { λ _ new caller es. es ≡ entry caller 0 (flush_event new.answer) ∷ [] };

    ghost adds = { λ _ _ new _ caller. entry caller 0 (flush_event new.answer) ∷ [] };

    fn act(&mut self, value: &mut Core<S, C>, caller: u64) {
        let _ = caller;
        self.answer = value.flush_turn();
    }
}

// A fetch into a buffer.
#[derive(Drop)]
pub(crate) struct FetchInto<'a, C> {
    pub geometry: Geometry,
    pub cipher: &'a C,
    pub first: u64,
    pub out: &'a mut [u8],
    pub answer: Fetch,
}

impl<'a, S: Store, C: UnitCipher> Act<Core<S, C>> for FetchInto<'a, C> {
    ghost may = { λ a base _. MayFetch base a.geometry a.cipher.now a.first a.out.now };

    ghost allows = { λ old new caller es. (es ≡ fetched ⟦<C as UnitCipher>⟧ old.cipher.now old.geometry caller old.first new.out.now new.answer)
        × (new.out.ghost_name ≡ old.out.ghost_name) × (length new.out.now ≡ length old.out.now) };

    ghost adds = { λ old _ new _ caller. fetched ⟦<C as UnitCipher>⟧ old.cipher.now old.geometry caller old.first new.out.now new.answer };

    fn act(&mut self, value: &mut Core<S, C>, caller: u64) {
        let _ = caller;
        self.answer = value.fetch(self.first, self.out);
    }
}
