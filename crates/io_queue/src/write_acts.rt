//! The events of a write as acts, each in one turn of the lock.
ghost use Rattle.std.specs.Prelude.{◌≡◌, ◌+◌, [], length};
ghost use Rattle.vc_base.specs.Bytes.{in_pieces};
ghost use Rattle.io_core.specs.Closings.{close_entries};
ghost use Rattle.io_core.specs.declared.answers.Close.TheVariants.{Waiting};
ghost use Rattle.io_queue.specs.Laws.Acts.{admitted, Ends, IsAnswer, MayAdmit, MayEnd};

use cipher_base::UnitCipher;
use hist_lock::Act;
use io_core::{Admit, Close, Core};
use std::mem::replace;
use vc_layout::Geometry;
use vc_outside::Store;

// A write that asks for admission. Before the turn the state is the write, as one to be asked again later;
// afterwards it is the answer.
#[derive(Drop)]
pub(crate) struct AskAdmission {
    pub geometry: Geometry,
    pub state: Admit,
}

impl<S: Store, C: UnitCipher> Act<Core<S, C>> for AskAdmission {
    ghost may = { λ a base log. MayAdmit base log a.geometry a.state };

    ghost allows = { λ old new caller es. (es ≡ admitted old.geometry old.state new.state) × IsAnswer old.state new.state };

    ghost adds = { λ old _ new _ _. admitted old.geometry old.state new.state };

    fn act(&mut self, value: &mut Core<S, C>, caller: u64) {
        let Admit::Later(write) = replace(&mut self.state, Admit::In) else {
            unreachable!()
        };
        if write.caller != caller {
            self.state = Admit::Later(write);
            return;
        }
        self.state = value.admit_write(write);
    }
}

// A fragment that is deposited. The turn adds no entry, whatever becomes of it.
#[derive(Drop)]
pub(crate) struct DepositPart<'a, C> {
    pub cipher: &'a C,
    pub caller: u64,
    pub number: u64,
    pub index: u64,
    pub unit: u64,
    pub plain: &'a [u8],
    pub sealed: &'a [u8],
}

impl<'a, S: Store, C: UnitCipher> Act<Core<S, C>> for DepositPart<'a, C> {
    ghost may = { λ a base _. (base.cipher ≡ a.cipher.now)
        × (a.sealed.now ≡ in_pieces 512 (λ i u. C.enciphered a.cipher.now (a.unit + i) u) a.plain.now) };

    ghost allows = { λ _ _ _ es. es ≡ [] };

    ghost adds = { λ _ _ _ _ _. [] };

    fn act(&mut self, value: &mut Core<S, C>, caller: u64) {
        let _ = caller;
        let _ = value.deposit(
            self.caller,
            self.number,
            self.index,
            self.unit,
            self.plain,
            self.sealed,
        );
    }
}

// The end of the caller's open write, from the sector `first` on and of `count` sectors.
#[derive(Drop)]
pub(crate) struct EndWrite {
    pub geometry: Geometry,
    pub caller: u64,
    pub first: u64,
    pub count: u64,
    pub answer: Close,
}

impl<S: Store, C: UnitCipher> Act<Core<S, C>> for EndWrite {
    ghost may = { λ a base log. (a.answer ≡ Waiting) × MayEnd base log a.geometry a.caller a.first a.count };

    ghost allows = { λ old new caller es. caller ≡ old.caller → Ends caller old.first old.count new.answer es };

    ghost adds = { λ _ s new _ caller. close_entries ⟦<S as Store>⟧ ⟦<C as UnitCipher>⟧ s caller 0 new.answer };

    fn act(&mut self, value: &mut Core<S, C>, caller: u64) {
        if caller == self.caller {
            self.answer = value.close_write(caller, 0);
        }
    }
}
