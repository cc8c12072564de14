//! Depositing fragments.
ghost use Rattle.std.specs.Prelude.{◌≡◌, ◌≢◌, ◌↔◌, ◌+◌, ◌≤◌, ◌<◌, ◌++◌, ◌∷◌, [], ℕ, List, Any, Some, IfSome, length, slice_get};
ghost use Rattle.vc_base.specs.Bytes.{in_pieces};
ghost use Rattle.vc_base.specs.Faults.{HasCause};
ghost use Rattle.vc_outside.specs.Crash.{Outcomes};
ghost use Rattle.vc_outside.specs.Told.{Both};
ghost use Rattle.sector_model.specs.History.{HasName};
ghost use Rattle.sector_model.specs.declared.entry.Entry.{Entry};
ghost use Rattle.io_core.specs.Sound.{Sound};
ghost use Rattle.io_core.specs.State.{SameVolume, State, write_of};
ghost use Rattle.io_core.specs.declared.part.PartState.TheVariants.{Spoilt, Stored, Waiting};
ghost use Rattle.io_core.specs.Deposits.{deposit_of, IsDeposited, IsWritten, SameButFragment};
ghost use Rattle.io_core.specs.Named.{named};
ghost use Rattle.sector_model.specs.declared.entry.FaultMark.{FaultMark};

use crate::answers::Deposit;
use crate::part::PartState;
use crate::pending::{is_waiting, place_of, set_part};
use crate::seal::store_fragment;
use crate::state::Core;
use cipher_base::UnitCipher;
use std::cmp::min;
use vc_outside::Store;

// How many bytes a fragment has, but for the last one.
const FRAGMENT: usize = 262_144;

impl<S: Store, C: UnitCipher> Core<S, C> {
    /// Stores fragment `index` of request `number` of `caller`. `sealed` is `plain` enciphered from the
    /// unit `unit` on. If `plain` isn't the fragment's data, or `unit` not its first unit, the fragment's
    /// own data is enciphered and stored.
    pub fn deposit(
        &mut self,
        caller: u64,
        number: u64,
        index: u64,
        unit: u64,
        plain: &[u8],
        sealed: &[u8],
    ) -> Deposit
        requires sealed { sealed.now ≡ in_pieces 512 (λ i u. C.enciphered self.old.cipher (unit + i) u) plain.now }
        ensures stray { (result ≡ Deposit.Stray) ↔ ¬ Any (λ p. HasName caller number (write_of p)
            × (slice_get p.parts.items index ≡ Some Waiting)) self.old.pending }
        ensures stray_changes_nothing { result ≡ Deposit.Stray → self.new ≡ self.old }
        ensures stored { result ≡ Deposit.Stored
            → IsDeposited caller number index Stored self.old.pending self.new.pending }
        ensures spoilt { (mark : FaultMark) → result ≡ Deposit.Spoilt mark
            → IsDeposited caller number index (Spoilt mark) self.old.pending self.new.pending
            × (mark ≡ record { before = S.faults self.old.disk; after = S.faults self.new.disk }) }
        ensures written { result ≡ Deposit.Stored → IfSome (named caller number self.old.pending) (λ w.
            Both (S.image self.old.disk) (S.image self.new.disk) (IsWritten ⟦<C as UnitCipher>⟧ self.old w index)) }
        ensures elsewhere { result ≢ Deposit.Stray → IfSome (named caller number self.old.pending) (λ w.
            Both (S.image self.old.disk) (S.image self.new.disk) (SameButFragment self.old.geometry w index)) }
        ensures crash { result ≢ Deposit.Stray → IfSome (named caller number self.old.pending) (λ w.
            Outcomes S.tells (S.moment self.old.disk) (S.moment self.new.disk) (S.left_since self.old.disk)
            (S.left_since self.new.disk) (S.may_leave self.old.disk) (S.may_leave self.new.disk) (SameButFragment self.old.geometry w index)) }
        ensures size { S.size self.new.disk ≡ S.size self.old.disk }
        ensures same { SameVolume self.old self.new }
        ensures guard { self.new.guard ≡ self.old.guard }
        ensures cause { HasCause (S.faults self.old.disk) (S.faults self.new.disk) ((result ≢ Deposit.Stray) × (result ≢ Deposit.Stored)) }
        ensures sound { (base : State S C) (h : List Entry)
            → Sound ⟦<S as Store>⟧ ⟦<C as UnitCipher>⟧ base h self.old
            → Sound ⟦<S as Store>⟧ ⟦<C as UnitCipher>⟧ base h self.new }
    {
        let Some(at) = place_of(&self.pending, caller, number) else {
            return Deposit::Stray;
        };
        let write = &self.pending[at];
        if !is_waiting(&write.parts, index) {
            return Deposit::Stray;
        }
        let part = index as usize;
        let from = FRAGMENT * part;
        let to = min(from + FRAGMENT, write.bytes.len());
        let units = u64::from(self.geometry.sector) / 512;
        let first = self.geometry.start / 512 + units * write.first + 512 * index;
        let state = store_fragment(
            &mut self.disk,
            &self.cipher,
            &mut self.room,
            first,
            &write.bytes[from..to],
            unit,
            plain,
            sealed,
        );
        set_part(&mut self.pending, at, part, state);
        answer_of(state)
    }
}

fn answer_of(state: PartState) -> Deposit
    ensures { result ≡ deposit_of state }
{
    match state {
        PartState::Spoilt(mark) => Deposit::Spoilt(mark),
        _ => Deposit::Stored,
    }
}
