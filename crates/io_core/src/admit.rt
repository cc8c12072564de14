//! Admission of writes.
ghost use Rattle.std.specs.Prelude.{◌≡◌, ◌≢◌, ◌↔◌, ◌⊎◌, ◌≤◌, ◌<◌, ◌++◌, ◌∷◌, [], ℕ, List, All, Any, length, true, false};
ghost use Rattle.range_base.specs.Range.{Overlap};
ghost use Rattle.sector_model.specs.Array.{AreSectors, Fits, sectors_of, TouchesProtected};
ghost use Rattle.sector_model.specs.History.{HasName};
ghost use Rattle.sector_model.specs.declared.entry.Entry.{Entry};
ghost use Rattle.io_core.specs.Entries.{admit_entries, IsAnswered};
ghost use Rattle.io_core.specs.Fragments.{IsWaiting};
ghost use Rattle.io_core.specs.Sound.{Sound, volume};
ghost use Rattle.io_core.specs.State.{HasPlace, Overlaps, SameVolume, State, write_of};

use crate::answers::Admit;
use crate::prepared::Prepared;
use crate::state::Core;
use cipher_base::UnitCipher;
use hidden_guard::Verdict;
use vc_outside::Store;

impl<S: Store, C: UnitCipher> Core<S, C> {
    /// Admits a write, which then is pending with all its fragments waiting, or hands it back.
    pub fn admit_write(&mut self, w: Prepared) -> Admit
        requires whole { AreSectors (volume self.old) w.bytes.items }
        requires fits { Fits (volume self.old) w.first (sectors_of (volume self.old) w.bytes.items) }
        requires fresh { All (λ p. ¬ HasName w.caller w.number (write_of p)) self.old.pending }
        requires waiting { All IsWaiting w.parts.items }
        ensures answered { IsAnswered w result }
        ensures frozen { (result ≡ Admit.Frozen w) ↔ (self.old.guard.frozen ≡ true) }
        ensures denied { (result ≡ Admit.Denied w) ↔ ((self.old.guard.frozen ≡ false)
            × TouchesProtected (volume self.old) w.first (sectors_of (volume self.old) w.bytes.items)) }
        ensures later { (result ≡ Admit.Later w) ↔ ((self.old.guard.frozen ≡ false)
            × ¬ TouchesProtected (volume self.old) w.first (sectors_of (volume self.old) w.bytes.items)
            × ¬ HasPlace self.old w.first (sectors_of (volume self.old) w.bytes.items)) }
        ensures admitted { result ≡ Admit.In → self.new.pending ≡ self.old.pending ++ w ∷ [] }
        ensures refused { result ≢ Admit.In → self.new.pending ≡ self.old.pending }
        ensures freezes { (self.new.guard.frozen ≡ true) ↔ ((self.old.guard.frozen ≡ true) ⊎ (result ≡ Admit.Denied w)) }
        ensures same { SameVolume self.old self.new }
        ensures disk { self.new.disk ≡ self.old.disk }
        ensures sound { (base : State S C) (h : List Entry)
            → Sound ⟦<S as Store>⟧ ⟦<C as UnitCipher>⟧ base h self.old
            → Sound ⟦<S as Store>⟧ ⟦<C as UnitCipher>⟧ base (h ++ admit_entries (volume self.old) w result) self.new }
    {
        let units = u64::from(self.geometry.sector) / 512;
        let count = w.bytes.len() as u64 / 512 / units;
        let unit = self.geometry.start / 512 + units * w.first;
        match self.guard.judge(unit, units * count) {
            Verdict::Frozen => return Admit::Frozen(w),
            Verdict::Denied => return Admit::Denied(w),
            Verdict::Pass => {}
        }
        if self.book.spare() == 0 || self.book.meets(w.first, count).is_some() {
            return Admit::Later(w);
        }
        self.book.reserve(w.caller, w.number, w.first, count);
        let Ok(()) = self.pending.push(w) else {
            unreachable!()
        };
        Admit::In
    }
}
