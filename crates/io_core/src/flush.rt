//! Flushing.
ghost use Rattle.std.specs.Prelude.{◌≡◌, ◌≤◌, ◌++◌, ◌∷◌, [], ℕ, List, OnOk, IfErr, IsErr};
ghost use Rattle.vc_base.specs.Faults.{HasCause};
ghost use Rattle.vc_outside.specs.Crash.{IsLasting, Outcomes, Stays};
ghost use Rattle.sector_model.specs.Plain.{entry};
ghost use Rattle.sector_model.specs.declared.entry.Entry.{Entry};
ghost use Rattle.io_core.specs.Entries.{flush_event};
ghost use Rattle.io_core.specs.Sound.{Sound};
ghost use Rattle.io_core.specs.State.{SameVolume, State};

use crate::state::Core;
use cipher_base::UnitCipher;
use sector_model::FaultMark;
use vc_outside::{Failed, Store};

impl<S: Store, C: UnitCipher> Core<S, C> {
    /// Syncs the store. If nothing is pending, a crash then leaves the image.
    pub fn flush_turn(&mut self) -> Result<(), FaultMark>
        ensures same { SameVolume self.old self.new }
        ensures guard { self.new.guard ≡ self.old.guard }
        ensures pending { self.new.pending ≡ self.old.pending }
        ensures image { S.image self.new.disk ≡ S.image self.old.disk }
        ensures size { S.size self.new.disk ≡ S.size self.old.disk }
        ensures crash { Outcomes S.tells (S.moment self.old.disk) (S.moment self.new.disk) (S.left_since self.old.disk)
            (S.left_since self.new.disk) (S.may_leave self.old.disk) (S.may_leave self.new.disk) Stays }
        ensures synced { OnOk result (IsLasting S.tells (S.image self.new.disk) (S.may_leave self.new.disk)) }
        ensures cause { HasCause (S.faults self.old.disk) (S.faults self.new.disk) (IsErr result) }
        ensures mark { IfErr result (λ m. m ≡ record { before = S.faults self.old.disk; after = S.faults self.new.disk }) }
        ensures sound { (base : State S C) (h : List Entry) (caller number : ℕ)
            → Sound ⟦<S as Store>⟧ ⟦<C as UnitCipher>⟧ base h self.old
            → Sound ⟦<S as Store>⟧ ⟦<C as UnitCipher>⟧ base (h ++ entry caller number (flush_event result) ∷ []) self.new }
    {
        let before = self.disk.faults();
        if let Err(Failed) = self.disk.sync() {
            let after = self.disk.faults();
            return Err(FaultMark { before, after });
        }
        Ok(())
    }
}
