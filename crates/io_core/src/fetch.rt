//! Fetching sectors.
ghost use Rattle.std.specs.Prelude.{◌≡◌, ◌≢◌, ◌↔◌, ◌++◌, ◌+◌, ◌*◌, ◌≤◌, ◌<◌, ℕ, List, IfSome, length, slice_range};
ghost use Rattle.vc_base.specs.Faults.{HasCause};
ghost use Rattle.vc_outside.specs.Crash.{Outcomes, Stays};
ghost use Rattle.sector_model.specs.Array.{AreSectors, Fits, sectors_of};
ghost use Rattle.sector_model.specs.declared.entry.Entry.{Entry};
ghost use Rattle.sector_model.specs.declared.entry.FaultMark.{FaultMark};
ghost use Rattle.io_core.specs.Fetches.{fetch_entries, IsFree};
ghost use Rattle.io_core.specs.Sound.{Sound, volume};
ghost use Rattle.io_core.specs.State.{SameVolume, State};

use crate::answers::Fetch;
use crate::seal::bytes_are_known;
use crate::state::Core;
use cipher_base::UnitCipher;
use sector_model::FaultMark;
use vc_outside::{Failed, Store};

impl<S: Store, C: UnitCipher> Core<S, C> {
    /// Reads the sectors from `first` on into `out`, as they are stored: still enciphered.
    pub fn fetch(&mut self, first: u64, out: &mut [u8]) -> Fetch
        requires some { 0 < length out.old }
        requires whole { AreSectors (volume self.old) out.old }
        requires fits { Fits (volume self.old) first (sectors_of (volume self.old) out.old) }
        ensures later { (result ≡ Fetch.Later) ↔ ¬ IsFree self.old first out.old }
        ensures later_changes_nothing { result ≡ Fetch.Later → (self.new ≡ self.old) × (out.new ≡ out.old) }
        ensures got { result ≡ Fetch.Got → IfSome (S.image self.old.disk) (λ b. out.new ≡ slice_range b
            (self.old.geometry.start + self.old.geometry.sector * first)
            (self.old.geometry.start + self.old.geometry.sector * first + length out.old)) }
        ensures failed { (mark : FaultMark) → result ≡ Fetch.Failed mark
            → mark ≡ record { before = S.faults self.old.disk; after = S.faults self.new.disk } }
        ensures length { length out.new ≡ length out.old }
        ensures same { SameVolume self.old self.new }
        ensures guard { self.new.guard ≡ self.old.guard }
        ensures pending { self.new.pending ≡ self.old.pending }
        ensures image { S.image self.new.disk ≡ S.image self.old.disk }
        ensures size { S.size self.new.disk ≡ S.size self.old.disk }
        ensures crash { Outcomes S.tells (S.moment self.old.disk) (S.moment self.new.disk) (S.left_since self.old.disk)
            (S.left_since self.new.disk) (S.may_leave self.old.disk) (S.may_leave self.new.disk) Stays }
        ensures cause { HasCause (S.faults self.old.disk) (S.faults self.new.disk) ((result ≢ Fetch.Got) × (result ≢ Fetch.Later)) }
        ensures sound { (base : State S C) (h : List Entry) (caller number : ℕ)
            → Sound ⟦<S as Store>⟧ ⟦<C as UnitCipher>⟧ base h self.old
            → Sound ⟦<S as Store>⟧ ⟦<C as UnitCipher>⟧ base
            (h ++ fetch_entries ⟦<C as UnitCipher>⟧ self.old caller number first out.new result) self.new }
    {
        let units = u64::from(self.geometry.sector) / 512;
        let count = out.len() as u64 / 512 / units;
        if self.book.meets(first, count).is_some() {
            return Fetch::Later;
        }
        let at = self.geometry.start + u64::from(self.geometry.sector) * first;
        let before = self.disk.faults();
        if let Err(Failed) = self.disk.read_at(at, out) {
            let after = self.disk.faults();
            return Fetch::Failed(FaultMark { before, after });
        }
        bytes_are_known(out);
        Fetch::Got
    }
}
