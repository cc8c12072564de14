//! Closing writes.
ghost use Rattle.std.specs.Prelude.{◌≡◌, ◌≢◌, ◌++◌, ◌≤◌, ◌<◌, ℕ, List, Any, Contains, drop};
ghost use Rattle.sector_model.specs.History.{HasName};
ghost use Rattle.sector_model.specs.declared.entry.Entry.{Entry};
ghost use Rattle.io_core.specs.Closings.{close_entries, IsClosed};
ghost use Rattle.io_core.specs.Laws.StateOf.{answer_to, before_others, state_of};
ghost use Rattle.io_core.specs.Sound.{Sound};
ghost use Rattle.io_core.specs.State.{SameVolume, State, write_of};
ghost use Rattle.io_core.specs.declared.prepared.Prepared.{Prepared};

use crate::answers::Close;
use crate::part::PartState;
use crate::pending::place_of;
use crate::prepared::Prepared;
use crate::state::Core;
use cipher_base::UnitCipher;
use vc_outside::Store;

impl<S: Store, C: UnitCipher> Core<S, C> {
    /// Ends request `number` of `caller`, unless a fragment of it is waiting.
    pub fn close_write(&mut self, caller: u64, number: u64) -> Close
        requires pending { Any (λ p. HasName caller number (write_of p)) self.old.pending }
        ensures closed { IsClosed caller number result self.old.pending self.new.pending }
        ensures same { SameVolume self.old self.new }
        ensures guard { self.new.guard ≡ self.old.guard }
        ensures disk { self.new.disk ≡ self.old.disk }
        ensures sound { (base : State S C) (h : List Entry)
            → Sound ⟦<S as Store>⟧ ⟦<C as UnitCipher>⟧ base h self.old
            → Sound ⟦<S as Store>⟧ ⟦<C as UnitCipher>⟧ base
            (h ++ close_entries ⟦<S as Store>⟧ ⟦<C as UnitCipher>⟧ self.old caller number result) self.new }
    {
        // A proof needs that known contents are bytes.
        let _ = self.disk.len();
        let Some(at) = place_of(&self.pending, caller, number) else {
            unreachable!()
        };
        let state = state_of(&self.pending[at].parts);
        if let PartState::Waiting = state {
            return Close::Waiting;
        }
        self.book.release(caller, number);
        let write = self.pending.remove(at);
        answer_to(state, write)
    }
}

fn before_others(state: PartState, others: PartState) -> PartState
    ensures { result ≡ before_others state others }
{
    match state {
        PartState::Waiting => PartState::Waiting,
        PartState::Stored => others,
        PartState::Spoilt(mark) => match others {
            PartState::Waiting => PartState::Waiting,
            PartState::Stored => PartState::Spoilt(mark),
            PartState::Spoilt(_) => PartState::Spoilt(mark),
        },
    }
}

// What the states come to.
fn state_of(parts: &[PartState]) -> PartState
    ensures { result ≡ state_of parts.now }
{
    let mut state = PartState::Stored;
    for part in parts {
        state = before_others(state, *part);
    }
    state
}

fn answer_to(state: PartState, write: Prepared) -> Close
    ensures { result ≡ answer_to state write }
{
    let Prepared {
        caller: _,
        number: _,
        first: _,
        bytes,
        parts: _,
    } = write;
    match state {
        PartState::Waiting => Close::Waiting,
        PartState::Stored => Close::Done(bytes),
        PartState::Spoilt(mark) => Close::Lost(mark),
    }
}
