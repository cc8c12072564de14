//! The derivations of a race, and which candidate numbers are valid.
ghost use Rattle.std.specs.Prelude.{◌≡◌, ◌≤◌, ◌+◌, ◌++◌, List, [], ℕ, length, vec_capacity, IfSome, OnOk, IsErr};
ghost use Rattle.header_seal.specs.Sealed.{header_at};
ghost use Rattle.header_race.specs.Laws.Race.{IsListed, of_slot};
ghost use Rattle.vc_base.specs.Faults.{HasCause};
ghost use Rattle.vc_outside.specs.Crash.{Outcomes, Stays};

use header_try::slots;
use kdf_hmac::{Password, Prf};
use race_word::Names;
use std::snapshot::Snapshot;
use vc_header::HEADER;
use vc_layout::{Kind, Slot, slot_at};
use vc_outside::{Failed, Store};

/// The number of derivations that a race has at most.
pub(crate) const MOST: usize = 4;

/// A derivation: a slot's header with a PRF.
#[derive(Clone, Copy)]
pub(crate) struct Entrant {
    pub(crate) slot: Slot,
    pub(crate) prf: Prf,
    pub(crate) header: [u8; HEADER],
}

/// The numbers of the valid candidates, which is what may be offered.
#[derive(Drop)]
pub(crate) struct Numbers {
    pub(crate) entrants: Snapshot<Vec<Entrant>>,
    pub(crate) password: Snapshot<Password>,
    pub(crate) pim: u32,
    pub(crate) len: u64,
}

impl Names for Numbers {
    ghost use Rattle.header_race.specs.Laws.Race.{IsValidNumber};

    ghost names = { IsValidNumber };
}

/// Reads the headers of a kind, each once and in the order of the slots, and lists its derivations.
pub(crate) fn read_headers<D: Store>(
    disk: &mut D,
    kind: Kind,
    len: u64,
    entrants: &mut Vec<Entrant>,
) -> Result<(), Failed>
    requires len { 262656 ≤ len }
    requires size { len ≡ D.size disk.old }
    requires empty { entrants.old.items ≡ [] }
    requires capacity { 4 ≤ vec_capacity entrants.old }
    ensures listed { OnOk result (IsListed kind (D.image disk.old) entrants.new.items) }
    ensures cause { HasCause (D.faults disk.old) (D.faults disk.new) (IsErr result) }
    ensures image { D.image disk.new ≡ D.image disk.old }
    ensures size { D.size disk.new ≡ D.size disk.old }
    ensures crash { Outcomes D.tells (D.moment disk.old) (D.moment disk.new) (D.left_since disk.old) (D.left_since disk.new)
        (D.may_leave disk.old) (D.may_leave disk.new) Stays }
{
    let (slot, other) = slots(kind);
    let Ok(()) = read_header(disk, slot, len, entrants) else {
        return Err(Failed);
    };
    let Some(other) = other else {
        return Ok(());
    };
    let Ok(()) = read_header(disk, other, len, entrants) else {
        return Err(Failed);
    };
    Ok(())
}

// Reads a slot's header, and adds its derivations.
fn read_header<D: Store>(
    disk: &mut D,
    slot: Slot,
    len: u64,
    entrants: &mut Vec<Entrant>,
) -> Result<(), Failed>
    requires len { 262656 ≤ len }
    requires size { len ≡ D.size disk.old }
    requires capacity { length entrants.old.items + 2 ≤ vec_capacity entrants.old }
    ensures added { OnOk result ((h : List ℕ) × (entrants.new.items ≡ entrants.old.items ++ of_slot slot h)
        × IfSome (D.image disk.old) (λ b. h ≡ header_at slot b)) }
    ensures capacity { vec_capacity entrants.new ≡ vec_capacity entrants.old }
    ensures cause { HasCause (D.faults disk.old) (D.faults disk.new) (IsErr result) }
    ensures image { D.image disk.new ≡ D.image disk.old }
    ensures size { D.size disk.new ≡ D.size disk.old }
    ensures crash { Outcomes D.tells (D.moment disk.old) (D.moment disk.new) (D.left_since disk.old) (D.left_since disk.new)
        (D.may_leave disk.old) (D.may_leave disk.new) Stays }
{
    let mut header = [0u8; HEADER];
    let Ok(()) = disk.read_at(slot_at(slot, len), &mut header) else {
        return Err(Failed);
    };
    entrants.push_reserved(Entrant {
        slot,
        prf: Prf::Sha512,
        header,
    });
    entrants.push_reserved(Entrant {
        slot,
        prf: Prf::Sha256,
        header,
    });
    Ok(())
}
