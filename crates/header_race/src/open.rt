//! Opening over a store, by several threads.
ghost use Rattle.std.specs.Prelude.{◌≡◌, ◌≤◌, ℕ, IfSome, IfOk, OnOk, Err, None, IsErrOf, Contains};
ghost use Rattle.kdf_hmac.specs.Pbkdf2.{IsPim};
ghost use Rattle.vc_base.specs.Faults.{HasCause};
ghost use Rattle.vc_layout.specs.Kinds.{slots_of};
ghost use Rattle.vc_layout.specs.Layout.{IsContainerLength};
ghost use Rattle.vc_header.specs.Header.{Meets};
ghost use Rattle.header_seal.specs.Candidates.{first, IsFirst};
ghost use Rattle.vc_outside.specs.Crash.{Outcomes, Stays};

use crate::entrant::{MOST, Numbers, read_headers};
use crate::race::race;
use header_seal::Opened;
use header_try::OpenError;
use kdf_hmac::Password;
use std::alloc::Global;
use std::snapshot::Snapshot;
use std::thread::Threads;
use vc_layout::{Kind, is_container_length};
use vc_outside::{Gate, Store};

/// Opens the first valid candidate of a kind, on 1 to 8 workers. Each header of the kind is read once, in the
/// order of the slots, before the first derivation begins. If no read fails and there is memory, it returns what
/// `open_plain` does, for any number of workers.
///
/// With as many workers as derivations, each derivation has one of its own. One worker is the caller's thread.
pub fn open_race<R: Threads + Sync, D: Store, G: Gate>(
    rt: &R,
    alloc: Global,
    disk: &mut D,
    p: &Password,
    pim: u32,
    kind: Kind,
    workers: u32,
    gate: &G,
) -> Result<Opened, OpenError>
    requires pim { IsPim pim }
    requires workers { (1 ≤ workers) × (workers ≤ 8) }

    // If the store's contents are known: which candidate is opened, and when none is.
    ensures opened { IfOk result (λ o. IfSome (D.image disk.old) (λ b. IsFirst o kind b p.now pim)) }
    ensures none_valid { result ≡ Err OpenError.NoHeader
        → IfSome (D.image disk.old) (λ b. first kind b p.now pim ≡ None) }

    // Why it is refused. Besides, it may be out of memory.
    ensures length { (n : ℕ) → result ≡ Err (OpenError.Length n) → (n ≡ D.size disk.old) × ¬ IsContainerLength n }
    ensures refused { ¬ IsContainerLength (D.size disk.old) → result ≡ Err (OpenError.Length (D.size disk.old)) }
    ensures cause { HasCause (D.faults disk.old) (D.faults disk.new) (IsErrOf result OpenError.ReadFault) }

    // What holds over every store.
    ensures in_range { OnOk result (IsContainerLength (D.size disk.old)) }
    ensures slot { IfOk result (λ o. Contains (slots_of kind) o.slot) }
    ensures meets { IfOk result (λ o. Meets o.fields o.slot (D.size disk.old)) }

    // Nothing of the container changes, and a crash leaves nothing more than before.
    ensures image { D.image disk.new ≡ D.image disk.old }
    ensures size { D.size disk.new ≡ D.size disk.old }
    ensures crash { Outcomes D.tells (D.moment disk.old) (D.moment disk.new) (D.left_since disk.old) (D.left_since disk.new)
        (D.may_leave disk.old) (D.may_leave disk.new) Stays }
{
    let len = disk.len();
    if !is_container_length(len) {
        return Err(OpenError::Length(len));
    }
    let Ok(mut entrants) = Vec::with_capacity(alloc, MOST) else {
        return Err(OpenError::NoMemory);
    };
    let Ok(()) = read_headers(disk, kind, len, &mut entrants) else {
        return Err(OpenError::ReadFault);
    };
    let numbers = Numbers {
        entrants: Snapshot::of(&entrants),
        password: Snapshot::of(p),
        pim,
        len,
    };
    match race(rt, alloc, numbers, &entrants, p, workers as usize, gate) {
        Ok(Some(opened)) => Ok(opened),
        Ok(None) => Err(OpenError::NoHeader),
        Err(_) => Err(OpenError::NoMemory),
    }
}
