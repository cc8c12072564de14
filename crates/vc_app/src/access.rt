//! What opens a volume.
ghost use Rattle.std.specs.Prelude.{◌≡◌, ◌≤◌, Some, Contains, IfOk, IfSome, OnOk};
ghost use Rattle.kdf_hmac.specs.Pbkdf2.{IsPim};
ghost use Rattle.vc_layout.specs.Kinds.{slots_of};
ghost use Rattle.vc_layout.specs.Layout.{IsContainerLength};
ghost use Rattle.vc_header.specs.Header.{Meets};
ghost use Rattle.vc_outside.specs.Crash.{Outcomes, Stays};
ghost use Rattle.vc_app.specs.Access.{opened};
ghost use Rattle.vc_app.specs.Laws.Unopened.{Unopened};

use header_race::open_race;
use header_try::{Kind, OpenError, Opened};
use kdf_hmac::Password;
use std::alloc::Global;
use std::thread::Threads;
use vc_outside::{Gate, NoGate, Store};

/// How many workers share the derivations of an opening. No kind has more derivations.
const WORKERS: u32 = 4;

/// What opens a volume: the first header of the kind that password and PIM make valid.
#[derive(Drop)]
pub struct Access {
    pub password: Password,
    pub pim: u32,
    pub kind: Kind,
}

impl Access {
    /// Opens the header by four workers.
    pub fn open<R: Threads + Sync, D: Store>(
        &self,
        rt: &R,
        alloc: Global,
        disk: &mut D,
    ) -> Result<Opened, OpenError>
        requires { IsPim self.now.pim }
        ensures opened { IfOk result (λ o. IfSome (D.image disk.old) (λ b. opened self.now b ≡ Some o)) }
        ensures unopened { Unopened self.now result (D.image disk.old) (D.size disk.old)
            (D.faults disk.old) (D.faults disk.new) }
        ensures in_range { OnOk result (IsContainerLength (D.size disk.old)) }
        ensures later { D.faults disk.old ≤ D.faults disk.new }
        ensures slot { IfOk result (λ o. Contains (slots_of self.now.kind) o.slot) }
        ensures meets { IfOk result (λ o. Meets o.fields o.slot (D.size disk.old)) }
        ensures image { D.image disk.new ≡ D.image disk.old }
        ensures size { D.size disk.new ≡ D.size disk.old }
        ensures crash { Outcomes D.tells (D.moment disk.old) (D.moment disk.new) (D.left_since disk.old)
            (D.left_since disk.new) (D.may_leave disk.old) (D.may_leave disk.new) Stays }
    {
        self.open_by(rt, alloc, disk, WORKERS, &NoGate)
    }

    /// Opens the header. Its derivations run side by side on so many workers, which pass the points of `header_race` at
    /// the gate; being out of memory for them hides no fault of a read.
    pub fn open_by<R: Threads + Sync, D: Store, G: Gate>(
        &self,
        rt: &R,
        alloc: Global,
        disk: &mut D,
        workers: u32,
        gate: &G,
    ) -> Result<Opened, OpenError>
        requires pim { IsPim self.now.pim }
        requires workers { (1 ≤ workers) × (workers ≤ 8) }
        ensures opened { IfOk result (λ o. IfSome (D.image disk.old) (λ b. opened self.now b ≡ Some o)) }
        ensures unopened { Unopened self.now result (D.image disk.old) (D.size disk.old)
            (D.faults disk.old) (D.faults disk.new) }
        ensures in_range { OnOk result (IsContainerLength (D.size disk.old)) }
        ensures later { D.faults disk.old ≤ D.faults disk.new }
        ensures slot { IfOk result (λ o. Contains (slots_of self.now.kind) o.slot) }
        ensures meets { IfOk result (λ o. Meets o.fields o.slot (D.size disk.old)) }
        ensures image { D.image disk.new ≡ D.image disk.old }
        ensures size { D.size disk.new ≡ D.size disk.old }
        ensures crash { Outcomes D.tells (D.moment disk.old) (D.moment disk.new) (D.left_since disk.old)
            (D.left_since disk.new) (D.may_leave disk.old) (D.may_leave disk.new) Stays }
    {
        let faults = disk.faults();
        let opened = open_race(
            rt,
            alloc,
            disk,
            &self.password,
            self.pim,
            self.kind,
            workers,
            gate,
        );
        match opened {
            Err(OpenError::NoMemory) if disk.faults() != faults => Err(OpenError::ReadFault),
            _ => opened,
        }
    }
}
