//! A store over memory with planned faults, which models what a crash may leave.
//!
//! Its calls of `read_at`, `write_at`, `set_len` and `sync` are numbered from 0, in one count:
//!
//! ```text
//! a call whose number is listed    fails; a write first stores the first half of its bytes
//! the call with the number `stop`  fails; a crash may leave what it was to write
//! each call after that             fails, and changes nothing
//! a call with too little room      fails, and changes nothing
//! ```
//!
//! It records what it does in room of a fixed size, so that none of its calls takes memory for that.
ghost use Rattle.std.specs.Prelude.{◌≡◌, ◌≤◌, ◌<◌, ◌+◌, ◌-◌, ◌^◌, ◌↔◌, [], ℕ, List, Option, Some, None, Bool, true, false, not, is_ok, is_err, length, slice_range, IfOk, IfSome, OnOk, OnErr, IsErr, IsErrOf, IsTrue, refl};
ghost use Rattle.std.proofs.Common.{inl};
ghost use Rattle.vc_base.specs.Bytes.{IsBytes};
ghost use Rattle.vc_base.specs.Faults.{HasCause};
ghost use Rattle.vc_outside.specs.Crash.{IsLasting, Outcomes, Relength, Stays};
ghost use Rattle.vc_outside.specs.Laws.Moments.{counts_now, only_now};
ghost use Rattle.vc_outside.specs.Memory.{called, length_goes, May, Memory, read_goes, shown, Since, sync_goes, write_event, write_goes};
ghost use Rattle.vc_outside.specs.Record.{crashed, Resized, Synced};
ghost use Rattle.vc_outside.specs.Told.{Both, resized, SameOutside, written};

use crate::medium::Medium;
use crate::planned::{CallPlan, Plan};
use crate::sink::OutError;
use crate::store::{Failed, Store, bytes_are_known};
use std::alloc::Global;
use std::marker::Model;

/// Out of memory.
#[derive(Clone, Copy, Debug, PartialEq, Eq)]
pub struct NoMemory;

/// A store over memory whose calls fail as planned. Contracts see it as a `Memory`.
#[derive(Drop)]
pub struct MemStore {
    medium: Medium,
    plan: Plan,
}

impl Model for MemStore {
    ghost Value = { Memory };

    ghost view = { λ s. record { held = s.medium; next = s.plan.next; fails = s.plan.fails.items; stop = s.plan.stop; faults = s.plan.faults } };
}

impl MemStore {
    /// A store of these bytes, which a crash leaves as they are. The calls with the numbers `fails` fail,
    /// and from the number `stop` on all do. There is room to record `calls` calls, and `room` bytes that
    /// are written or cut off.
    pub fn new(
        alloc: Global,
        bytes: Vec<u8>,
        fails: Vec<u64>,
        stop: Option<u64>,
        calls: usize,
        room: usize,
    ) -> Result<MemStore, NoMemory>
        ensures made { IfOk result (λ s. s ≡ record {
          held = record { first = bytes.items; events = []; places = calls; room = room };
          next = 0;
          fails = fails.items;
          stop = stop;
          faults = 0;
        }) }
        ensures lasting { IfOk result (λ s. IsLasting true (⟦<MemStore as Store>⟧.image s) (⟦<MemStore as Store>⟧.may_leave s)) }
    {
        match Medium::new(alloc, bytes, calls, room) {
            Ok(medium) => Ok(MemStore {
                medium,
                plan: Plan::new(fails, stop),
            }),
            Err(_) => Err(NoMemory),
        }
    }

    /// All the bytes, as a read gives them.
    pub fn bytes(&self) -> &[u8]
        ensures { result.now ≡ shown self.now.held }
    {
        self.medium.bytes()
    }

    /// An image that a crash now may leave. Each range that was written since the last sync holds its old
    /// bytes (pick 0), its new bytes (1) or bytes a5 (2), and the length is the old one (0) or the new one
    /// (1 and 2).
    pub fn after_crash(&self, pick: u8) -> Result<Vec<u8>, NoMemory>
        requires { pick < 3 }
        ensures exactly { IfOk result (λ v. v.items ≡ crashed pick self.now.held.events self.now.held.first self.now.held.first) }
        ensures may_leave { IfOk result (λ v. ⟦<MemStore as Store>⟧.may_leave self.now v.items) }
        ensures lasting { IsLasting true (Some (shown self.now.held)) (May self.now.held) → IfOk result (λ v. v.items ≡ shown self.now.held) }
    {
        match self.medium.crash(pick) {
            Ok(image) => Ok(image),
            Err(_) => Err(NoMemory),
        }
    }

    fn read_by_plan(&mut self, at: u64, out: &mut [u8]) -> Result<(), Failed>
        requires { at + length out.old ≤ length (shown self.old.held) }
        ensures called { self.new ≡ called None (is_err result) self.old }
        ensures goes { is_ok result ≡ read_goes self.old }
        ensures later { self.old.faults ≤ self.new.faults }
        ensures read { OnOk result (out.new ≡ slice_range (shown self.old.held) at (at + length out.old)) }
    {
        if !self.plan.goes() {
            return Err(self.plan.fault());
        }
        let from = at as usize;
        out.copy_from_slice(&self.medium.bytes()[from..from + out.len()]);
        Ok(())
    }

    fn write_by_plan(&mut self, at: u64, bytes: &[u8]) -> Result<(), Failed>
        requires { at + length bytes.now ≤ length (shown self.old.held) }
        ensures called { self.new ≡ called (write_event at bytes.now self.old) (is_err result) self.old }
        ensures goes { is_ok result ≡ write_goes bytes.now self.old }
        ensures later { self.old.faults ≤ self.new.faults }
    {
        let plan = self.plan.next_call();
        if !self.medium.has_room(bytes.len()) {
            return Err(self.plan.fault());
        }
        match plan {
            CallPlan::Goes => {
                self.medium.write(at, bytes, bytes.len());
                Ok(())
            }
            CallPlan::Fails => {
                self.medium.write(at, bytes, bytes.len() / 2);
                Err(self.plan.fault())
            }
            CallPlan::Stops => {
                self.medium.lose(at, bytes);
                Err(self.plan.fault())
            }
            CallPlan::Stopped => Err(self.plan.fault()),
        }
    }

    fn resize_by_plan(&mut self, len: u64) -> Result<(), OutError>
        ensures ok { OnOk result (self.new ≡ called (Some (Resized len)) false self.old) }
        ensures failed { IsErrOf result OutError.Failed → self.new ≡ called None true self.old }
        ensures no_memory { IsErrOf result OutError.NoMemory → self.new ≡ called None false self.old }
        ensures goes { IsErrOf result OutError.Failed ↔ IsTrue (not (length_goes len self.old)) }
        ensures longer { IsErrOf result OutError.NoMemory → length (shown self.old.held) < len }
        ensures later { self.old.faults ≤ self.new.faults }
    {
        let cut = self.medium.bytes().len().saturating_sub(len as usize);
        let goes = self.plan.goes();
        if !self.medium.has_room(cut) || !goes {
            let Failed = self.plan.fault();
            return Err(OutError::Failed);
        }
        if self.medium.resize(len).is_err() {
            return Err(OutError::NoMemory);
        }
        Ok(())
    }

    fn sync_by_plan(&mut self) -> Result<(), Failed>
        ensures ok { OnOk result (self.new ≡ called (Some Synced) false self.old) }
        ensures failed { OnErr result (self.new ≡ called None true self.old) }
        ensures goes { is_ok result ≡ sync_goes self.old }
        ensures later { self.old.faults ≤ self.new.faults }
    {
        let goes = self.plan.goes();
        if !self.medium.has_room(0) || !goes {
            return Err(self.plan.fault());
        }
        self.medium.sync();
        Ok(())
    }
}

impl Store for MemStore {
    ghost image = { λ s. Some (shown s.held) };

    ghost size = { λ s. length (shown s.held) };

    ghost faults = { λ s. s.faults };

    ghost tells = { true };

    ghost may_leave = { λ s c. May s.held c };

    ghost moment = { λ s. length s.held.events };

    ghost left_since = { λ s t c. Since s.held t c };

    fn len(&self) -> u64 {
        bytes_are_known(self.medium.bytes());
        self.medium.bytes().len() as u64
    }

    fn faults(&self) -> u64 {
        self.plan.faults
    }

    fn read_at(&mut self, at: u64, out: &mut [u8]) -> Result<(), Failed>
        requires { at + length out.old ≤ length (shown self.old.held) }
        ensures read { OnOk result (IfSome (Some (shown self.old.held)) (λ b. out.new ≡ slice_range b at (at + length out.old))) }
        ensures image { Some (shown self.new.held) ≡ Some (shown self.old.held) }
        ensures size { length (shown self.new.held) ≡ length (shown self.old.held) }
        ensures crash { Outcomes true (length self.old.held.events) (length self.new.held.events) (Since self.old.held)
            (Since self.new.held) (May self.old.held) (May self.new.held) Stays }
        ensures cause { HasCause self.old.faults self.new.faults (IsErr result) }
        ensures called { self.new ≡ called None (is_err result) self.old }
        ensures goes { is_ok result ≡ read_goes self.old }
    {
        self.read_by_plan(at, out)
    }

    fn write_at(&mut self, at: u64, bytes: &[u8]) -> Result<(), Failed>
        requires { at + length bytes.now ≤ length (shown self.old.held) }
        ensures written { OnOk result (Both (Some (shown self.old.held)) (Some (shown self.new.held)) (λ b c. c ≡ written at bytes.now b)) }
        ensures outside { OnErr result (Both (Some (shown self.old.held)) (Some (shown self.new.held)) (SameOutside at (length bytes.now))) }
        ensures size { length (shown self.new.held) ≡ length (shown self.old.held) }
        ensures crash { Outcomes true (length self.old.held.events) (length self.new.held.events) (Since self.old.held)
            (Since self.new.held) (May self.old.held) (May self.new.held) (SameOutside at (length bytes.now)) }
        ensures cause { HasCause self.old.faults self.new.faults (IsErr result) }
        ensures bytes { IfSome (Some (shown self.new.held)) (IsBytes (length (shown self.new.held))) }
        ensures called { self.new ≡ called (write_event at bytes.now self.old) (is_err result) self.old }
        ensures goes { is_ok result ≡ write_goes bytes.now self.old }
    {
        let result = self.write_by_plan(at, bytes);
        bytes_are_known(self.medium.bytes());
        result
    }

    fn set_len(&mut self, len: u64) -> Result<(), OutError>
        ensures resized { OnOk result (Both (Some (shown self.old.held)) (Some (shown self.new.held)) (λ b c. c ≡ resized len b)) }
        ensures size { OnOk result (length (shown self.new.held) ≡ len) }
        ensures same_image { OnErr result (Some (shown self.new.held) ≡ Some (shown self.old.held)) }
        ensures same_size { OnErr result (length (shown self.new.held) ≡ length (shown self.old.held)) }
        ensures crash { Outcomes true (length self.old.held.events) (length self.new.held.events) (Since self.old.held)
            (Since self.new.held) (May self.old.held) (May self.new.held) (Relength len) }
        ensures cause { HasCause self.old.faults self.new.faults (IsErrOf result OutError.Failed) }
        ensures out_of_memory { IsErrOf result OutError.NoMemory → self.new.faults ≡ self.old.faults }
        ensures ok { OnOk result (self.new ≡ called (Some (Resized len)) false self.old) }
        ensures failed { IsErrOf result OutError.Failed → self.new ≡ called None true self.old }
        ensures no_memory { IsErrOf result OutError.NoMemory → self.new ≡ called None false self.old }
        ensures goes { IsErrOf result OutError.Failed ↔ IsTrue (not (length_goes len self.old)) }
        ensures longer { IsErrOf result OutError.NoMemory → length (shown self.old.held) < len }
    {
        self.resize_by_plan(len)
    }

    fn sync(&mut self) -> Result<(), Failed>
        ensures lasting { OnOk result (IsLasting true (Some (shown self.new.held)) (May self.new.held)) }
        ensures image { Some (shown self.new.held) ≡ Some (shown self.old.held) }
        ensures size { length (shown self.new.held) ≡ length (shown self.old.held) }
        ensures crash { Outcomes true (length self.old.held.events) (length self.new.held.events) (Since self.old.held)
            (Since self.new.held) (May self.old.held) (May self.new.held) Stays }
        ensures cause { HasCause self.old.faults self.new.faults (IsErr result) }
        ensures ok { OnOk result (self.new ≡ called (Some Synced) false self.old) }
        ensures failed { OnErr result (self.new ≡ called None true self.old) }
        ensures goes { is_ok result ≡ sync_goes self.old }
    {
        self.sync_by_plan()
    }

    ghost image_is_whole = { λ s. refl };

    ghost counts_now = { λ _ s t c le now. counts_now s.held c t le now };

    ghost only_now = { λ _ s c left. only_now s.held c left };

    ghost image_may_stay = { λ _ _. inl refl };
}

#[cfg(test)]
mod tests;
