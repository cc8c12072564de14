//! A store and a sink that fail now and then, and whose contents are unknown.
ghost use Rattle.std.specs.Prelude.{◌≡◌, ◌≤◌, None, ⊤, false, length, true};
ghost use Rattle.std.proofs.lemmas.Bool.{false≢true};
ghost use Rattle.vc_base.specs.Faults.{Rose};

use std::alloc::Global;
use vc_outside::{Failed, OutError, Sink, Store};

/// How a store fails at one of its reads.
#[derive(Clone, Copy, Debug)]
pub enum Miss {
    /// The read fails, and the next ones do not.
    Fails,
    /// The read succeeds, and a fault is counted all the same.
    Recovers,
}

/// The miss that a table calls so.
pub fn miss_named(name: &str) -> Miss {
    if name == "fails" {
        Miss::Fails
    } else {
        Miss::Recovers
    }
}

/// A store whose read with the number `at` is missed, and to which nothing can be written.
#[derive(Drop)]
pub struct MissingStore {
    bytes: Vec<u8>,
    at: u64,
    miss: Miss,
    pub reads: u64,
    pub faults: u64,
}

impl MissingStore {
    /// A store with these bytes.
    pub fn new(bytes: Vec<u8>, at: u64, miss: Miss) -> MissingStore {
        MissingStore {
            bytes,
            at,
            miss,
            reads: 0,
            faults: 0,
        }
    }

    // Counts a read, and a fault if it is the missed one. Whether the read fails.
    fn misses(&mut self) -> bool
        ensures bytes { self.new.bytes ≡ self.old.bytes }
        ensures later { self.old.faults ≤ self.new.faults }
        ensures rose { result ≡ true → Rose self.old.faults self.new.faults }
    {
        let is_missed = self.reads == self.at;
        self.reads = self.reads.saturating_add(1);
        if is_missed {
            self.faults = self.faults.saturating_add(1);
        }
        is_missed && matches!(self.miss, Miss::Fails)
    }
}

impl Store for MissingStore {
    ghost image = { λ _. None };

    ghost size = { λ s. length s.bytes.items };

    ghost faults = { λ s. s.faults };

    ghost tells = { false };

    ghost may_leave = { λ _ _. ⊤ };

    ghost moment = { λ _. 0 };

    ghost left_since = { λ _ _ _. ⊤ };

    fn len(&self) -> u64 {
        self.bytes.len() as u64
    }

    fn faults(&self) -> u64 {
        self.faults
    }

    fn read_at(&mut self, at: u64, out: &mut [u8]) -> Result<(), Failed> {
        if self.misses() {
            out.fill(0xee);
            return Err(Failed);
        }
        let from = at as usize;
        out.copy_from_slice(&self.bytes[from..from + out.len()]);
        Ok(())
    }

    fn write_at(&mut self, _at: u64, _bytes: &[u8]) -> Result<(), Failed> {
        self.faults = self.faults.saturating_add(1);
        Err(Failed)
    }

    fn set_len(&mut self, _len: u64) -> Result<(), OutError> {
        self.faults = self.faults.saturating_add(1);
        Err(OutError::Failed)
    }

    fn sync(&mut self) -> Result<(), Failed> {
        self.faults = self.faults.saturating_add(1);
        Err(Failed)
    }

    ghost image_is_whole = { λ _. tt };

    ghost counts_now = { λ _ _ _ _ _ _. tt };

    ghost only_now = { λ _ _ _ _. tt };

    ghost image_may_stay = { λ _ modelled. absurd (false≢true modelled) };
}

/// How a sink takes its pieces.
#[derive(Clone, Copy, Debug)]
pub enum Way {
    /// At most so many bytes of a piece.
    Pieces(usize),
    /// So many bytes in all, and nothing from then on.
    Full(usize),
    /// The write with this number fails.
    Fails(u64),
    /// The same, and each other write takes at most so many bytes of its piece.
    PiecesFail(usize, u64),
    /// The write with this number is out of memory.
    NoMemory(u64),
    /// All, and a fault is counted at each write.
    Recovers,
    /// The same up to the write with this number, which is out of memory.
    RecoversThenNoMemory(u64),
}

/// The way that a table calls so, with its number.
pub fn way_named(name: &str, n: u64) -> Way {
    match name {
        "pieces" => Way::Pieces(n as usize),
        "full" => Way::Full(n as usize),
        "fails" => Way::Fails(n),
        "memory" => Way::NoMemory(n),
        "recovers, memory" => Way::RecoversThenNoMemory(n),
        _ => Way::Recovers,
    }
}

/// A sink that takes its pieces in one of these ways.
#[derive(Drop)]
pub struct SlowSink {
    way: Way,
    pub taken: Vec<u8>,
    writes: u64,
    pub faults: u64,
}

impl SlowSink {
    /// A sink that has taken nothing.
    pub fn new(alloc: Global, way: Way) -> SlowSink {
        SlowSink {
            way,
            taken: Vec::new(alloc),
            writes: 0,
            faults: 0,
        }
    }

    // Why the write is refused.
    fn refusal(&self) -> Option<OutError> {
        match self.way {
            Way::Fails(at) | Way::PiecesFail(_, at) if at == self.writes => Some(OutError::Failed),
            Way::NoMemory(at) | Way::RecoversThenNoMemory(at) if at == self.writes => {
                Some(OutError::NoMemory)
            }
            _ => None,
        }
    }

    // How many bytes of a piece of this length are taken.
    fn room(&self, length: usize) -> usize
        ensures { result ≤ length }
    {
        match self.way {
            Way::Pieces(most) | Way::PiecesFail(most, _) => most.min(length),
            Way::Full(all) => all.saturating_sub(self.taken.len()).min(length),
            Way::Fails(_) | Way::NoMemory(_) | Way::Recovers | Way::RecoversThenNoMemory(_) =>
                length,
        }
    }

    // Whether a fault is counted at each write.
    fn recovers(&self) -> bool {
        matches!(self.way, Way::Recovers | Way::RecoversThenNoMemory(_))
    }

    fn count_fault(&mut self)
        ensures rose { Rose self.old.faults self.new.faults }
        ensures later { self.old.faults ≤ self.new.faults }
    {
        self.faults = self.faults.saturating_add(1);
    }
}

impl Sink for SlowSink {
    ghost contents = { λ _. None };

    ghost faults = { λ s. s.faults };

    fn faults(&self) -> u64 {
        self.faults
    }

    fn write(&mut self, piece: &[u8]) -> Result<usize, OutError> {
        let refusal = self.refusal();
        let room = self.room(piece.len());
        self.writes = self.writes.saturating_add(1);
        match refusal {
            Some(OutError::Failed) => {
                self.count_fault();
                Err(OutError::Failed)
            }
            Some(OutError::NoMemory) => Err(OutError::NoMemory),
            None => match self.taken.extend_from_slice(&piece[..room]) {
                Ok(()) => {
                    if room == 0 || self.recovers() {
                        self.count_fault();
                    }
                    Ok(room)
                }
                Err(_) => Err(OutError::NoMemory),
            },
        }
    }
}
