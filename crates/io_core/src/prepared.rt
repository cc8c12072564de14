//! A write that is prepared for admission, and then pending.
ghost use Rattle.std.specs.Prelude.{◌≡◌, ◌+◌, ◌-◌, ◌*◌, ◌/◌, ◌%◌, ◌^◌, ◌<◌, ◌≤◌, length, All, IfOk};
ghost use Rattle.io_core.specs.Fragments.{fragments_of, IsWaiting};

use crate::part::PartState;
use std::alloc::Global;

/// Out of memory.
#[derive(Clone, Copy, Debug, PartialEq, Eq)]
pub struct NoMemory;

/// A write of request `number` of `caller`, from the sector `first` on, with room for the states of its
/// fragments: it is prepared for admission, and then pending. It is made before the core is asked, so that
/// admission takes no memory.
#[derive(Drop)]
pub struct Prepared {
    pub caller: u64,
    pub number: u64,
    pub first: u64,
    pub bytes: Vec<u8>,
    pub parts: Vec<PartState>,
    ghost some: { 0 < length bytes.items },
    ghost whole: { length bytes.items % 512 ≡ 0 },
    ghost small: { length bytes.items ≤ 2 ^ 25 },
    ghost within: { first ≤ 2 ^ 55 - 65536 },
    ghost counted: { length parts.items ≡ fragments_of bytes.items },
}

impl Prepared {
    /// A write of this data, with all its fragments waiting.
    pub fn new(
        alloc: Global,
        caller: u64,
        number: u64,
        first: u64,
        bytes: Vec<u8>,
    ) -> Result<Prepared, NoMemory>
        requires some { 0 < length bytes.items }
        requires whole { length bytes.items % 512 ≡ 0 }
        requires small { length bytes.items ≤ 2 ^ 25 }
        requires within { first ≤ 2 ^ 55 - 65536 }
        ensures { IfOk result (λ w. (w.caller ≡ caller) × (w.number ≡ number) × (w.first ≡ first)
            × (w.bytes ≡ bytes) × All IsWaiting w.parts.items) }
    {
        let fragments = (bytes.len() / 512).div_ceil(512);
        let Ok(parts) = vec![in alloc; PartState::Waiting; fragments] else {
            return Err(NoMemory);
        };
        Ok(Prepared {
            caller,
            number,
            first,
            bytes,
            parts,
        })
    }
}
