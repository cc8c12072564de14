//! A source over a reader, such as the standard input.
ghost use Rattle.std.specs.Prelude.{◌≡◌, ◌≤◌, None, length, IfOk, OnOk, IsErr};
ghost use Rattle.vc_base.specs.Faults.{HasCause};

use std::io::{ErrorKind, Read};
use vc_outside::{Failed, Source};

/// A source over any reader. Contracts know nothing of what is left in it.
#[derive(Drop)]
pub struct StreamSource<I: Read> {
    reader: I,
    faults: u64,
}

impl<I: Read> StreamSource<I> {
    /// A source over this reader.
    pub fn new(reader: I) -> StreamSource<I>
        ensures { ⟦<StreamSource<I> as Source>⟧.faults result ≡ 0 }
    {
        StreamSource { reader, faults: 0 }
    }
}

impl<I: Read> Source for StreamSource<I> {
    ghost left = { λ _. None };

    ghost faults = { λ s. s.faults };

    fn faults(&self) -> u64 {
        self.faults
    }

    /// Gives what one call of the reader gives, which may be fewer bytes than there will be.
    fn read(&mut self, buf: &mut [u8]) -> Result<usize, Failed>
        ensures within { IfOk result (λ n. n ≤ length buf.old) }
        ensures cause { HasCause self.old.faults self.new.faults (IsErr result) }
        ensures no_fault { OnOk result (self.new.faults ≡ self.old.faults) }
    {
        // A call that a signal interrupted is made again.
        'tries: for _ in 0..u64::MAX {
            match self.reader.read(buf) {
                Ok(given) => return Ok(given),
                Err(error) if error.kind() == ErrorKind::Interrupted => {}
                Err(_) => break 'tries,
            }
        }
        self.faults = self.faults.saturating_add(1);
        Err(Failed)
    }
}
