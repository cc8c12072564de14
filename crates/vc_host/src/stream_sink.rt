//! A sink over a writer, such as the standard output.
ghost use Rattle.std.specs.Prelude.{◌≡◌, ◌≤◌, None, length, IfOk, OnErr, OnOk, IsErr, IsErrOf};
ghost use Rattle.vc_base.specs.Faults.{HasCause};

use std::io::{ErrorKind, Write};
use vc_outside::{OutError, Sink};

/// A sink over any writer. Contracts know nothing of what it holds.
#[derive(Drop)]
pub struct StreamSink<W: Write> {
    writer: W,
    faults: u64,
}

impl<W: Write> StreamSink<W> {
    /// A sink over this writer.
    pub fn new(writer: W) -> StreamSink<W>
        ensures { ⟦<StreamSink<W> as Sink>⟧.faults result ≡ 0 }
    {
        StreamSink { writer, faults: 0 }
    }
}

impl<W: Write> Sink for StreamSink<W> {
    ghost contents = { λ _. None };

    ghost faults = { λ s. s.faults };

    fn faults(&self) -> u64 {
        self.faults
    }

    /// Each error is a failed call: nothing here runs out of memory.
    fn write(&mut self, piece: &[u8]) -> Result<usize, OutError>
        ensures within { IfOk result (λ n. n ≤ length piece.now) }
        ensures stuck { IfOk result (λ n. n ≡ 0 → length piece.now ≡ 0) }
        ensures cause { HasCause self.old.faults self.new.faults (IsErr result) }
        ensures failed { OnErr result (IsErrOf result OutError.Failed) }
        ensures no_fault { OnOk result (self.new.faults ≡ self.old.faults) }
    {
        // A call that a signal interrupted is made again.
        'tries: for _ in 0..u64::MAX {
            match self.writer.write(piece) {
                Ok(0) if !piece.is_empty() => break 'tries,
                Ok(taken) => return Ok(taken),
                Err(error) if error.kind() == ErrorKind::Interrupted => {}
                Err(_) => break 'tries,
            }
        }
        self.faults = self.faults.saturating_add(1);
        Err(OutError::Failed)
    }
}
