//! Bytes of a source: as many as are asked for, or fewer if it ends or fails first.
ghost use Rattle.std.specs.Prelude.{◌≡◌, ◌≤◌, ◌<◌, length, take, IfSome, IsNone, IsSome, Some};
ghost use Rattle.nbd_session.specs.Taken.{end_of, Skips};
ghost use Rattle.vc_base.specs.Faults.{HasCause};
ghost use Rattle.vc_outside.specs.Told.{Shrinks};

use nbd_wire::End;
use vc_outside::Source;

// The bytes of the buffer for what is skipped.
const SCRATCH: usize = 65_536;

/// Why a source gave fewer bytes than it was asked for.
#[derive(Clone, Copy)]
pub enum Stop {
    Ended,
    Failed,
}

// How many bytes a source gave, and why no more.
#[derive(Clone, Copy)]
pub(crate) struct Taken {
    pub(crate) count: usize,
    pub(crate) stop: Option<Stop>,
}

// How a session ends if its source stops, between two requests or inside one.
pub(crate) fn end_of(stop: Stop, between: bool) -> End
    ensures { result ≡ end_of stop between }
{
    match stop {
        Stop::Ended => { if between { End::Done } else { End::Cut } }
        Stop::Failed => End::ReadFault,
    }
}

// Fills the start of the buffer with at least `least` bytes, and with more if the source gives them along.
pub(crate) fn fill<I: Source>(source: &mut I, buf: &mut [u8], least: usize) -> Taken
    requires { least ≤ length buf.old }
    ensures given { Shrinks (I.left source.old) (I.left source.new) (take result.count buf.new) }
    ensures within { result.count ≤ length buf.old }
    ensures enough { IsNone result.stop → least ≤ result.count }
    ensures ended { result.stop ≡ Some Stop.Ended → IfSome (I.left source.old) (λ xs. xs ≡ take result.count buf.new) }
    ensures short { IsSome result.stop → result.count < least }
    ensures cause { HasCause (I.faults source.old) (I.faults source.new) (result.stop ≡ Some Stop.Failed) }
{
    let mut count = 0;
    while count < least {
        let Ok(n) = source.read(&mut buf[count..]) else {
            return Taken {
                count,
                stop: Some(Stop::Failed),
            };
        };
        if n == 0 {
            return Taken {
                count,
                stop: Some(Stop::Ended),
            };
        }
        count += n;
    }
    Taken { count, stop: None }
}

// Takes `n` bytes that nobody wants. Whatever n is, it takes no memory.
pub(crate) fn skip<I: Source>(source: &mut I, n: u32) -> Option<Stop>
    ensures skipped { Skips (I.left source.old) (I.left source.new) n result }
    ensures cause { HasCause (I.faults source.old) (I.faults source.new) (result ≡ Some Stop.Failed) }
{
    let mut scratch = [0u8; SCRATCH];
    let mut left = n as usize;
    'parts: while left > 0 {
        let part = left.min(SCRATCH);
        let taken = fill(source, &mut scratch[..part], part);
        left -= taken.count;
        if taken.stop.is_some() {
            return taken.stop;
        }
    }
    None
}
