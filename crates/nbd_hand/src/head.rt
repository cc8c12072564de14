//! The head of an option.
ghost use Rattle.std.specs.Prelude.{◌≡◌, ◌++◌, ℕ, Bool, List, Err, IfErr, IfOk};
ghost use Rattle.nbd_hand.specs.Laws.Onward.{NoOption};
ghost use Rattle.nbd_hand.specs.Laws.Taken.{Stops, Takes};
ghost use Rattle.nbd_hand.specs.Options.{after_head, step};
ghost use Rattle.nbd_hand.specs.Wire.{field};
ghost use Rattle.vc_base.specs.Faults.{HasCause};

use crate::end::{HandEnd, Refusal};
use crate::input::{Stop, end_of, take};
use byteorder::{BigEndian, ByteOrder};
use vc_outside::Source;

// IHAVEOPT.
const MAGIC: u64 = 0x4948_4156_454f_5054;

// The number of an option, and the bytes of its data.
#[derive(Clone, Copy)]
pub(crate) struct Head {
    pub(crate) number: u32,
    pub(crate) length: u32,
}

// Takes the head of the next option. Its magic counts as soon as it is there.
pub(crate) fn take_head<I: Source>(source: &mut I) -> Result<Head, HandEnd>
    ensures head { IfOk result (λ h. Takes (I.left source.old) (I.left source.new) 16
        (λ xs. (size : ℕ) (zeros : Bool) (rest : List ℕ) → step size zeros (xs ++ rest) ≡ after_head size zeros h.number h.length rest)) }
    ensures none { IfErr result (λ how. NoOption (I.left source.old) (I.left source.new) how) }
    ensures not_sink { IfErr result (λ how. ¬ (how ≡ HandEnd.WriteFault)) }
    ensures cause { HasCause (I.faults source.old) (I.faults source.new) (result ≡ Err HandEnd.ReadFault) }
{
    let mut magic = [0u8; 8];
    if let Err(stop) = take(source, &mut magic) {
        return Err(end_of(stop));
    }
    if BigEndian::read_u64(&magic) != MAGIC {
        return Err(HandEnd::Refused(Refusal::Magic(magic)));
    }
    match take_fields(source) {
        Ok(head) => Ok(head),
        Err(stop) => Err(end_of(stop)),
    }
}

// Takes what follows the magic.
fn take_fields<I: Source>(source: &mut I) -> Result<Head, Stop>
    ensures fields { IfOk result (λ h. Takes (I.left source.old) (I.left source.new) 8
        (λ xs. (field 0 4 xs ≡ h.number) × (field 4 4 xs ≡ h.length))) }
    ensures stopped { IfErr result (λ stop. Stops (I.left source.old) (I.left source.new) 8 stop) }
    ensures cause { HasCause (I.faults source.old) (I.faults source.new) (result ≡ Err Stop.Failed) }
{
    let mut fields = [0u8; 8];
    if let Err(stop) = take(source, &mut fields) {
        return Err(stop);
    }
    Ok(Head {
        number: BigEndian::read_u32(&fields),
        length: BigEndian::read_u32(&fields[4..]),
    })
}
