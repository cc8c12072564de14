//! What an option asks for, by its data. The data is taken whole, in bounded memory whatever its length.
ghost use Rattle.std.specs.Prelude.{◌≡◌, ◌≤◌, Err, IfErr, IfOk};
ghost use Rattle.nbd_hand.specs.Laws.Parts.{after_length, after_name, info_asked};
ghost use Rattle.nbd_hand.specs.Laws.Taken.{Stops, Takes};
ghost use Rattle.nbd_hand.specs.Options.{asked};
ghost use Rattle.vc_base.specs.Faults.{HasCause};

use crate::input::{Stop, skip, take};
use crate::option::{GO, INFO};
use byteorder::{BigEndian, ByteOrder};
use vc_outside::Source;

// What the data of an option asks for.
#[derive(Clone, Copy, Debug, PartialEq, Eq)]
pub(crate) enum Asked {
    // The default export, or there is no data.
    Default,
    // Another export.
    Named,
    // The data isn't of the option's form.
    Malformed,
}

// Takes the data of an option, of `n` bytes.
pub(crate) fn take_asked<I: Source>(source: &mut I, number: u32, n: u32) -> Result<Asked, Stop>
    ensures asked { IfOk result (λ what. Takes (I.left source.old) (I.left source.new) n (λ xs. asked number xs ≡ what)) }
    ensures stopped { IfErr result (λ stop. Stops (I.left source.old) (I.left source.new) n stop) }
    ensures cause { HasCause (I.faults source.old) (I.faults source.new) (result ≡ Err Stop.Failed) }
{
    if number == INFO || number == GO {
        return take_info(source, n);
    }
    if let Err(stop) = skip(source, n) {
        return Err(stop);
    }
    if n == 0 {
        return Ok(Asked::Default);
    }
    Ok(Asked::Malformed)
}

// Takes the data of option 6 or 7: first the length of the name.
fn take_info<I: Source>(source: &mut I, n: u32) -> Result<Asked, Stop>
    ensures asked { IfOk result (λ what. Takes (I.left source.old) (I.left source.new) n (λ xs. info_asked xs ≡ what)) }
    ensures stopped { IfErr result (λ stop. Stops (I.left source.old) (I.left source.new) n stop) }
    ensures cause { HasCause (I.faults source.old) (I.faults source.new) (result ≡ Err Stop.Failed) }
{
    if n < 6 {
        return take_malformed(source, n);
    }
    let mut bytes = [0u8; 4];
    if let Err(stop) = take(source, &mut bytes) {
        return Err(stop);
    }
    take_name(source, BigEndian::read_u32(&bytes), n - 4)
}

// Takes data that isn't of the option's form.
fn take_malformed<I: Source>(source: &mut I, n: u32) -> Result<Asked, Stop>
    ensures asked { IfOk result (λ what. Takes (I.left source.old) (I.left source.new) n (λ _. what ≡ Asked.Malformed)) }
    ensures stopped { IfErr result (λ stop. Stops (I.left source.old) (I.left source.new) n stop) }
    ensures cause { HasCause (I.faults source.old) (I.faults source.new) (result ≡ Err Stop.Failed) }
{
    match skip(source, n) {
        Ok(()) => Ok(Asked::Malformed),
        Err(stop) => Err(stop),
    }
}

// Takes the name, of `name` bytes, and what follows it, `n` bytes in all.
fn take_name<I: Source>(source: &mut I, name: u32, n: u32) -> Result<Asked, Stop>
    requires { 2 ≤ n }
    ensures asked { IfOk result (λ what. Takes (I.left source.old) (I.left source.new) n (λ xs. after_length name xs ≡ what)) }
    ensures stopped { IfErr result (λ stop. Stops (I.left source.old) (I.left source.new) n stop) }
    ensures cause { HasCause (I.faults source.old) (I.faults source.new) (result ≡ Err Stop.Failed) }
{
    if name > n - 2 {
        return take_malformed(source, n);
    }
    if let Err(stop) = skip(source, name) {
        return Err(stop);
    }
    take_requests(source, name, n - name)
}

// Takes the count of requests and the requests, `n` bytes in all, after a name of `name` bytes. What they ask for isn't
// looked at.
fn take_requests<I: Source>(source: &mut I, name: u32, n: u32) -> Result<Asked, Stop>
    requires { 2 ≤ n }
    ensures asked { IfOk result (λ what. Takes (I.left source.old) (I.left source.new) n (λ xs. after_name name xs ≡ what)) }
    ensures stopped { IfErr result (λ stop. Stops (I.left source.old) (I.left source.new) n stop) }
    ensures cause { HasCause (I.faults source.old) (I.faults source.new) (result ≡ Err Stop.Failed) }
{
    let mut bytes = [0u8; 2];
    if let Err(stop) = take(source, &mut bytes) {
        return Err(stop);
    }
    if let Err(stop) = skip(source, n - 2) {
        return Err(stop);
    }
    let count = u32::from(BigEndian::read_u16(&bytes));
    if n - 2 != 2 * count {
        return Ok(Asked::Malformed);
    }
    if name == 0 {
        return Ok(Asked::Default);
    }
    Ok(Asked::Named)
}
