//! One slot's header under derived keys.
ghost use Rattle.std.specs.Prelude.{◌≡◌, ◌≤◌, ◌↔◌, ◌<◌, IsSome, IfSome, IsTrue, IsNone, Option, None, find, option_map};
ghost use Rattle.algorithm_names.specs.declared.algorithm.Algorithm.{Algorithm};
ghost use Rattle.algorithm_names.specs.Algorithms.{all_algorithms};
ghost use Rattle.vc_header.specs.Header.{fields_of, Valid};
ghost use Rattle.vc_header.specs.Laws.Tests.{is_valid};
ghost use Rattle.header_seal.specs.Sealed.{plain_under};

use algorithm_names::Algorithm;
use header_seal::unseal;
use vc_header::{BODY, Fields, HEADER, HeaderView, MATERIAL, read_plain, validity_is_decided};
use vc_layout::Slot;

/// The number of algorithms.
const ALGORITHMS: u8 = 8;

/// The least algorithm under which a slot's header is valid with these derived keys, with its fields, in a
/// container of `len` bytes. None if there is none.
pub fn try_slot(
    derived: &[u8; MATERIAL],
    header: &[u8; HEADER],
    slot: Slot,
    len: u64,
) -> Option<(Algorithm, Fields)>
    requires { 262656 ≤ len }
    ensures least { option_map (λ x. x.0) result
        ≡ find (λ a. is_valid (plain_under a derived.now header.now) slot len) all_algorithms }
    ensures valid { IfSome result (λ x. Valid (plain_under x.0 derived.now header.now) slot len) }
    ensures fields { IfSome result (λ x. x.1 ≡ fields_of (plain_under x.0 derived.now header.now)) }
{
    for i in 0..ALGORITHMS {
        let algorithm = Algorithm::at(i);
        match try_algorithm(algorithm, derived, header, slot, len) {
            Some(fields) => return Some((algorithm, fields)),
            None => {}
        }
    }
    None
}

// The fields of the header, if it is valid under this algorithm.
fn try_algorithm(
    algorithm: Algorithm,
    derived: &[u8; MATERIAL],
    header: &[u8; HEADER],
    slot: Slot,
    len: u64,
) -> Option<Fields>
    requires { 262656 ≤ len }
    ensures decided { IsSome result ↔ IsTrue (is_valid (plain_under algorithm derived.now header.now) slot len) }
    ensures valid { IfSome result (λ _. Valid (plain_under algorithm derived.now header.now) slot len) }
    ensures fields { IfSome result (λ f. f ≡ fields_of (plain_under algorithm derived.now header.now)) }
{
    validity_is_decided();
    read_plain(&plain(algorithm, derived, header), slot, len)
}

// The header's body, deciphered.
fn plain(algorithm: Algorithm, derived: &[u8; MATERIAL], header: &[u8; HEADER]) -> [u8; BODY]
    ensures { result ≡ plain_under algorithm derived.now header.now }
{
    unseal(algorithm, derived, HeaderView::new(header).body())
}
