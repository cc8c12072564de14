//! Headers that were made elsewhere.
use super::*;
use vc_header::{read_plain, write_plain};
use vc_layout::Slot;

// A hidden volume of 262,144 bytes at the end of a container of 1 MiB, with the master keys 0 to 191.
fn fields() -> Fields {
    let mut material = [0u8; MATERIAL];
    for i in 0..192 {
        material[i] = i as u8;
    }
    Fields {
        hidden_size: 262_144,
        volume_size: 262_144,
        start: 655_360,
        encrypted: 262_144,
        flags: 0,
        sector: 512,
        material,
    }
}

// The first and the last 8 bytes of the body, by `header` of `scripts/independent_container.py`, with the
// password `correct horse`, PIM 1 and the salt 0 to 63.
static ENDS: [(Prf, Algorithm, [u8; 8], [u8; 8]); 2] = [
    (
        Prf::Sha512,
        Algorithm::Aes,
        [0x1c, 0x17, 0xd3, 0xce, 0xda, 0x0b, 0xb7, 0x5b],
        [0x6a, 0xab, 0x42, 0x3d, 0x17, 0xfd, 0x24, 0x4b],
    ),
    (
        Prf::Sha256,
        Algorithm::AesTwofishSerpent,
        [0x8e, 0xdc, 0x48, 0x9f, 0xc4, 0xe0, 0x9c, 0xe5],
        [0xe0, 0xde, 0x7d, 0x91, 0x4f, 0xe7, 0x6d, 0x74],
    ),
];

#[test]
fn sealed_bodies_are_those_of_another_program_and_open_again(rt: HostRuntime) {
    let password = Password::new(b"correct horse").expect(&rt, "a password");
    let mut salt = [0u8; 64];
    for i in 0..64 {
        salt[i] = i as u8;
    }
    for (prf, algorithm, front, back) in ENDS.iter() {
        let keys = derive(*prf, &password, 1, &salt);
        let body = seal(*algorithm, &keys, &fields());
        assert!(rt; &body[..8] == front.as_slice(), "{prf:?}");
        assert!(rt; &body[440..] == back.as_slice(), "{prf:?}");
        let plain = unseal(*algorithm, &keys, &body);
        assert!(rt; plain == write_plain(&fields()), "{prf:?}");
        assert!(rt;
            read_plain(&plain, Slot::Hidden, 1_048_576).is_some(),
            "{prf:?}"
        );
    }
}
