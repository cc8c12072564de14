use crate::{Algorithm, Keyed, Keys};
use cipher_base::UnitCipher;

// The first and the last 8 bytes that the bytes i modulo 256 become under data unit 5, with the material 0 to
// 191. Computed by a program over the block ciphers of libgcrypt and of Python's cryptography.
static ENDS: [(&str, [u8; 8], [u8; 8]); 8] = [
    (
        "aes",
        [0xf8, 0x7c, 0xa2, 0xf2, 0x9b, 0x11, 0x7c, 0x1b],
        [0xca, 0xae, 0xf5, 0xe4, 0x57, 0xfe, 0xcc, 0x4b],
    ),
    (
        "serpent",
        [0x45, 0xd4, 0xfa, 0x81, 0x28, 0x25, 0xf1, 0x55],
        [0x45, 0x20, 0x43, 0x22, 0xf1, 0xdf, 0xf4, 0xf0],
    ),
    (
        "twofish",
        [0xf7, 0x24, 0x74, 0x73, 0x94, 0xc4, 0x12, 0x9f],
        [0x46, 0x33, 0xc2, 0x25, 0x49, 0xb9, 0xd4, 0xd4],
    ),
    (
        "aes-twofish",
        [0x0a, 0xb9, 0x0c, 0x76, 0xb3, 0x29, 0x4b, 0x0f],
        [0x49, 0xd6, 0x63, 0xc1, 0xfe, 0xbb, 0xbb, 0x52],
    ),
    (
        "aes-twofish-serpent",
        [0x90, 0x3d, 0x33, 0x13, 0xf4, 0xd1, 0xa0, 0xd7],
        [0x6f, 0xd4, 0x3c, 0x47, 0x3c, 0x40, 0x7a, 0xbc],
    ),
    (
        "serpent-aes",
        [0x2c, 0xcd, 0x70, 0x82, 0x77, 0x78, 0x21, 0xf7],
        [0xb0, 0x38, 0xea, 0xe1, 0xe6, 0xf0, 0x8b, 0x2c],
    ),
    (
        "serpent-twofish-aes",
        [0x1b, 0x4a, 0xa1, 0x7d, 0xcd, 0x59, 0xec, 0x5a],
        [0x9d, 0x56, 0xbe, 0x1a, 0x5e, 0x5b, 0xfc, 0x00],
    ),
    (
        "twofish-serpent",
        [0xd0, 0x4c, 0x89, 0xbe, 0x8d, 0x0e, 0x7c, 0x01],
        [0xeb, 0x25, 0x80, 0x12, 0x52, 0x25, 0xb2, 0xf0],
    ),
];

#[test]
fn units_are_those_of_other_programs_and_come_back(rt: HostRuntime) {
    let mut material = [0u8; 192];
    for i in 0..192 {
        material[i] = i as u8;
    }
    let mut plain = [0u8; 512];
    for i in 0..512 {
        plain[i] = (i % 256) as u8;
    }
    for (name, front, back) in ENDS.iter() {
        let Some(algorithm) = Algorithm::from_name(name) else {
            assert!(rt; false, "{name}");
            return;
        };
        let keyed = Keyed::new(&Keys {
            algorithm,
            material,
        });
        let mut unit = plain;
        keyed.encipher_units(5, &mut unit);
        assert!(rt; &unit[..8] == front.as_slice(), "{name}");
        assert!(rt; &unit[504..] == back.as_slice(), "{name}");
        keyed.decipher_units(5, &mut unit);
        assert!(rt; unit == plain, "{name}");
    }
}

#[test]
fn a_header_body_comes_back(rt: HostRuntime) {
    for i in 0..8 {
        let keyed = Keyed::new(&Keys {
            algorithm: Algorithm::at(i),
            material: [i; 192],
        });
        let mut body = [7u8; 448];
        keyed.header(&mut body);
        assert!(rt; body != [7u8; 448], "{i}");
        keyed.unheader(&mut body);
        assert!(rt; body == [7u8; 448], "{i}");
    }
}
