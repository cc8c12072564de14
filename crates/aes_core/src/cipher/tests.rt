use super::*;

// The values are those of the standard's example and of another program, as the rows say.
#[test]
fn examples_are_met_in_both_directions(rt: HostRuntime) {
    let cases: [(&str, [u8; 32], [u8; 16], [u8; 16]); 2] = [
        (
            "FIPS 197, C.3",
            [
                0x00, 0x01, 0x02, 0x03, 0x04, 0x05, 0x06, 0x07, 0x08, 0x09, 0x0a, 0x0b, 0x0c, 0x0d,
                0x0e, 0x0f, 0x10, 0x11, 0x12, 0x13, 0x14, 0x15, 0x16, 0x17, 0x18, 0x19, 0x1a, 0x1b,
                0x1c, 0x1d, 0x1e, 0x1f,
            ],
            [
                0x00, 0x11, 0x22, 0x33, 0x44, 0x55, 0x66, 0x77, 0x88, 0x99, 0xaa, 0xbb, 0xcc, 0xdd,
                0xee, 0xff,
            ],
            [
                0x8e, 0xa2, 0xb7, 0xca, 0x51, 0x67, 0x45, 0xbf, 0xea, 0xfc, 0x49, 0x90, 0x4b, 0x49,
                0x60, 0x89,
            ],
        ),
        (
            "Python's cryptography",
            [
                0xff, 0xfe, 0xfd, 0xfc, 0xfb, 0xfa, 0xf9, 0xf8, 0xf7, 0xf6, 0xf5, 0xf4, 0xf3, 0xf2,
                0xf1, 0xf0, 0xef, 0xee, 0xed, 0xec, 0xeb, 0xea, 0xe9, 0xe8, 0xe7, 0xe6, 0xe5, 0xe4,
                0xe3, 0xe2, 0xe1, 0xe0,
            ],
            [
                0x03, 0x14, 0x25, 0x36, 0x47, 0x58, 0x69, 0x7a, 0x8b, 0x9c, 0xad, 0xbe, 0xcf, 0xe0,
                0xf1, 0x02,
            ],
            [
                0xa1, 0xb9, 0xc8, 0x61, 0x8e, 0x2b, 0x15, 0x3c, 0x17, 0xf5, 0xcb, 0xa6, 0xdc, 0xce,
                0x03, 0x2c,
            ],
        ),
    ];
    for (source, key, plain, enciphered) in cases {
        let cipher = Aes256::new(&key);
        let mut block = plain;
        cipher.encipher(&mut block);
        assert_eq!(rt; block, enciphered, "{source}");
        cipher.decipher(&mut block);
        assert_eq!(rt; block, plain, "{source}");
    }
}

// A list is treated in groups of eight, a block alone as the first of its group.
#[test]
fn lists_of_each_length_are_treated_block_by_block(rt: HostRuntime) {
    let cipher = Aes256::new(&[0x3c; 32]);
    let mut plain = [0; 528];
    for i in 0..528 {
        plain[i] = (i % 251) as u8;
    }
    for count in [0, 1, 7, 8, 9, 31, 33] {
        let mut forth = plain;
        let mut back = plain;
        cipher.encipher_blocks(&mut forth[..16 * count]);
        cipher.decipher_blocks(&mut back[..16 * count]);
        let mut forth_by_block = plain;
        let mut back_by_block = plain;
        for i in 0..count {
            let mut block = [0; 16];
            block.copy_from_slice(&plain[16 * i..16 * i + 16]);
            let mut undone = block;
            cipher.encipher(&mut block);
            cipher.decipher(&mut undone);
            forth_by_block[16 * i..16 * i + 16].copy_from_slice(&block);
            back_by_block[16 * i..16 * i + 16].copy_from_slice(&undone);
        }
        assert!(rt; forth == forth_by_block, "{count} enciphered");
        assert!(rt; back == back_by_block, "{count} deciphered");
    }
}
