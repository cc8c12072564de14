//! Blocks that another program enciphered, and lists of every length up to four groups and a block.
use super::{SerpentKeys, serpent_blocks, serpent_box, serpent_unblocks};

// Round key i is the words i, 0, 0 and i times 2^24.
fn counting_keys() -> SerpentKeys {
    let mut k = [[0; 4]; 33];
    for i in 0..33u32 {
        k[i as usize] = [i, 0, 0, i << 24];
    }
    SerpentKeys { k }
}

// A program that looks the boxes up in their tables enciphered the bytes 0 to 143.
#[test]
fn agrees_with_a_program_over_tables(rt: HostRuntime) {
    let keys = counting_keys();
    let mut plain = [0; 144];
    for i in 0..144 {
        plain[i] = i as u8;
    }
    let mut blocks = plain;
    serpent_blocks(&keys, &mut blocks);
    let rows: [(&str, &[u8], [u8; 16]); 3] = [
        (
            "first of the group",
            &blocks[..16],
            [
                0x9f, 0x64, 0xce, 0xba, 0xd5, 0x3d, 0xf4, 0x58, 0xe3, 0x5e, 0xee, 0xd6, 0x0e, 0x1a,
                0x1a, 0x84,
            ],
        ),
        (
            "last of the group",
            &blocks[112..128],
            [
                0xfa, 0x7c, 0x1c, 0x11, 0xe0, 0xa1, 0x0f, 0xde, 0x7d, 0x38, 0x99, 0x33, 0xb4, 0xf3,
                0xfd, 0x05,
            ],
        ),
        (
            "after the group",
            &blocks[128..],
            [
                0x9d, 0xde, 0x15, 0x89, 0x7b, 0xd0, 0x39, 0x8a, 0xc1, 0x6a, 0x84, 0xd6, 0x1a, 0x87,
                0x9b, 0x34,
            ],
        ),
    ];
    for (name, block, want) in rows {
        assert!(rt; block == want.as_slice(), "{name}");
    }
    serpent_unblocks(&keys, &mut blocks);
    assert!(rt; blocks == plain);
}

// The same program made the words.
#[test]
fn boxes_agree_with_their_tables(rt: HostRuntime) {
    let words = [0xffff_0000, 0xff00_ff00, 0xf0f0_f0f0, 0xcccc_cccc];
    let want = [0x330c_f3c3, 0x3c30_03ff, 0xc03c_3fcc, 0xf00f_c33c];
    assert_eq!(rt; serpent_box(0, words), want);
    assert_eq!(rt; serpent_box(32, words), want);
    let want = [0xffff_fffb, 0x8000_000e, 0x8000_000f, 0x7];
    assert_eq!(rt; serpent_box(7, [1, 2, 4, 0x8000_0008]), want);
}

#[test]
fn lists_of_each_length_are_treated_block_by_block(rt: HostRuntime) {
    let keys = counting_keys();
    let mut plain = [0; 528];
    for i in 0..528 {
        plain[i] = (i % 251) as u8;
    }
    for count in [0, 1, 7, 8, 9, 31, 33] {
        let mut forth = plain;
        let mut back = plain;
        serpent_blocks(&keys, &mut forth[..16 * count]);
        serpent_unblocks(&keys, &mut back[..16 * count]);
        let mut forth_by_block = plain;
        let mut back_by_block = plain;
        for i in 0..count {
            serpent_blocks(&keys, &mut forth_by_block[16 * i..16 * i + 16]);
            serpent_unblocks(&keys, &mut back_by_block[16 * i..16 * i + 16]);
        }
        assert!(rt; forth == forth_by_block, "{count} enciphered");
        assert!(rt; back == back_by_block, "{count} deciphered");
    }
}
