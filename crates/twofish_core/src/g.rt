//! The function g of a key (Twofish, 4.3 and 4.3.3), and what it needs of the key.
//!
//! g is h under the words S_3 to S_0, which the key alone gives. So what a byte of a word adds to g
//! depends on the byte, on its place and on the key, and it is kept in a table for each place.
ghost use Rattle.std.specs.Prelude.{◌≡◌};
ghost use Rattle.vc_base.specs.Bytes.{from_bytes};
ghost use Rattle.twofish_core.specs.Twofish.{row_times, rs_times, key_words, g_under};
ghost use Rattle.twofish_core.specs.Laws.Columns.{AreTables};

use crate::h::{from_byte_0, from_byte_1, from_byte_2, from_byte_3};
use cipher_base::gf8_mul;

// The rows of the matrix RS.
static RS: [[u8; 8]; 4] = [
    [0x01, 0xa4, 0x55, 0x87, 0x5a, 0x58, 0xdb, 0x9e],
    [0xa4, 0x56, 0x82, 0xf3, 0x1e, 0xc6, 0x68, 0xe5],
    [0x02, 0xa1, 0xfc, 0xc1, 0x47, 0xae, 0x3d, 0x19],
    [0xa4, 0x55, 0x87, 0x5a, 0x58, 0xdb, 0x9e, 0x03],
];

/// What g needs of a key.
#[derive(Clone, Copy)]
pub struct Boxes {
    // S_0 to S_3. Once the tables are filled, only contracts speak of them.
    pub words: [u32; 4],
    // For each byte of a word, the lowest first, what its 256 values add to g.
    table_0: [u32; 256],
    table_1: [u32; 256],
    table_2: [u32; 256],
    table_3: [u32; 256],
    ghost are_tables: { AreTables words table_0 table_1 table_2 table_3 },
}

impl Boxes {
    /// What g needs of this key.
    pub fn new(key: &[u8; 32]) -> Boxes
        ensures { result.words ≡ key_words key.now }
    {
        Boxes::of_words(words_of_key(key))
    }

    // What g needs under S_0 to S_3.
    fn of_words(words: [u32; 4]) -> Boxes
        ensures { result.words ≡ words }
    {
        let [s0, s1, s2, s3] = words;
        let l = [s3, s2, s1, s0];
        let mut table_0 = [0; 256];
        let mut table_1 = [0; 256];
        let mut table_2 = [0; 256];
        let mut table_3 = [0; 256];
        for b in 0..256 {
            table_0[b] = from_byte_0(b as u8, l);
            table_1[b] = from_byte_1(b as u8, l);
            table_2[b] = from_byte_2(b as u8, l);
            table_3[b] = from_byte_3(b as u8, l);
        }
        Boxes {
            words,
            table_0,
            table_1,
            table_2,
            table_3,
        }
    }

    /// The function g of a word.
    #[inline(always)]
    pub fn g(&self, x: u32) -> u32
        ensures { result ≡ g_under self.now.words x }
    {
        let [x0, x1, x2, x3] = x.to_le_bytes();
        let low = self.table_0[x0 as usize] ^ self.table_1[x1 as usize];
        let high = self.table_2[x2 as usize] ^ self.table_3[x3 as usize];
        low ^ high
    }
}

// S_0 to S_3 of a key.
fn words_of_key(key: &[u8; 32]) -> [u32; 4]
    ensures { result ≡ key_words key.now }
{
    let (eights, _) = key.as_chunks::<8>();
    [
        key_word(eights[0]),
        key_word(eights[1]),
        key_word(eights[2]),
        key_word(eights[3]),
    ]
}

// RS times a column of eight bytes, as a word.
fn key_word(x: [u8; 8]) -> u32
    ensures { result ≡ from_bytes (rs_times x) }
{
    u32::from_le_bytes([
        row_times(&RS[0], x),
        row_times(&RS[1], x),
        row_times(&RS[2], x),
        row_times(&RS[3], x),
    ])
}

// A row times a column of eight bytes.
fn row_times(row: &[u8; 8], x: [u8; 8]) -> u8
    ensures { result ≡ row_times 0x14d row.now x }
{
    let mut sum = 0;
    for i in (0..8).rev() {
        sum ^= gf8_mul(row[i], x[i], 0x14d);
    }
    sum
}
