//! `format`, and what `info` and `cat` then say of the container.
ghost use Rattle.std.specs.Prelude.{◌≡◌};

use std::test::Fail;
use trial_lines::{CAT, FORMAT, INFO, Miss, MissingStore, SMALL_TEXT, column, number, run};
use vc_app::{Status, run_plain};
use vc_outside::{MemStore, Store, SureSink, SureStore};

// Whether these 16 bytes are there, the highest first.
fn has_block(bytes: &[u8], at: usize, block: u128) -> bool {
    match bytes.get(at..) {
        Some(rest) => rest.starts_with(&u128::to_be_bytes(block)),
        None => false,
    }
}

static MIB_TEXT: &str =
    "slot standard\nprf sha512\nalgorithm aes\nstart 131072\nsize 786432\nsector 512\n";

// Status, whether the text is printed, command line.
static MIB_ROWS: &str = "\
0;text;info|c1.vc|--password|correct horse|--pim|1
0;text;info|--kind=any|--pim=1|c1.vc|--password=correct horse
0;text;info|c1.vc|--kind|standard|--password|correct horse|--pim|1
3;;info|c1.vc|--password|wrong horse|--pim|1
3;;info|c1.vc|--password|correct horse|--pim|2
0;;cat|c1.vc|1536|0|--password|correct horse|--pim|1
6;;cat|c1.vc|1536|1|--password|correct horse|--pim|1";

#[test]
fn a_container_of_1_mib_is_made_and_opens(rt: HostRuntime) -> Result<(), Fail> {
    let alloc = rt.alloc();
    let disk = MemStore::new(
        alloc,
        Vec::new(alloc),
        Vec::new(alloc),
        None,
        4_096,
        16 << 20,
    )?;
    let line = "format|c1.vc|--size|1048576|--password|correct horse|--random|@|--pim|1";
    let (status, disk, out) = run(&rt, line, disk)?;
    assert_eq!(rt; status, Status::Done);
    assert_eq!(rt; out.bytes(), b"ok\n".as_slice());
    assert_eq!(rt; disk.len(), 1_048_576);
    // by Python: ChaCha20 and AES-XTS of its package cryptography, hashlib and zlib
    for (at, block) in [
        (0, 0x39fd_2b7d_d9c5_196a_8dbd_0377_b8dc_4a49),
        (64, 0x57b6_22bb_6aed_db22_ea1b_bf36_bc29_8583),
        (131_072, 0xaa98_3c05_5047_bdab_e811_4866_3363_efa4),
        (917_568, 0xaf48_7e98_e550_751d_ffd5_c932_37ba_506c),
        (1_048_560, 0x5bcd_ca8d_8ca2_07ba_40f4_c78e_ed64_a0a8),
    ] {
        assert!(rt; has_block(disk.bytes(), at, block), "at {at}");
    }
    for pick in 0..3 {
        let image = disk.after_crash(pick)?;
        assert!(rt; image.as_slice() == disk.bytes(), "crash {pick}");
    }
    let mut disk = disk;
    for row in MIB_ROWS.split('\n') {
        let (status, after, out) = run(&rt, column(row, 2), disk)?;
        assert_eq!(rt; u64::from(status.code()), number(row, 0), "{row}");
        let printed = if column(row, 1) == "text" {
            MIB_TEXT
        } else {
            ""
        };
        assert_eq!(rt; out.bytes(), printed.as_bytes(), "{row}");
        disk = after;
    }
    Ok(())
}

// Status, bytes written, command line.
static SMALLEST_ROWS: &str = "\
0;512;cat|c1.vc|0|1|--password|correct horse|--pim|1
0;0;cat|c1.vc|1|0|--password|correct horse|--pim|1
6;0;cat|c1.vc|1|1|--password|correct horse|--pim|1";

#[test]
fn a_longer_container_is_cut_to_the_smallest(rt: HostRuntime) -> Result<(), Fail> {
    let longer = SureStore::new(vec![in rt.alloc(); 0xee_u8; 300_000]?);
    let (status, disk, out) = run(&rt, FORMAT, longer)?;
    assert_eq!(rt; status, Status::Done);
    assert_eq!(rt; out.bytes(), b"ok\n".as_slice());
    let whole = disk.bytes();
    assert_eq!(rt; whole.len(), 262_656);
    // by Python, as above
    for (at, block) in [
        (64, 0x9033_8ee7_264a_6135_e49f_9e3f_3864_65bb),
        (131_072, 0xaa98_3c05_5047_bdab_e811_4866_3363_efa4),
        (131_648, 0xdcbf_cf99_ddc1_af88_3214_029a_e1f0_4319),
        (262_640, 0xd10c_af6f_3d46_6a24_5399_a0d4_7f0f_069c),
    ] {
        assert!(rt; has_block(whole, at, block), "at {at}");
    }
    for row in SMALLEST_ROWS.split('\n') {
        let disk = SureStore::new(Vec::from_slice(rt.alloc(), whole)?);
        let (status, after, out) = run(&rt, column(row, 2), disk)?;
        assert_eq!(rt; u64::from(status.code()), number(row, 0), "{row}");
        assert_eq!(rt; out.bytes().len() as u64, number(row, 1), "{row}");
        assert!(rt; after.bytes() == whole, "{row}");
    }
    Ok(())
}

// The first block of the volume, of which format enciphers nothing, under the keys of each algorithm: by
// ChaCha20 of Python's package cryptography and the XTS mode of libgcrypt.
#[test]
fn each_algorithm_opens_with_each_function(rt: HostRuntime) -> Result<(), Fail> {
    let alloc = rt.alloc();
    let algorithms = [
        ("aes", 0x7c26_8083_8db1_0993_178b_4a88_69e2_e865),
        ("serpent", 0xfa16_d596_cbae_f015_6629_122a_a59a_01cc),
        ("twofish", 0x62b5_36c8_1f37_1121_3c99_6642_da9a_6c0b),
        ("aes-twofish", 0x91aa_f2ec_2648_cdb3_d25a_e6f7_7512_f241),
        (
            "aes-twofish-serpent",
            0x0bff_c98d_7511_7ed7_e079_627e_3869_0285,
        ),
        ("serpent-aes", 0x48c4_bfab_dc6f_8cbe_e85f_24a9_f929_d713),
        (
            "serpent-twofish-aes",
            0x53e4_6468_8570_e531_e03f_a73f_ecc1_0107,
        ),
        (
            "twofish-serpent",
            0x7290_8335_d8eb_14b1_c6e5_ffce_807f_38fc_u128,
        ),
    ];
    for (algorithm, block) in algorithms {
        for prf in ["sha512", "sha256"] {
            let line = format!(in alloc; "{FORMAT}|--algorithm|{algorithm}|--prf|{prf}")?;
            let (status, disk, _out) = run(&rt, line.as_str(), SureStore::new(Vec::new(alloc)))?;
            assert_eq!(rt; status, Status::Done, "{algorithm} {prf}");
            let text = format!(in alloc;
                "slot standard\nprf {prf}\nalgorithm {algorithm}\nstart 131072\nsize 512\nsector 512\n"
            )?;
            let (status, disk, out) = run(&rt, INFO, disk)?;
            assert_eq!(rt; status, Status::Done, "{algorithm} {prf}");
            assert_eq!(rt; out.bytes(), text.as_bytes(), "{algorithm} {prf}");
            let (status, _disk, out) = run(&rt, CAT, disk)?;
            assert_eq!(rt; status, Status::Done, "{algorithm} {prf}");
            assert_eq!(rt; out.bytes().len(), 512, "{algorithm} {prf}");
            assert!(rt; has_block(out.bytes(), 0, block), "{algorithm} {prf}");
        }
    }
    Ok(())
}

// Status and command line. The commands near the end are those of `run_serve`; the last row is one empty argument.
static REFUSED: &str = "\
6;format|c1.vc|--size|0|--password|x|--random|@
6;format|c1.vc|--size|262655|--password|x|--random|@
6;format|c1.vc|--size|262657|--password|x|--random|@
6;format|c1.vc|--size|1099511628288|--password|x|--random|@
6;format|c1.vc|--size|18446744073709551615|--password|x|--random|@
5;info|c1.vc|--password|x
5;cat|c1.vc|0|1|--password|x
2;format|c1.vc|--size|262656|--password|x|--random|@|--pim|2147469
2;format|c1.vc|--size|262656|--password||--random|@
2;format|c1.vc|--size|262656|--password|x
2;info|c1.vc|--password|x|--pim|2147469
2;info|c1.vc|--password|
5;info|c1.vc|--password|x|--kind|hidden
5;info|c1.vc|--password|x|--backup
5;info|c1.vc|--password|x|--backup|--kind|standard
2;cat|c1.vc|0|1|--password|x|--pim|2147469
2;cat|c1.vc|0|1|--password|
5;cat|c1.vc|0|1|--password|x|--kind|hidden
5;cat|c1.vc|0|1|--password|x|--backup
2;cat
2;dog|c1.vc|0|1|--password|x
5;hide|c1.vc|--size|512|--password|x|--random|@
2;hide|c1.vc|--size|512|--password|x|--random|@|--sector|513
2;format|c1.vc|--size|262656|--password|x|--random|@|--sector|0
5;passwd|c1.vc|--password|x|--new|y|--random|@
5;restore|c1.vc|--password|x|--random|@
2;serve|c1.vc|--password|x
2;drill|7
2;";

// The store counts its reads, and takes no write. It has one byte less than the shortest container.
#[test]
fn what_is_refused_touches_nothing(rt: HostRuntime) -> Result<(), Fail> {
    let short = vec![in rt.alloc(); 0xee_u8; 262_655]?;
    for row in REFUSED.split('\n') {
        let disk = MissingStore::new(short.clone()?, 0, Miss::Fails);
        let (status, disk, out) = run(&rt, column(row, 1), disk)?;
        assert_eq!(rt; u64::from(status.code()), number(row, 0), "{row}");
        if let Status::Length(len) = status {
            assert_eq!(rt; len, 262_655, "{row}");
        }
        assert_eq!(rt; disk.reads, 0, "{row}");
        assert_eq!(rt; disk.faults, 0, "{row}");
        assert_eq!(rt; out.bytes().len(), 0, "{row}");
    }
    // no arguments at all
    let disk = MissingStore::new(short, 0, Miss::Fails);
    let (status, disk, _out) = run_plain(&rt, rt.alloc(), &[], disk, SureSink::new(rt.alloc()));
    assert_eq!(rt; status, Status::Usage);
    assert_eq!(rt; disk.reads, 0);
    Ok(())
}

// A container whose standard header is damaged, or that has none.
#[test]
fn zeros_have_no_header(rt: HostRuntime) -> Result<(), Fail> {
    let disk = SureStore::new(vec![in rt.alloc(); 0u8; 262_656]?);
    let (status, disk, out) = run(&rt, INFO, disk)?;
    assert_eq!(rt; status, Status::NoHeader);
    assert_eq!(rt; out.bytes().len(), 0);
    // and the smallest container is made of it
    let (status, disk, _out) = run(&rt, FORMAT, disk)?;
    assert_eq!(rt; status, Status::Done);
    let (status, _disk, out) = run(&rt, INFO, disk)?;
    assert_eq!(rt; status, Status::Done);
    assert_eq!(rt; out.bytes(), SMALL_TEXT.as_bytes());
    Ok(())
}
