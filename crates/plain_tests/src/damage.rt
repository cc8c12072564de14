//! Headers of which one bit is damaged.
use std::test::Fail;
use trial_lines::{container, run, shown};
use vc_app::Status;
use vc_outside::SureStore;

static INFO: &str = "info|c1.vc|--password|correct horse|--pim|1|--kind|standard";

static CAT: &str = "cat|c1.vc|0|1|--password|correct horse|--pim|1|--kind|standard";

static CAT_BACKUP: &str = "cat|c1.vc|0|1|--password|correct horse|--pim|1|--kind|standard|--backup";

// Changes a bit of the byte `at`.
fn flip(image: &mut [u8], at: usize, bit: u8) {
    for byte in image.iter_mut().skip(at).take(1) {
        *byte ^= bit;
    }
}

// A bit of the salt, one of each of the 28 blocks of the body, and then one of the backup, which isn't read.
#[test]
fn a_damaged_bit_leaves_the_backup(rt: HostRuntime) -> Result<(), Fail> {
    let mut image = container(&rt, false)?;
    let sector = shown(&rt, CAT, &image)?;
    assert_eq!(rt; sector.len(), 512);
    for block in 0..29 {
        let at = 53 + 16 * block;
        let bit = 1 << (block % 8);
        flip(&mut image, at, bit);
        let disk = SureStore::new(image.clone()?);
        let (status, _, out) = run(&rt, INFO, disk)?;
        assert_eq!(rt; status, Status::NoHeader, "byte {at}");
        assert_eq!(rt; out.bytes().len(), 0, "byte {at}");
        assert!(rt; shown(&rt, CAT_BACKUP, &image)? == sector, "byte {at}");
        flip(&mut image, at, bit);
    }
    assert!(rt; shown(&rt, CAT, &image)? == sector);
    Ok(())
}
