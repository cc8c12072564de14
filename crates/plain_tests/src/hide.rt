//! `hide`, sectors of other sizes, and which header opens then.
use std::alloc::Global;
use std::test::Fail;
use trial_lines::{FORMAT, HIDE, MIB, column, number, run};
use vc_app::Status;
use vc_outside::{MemStore, SureStore};

// By hand: the volume's last byte is the last before the backup headers.
static HIDDEN_TEXT: &str =
    "slot hidden\nprf sha512\nalgorithm aes\nstart 655360\nsize 262144\nsector 512\n";

// Status, how the output begins, its length, command line. Each row acts on the container that the rows before it
// left. By hand.
static ROWS: &str = "\
0;ok;3;format|c1.vc|--size|1048576|--password|correct horse|--random|@|--pim|1
3;;0;info|c1.vc|--password|hidden horse|--pim|1
6;;0;hide|c1.vc|--size|0|--password|hidden horse|--random|#|--pim|1
6;;0;hide|c1.vc|--size|786433|--password|hidden horse|--random|#|--pim|1
6;;0;hide|c1.vc|--size|786944|--password|hidden horse|--random|#|--pim|1
0;ok;3;hide|c1.vc|--size|786432|--password|hidden horse|--random|#|--pim|1
0;slot hidden;73;info|c1.vc|--password|hidden horse|--pim|1
0;ok;3;hide|c1.vc|--size|262144|--password|hidden horse|--random|#|--pim|1
0;slot standard;75;info|c1.vc|--password|correct horse|--pim|1
0;slot hidden;73;info|c1.vc|--kind|hidden|--password|hidden horse|--pim|1
0;slot backup-standard;82;info|c1.vc|--backup|--password|correct horse|--pim|1
0;slot backup-hidden;80;info|c1.vc|--backup|--password|hidden horse|--pim|1
0;slot backup-hidden;80;info|c1.vc|--backup|--kind|hidden|--password|hidden horse|--pim|1
3;;0;info|c1.vc|--kind|hidden|--password|correct horse|--pim|1
3;;0;info|c1.vc|--kind|standard|--password|hidden horse|--pim|1
3;;0;info|c1.vc|--backup|--kind|standard|--password|hidden horse|--pim|1
0;;512;cat|c1.vc|511|1|--password|hidden horse|--pim|1
6;;0;cat|c1.vc|511|2|--password|hidden horse|--pim|1
0;;512;cat|c1.vc|1535|1|--password|correct horse|--pim|1
0;ok;3;hide|c1.vc|--size|512|--password|correct horse|--random|#|--pim|1
0;slot standard;75;info|c1.vc|--password|correct horse|--pim|1
0;slot hidden;70;info|c1.vc|--kind|hidden|--password|correct horse|--pim|1
0;ok;3;format|c1.vc|--size|1048576|--password|correct horse|--random|@|--pim|1|--sector|4096
0;slot standard;76;info|c1.vc|--password|correct horse|--pim|1
0;;4096;cat|c1.vc|191|1|--password|correct horse|--pim|1
6;;0;cat|c1.vc|191|2|--password|correct horse|--pim|1
0;;0;cat|c1.vc|192|0|--password|correct horse|--pim|1
0;ok;3;hide|c1.vc|--size|262656|--password|hidden horse|--random|#|--pim|1|--sector|512
0;slot hidden;73;info|c1.vc|--password|hidden horse|--pim|1
6;;0;hide|c1.vc|--size|512|--password|hidden horse|--random|#|--pim|1|--sector|4096
0;ok;3;hide|c1.vc|--size|4096|--password|hidden horse|--random|#|--pim|1|--sector|4096
0;;4096;cat|c1.vc|0|1|--password|hidden horse|--pim|1
6;;0;format|c1.vc|--size|264192|--password|correct horse|--random|@|--pim|1|--sector|4096
6;;0;format|c1.vc|--size|1049088|--password|correct horse|--random|@|--pim|1|--sector|4096
0;ok;3;format|c1.vc|--size|266240|--password|correct horse|--random|@|--pim|1|--sector|4096
0;;4096;cat|c1.vc|0|1|--password|correct horse|--pim|1";

#[test]
fn each_password_opens_its_volume(rt: HostRuntime) -> Result<(), Fail> {
    let mut disk = SureStore::new(Vec::new(rt.alloc()));
    for row in ROWS.split('\n') {
        let (status, after, out) = run(&rt, column(row, 3), disk)?;
        assert_eq!(rt; u64::from(status.code()), number(row, 0), "{row}");
        assert!(rt; out.bytes().starts_with(column(row, 1).as_bytes()), "{row}");
        assert_eq!(rt; out.bytes().len() as u64, number(row, 2), "{row}");
        disk = after;
    }
    Ok(())
}

#[test]
fn info_prints_the_hidden_slot(rt: HostRuntime) -> Result<(), Fail> {
    let disk = SureStore::new(Vec::new(rt.alloc()));
    let (_, disk, _) = run(&rt, MIB, disk)?;
    let (status, disk, _) = run(&rt, HIDE, disk)?;
    assert_eq!(rt; status, Status::Done);
    let line = "info|c1.vc|--password|hidden horse|--pim|1";
    let (_, _, out) = run(&rt, line, disk)?;
    assert_eq!(rt; out.bytes(), HIDDEN_TEXT.as_bytes());
    Ok(())
}

// `hide` reads nothing, so a file that is no container gets a hidden volume if its length allows it. The shortest
// container with sectors of 4096 bytes has 266,240.
#[test]
fn only_the_length_of_a_container_refuses_hide(rt: HostRuntime) -> Result<(), Fail> {
    let line = "hide|c1.vc|--size|512|--password|x|--random|#|--pim|1";
    let large = "hide|c1.vc|--size|4096|--password|x|--random|#|--pim|1|--sector|4096";
    for (line, len, wanted) in [
        (line, 0, Status::Length(0)),
        (line, 262_655, Status::Length(262_655)),
        (line, 262_656, Status::Done),
        (line, 262_657, Status::BadSize),
        (line, 263_168, Status::Done),
        (large, 262_655, Status::Length(262_655)),
        (large, 266_239, Status::BadSize),
        (large, 266_240, Status::Done),
    ] {
        let mut bytes = Vec::new(rt.alloc());
        bytes.resize(len, 0)?;
        let (status, _, _) = run(&rt, line, SureStore::new(bytes))?;
        assert_eq!(rt; status, wanted, "{len}");
    }
    Ok(())
}

// A store in memory that holds these bytes, and whose call `fails` fails.
fn failing(alloc: Global, bytes: &[u8], fails: u64) -> Result<MemStore, Fail> {
    let mut image = Vec::new(alloc);
    image.extend_from_slice(bytes)?;
    let mut listed = Vec::new(alloc);
    listed.push(fails)?;
    Ok(MemStore::new(alloc, image, listed, None, 4_096, 1 << 20)?)
}

// The smallest container: a write for each header, and the sync.
#[test]
fn a_failing_call_leaves_all_but_the_two_slots(rt: HostRuntime) -> Result<(), Fail> {
    let alloc = rt.alloc();
    let line = "hide|c1.vc|--size|512|--password|hidden horse|--random|#|--pim|1";
    let (_, made, _) = run(&rt, FORMAT, SureStore::new(Vec::new(alloc)))?;
    for (fails, code) in [(0, 7), (1, 7), (2, 7), (3, 0)] {
        let disk = failing(alloc, made.bytes(), fails)?;
        let (status, after, out) = run(&rt, line, disk)?;
        assert_eq!(rt; status.code(), code, "call {fails}");
        assert_eq!(rt; out.bytes().is_empty(), code == 7, "call {fails}");
        for (i, (left, was)) in after.bytes().iter().zip(made.bytes()).enumerate() {
            let hidden = (65_536..66_048).contains(&i) || (197_120..197_632).contains(&i);
            assert!(rt; hidden || left == was, "call {fails}, byte {i}");
        }
        if code == 0 {
            for pick in 0..3 {
                let image = after.after_crash(pick)?;
                assert!(rt; image.as_slice() == after.bytes(), "crash {pick}");
            }
        }
    }
    Ok(())
}
