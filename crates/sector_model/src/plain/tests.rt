//! Plain volumes of four sectors, whose last data unit is protected. All values are by hand.
use super::*;
use std::test::Fail;

#[test]
fn a_volume_of_small_sectors(rt: HostRuntime) -> Result<(), Fail> {
    let zeros = vec![in rt.alloc(); 0u8; 2048].map_err(|_| "no memory")?;
    let mut volume = PlainVolume::new(zeros, 512, Some((3, 1)));
    let mut out = [7u8; 512];
    assert_eq!(rt; volume.read(4, &mut out), Answer::Range);
    assert_eq!(rt; out, [7; 512], "a refused read leaves the buffer");
    assert_eq!(rt; volume.write(1, &[9; 512]), Answer::Done);
    assert_eq!(rt; volume.read(0, &mut out), Answer::Done);
    assert_eq!(rt; out, [0; 512], "the sector before");
    assert_eq!(rt; volume.read(1, &mut out), Answer::Done);
    assert_eq!(rt; out, [9; 512], "the sector");
    assert_eq!(rt; volume.read(2, &mut out), Answer::Done);
    assert_eq!(rt; out, [0; 512], "the sector after");
    assert_eq!(rt;
        volume.write(3, &[8; 1024]),
        Answer::Range,
        "past the end comes first"
    );
    assert_eq!(rt; volume.write(2, &[8; 1024]), Answer::Denied);
    assert_eq!(rt; volume.write(0, &[8; 512]), Answer::Frozen);
    assert_eq!(rt;
        volume.write(4, &[8; 512]),
        Answer::Range,
        "also once it is frozen"
    );
    let all = volume.bytes();
    assert!(rt;
        all.iter().take(512).all(|byte| *byte == 0),
        "nothing of a refused write is stored"
    );
    assert!(rt;
        all.iter().skip(1024).all(|byte| *byte == 0),
        "nor of a denied one"
    );
    Ok(())
}

#[test]
fn a_volume_of_large_sectors(rt: HostRuntime) -> Result<(), Fail> {
    let zeros = vec![in rt.alloc(); 0u8; 16_384].map_err(|_| "no memory")?;
    let mut volume = PlainVolume::new(zeros, 4096, Some((31, 1)));
    assert_eq!(rt;
        volume.write(2, &[9; 4096]),
        Answer::Done,
        "no unit of it is protected"
    );
    let mut out = [7u8; 4096];
    assert_eq!(rt; volume.read(2, &mut out), Answer::Done);
    assert_eq!(rt; out, [9; 4096]);
    assert_eq!(rt; volume.read(3, &mut out), Answer::Done);
    assert_eq!(rt; out, [0; 4096]);
    assert_eq!(rt;
        volume.write(3, &[8; 4096]),
        Answer::Denied,
        "its last unit is protected"
    );
    assert_eq!(rt; volume.read(3, &mut out), Answer::Done);
    assert_eq!(rt; out, [0; 4096]);
    Ok(())
}
