//! Calls of `serve` that serve nobody.
use std::test::Fail;
use trial_lines::{DISCONNECT, NEVER, WHOLE, client, column, container, number, serve};
use vc_outside::{NoGate, Source};

// The exit status, how many clients there are, how many bytes of the container, and the command line. The container
// has a hidden volume.
static ROWS: &str = "\
2;0;1048576;serve|c1.vc|--password|correct horse|--pim|1
2;17;1048576;serve|c1.vc|--password|correct horse|--pim|1
2;1;1048576;info|c1.vc|--password|correct horse|--pim|1
2;1;1048576;serve|c1.vc|--password|correct horse|--pim|1|--helpers|9
2;1;1048576;serve|c1.vc|--password|correct horse|--pim|1|--workers|0
2;1;1048576;serve|c1.vc|--password|correct horse|--pim|1|--kind|hidden|--protect|hidden horse
2;1;262655;serve|c1.vc|--password|correct horse|--pim|1|--protect|
5;1;262655;serve|c1.vc|--password|correct horse|--pim|1
3;1;1048576;serve|c1.vc|--password|wrong horse|--pim|1
3;1;1048576;serve|c1.vc|--password|correct horse|--pim|2
3;1;1048576;serve|c1.vc|--password|wrong horse|--pim|1|--protect|hidden horse|--protect-pim|1
3;1;1048576;serve|c1.vc|--password|hidden horse|--pim|1|--protect|hidden horse|--protect-pim|1
3;2;1048576;serve|c1.vc|--password|wrong horse|--pim|1|--protect|wrong horse|--protect-pim|1
4;1;1048576;serve|c1.vc|--password|correct horse|--pim|1|--protect|wrong horse|--protect-pim|1
4;2;1048576;serve|c1.vc|--password|correct horse|--pim|1|--protect|hidden horse|--protect-pim|2
4;1;1048576;serve|c1.vc|--password|correct horse|--pim|1|--protect|correct horse|--protect-pim|1";

#[test]
fn a_call_that_serves_nobody_leaves_all_as_it_was(rt: HostRuntime) -> Result<(), Fail> {
    let alloc = rt.alloc();
    let whole = container(&rt, true)?;
    for row in ROWS.split('\n') {
        let mut clients = Vec::new(alloc);
        for _ in 0..number(row, 1) {
            let sent = Vec::from_slice(alloc, DISCONNECT)?;
            clients.push(client(alloc, sent, 4096, NEVER, WHOLE)?)?;
        }
        let mut image = whole.clone()?;
        image.truncate(number(row, 2) as usize);
        let mut ended = serve(&rt, column(row, 3), &image, NEVER, clients, &NoGate)?;
        assert_eq!(rt; u64::from(ended.status.code()), number(row, 0), "{row}");
        assert_eq!(rt; ended.out.bytes().len(), 0, "{row}");
        assert_eq!(rt;
            (ended.ends.len(), ended.replies.len(), ended.callers.len()),
            (0, 0, 0),
            "{row}"
        );
        assert!(rt; ended.pass.is_none(), "{row}");
        assert!(rt; ended.disk.bytes() == image.as_slice(), "{row}");
        assert_eq!(rt; ended.clients.len() as u64, number(row, 1), "{row}");
        for link in ended.clients.iter_mut() {
            assert_eq!(rt; link.sink.taken.len(), 0, "{row}");
            // no byte of it was taken
            assert_eq!(rt; link.source.read(&mut [0; 64]), Ok(28), "{row}");
        }
    }
    Ok(())
}
