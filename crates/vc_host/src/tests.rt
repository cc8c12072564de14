//! What no clause says: that the calls reach a real file, and what becomes of a stream's results.
use super::*;
use std::fs::{self, File};
use std::io::{self, ErrorKind, Read, Write};
use std::os::fd::AsRawFd;
use std::os::unix::fs::MetadataExt;
use std::rt::Files;
use std::test::Fail;
use vc_outside::{Failed, OutError, Sink, Source, Store, SureStore};

// A call that changes a container.
#[derive(Clone, Copy, Drop)]
enum Change {
    Write(u64, [u8; 5]),
    Resize(u64),
    Sync,
}

// Whether the call returned Ok. A write past the end isn't made.
fn changes<S: Store>(store: &mut S, change: Change) -> bool {
    match change {
        Change::Write(at, bytes) => {
            if at > store.len() || store.len() - at < 5 {
                return false;
            }
            store.write_at(at, &bytes).is_ok()
        }
        Change::Resize(len) => store.set_len(len).is_ok(),
        Change::Sync => store.sync().is_ok(),
    }
}

// Whether the bytes at an offset were read. A read past the end isn't made.
fn reads<S: Store>(store: &mut S, at: u64, out: &mut [u8]) -> bool {
    if at > store.len() || store.len() - at < out.len() as u64 {
        return false;
    }
    store.read_at(at, out).is_ok()
}

#[test]
fn a_file_holds_what_the_store_over_memory_holds(rt: HostRuntime) {
    let path = "same_calls.tmp";
    let Ok(mut disk) = FileStore::create(&rt, path) else {
        return assert!(rt; false, "not made");
    };
    let mut sure = SureStore::new(Vec::new(rt.alloc()));
    for (i, change) in [
        Change::Resize(12),
        Change::Write(0, *b"front"),
        Change::Write(7, *b"back!"),
        Change::Write(8, *b"none "),
        Change::Sync,
        Change::Resize(9),
        Change::Resize(9000),
        Change::Write(8995, *b"after"),
        Change::Write(4, *b"cross"),
        Change::Sync,
        Change::Resize(0),
        Change::Write(0, *b"empty"),
        Change::Resize(6),
    ]
    .into_iter()
    .enumerate()
    {
        assert_eq!(rt;
            changes(&mut disk, change),
            changes(&mut sure, change),
            "call {i}"
        );
        assert_eq!(rt; disk.len(), sure.len(), "call {i}");
        for at in [0, 4, 8, 8992] {
            let (mut got, mut want) = ([1; 8], [1; 8]);
            assert_eq!(rt;
                reads(&mut disk, at, &mut got),
                reads(&mut sure, at, &mut want)
            );
            assert_eq!(rt; got, want, "call {i}, at {at}");
        }
    }
    assert_eq!(rt; disk.faults(), 0);
    assert!(rt; fs::remove_file(&rt, path).is_ok());
}

#[test]
fn a_file_is_found_again_and_has_a_hole_past_4_gib(rt: HostRuntime) {
    let path = "sparse.tmp";
    let far = (4 << 30) + 7;
    assert!(rt; FileStore::open(&rt, path).is_err(), "a missing file");
    assert!(rt; FileStore::open(&rt, ".").is_err(), "a folder");
    assert!(rt; FileStore::create(&rt, ".").is_err(), "a folder");
    let Ok(mut made) = FileStore::create(&rt, path) else {
        return assert!(rt; false, "not made");
    };
    assert_eq!(rt; made.len(), 0);
    assert_eq!(rt; made.set_len(5 << 30), Ok(()));
    assert!(rt; changes(&mut made, Change::Write(far, *b"above")));
    assert_eq!(rt; made.set_len(1 << 63), Err(OutError::Failed));
    assert_eq!(rt; (made.len(), made.faults()), (5 << 30, 1));
    drop(made);
    for is_made in [false, true] {
        let store = if is_made {
            FileStore::create(&rt, path)
        } else {
            FileStore::open(&rt, path)
        };
        let Ok(mut store) = store else {
            return assert!(rt; false, "not found");
        };
        assert_eq!(rt; (store.len(), store.faults()), (5 << 30, 0));
        let (mut below, mut above) = ([1; 7], [1; 7]);
        assert!(rt; reads(&mut store, 7, &mut below));
        assert!(rt; reads(&mut store, far, &mut above));
        assert_eq!(rt; (below, above), ([0; 7], *b"above\0\0"));
    }
    assert!(rt; fs::remove_file(&rt, path).is_ok());
}

// Whether a store could be opened in each of the three ways, one after another: to write, to read, by `create`.
fn ways<R: Files<File = File>>(rt: &R, path: &str) -> [bool; 3] {
    let writes = FileStore::open(rt, path).is_ok();
    let reads = FileStore::open_for(rt, path, Purpose::Reading).is_ok();
    let creates = FileStore::create(rt, path).is_ok();
    [writes, reads, creates]
}

#[test]
fn only_readers_share_a_file(rt: HostRuntime) {
    let path = "locked.tmp";
    assert!(rt;
        FileStore::open_for(&rt, path, Purpose::Reading).is_err(),
        "a missing file"
    );
    assert!(rt;
        FileStore::open_for(&rt, ".", Purpose::Reading).is_err(),
        "a folder"
    );
    let Ok(made) = FileStore::create(&rt, path) else {
        return assert!(rt; false, "not made");
    };
    assert_eq!(rt; ways(&rt, path), [false, false, false], "while it is made");
    drop(made);
    assert_eq!(rt; ways(&rt, path), [true, true, true], "one after another");
    let Ok(writer) = FileStore::open(&rt, path) else {
        return assert!(rt; false, "not opened");
    };
    assert_eq!(rt;
        ways(&rt, path),
        [false, false, false],
        "while it is written"
    );
    drop(writer);
    let Ok(mut reader) = FileStore::open_for(&rt, path, Purpose::Reading) else {
        return assert!(rt; false, "not opened");
    };
    assert_eq!(rt; ways(&rt, path), [false, true, false], "while it is read");
    assert_eq!(rt;
        reader.set_len(5),
        Err(OutError::Failed),
        "a reader writes nothing"
    );
    assert!(rt; fs::remove_file(&rt, path).is_ok());
}

#[test]
fn a_made_file_is_for_its_owner_and_can_be_discarded(rt: HostRuntime) {
    let path = "discarded.tmp";
    let Ok(mut made) = FileStore::create(&rt, path) else {
        return assert!(rt; false, "not made");
    };
    let mode = fs::metadata(&rt, path).map(|metadata| metadata.mode() & 0o777);
    assert!(rt; matches!(mode, Ok(0o600)));
    assert!(rt; made.find_name(&rt, path).is_ok());
    assert!(rt; made.is_at(&rt, path) && !made.is_at(&rt, "."));
    assert_eq!(rt; (made.sync(), made.faults()), (Ok(()), 0));
    drop(made);
    // Another file of that name, or one that was there before, stays.
    let Ok(mut found) = FileStore::create(&rt, path) else {
        return assert!(rt; false, "not found");
    };
    assert!(rt; found.find_name(&rt, path).is_ok());
    assert!(rt; found.discard(&rt).is_ok());
    assert!(rt; fs::remove_file(&rt, path).is_ok(), "there before");
    let Ok(mut made) = FileStore::create(&rt, path) else {
        return assert!(rt; false, "not made");
    };
    assert!(rt; made.find_name(&rt, path).is_ok());
    assert!(rt; made.discard(&rt).is_ok());
    assert!(rt; fs::metadata(&rt, path).is_err(), "made and discarded");
}

#[test]
fn a_long_write_is_told_by_the_hundredth_and_the_line_is_removed(rt: HostRuntime) {
    let (path, line) = ("long.tmp", "line.tmp");
    assert!(rt; fs::write(&rt, line, "").is_ok());
    for (total, want) in [
        (256 << 20, ""),
        (400, ""),
        // less than 1 per cent, so no line
        (1 << 30, ""),
        // 1 per cent is 3 MiB, of 4 that are written
        (300 << 20, "\r1% (3145728 of 314572800 bytes)\r\x1b[K"),
    ] {
        let Ok(mut store) = FileStore::create(&rt, path) else {
            return assert!(rt; false, "not made");
        };
        assert_eq!(rt; store.set_len(8 << 20), Ok(()));
        assert!(rt; store.tell_progress(&rt, line, total).is_ok());
        let piece = [0; 4096];
        for at in 0..1024 {
            let at = at * 4096;
            if at + 4096 <= store.len() {
                assert_eq!(rt; store.write_at(at, &piece), Ok(()));
            }
        }
        assert_eq!(rt; store.sync(), Ok(()));
        let Ok(told) = fs::read_to_string(&rt, line) else {
            return assert!(rt; false, "not read");
        };
        assert_eq!(rt; told.as_str(), want);
    }
    assert!(rt; fs::remove_file(&rt, path).is_ok() && fs::remove_file(&rt, line).is_ok());
}

#[test]
fn a_file_takes_output_from_its_start(rt: HostRuntime) {
    let path = "output.tmp";
    assert!(rt; FileSink::open(&rt, "no folder/output.tmp").is_err());
    for (piece, left) in [(b"longer".as_slice(), 6), (b"new".as_slice(), 3)] {
        let Ok(mut sink) = FileSink::open(&rt, path) else {
            return assert!(rt; false, "not made");
        };
        assert_eq!(rt; sink.write(piece), Ok(left));
        assert_eq!(rt; sink.write(&[]), Ok(0));
        assert_eq!(rt; sink.faults(), 0);
        let Ok(held) = fs::read(&rt, path) else {
            return assert!(rt; false, "not read");
        };
        assert_eq!(rt; held.as_slice(), piece);
    }
    assert!(rt; fs::remove_file(&rt, path).is_ok());
}

// A writer whose calls return what the list says, and then take all.
#[derive(Drop)]
struct Scripted {
    results: [Option<ErrorKind>; 4],
    next: usize,
}

impl Write for Scripted {
    fn write(&mut self, buf: &[u8]) -> io::Result<usize> {
        let result = self.results.get(self.next).copied();
        self.next = self.next.saturating_add(1);
        match result {
            Some(Some(kind)) => Err(io::Error::from(kind)),
            Some(None) => Ok(0),
            None => Ok(buf.len()),
        }
    }

    fn flush(&mut self) -> io::Result<()> {
        Ok(())
    }
}

#[test]
fn only_an_interrupted_call_is_made_again(rt: HostRuntime) {
    let interrupted = Some(ErrorKind::Interrupted);
    let mut sink = StreamSink::new(Scripted {
        results: [interrupted, interrupted, Some(ErrorKind::WriteZero), None],
        next: 0,
    });
    assert_eq!(rt; sink.write(b"lost"), Err(OutError::Failed));
    assert_eq!(rt; sink.faults(), 1);
    assert_eq!(rt; sink.write(b"lost"), Err(OutError::Failed));
    assert_eq!(rt; sink.faults(), 2);
    assert_eq!(rt; sink.write(b"taken"), Ok(5));
    assert_eq!(rt; sink.faults(), 2);
}

// What a call of a reader gives.
#[derive(Clone, Copy, Drop)]
enum Given {
    Bytes(usize),
    Fails(ErrorKind),
}

// A reader whose calls give what the list says, and then the end.
#[derive(Drop)]
struct Slow {
    results: [Given; 6],
    next: usize,
}

impl Read for Slow {
    fn read(&mut self, buf: &mut [u8]) -> io::Result<usize> {
        let result = self.results.get(self.next).copied();
        self.next = self.next.saturating_add(1);
        match result {
            Some(Given::Bytes(given)) => {
                let given = given.min(buf.len());
                buf[..given].fill(b'x');
                Ok(given)
            }
            Some(Given::Fails(kind)) => Err(io::Error::from(kind)),
            None => Ok(0),
        }
    }
}

#[test]
fn few_bytes_are_no_end_and_an_interrupted_read_is_made_again(rt: HostRuntime) {
    let mut source = StreamSource::new(Slow {
        results: [
            Given::Fails(ErrorKind::Interrupted),
            Given::Bytes(2),
            Given::Fails(ErrorKind::Interrupted),
            Given::Bytes(1),
            Given::Fails(ErrorKind::WouldBlock),
            Given::Bytes(5),
        ],
        next: 0,
    });
    let mut buf = [b'.'; 4];
    for (given, shown, faults) in [
        (Ok(2), b"xx..", 0),
        (Ok(1), b"xx..", 0),
        (Err(Failed), b"xx..", 1),
        (Ok(4), b"xxxx", 1),
        (Ok(0), b"xxxx", 1),
    ] {
        assert_eq!(rt; source.read(&mut buf), given);
        assert_eq!(rt; (&buf, source.faults()), (shown, faults));
    }
}

#[test]
fn a_file_gives_its_bytes_and_then_the_end(rt: HostRuntime) {
    let path = "input.tmp";
    assert!(rt; FileSource::open(&rt, path).is_err(), "a missing file");
    assert!(rt; FileSource::open(&rt, ".").is_err(), "a folder");
    assert!(rt; fs::write(&rt, path, "abcdefg").is_ok());
    let Ok(mut source) = FileSource::open(&rt, path) else {
        return assert!(rt; false, "not opened");
    };
    let mut buf = [b'.'; 4];
    for (given, shown) in [(4, b"abcd"), (3, b"efgd"), (0, b"efgd"), (0, b"efgd")] {
        assert_eq!(rt; source.read(&mut buf), Ok(given));
        assert_eq!(rt; (&buf, source.faults()), (shown, 0));
    }
    assert!(rt; fs::remove_file(&rt, path).is_ok());
    // Its first page can't be read.
    let Ok(mut source) = FileSource::open(&rt, "/proc/self/mem") else {
        return assert!(rt; false, "not opened");
    };
    assert_eq!(rt; (source.read(&mut buf), source.faults()), (Err(Failed), 1));
    assert_eq!(rt; (source.read(&mut buf), source.faults()), (Err(Failed), 2));
}

#[test]
fn a_pipe_gives_what_is_there_until_its_writer_is_gone(rt: HostRuntime) -> Result<(), Fail> {
    let (reader, writer) = io::pipe(&rt)?;
    // A pipe that has a name, at which it is opened again.
    let from = format!(in rt.alloc(); "/proc/self/fd/{}", reader.as_raw_fd())?;
    let to = format!(in rt.alloc(); "/proc/self/fd/{}", writer.as_raw_fd())?;
    let (Ok(mut sink), Ok(mut source)) = (
        FileSink::open(&rt, to.as_str()),
        FileSource::open(&rt, from.as_str()),
    ) else {
        assert!(rt; false, "not opened");
        return Ok(());
    };
    drop(reader);
    drop(writer);
    let mut buf = [b'.'; 8];
    for (piece, shown) in [
        (b"few".as_slice(), b"few....."),
        (b"and more", b"and more"),
        (b"!", b"!nd more"),
    ] {
        assert_eq!(rt; sink.write(piece), Ok(piece.len()));
        assert_eq!(rt; source.read(&mut buf), Ok(piece.len()));
        assert_eq!(rt; &buf, shown);
    }
    assert_eq!(rt; sink.write(b"last"), Ok(4));
    drop(sink);
    assert_eq!(rt; source.read(&mut buf), Ok(4));
    assert_eq!(rt; source.read(&mut buf), Ok(0), "the end");
    assert_eq!(rt; source.faults(), 0);
    Ok(())
}

#[test]
fn a_file_of_a_client_is_not_the_container(rt: HostRuntime) {
    let (path, other, client) = ("beside.tmp", "beside_link.tmp", "beside_client.tmp");
    let Ok(mut container) = FileStore::create(&rt, path) else {
        return assert!(rt; false, "not made");
    };
    assert_eq!(rt; container.set_len(9), Ok(()));
    assert!(rt; fs::hard_link(&rt, path, other).is_ok());
    for name in [path, "./beside.tmp", other] {
        let source = FileSource::open_beside(&rt, name, &container);
        assert!(rt; matches!(source, Err(Obstacle::Container)), "{name}");
        let sink = FileSink::open_beside(&rt, name, &container);
        assert!(rt; matches!(sink, Err(Obstacle::Container)), "{name}");
        let len = fs::metadata(&rt, path).map(|metadata| metadata.len());
        assert!(rt; matches!(len, Ok(9)), "{name}: it isn't emptied");
    }
    let missing = FileSource::open_beside(&rt, client, &container);
    assert!(rt; matches!(missing, Err(Obstacle::System(_))));
    // A missing file is made, and one that is there is emptied.
    for _ in 0..2 {
        let Ok(mut sink) = FileSink::open_beside(&rt, client, &container) else {
            return assert!(rt; false, "not made");
        };
        let len = fs::metadata(&rt, client).map(|metadata| metadata.len());
        assert!(rt; matches!(len, Ok(0)), "emptied");
        assert_eq!(rt; sink.write(b"reply"), Ok(5));
    }
    let Ok(mut source) = FileSource::open_beside(&rt, client, &container) else {
        return assert!(rt; false, "not opened");
    };
    let mut buf = [b'.'; 8];
    assert_eq!(rt; source.read(&mut buf), Ok(5));
    assert_eq!(rt; &buf, b"reply...");
    // A device has no length.
    assert!(rt; FileSink::open_beside(&rt, "/dev/null", &container).is_ok());
    for file in [path, other, client] {
        assert!(rt; fs::remove_file(&rt, file).is_ok());
    }
}
