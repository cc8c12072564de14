//! Argument lists and contents, worked out by hand. `|` stands between arguments; the secrets of the files are
//! S0, S1 and so on.
use super::*;
use std::alloc::{AllocError, Global};

// A line, the files that it names, and what becomes of it.
static LISTS: [(&str, &str, &str); 58] = [
    ("info|C1", "", "info|C1"),
    ("info|C1|--password|x", "", "info|C1|--password|x"),
    (
        "info|C1|--password=x|--pim=1",
        "",
        "info|C1|--password=x|--pim=1",
    ),
    ("--", "", "--"),
    ("||", "", "||"),
    // each option, in both spellings
    (
        "info|C1|--password-file|f",
        "Password f",
        "info|C1|--password=S0",
    ),
    (
        "info|C1|--password-file=f",
        "Password f",
        "info|C1|--password=S0",
    ),
    ("passwd|C1|--new-file|f", "New f", "passwd|C1|--new=S0"),
    ("passwd|C1|--new-file=f", "New f", "passwd|C1|--new=S0"),
    (
        "serve|C1|--protect-file|f",
        "Protect f",
        "serve|C1|--protect=S0",
    ),
    (
        "serve|C1|--protect-file=f",
        "Protect f",
        "serve|C1|--protect=S0",
    ),
    (
        "format|C1|--random-file|f",
        "Random f",
        "format|C1|--random=S0",
    ),
    (
        "format|C1|--random-file=f",
        "Random f",
        "format|C1|--random=S0",
    ),
    // in each place
    (
        "--password-file|f|info|C1",
        "Password f",
        "--password=S0|info|C1",
    ),
    (
        "--password-file=f|info|C1",
        "Password f",
        "--password=S0|info|C1",
    ),
    (
        "info|--password-file|f|C1",
        "Password f",
        "info|--password=S0|C1",
    ),
    (
        "info|--password-file=f|C1",
        "Password f",
        "info|--password=S0|C1",
    ),
    ("--password-file=f", "Password f", "--password=S0"),
    ("--password-file|f", "Password f", "--password=S0"),
    (
        "info|--pim|--password-file|f",
        "Password f",
        "info|--pim|--password=S0",
    ),
    // twice, and with its partner
    (
        "--new-file=f|--new-file=g",
        "New f, New g",
        "--new=S0|--new=S1",
    ),
    (
        "--new-file|f|--new-file|f",
        "New f, New f",
        "--new=S0|--new=S1",
    ),
    ("--new-file|f|--new|x", "New f", "--new=S0|--new|x"),
    ("--new=x|--new-file|f", "New f", "--new=x|--new=S0"),
    (
        "--password-file|f|--password|x",
        "Password f",
        "--password=S0|--password|x",
    ),
    (
        "--random|x|--random-file=f",
        "Random f",
        "--random|x|--random=S0",
    ),
    (
        "--protect-file=f|--protect=x",
        "Protect f",
        "--protect=S0|--protect=x",
    ),
    // several
    (
        "p|--password-file|f|--new-file|g",
        "Password f, New g",
        "p|--password=S0|--new=S1",
    ),
    (
        "p|--new-file|g|--password-file|f",
        "New g, Password f",
        "p|--new=S0|--password=S1",
    ),
    (
        "f|--random-file=/dev/urandom|--password-file|-|x",
        "missing",
        "missing",
    ),
    (
        "--random-file=a|--protect-file|b|--new-file=c|--password-file|d",
        "Random a, Protect b, New c, Password d",
        "--random=S0|--protect=S1|--new=S2|--password=S3",
    ),
    // paths
    ("--password-file=", "Password ", "--password=S0"),
    ("--password-file||C1", "Password ", "--password=S0|C1"),
    ("--password-file=-", "Password -", "--password=S0"),
    ("--password-file=--", "Password --", "--password=S0"),
    ("--password-file=-x", "Password -x", "--password=S0"),
    ("--password-file==", "Password =", "--password=S0"),
    ("--password-file=a=b", "Password a=b", "--password=S0"),
    ("--password-file|a=b", "Password a=b", "--password=S0"),
    ("--password-file|a b", "Password a b", "--password=S0"),
    ("--password-file|ä", "Password ä", "--password=S0"),
    ("--password-file", "missing", "missing"),
    ("info|C1|--random-file", "missing", "missing"),
    ("--password-file|-", "missing", "missing"),
    ("--password-file|-x", "missing", "missing"),
    ("--password-file|--password-file|f", "missing", "missing"),
    ("--password-file|--new-file=f", "missing", "missing"),
    ("--password-file|--|f", "missing", "missing"),
    // after `--`
    (
        "serve|C1|--|--password-file|f",
        "",
        "serve|C1|--|--password-file|f",
    ),
    (
        "serve|C1|--|--password-file=f",
        "",
        "serve|C1|--|--password-file=f",
    ),
    ("serve|C1|--|--new-file", "", "serve|C1|--|--new-file"),
    (
        "--new-file|f|--|--new-file|f",
        "New f",
        "--new=S0|--|--new-file|f",
    ),
    ("--|--|--new-file=f", "", "--|--|--new-file=f"),
    // no such option
    ("--password-files=f", "", "--password-files=f"),
    ("-password-file|f", "", "-password-file|f"),
    ("password-file|f", "", "password-file|f"),
    ("--Password-file|f", "", "--Password-file|f"),
    ("--key-file|f|--pim-file=f", "", "--key-file|f|--pim-file=f"),
];

fn words_of(alloc: Global, line: &str) -> Result<Vec<String>, AllocError> {
    let mut words = Vec::new(alloc);
    for word in line.split('|') {
        words.push(String::from_str(alloc, word)?)?;
    }
    Ok(words)
}

fn joined(alloc: Global, words: &[String]) -> Result<String, AllocError> {
    let mut line = String::new(alloc);
    for (i, word) in words.iter().enumerate() {
        if i > 0 {
            line.push('|')?;
        }
        line.push_str(word.as_str())?;
    }
    Ok(line)
}

// The files that parts name, and as many secrets.
fn files_of(alloc: Global, parts: &[Part]) -> Result<(String, Vec<String>), AllocError> {
    let mut files = String::new(alloc);
    let mut secrets = Vec::new(alloc);
    for part in parts {
        if let Part::Held(secret, path) = part {
            if secrets.len() > 0 {
                files.push_str(", ")?;
            }
            let file = format!(in alloc; "{secret:?} {path}")?;
            files.push_str(file.as_str())?;
            secrets.push(format!(in alloc; "S{}", secrets.len())?)?;
        }
    }
    Ok((files, secrets))
}

#[test]
fn each_file_option_becomes_the_option_that_it_stands_for(
    rt: HostRuntime,
) -> Result<(), AllocError> {
    let alloc = rt.alloc();
    for (line, files, want) in &LISTS {
        let words = words_of(alloc, line)?;
        let without = without_path(words.as_slice());
        assert_eq!(rt; without.is_some(), *want == "missing", "{line}: a path");
        let parts = match parts_of(alloc, words.as_slice()) {
            Ok(parts) => parts,
            Err(error) => {
                assert_eq!(rt; error, ArgumentsError::Missing, "{line}");
                assert_eq!(rt; "missing", *want, "{line}");
                continue;
            }
        };
        let (named, secrets) = files_of(alloc, parts.as_slice())?;
        assert_eq!(rt; named.as_str(), *files, "{line}");
        match filled(alloc, parts.as_slice(), secrets.as_slice()) {
            Ok(words) => {
                let got = joined(alloc, words.as_slice())?;
                assert_eq!(rt; got.as_str(), *want, "{line}");
            }
            Err(_) => assert!(rt; false, "{line}"),
        }
        let too_few = filled(alloc, parts.as_slice(), &[]);
        assert_eq!(rt; too_few.is_err(), secrets.len() > 0, "{line}: no secrets");
    }
    Ok(())
}

#[test]
fn the_option_without_a_path_is_named(rt: HostRuntime) -> Result<(), AllocError> {
    for (line, want) in [
        ("info|C1|--random-file", "--random-file"),
        ("--password-file|f|--new-file|--pim|1", "--new-file"),
        ("--protect-file|--new-file|f", "--protect-file"),
        (
            "--new-file=f|--password-file|-x|--random-file",
            "--password-file",
        ),
    ] {
        let words = words_of(rt.alloc(), line)?;
        let without = without_path(words.as_slice()).map(|secret| secret.file_option());
        assert_eq!(rt; without, Some(want), "{line}");
    }
    Ok(())
}

#[test]
fn a_password_has_1_to_128_bytes_and_loses_one_line_end(rt: HostRuntime) {
    let long = [b'a'; 131];
    let mut ended = long;
    ended[128] = b'\r';
    ended[129] = b'\n';
    let mut full = ended;
    full[128] = b'\n';
    let umlauts = "ä";
    let rows: [(&str, &[u8], Option<&[u8]>); 20] = [
        ("no line end", b"horse", Some(b"horse")),
        ("a line end", b"horse\n", Some(b"horse")),
        ("CR LF", b"horse\r\n", Some(b"horse")),
        ("two line ends", b"horse\n\n", Some(b"horse\n")),
        ("two CR LF", b"horse\r\n\r\n", Some(b"horse\r\n")),
        ("LF, then CR LF", b"horse\n\r\n", Some(b"horse\n")),
        ("CR alone", b"horse\r", Some(b"horse\r")),
        ("CR CR LF", b"horse\r\r\n", Some(b"horse\r")),
        ("two lines", b"a\nb\n", Some(b"a\nb")),
        ("spaces", b" a \n", Some(b" a ")),
        ("a zero byte", b"\0\n", Some(b"\0")),
        ("nothing", b"", None),
        ("a line end alone", b"\n", None),
        ("CR LF alone", b"\r\n", None),
        ("two line ends alone", b"\n\n", Some(b"\n")),
        ("128 bytes", &long[..128], Some(&long[..128])),
        ("129 bytes", &long[..129], None),
        ("128 bytes and a line end", &full[..129], Some(&long[..128])),
        ("128 bytes and CR LF", &ended[..130], Some(&long[..128])),
        (
            "text that isn't ASCII",
            umlauts.as_bytes(),
            Some(umlauts.as_bytes()),
        ),
    ];
    for (name, content, want) in rows {
        let got = password_in(content).map(|text| text.as_bytes());
        assert_eq!(rt; got, want, "{name}");
    }
    assert!(rt; password_in(b"\xff\n").is_none(), "no UTF-8");
    assert!(rt; password_in(b"a\xc3").is_none(), "UTF-8 cut short");
}

#[test]
fn a_key_is_64_digits(rt: HostRuntime) -> Result<(), AllocError> {
    let mut key = [0; 32];
    key[0] = 0x01;
    key[1] = 0xfe;
    key[31] = 0xa9;
    let digits = digits_of(rt.alloc(), &key)?;
    let want = "01fe0000000000000000000000000000000000000000000000000000000000a9";
    assert_eq!(rt; digits.as_str(), want);
    Ok(())
}
