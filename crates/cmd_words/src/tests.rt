//! Lines and the commands that they make.
mod lines;

use crate::{Command, Fault, Reason, WordsError, read_words, reason_of};
use kdf_hmac::{Password, Prf};
use std::alloc::{AllocError, Global};
use std::process::Abort;
use std::test::Fail;

static KEY: &str = "00112233445566778899aabbccddeeff0123456789abcdef0123456789abcdef";

static UPPER_KEY: &str = "00112233445566778899AABBCCDDEEFF0123456789ABCDEF0123456789ABCDEF";

static ZEROS: &str = "00000000000000000000000000000000000000000000000000000000000000";

// A text with its signs written out.
fn written_out(alloc: Global, text: &str) -> Result<String, AllocError> {
    let mut out = String::new(alloc);
    for c in text.chars() {
        match c {
            '@' => out.push_str(KEY)?,
            '^' => out.push_str(UPPER_KEY)?,
            '$' => out.push_str(ZEROS)?,
            '#' => push_letters(&mut out, 127)?,
            _ => out.push(c)?,
        }
    }
    Ok(out)
}

fn push_letters(out: &mut String, count: usize) -> Result<(), AllocError> {
    for _ in 0..count {
        out.push('x')?;
    }
    Ok(())
}

fn words_of(alloc: Global, line: &str) -> Result<Vec<String>, AllocError> {
    let mut words = Vec::new(alloc);
    for word in line.split('|') {
        words.push(String::from_str(alloc, word)?)?;
    }
    Ok(words)
}

fn text_of(password: &Password) -> &str {
    std::str::from_utf8(password.bytes()).unwrap_or("not text")
}

fn digits_of(alloc: Global, random: &[u8; 32]) -> Result<String, AllocError> {
    let mut out = String::new(alloc);
    for byte in random {
        let digits = format!(in alloc; "{byte:02x}")?;
        out.push_str(digits.as_str())?;
    }
    Ok(out)
}

fn protect_of(alloc: Global, protect: &Option<(Password, u32)>) -> Result<String, AllocError> {
    match protect {
        Some((password, pim)) => format!(in alloc; "{} {pim}", text_of(password)),
        None => String::from_str(alloc, "-"),
    }
}

fn name_of(prf: &Option<Prf>) -> &'static str {
    match prf {
        Some(prf) => prf.name(),
        None => "-",
    }
}

// A command on one line.
fn shown(alloc: Global, read: &Result<Command, WordsError>) -> Result<String, AllocError> {
    match read {
        Err(WordsError::Usage) => String::from_str(alloc, "usage"),
        Err(WordsError::NoMemory) => Err(AllocError),
        Ok(command) => shown_command(alloc, command),
    }
}

fn shown_command(alloc: Global, command: &Command) -> Result<String, AllocError> {
    match command {
        Command::Format {
            path,
            size,
            password,
            random,
            pim,
            prf,
            algorithm,
            sector,
        } => {
            let digits = digits_of(alloc, random)?;
            let names = format!(in alloc; "{}|{}|{sector}", prf.name(), algorithm.name())?;
            format!(in alloc;
                "format|{path}|{size}|{}|{digits}|{pim}|{names}",
                text_of(password)
            )
        }
        Command::Hide {
            path,
            size,
            password,
            random,
            pim,
            prf,
            algorithm,
            sector,
        } => {
            let digits = digits_of(alloc, random)?;
            let names = format!(in alloc; "{}|{}|{sector}", prf.name(), algorithm.name())?;
            format!(in alloc;
                "hide|{path}|{size}|{}|{digits}|{pim}|{names}",
                text_of(password)
            )
        }
        Command::Info {
            path,
            password,
            pim,
            kind,
        } => format!(in alloc; "info|{path}|{}|{pim}|{kind:?}", text_of(password)),
        Command::Cat {
            path,
            first,
            count,
            password,
            pim,
            kind,
        } => format!(in alloc;
            "cat|{path}|{first}|{count}|{}|{pim}|{kind:?}",
            text_of(password)
        ),
        Command::Passwd {
            path,
            password,
            new_password,
            random,
            pim,
            new_pim,
            new_prf,
            kind,
        } => {
            let digits = digits_of(alloc, random)?;
            let both = format!(in alloc; "{}|{}", text_of(password), text_of(new_password))?;
            let name = name_of(new_prf);
            format!(in alloc; "passwd|{path}|{both}|{digits}|{pim}|{new_pim}|{name}|{kind:?}")
        }
        Command::Restore {
            path,
            password,
            random,
            pim,
            kind,
        } => {
            let digits = digits_of(alloc, random)?;
            format!(in alloc;
                "restore|{path}|{}|{digits}|{pim}|{kind:?}",
                text_of(password)
            )
        }
        Command::Expand {
            path,
            size,
            password,
            random,
            pim,
            no_hidden,
        } => {
            let digits = digits_of(alloc, random)?;
            format!(in alloc;
                "expand|{path}|{size}|{}|{digits}|{pim}|{no_hidden}",
                text_of(password)
            )
        }
        Command::Serve {
            path,
            password,
            pim,
            kind,
            protect,
            helpers,
            workers,
            handshake,
        } => {
            let protect = protect_of(alloc, protect)?;
            let front = format!(in alloc; "serve|{path}|{}|{pim}|{kind:?}", text_of(password))?;
            format!(in alloc; "{front}|{protect}|{helpers}|{workers}|{handshake}")
        }
        Command::Drill { n } => format!(in alloc; "drill|{n}"),
    }
}

fn check_lines(rt: &impl Abort, alloc: Global, rows: &[(&str, &str)]) -> Result<(), Fail> {
    for (line, want) in rows {
        let line = written_out(alloc, line)?;
        let words = words_of(alloc, line.as_str())?;
        let got = shown(alloc, &read_words(alloc, words.as_slice()))?;
        let want = written_out(alloc, want)?;
        assert_eq!(rt; got.as_str(), want.as_str(), "{line}");
    }
    Ok(())
}

#[test]
fn the_first_word_names_a_command(rt: HostRuntime) -> Result<(), Fail> {
    check_lines(&rt, rt.alloc(), &lines::NAMES)
}

#[test]
fn info_takes_a_path_and_a_password(rt: HostRuntime) -> Result<(), Fail> {
    check_lines(&rt, rt.alloc(), &lines::INFO_1)?;
    check_lines(&rt, rt.alloc(), &lines::INFO_2)?;
    check_lines(&rt, rt.alloc(), &lines::INFO_3)
}

#[test]
fn cat_takes_two_numbers(rt: HostRuntime) -> Result<(), Fail> {
    check_lines(&rt, rt.alloc(), &lines::CAT)
}

#[test]
fn format_and_hide_take_a_size_and_a_key(rt: HostRuntime) -> Result<(), Fail> {
    check_lines(&rt, rt.alloc(), &lines::FORMAT_1)?;
    check_lines(&rt, rt.alloc(), &lines::FORMAT_2)
}

#[test]
fn format_and_hide_take_one_of_four_sector_sizes(rt: HostRuntime) -> Result<(), Fail> {
    check_lines(&rt, rt.alloc(), &lines::SECTOR)
}

#[test]
fn passwd_takes_two_passwords(rt: HostRuntime) -> Result<(), Fail> {
    check_lines(&rt, rt.alloc(), &lines::PASSWD)
}

#[test]
fn expand_needs_its_flag(rt: HostRuntime) -> Result<(), Fail> {
    check_lines(&rt, rt.alloc(), &lines::EXPAND)
}

#[test]
fn restore_reads_a_backup(rt: HostRuntime) -> Result<(), Fail> {
    check_lines(&rt, rt.alloc(), &lines::RESTORE)
}

#[test]
fn serve_may_protect_the_hidden_volume(rt: HostRuntime) -> Result<(), Fail> {
    check_lines(&rt, rt.alloc(), &lines::SERVE)
}

#[test]
fn drill_takes_a_number(rt: HostRuntime) -> Result<(), Fail> {
    check_lines(&rt, rt.alloc(), &lines::DRILL)
}

#[test]
fn no_words_are_no_line(rt: HostRuntime) -> Result<(), Fail> {
    let alloc = rt.alloc();
    let got = shown(alloc, &read_words(alloc, &[]))?;
    assert_eq!(rt; got.as_str(), "usage");
    Ok(())
}

#[test]
fn a_command_names_its_container(rt: HostRuntime) -> Result<(), Fail> {
    let alloc = rt.alloc();
    let words = words_of(alloc, "info|C1|--password=x")?;
    assert!(rt; read_words(alloc, words.as_slice())?.path() == Some("C1"));
    let words = words_of(alloc, "drill|7")?;
    assert!(rt; read_words(alloc, words.as_slice())?.path().is_none());
    Ok(())
}

// Each line that is refused has a reason.
fn check_reasons(rt: &impl Abort, alloc: Global, rows: &[(&str, &str)]) -> Result<(), Fail> {
    for (line, want) in rows {
        let line = written_out(alloc, line)?;
        let words = words_of(alloc, line.as_str())?;
        if *want == "usage" {
            let reason = reason_of(alloc, words.as_slice())?;
            assert!(rt; reason.is_some(), "{line}");
        }
    }
    Ok(())
}

#[test]
fn every_refused_line_has_a_reason(rt: HostRuntime) -> Result<(), Fail> {
    let alloc = rt.alloc();
    check_reasons(&rt, alloc, &lines::NAMES)?;
    check_reasons(&rt, alloc, &lines::INFO_1)?;
    check_reasons(&rt, alloc, &lines::INFO_2)?;
    check_reasons(&rt, alloc, &lines::INFO_3)?;
    check_reasons(&rt, alloc, &lines::CAT)?;
    check_reasons(&rt, alloc, &lines::FORMAT_1)?;
    check_reasons(&rt, alloc, &lines::FORMAT_2)?;
    check_reasons(&rt, alloc, &lines::SECTOR)?;
    check_reasons(&rt, alloc, &lines::PASSWD)?;
    check_reasons(&rt, alloc, &lines::RESTORE)?;
    check_reasons(&rt, alloc, &lines::EXPAND)?;
    check_reasons(&rt, alloc, &lines::SERVE)?;
    check_reasons(&rt, alloc, &lines::DRILL)?;
    assert_eq!(rt; reason_of(alloc, &[])?, Some(Reason::Nothing));
    Ok(())
}

#[test]
fn the_first_reason_is_the_leftmost(rt: HostRuntime) -> Result<(), Fail> {
    let alloc = rt.alloc();
    for (line, want) in [
        ("dog|C1", Reason::NoCommand("dog")),
        (
            "info|C1|--pasword=x",
            Reason::NoOption("--pasword=x", Some("password")),
        ),
        ("info|C1|--PIM|1", Reason::NoOption("--PIM", Some("pim"))),
        ("info|C1|--zzz", Reason::NoOption("--zzz", None)),
        (
            "info|C1|--Back-up",
            Reason::NoOption("--Back-up", Some("backup")),
        ),
        ("info|C1|--pin=1", Reason::NoOption("--pin=1", Some("pim"))),
        (
            "info|C1|--passwd-file=f",
            Reason::NoOption("--passwd-file=f", Some("password-file")),
        ),
        (
            "info|C1|--passwordfile|f",
            Reason::NoOption("--passwordfile", Some("password-file")),
        ),
        (
            "info|C1|--random_file|f",
            Reason::NoOption("--random_file", None),
        ),
        ("info|C1|--key-file|f", Reason::NoOption("--key-file", None)),
        (
            "restore|C1|--random_file|f",
            Reason::NoOption("--random_file", Some("random-file")),
        ),
        ("info|C1|-p", Reason::NoOption("-p", None)),
        ("info|C1|C2|--zzz", Reason::TooMany("C2")),
        ("info|C1|--password=x|--pim|1|C2", Reason::TooMany("C2")),
        (
            "info|C1|--password|correct|horse",
            Reason::AfterPassword("password"),
        ),
        (
            "passwd|--new=correct|horse|battery|C1",
            Reason::AfterPassword("new"),
        ),
        ("info|C1|--pim=1|--pim=1|--zzz", Reason::Twice("pim")),
        ("info|C1|--backup|--backup", Reason::Twice("backup")),
        ("info|C1|--password", Reason::NoValue("password")),
        ("info|C1|--password|--pim=1", Reason::NoValue("password")),
        ("info|C1|--backup=1", Reason::FlagValue("backup")),
        ("serve|C1|--handshake=1", Reason::FlagValue("handshake")),
        (
            "serve|C1|--handshakes",
            Reason::NoOption("--handshakes", Some("handshake")),
        ),
        ("info|--password=x", Reason::NoPosition("PATH")),
        ("cat|C1|0|--password=x", Reason::NoPosition("COUNT")),
        ("info|C1", Reason::NoSuchOption("password")),
        (
            "info|C1|--password=",
            Reason::Value("password", Fault::Password(0)),
        ),
        (
            "cat|C1|0|1k|--password=x",
            Reason::Value("COUNT", Fault::Number),
        ),
        (
            "info|C1|--password=x|--kind=all",
            Reason::Value("kind", Fault::Kind),
        ),
        (
            "expand|C1|--size=1|--password=x|--random=0g",
            Reason::NoSuchOption("no-hidden"),
        ),
        (
            "restore|C1|--password=x|--random=0g",
            Reason::Value("random", Fault::Key(2, 1)),
        ),
        (
            "serve|C1|--password=x|--workers=0",
            Reason::Value("workers", Fault::Range(1, 8)),
        ),
        ("serve|C1|--password=x|--protect-pim=1", Reason::PimAlone),
        (
            "serve|C1|--password=x|--protect=y|--kind=hidden",
            Reason::ProtectHidden,
        ),
    ] {
        let words = words_of(alloc, line)?;
        assert_eq!(rt; reason_of(alloc, words.as_slice())?, Some(want), "{line}");
    }
    Ok(())
}
