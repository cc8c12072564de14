//! Why arguments are no command line, for a program that tells a person.
//!
//! `read_words` alone says which arguments are refused. This is asked of those only, and returns the first
//! thing that it finds amiss: in the arguments from the left, then what is missing, then the values, by the
//! functions that `read_words` reads values with. So it can name a wrong reason, but can't accept what is refused.

use crate::choice::Choice;
use crate::form::{Form, command_named, form_of};
use crate::values::{
    choice_in, number_in, number_within, password_in, pim_in, random_in, sector_in, small_within,
};
use algorithm_names::Algorithm;
use kdf_hmac::Prf;
use std::alloc::{AllocError, Global};

/// What is amiss. Names are those of the command's options and positions, without hyphens.
#[derive(Clone, Copy, Debug, PartialEq, Eq)]
pub enum Reason<'a> {
    /// There is no argument.
    Nothing,
    /// The first argument is no command.
    NoCommand(&'a str),
    /// The argument begins with a hyphen and is no option of the command, but perhaps meant to be this one.
    NoOption(&'a str, Option<&'static str>),
    /// The argument is a position too many.
    TooMany(&'a str),
    /// A position too many that follows the value of this option, which is a password: perhaps a part of it.
    AfterPassword(&'static str),
    /// The option or flag is given twice.
    Twice(&'static str),
    /// The option is the last argument, or the argument after it begins with a hyphen.
    NoValue(&'static str),
    /// The flag has a value.
    FlagValue(&'static str),
    /// The position is missing.
    NoPosition(&'static str),
    /// The option or flag is missing.
    NoSuchOption(&'static str),
    /// The value is none that the option or the position may have.
    Value(&'static str, Fault),
    /// `--protect-pim` is given, and `--protect` isn't.
    PimAlone,
    /// `--protect` is given with `--kind hidden`.
    ProtectHidden,
}

/// What is amiss with a value. No secret is told: of a secret only its length in bytes.
#[derive(Clone, Copy, Debug, PartialEq, Eq)]
pub enum Fault {
    /// It isn't 1 to 20 decimal digits of a number below 2^64.
    Number,
    /// It isn't a number from the first to the second.
    Range(u64, u64),
    /// A password of so many bytes, which aren't 1 to 128.
    Password(usize),
    /// A random key of so many characters, of which so many are hexadecimal digits.
    Key(usize, usize),
    /// It isn't a name of a hash.
    Prf,
    /// It isn't a name of an algorithm.
    Algorithm,
    /// It isn't a size of a sector.
    Sector,
    /// It isn't a kind of header.
    Kind,
}

// A position, an option or a flag that is given, with its value.
#[derive(Clone, Copy)]
struct Use<'a> {
    name: &'static str,
    value: &'a str,
}

// What an argument is by itself.
enum Seen<'a> {
    Position,
    Awaits(&'static str),
    Gives(Use<'a>),
    Amiss(Reason<'a>),
}

/// The reason why these arguments are refused, those after the program's name. `None` if none is found.
pub fn reason_of<'a>(alloc: Global, words: &'a [String]) -> Result<Option<Reason<'a>>, AllocError> {
    let Some((first, rest)) = words.split_first() else {
        return Ok(Some(Reason::Nothing));
    };
    let Some(name) = command_named(first.as_str()) else {
        return Ok(Some(Reason::NoCommand(first.as_str())));
    };
    let form = form_of(name);
    let mut uses = Vec::new(alloc);
    if let Some(reason) = amiss_in(form, rest, &mut uses)? {
        return Ok(Some(reason));
    }
    let uses = uses.as_slice();
    if let Some(reason) = missing_in(form, uses) {
        return Ok(Some(reason));
    }
    for given in uses {
        if let Some(fault) = fault_of(*given) {
            return Ok(Some(Reason::Value(given.name, fault)));
        }
    }
    Ok(together(uses))
}

// Notes what is given, up to what is amiss.
fn amiss_in<'a>(
    form: Form,
    words: &'a [String],
    uses: &mut Vec<Use<'a>>,
) -> Result<Option<Reason<'a>>, AllocError> {
    let mut awaiting = None;
    // The option of a password, if only positions came after that.
    let mut password = None;
    let mut place: usize = 0;
    for word in words {
        let word = word.as_str();
        let given = match awaiting {
            Some(name) if word.starts_with('-') => return Ok(Some(Reason::NoValue(name))),
            Some(name) => Use { name, value: word },
            None => match read_alone(form, word) {
                Seen::Amiss(reason) => return Ok(Some(reason)),
                Seen::Awaits(name) => {
                    awaiting = Some(name);
                    continue;
                }
                Seen::Gives(given) => given,
                Seen::Position => {
                    let Some(name) = form.positions.get(place) else {
                        return Ok(Some(too_many(word, password)));
                    };
                    place = place.saturating_add(1);
                    Use { name, value: word }
                }
            },
        };
        awaiting = None;
        if known(form.positions, given.name).is_none() {
            password = known(&["password", "new", "protect"], given.name);
        }
        if value_in(uses.as_slice(), given.name).is_some() {
            return Ok(Some(Reason::Twice(given.name)));
        }
        uses.push(given)?;
    }
    match awaiting {
        Some(name) => Ok(Some(Reason::NoValue(name))),
        None => Ok(None),
    }
}

fn too_many<'a>(word: &'a str, password: Option<&'static str>) -> Reason<'a> {
    match password {
        Some(name) => Reason::AfterPassword(name),
        None => Reason::TooMany(word),
    }
}

fn read_alone<'a>(form: Form, word: &'a str) -> Seen<'a> {
    if !word.starts_with('-') {
        return Seen::Position;
    }
    let Some(text) = word.strip_prefix("--") else {
        return Seen::Amiss(Reason::NoOption(word, None));
    };
    let (name, value) = match text.split_once('=') {
        Some((name, value)) => (name, Some(value)),
        None => (text, None),
    };
    match (known(form.options, name), known(form.flags, name), value) {
        (Some(name), _, Some(value)) => Seen::Gives(Use { name, value }),
        (Some(name), _, None) => Seen::Awaits(name),
        (None, Some(name), None) => Seen::Gives(Use { name, value: "" }),
        (None, Some(name), Some(_)) => Seen::Amiss(Reason::FlagValue(name)),
        (None, None, _) => Seen::Amiss(Reason::NoOption(word, nearest(form, name))),
    }
}

fn known(names: &'static [&'static str], name: &str) -> Option<&'static str> {
    for known in names {
        if *known == name {
            return Some(known);
        }
    }
    None
}

// Options in whose place a program may take one that names a file: the option and that one.
const FILE_OPTIONS: [(&str, &str); 4] = [
    ("password", "password-file"),
    ("new", "new-file"),
    ("protect", "protect-file"),
    ("random", "random-file"),
];

// The option or flag that is most like a name, if one begins or ends like it. An option that names a file is one
// only if the name is like the option that it stands for, too.
fn nearest(form: Form, name: &str) -> Option<&'static str> {
    let mut best = (None, 0);
    for known in form.options {
        best = better(best, known, name);
    }
    for known in form.flags {
        best = better(best, known, name);
    }
    for (option, file_option) in &FILE_OPTIONS {
        if known(form.options, option).is_some() && is_like(option, name) {
            best = better(best, file_option, name);
        }
    }
    best.0
}

// The best so far with its likeness, or this name if it is more like the wanted one.
fn better(
    best: (Option<&'static str>, usize),
    known: &'static str,
    name: &str,
) -> (Option<&'static str>, usize) {
    let like = likeness(known, name);
    if like > best.1 && is_like(known, name) {
        return (Some(known), like);
    }
    best
}

// Short names are like one another by fewer bytes.
fn is_like(known: &str, name: &str) -> bool {
    let least = if known.len() < 4 { 2 } else { 3 };
    likeness(known, name) >= least
}

// How many bytes are the same at the start and at the end, in either case of letters.
fn likeness(left: &str, right: &str) -> usize {
    let (left, right) = (left.as_bytes(), right.as_bytes());
    let mut at_start: usize = 0;
    for (a, b) in left.iter().zip(right) {
        if !a.eq_ignore_ascii_case(b) {
            break;
        }
        at_start = at_start.saturating_add(1);
    }
    let mut at_end: usize = 0;
    for (a, b) in left.iter().rev().zip(right.iter().rev()) {
        if !a.eq_ignore_ascii_case(b) {
            break;
        }
        at_end = at_end.saturating_add(1);
    }
    at_end.saturating_add(at_start)
}

fn value_in<'a>(uses: &[Use<'a>], name: &str) -> Option<&'a str> {
    for given in uses {
        if given.name == name {
            return Some(given.value);
        }
    }
    None
}

// The first position, option or flag that has no default and isn't given.
fn missing_in<'a>(form: Form, uses: &[Use<'a>]) -> Option<Reason<'a>> {
    for name in form.positions {
        if value_in(uses, name).is_none() {
            return Some(Reason::NoPosition(name));
        }
    }
    for name in form.options {
        let is_needed = matches!(*name, "size" | "password" | "new" | "random");
        if is_needed && value_in(uses, name).is_none() {
            return Some(Reason::NoSuchOption(name));
        }
    }
    for name in form.flags {
        if *name == "no-hidden" && value_in(uses, name).is_none() {
            return Some(Reason::NoSuchOption(name));
        }
    }
    None
}

fn fault_of(given: Use<'_>) -> Option<Fault> {
    let value = given.value;
    let (is_right, fault) = match given.name {
        "size" | "FIRST" | "COUNT" => (number_in(value).is_some(), Fault::Number),
        "N" => {
            let most = 0xffff_ffff;
            (
                number_within(0, most, value).is_some(),
                Fault::Range(0, most),
            )
        }
        "password" | "new" | "protect" => {
            (password_in(value).is_some(), Fault::Password(value.len()))
        }
        "random" => (
            random_in(value).is_some(),
            Fault::Key(value.len(), digits_in(value)),
        ),
        "pim" | "new-pim" | "protect-pim" => {
            let most = u64::from(kdf_hmac::GREATEST_PIM);
            (pim_in(value).is_some(), Fault::Range(0, most))
        }
        "prf" | "new-prf" => (Prf::from_name(value).is_some(), Fault::Prf),
        "algorithm" => (Algorithm::from_name(value).is_some(), Fault::Algorithm),
        "sector" => (sector_in(value).is_some(), Fault::Sector),
        "kind" => (choice_in(value).is_some(), Fault::Kind),
        "helpers" => (small_within(0, 8, value).is_some(), Fault::Range(0, 8)),
        "workers" => (small_within(1, 8, value).is_some(), Fault::Range(1, 8)),
        _ => (true, Fault::Number),
    };
    if is_right { None } else { Some(fault) }
}

fn digits_in(text: &str) -> usize {
    let mut count: usize = 0;
    for byte in text.as_bytes() {
        if byte.is_ascii_hexdigit() {
            count = count.saturating_add(1);
        }
    }
    count
}

// What may not be given together, or not alone.
fn together<'a>(uses: &[Use<'a>]) -> Option<Reason<'a>> {
    let is_protected = value_in(uses, "protect").is_some();
    if !is_protected && value_in(uses, "protect-pim").is_some() {
        return Some(Reason::PimAlone);
    }
    match value_in(uses, "kind") {
        Some(kind) if is_protected && choice_in(kind) == Some(Choice::Hidden) => {
            Some(Reason::ProtectHidden)
        }
        _ => None,
    }
}
