//! From arguments with files to arguments with secrets.
ghost use Rattle.std.specs.Prelude.{◌≡◌, ◌∷◌, ℕ, Err, IfOk, List, None, Some, map, option_map, string_bytes, true};
ghost use Rattle.std.specs.List.{list_all};
ghost use Rattle.secret_options.specs.Arguments.{Part as SpecPart, begins_with_hyphen, filled, held, meaning};
ghost use Rattle.secret_options.specs.Arguments.{names_no_file, parts, path_given, plain};
ghost use Rattle.secret_options.specs.Laws.{left, with_part};

use crate::part::Part;
use crate::secret::{Secret, option_of, secret_named};
use std::alloc::Global;

/// Why there are no such arguments.
#[derive(Clone, Copy, Debug, PartialEq, Eq)]
pub enum ArgumentsError {
    /// An option has no path, or a secret is missing.
    Missing,
    /// Out of memory.
    NoMemory,
}

// What the arguments so far leave to be read.
#[derive(Clone, Copy)]
enum State {
    Free,
    Path(Secret),
    Ended,
}

/// What each argument is.
pub fn parts_of(alloc: Global, words: &[String]) -> Result<Vec<Part>, ArgumentsError>
    ensures parts { IfOk result (λ ps. parts None (map string_bytes words.now) ≡ Some (map meaning ps.items)) }
    ensures missing { result ≡ Err ArgumentsError.Missing
        → parts None (map string_bytes words.now) ≡ None }
    ensures unchanged { list_all names_no_file (map string_bytes words.now) ≡ true
        → IfOk result (λ ps. map meaning ps.items ≡ map (λ w. plain w) (map string_bytes words.now)) }
{
    let mut found = Vec::new(alloc);
    let mut state = State::Free;
    for word in words {
        let (part, next) = step(alloc, state, word.as_str())?;
        if let Some(part) = part {
            found.push(part).map_err(|_| ArgumentsError::NoMemory)?;
        }
        state = next;
    }
    match state {
        State::Path(_) => Err(ArgumentsError::Missing),
        _ => Ok(found),
    }
}

// One argument more: the part that ends with it, and what it leaves.
#[tactic(auto, unfolding(crate::specs::Arguments::parts))]
fn step(alloc: Global, state: State, word: &str) -> Result<(Option<Part>, State), ArgumentsError>
    ensures step { IfOk result (λ r. (rest : List (List ℕ)) →
        left state (word.now ∷ rest) ≡ with_part r.0 (left r.1 rest)) }
    ensures missing { result ≡ Err ArgumentsError.Missing → (rest : List (List ℕ)) →
        left state (word.now ∷ rest) ≡ None }
{
    match state {
        State::Free if word == "--" => Ok((Some(plain(alloc, word)?), State::Ended)),
        State::Free => match path_given(word) {
            Some((secret, path)) => Ok((Some(held(alloc, secret, path)?), State::Free)),
            None => match secret_named(word) {
                Some(secret) => Ok((None, State::Path(secret))),
                None => Ok((Some(plain(alloc, word)?), State::Free)),
            },
        },
        State::Path(_) if begins_with_hyphen(word) => Err(ArgumentsError::Missing),
        State::Path(secret) => Ok((Some(held(alloc, secret, word)?), State::Free)),
        State::Ended => Ok((Some(plain(alloc, word)?), State::Ended)),
    }
}

fn begins_with_hyphen(word: &str) -> bool
    ensures { result ≡ begins_with_hyphen word.now }
{
    matches!(word.as_bytes(), [b'-', ..])
}

// The path in `--NAME-file=PATH`.
fn path_given(word: &str) -> Option<(Secret, &str)>
    ensures { option_map (λ r. (r.0, r.1.now)) result ≡ path_given word.now }
{
    let (name, path) = word.split_once('=')?;
    Some((secret_named(name)?, path))
}

fn plain(alloc: Global, word: &str) -> Result<Part, ArgumentsError>
    ensures part { IfOk result (λ p. meaning p ≡ plain word.now) }
    ensures memory { result ≡ Err ArgumentsError.Missing → ⊥ }
{
    match String::from_str(alloc, word) {
        Ok(word) => Ok(Part::Plain(word)),
        Err(_) => Err(ArgumentsError::NoMemory),
    }
}

fn held(alloc: Global, secret: Secret, path: &str) -> Result<Part, ArgumentsError>
    ensures part { IfOk result (λ p. meaning p ≡ held secret path.now) }
    ensures memory { result ≡ Err ArgumentsError.Missing → ⊥ }
{
    match String::from_str(alloc, path) {
        Ok(path) => Ok(Part::Held(secret, path)),
        Err(_) => Err(ArgumentsError::NoMemory),
    }
}

/// The secret whose option has no path, if `parts_of` returns Missing. For a program that tells a person.
pub fn without_path(words: &[String]) -> Option<Secret> {
    let mut awaiting = None;
    for word in words {
        let word = word.as_str();
        match awaiting {
            Some(secret) if begins_with_hyphen(word) => return Some(secret),
            Some(_) => awaiting = None,
            None if word == "--" => return None,
            None => awaiting = secret_named(word),
        }
    }
    awaiting
}

/// The arguments with these secrets in place of the files, in their order.
pub fn filled(
    alloc: Global,
    parts: &[Part],
    secrets: &[String],
) -> Result<Vec<String>, ArgumentsError>
    ensures words { IfOk result (λ ws.
        filled (map meaning parts.now) (map string_bytes secrets.now) ≡ Some (map string_bytes ws.items)) }
    ensures missing { result ≡ Err ArgumentsError.Missing
        → filled (map meaning parts.now) (map string_bytes secrets.now) ≡ None }
    ensures unchanged { (words : List (List ℕ)) → map meaning parts.now ≡ map (λ w. plain w) words
        → IfOk result (λ ws. map string_bytes ws.items ≡ words) }
{
    let mut words = Vec::new(alloc);
    let mut left = secrets;
    for part in parts {
        let (word, others) = filled_part(alloc, part, left)?;
        words.push(word).map_err(|_| ArgumentsError::NoMemory)?;
        left = others;
    }
    Ok(words)
}

// The argument of a part, and the secrets that are left for the others.
#[tactic(auto, unfolding(crate::specs::Arguments::filled))]
fn filled_part<'a>(
    alloc: Global,
    part: &Part,
    secrets: &'a [String],
) -> Result<(String, &'a [String]), ArgumentsError>
    ensures word { IfOk result (λ r. (ps : List SpecPart) →
        filled (meaning part.now ∷ ps) (map string_bytes secrets.now)
        ≡ option_map (λ ws. string_bytes r.0 ∷ ws) (filled ps (map string_bytes r.1.now))) }
    ensures missing { result ≡ Err ArgumentsError.Missing → (ps : List SpecPart) →
        filled (meaning part.now ∷ ps) (map string_bytes secrets.now) ≡ None }
{
    match part {
        Part::Plain(word) => match String::from_str(alloc, word.as_str()) {
            Ok(word) => Ok((word, secrets)),
            Err(_) => Err(ArgumentsError::NoMemory),
        },
        Part::Held(secret, _) => {
            let Some((text, others)) = secrets.split_first() else {
                return Err(ArgumentsError::Missing);
            };
            match option_of(alloc, *secret, text.as_str()) {
                Ok(word) => Ok((word, others)),
                Err(_) => Err(ArgumentsError::NoMemory),
            }
        }
    }
}
