//! From the arguments to a command.
ghost use Rattle.std.specs.Prelude.{◌≡◌, Err, IfOk, None, Some, map, option_map, string_bytes};
ghost use Rattle.cmd_words.specs.Line.{line, path_in};
ghost use Rattle.cmd_words.specs.Meaning.{meaning};
ghost use Rattle.cmd_words.specs.Ranges.{IsInRange};
ghost use Rattle.cmd_words.specs.Laws.{made_by, uses_found};

use crate::command::Command;
use crate::error::WordsError;
use crate::form::{Name, command_named, form_of};
use crate::given::value;
use crate::make;
use crate::parse::read_uses;
use clap::ArgMatches;
use std::alloc::{AllocError, Global};

/// The command of these arguments, which are those after the program's name.
pub fn read_words(alloc: Global, words: &[String]) -> Result<Command, WordsError>
    ensures command { IfOk result (λ c. line (map string_bytes words.now) ≡ Some (meaning c)) }
    ensures usage { result ≡ Err WordsError.Usage → line (map string_bytes words.now) ≡ None }
    ensures in_range { IfOk result (λ c. IsInRange (meaning c)) }
{
    let Some((first, rest)) = words.split_first() else {
        return Err(WordsError::Usage);
    };
    let Some(name) = command_named(first.as_str()) else {
        return Err(WordsError::Usage);
    };
    let matches = read_uses(alloc, form_of(name), rest)?;
    make(alloc, name, &matches)
}

// The command of a name, made of what is given.
fn make(alloc: Global, name: Name, matches: &ArgMatches<'_>) -> Result<Command, WordsError>
    ensures command { IfOk result (λ c. made_by name (uses_found matches.now) ≡ Some (meaning c)) }
    ensures usage { result ≡ Err WordsError.Usage → made_by name (uses_found matches.now) ≡ None }
    ensures in_range { IfOk result (λ c. IsInRange (meaning c)) }
{
    let Ok(path) = path_of(alloc, matches) else {
        return Err(WordsError::NoMemory);
    };
    let command = match name {
        Name::Format => make::make_format(matches, path),
        Name::Hide => make::make_hide(matches, path),
        Name::Info => make::make_info(matches, path),
        Name::Cat => make::make_cat(matches, path),
        Name::Passwd => make::make_passwd(matches, path),
        Name::Restore => make::make_restore(matches, path),
        Name::Expand => make::make_expand(matches, path),
        Name::Serve => make::make_serve(matches, path),
        Name::Drill => make::make_drill(matches),
    };
    command.ok_or(WordsError::Usage)
}

fn path_of(alloc: Global, matches: &ArgMatches<'_>) -> Result<Option<String>, AllocError>
    ensures { IfOk result (λ p. option_map string_bytes p ≡ path_in (uses_found matches.now)) }
{
    match value(matches, "PATH") {
        Some(path) => Ok(Some(String::from_str(alloc, path)?)),
        None => Ok(None),
    }
}
