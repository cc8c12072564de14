//! The `clap` command of a form, and what it reads of the arguments.
ghost use Rattle.std.specs.Prelude.{◌≡◌, ◌≤◌, IfOk, map, string_bytes, Err, true, false, length};
ghost use Rattle.std.specs.Prelude.{None, Some};
ghost use Rattle.clap.specs.Walk.{rule_of, texts};
ghost use Rattle.clap.specs.Values.{kind_of};
ghost use Rattle.clap.specs.declared.error.kind.ErrorKind.TheVariants.{OutOfMemory};
ghost use Rattle.clap.specs.Simple.{app_of};
ghost use Rattle.cmd_words.specs.Line.{read};
ghost use Rattle.cmd_words.specs.Laws.{app_of as app_by, flag_rule, form_of, is_apart};
ghost use Rattle.cmd_words.specs.Laws.{option_rule, place_rule, uses_found, with_rules};

use crate::error::WordsError;
use crate::form::Form;
use crate::plain::has_long_words;
use clap::error::ErrorKind;
use clap::{Arg, ArgAction, ArgMatches, Command, Error};
use std::alloc::{AllocError, Global};

/// What the arguments of a form give.
pub(crate) fn read_uses<'a>(
    alloc: Global,
    form: Form,
    words: &'a [String],
) -> Result<ArgMatches<'a>, WordsError>
    requires few { length form.positions.now ≤ 3 }
    requires apart { is_apart (form_of form) ≡ true }
    ensures uses { IfOk result (λ m.
        read (form_of form) (map string_bytes words.now) ≡ Some (uses_found m)) }
    ensures usage { result ≡ Err WordsError.Usage
        → read (form_of form) (map string_bytes words.now) ≡ None }
{
    if !has_long_words(words) {
        return Err(WordsError::Usage);
    }
    let Ok(command) = command_of(alloc, form) else {
        return Err(WordsError::NoMemory);
    };
    match command.try_get_matches_from(words) {
        Ok(matches) => Ok(matches),
        Err(error) => Err(cause_of(&error)),
    }
}

fn cause_of(error: &Error) -> WordsError
    ensures { result ≡ WordsError.Usage → kind_of error.now ≡ OutOfMemory → ⊥ }
{
    match error.kind() {
        ErrorKind::OutOfMemory => WordsError::NoMemory,
        _ => WordsError::Usage,
    }
}

fn command_of<'a>(alloc: Global, form: Form) -> Result<Command<'a>, AllocError>
    ensures { IfOk result (λ c. app_of c ≡ app_by (form_of form)) }
{
    let command = Command::new(alloc, "vcserve")
        .no_binary_name(true)
        .disable_help_flag(true);
    let command = with_options(alloc, command, form.options)?;
    let command = with_flags(alloc, command, form.flags)?;
    with_places(alloc, command, form.positions)
}

fn with_options<'a>(
    alloc: Global,
    mut command: Command<'a>,
    names: &'static [&'static str],
) -> Result<Command<'a>, AllocError>
    ensures { IfOk result (λ c. app_of c
        ≡ with_rules (app_of command.entry) (map option_rule (texts names.now))) }
{
    for name in names {
        command = command.arg(option(alloc, name))?;
    }
    Ok(command)
}

fn option<'a>(alloc: Global, name: &'a str) -> Arg<'a>
    ensures rule { rule_of result ≡ option_rule name.now }
    ensures local { result.global ≡ false }
{
    Arg::new(alloc, name).long(name).action(ArgAction::Set)
}

fn with_flags<'a>(
    alloc: Global,
    mut command: Command<'a>,
    names: &'static [&'static str],
) -> Result<Command<'a>, AllocError>
    ensures { IfOk result (λ c. app_of c
        ≡ with_rules (app_of command.entry) (map flag_rule (texts names.now))) }
{
    for name in names {
        command = command.arg(flag(alloc, name))?;
    }
    Ok(command)
}

fn flag<'a>(alloc: Global, name: &'a str) -> Arg<'a>
    ensures rule { rule_of result ≡ flag_rule name.now }
    ensures local { result.global ≡ false }
{
    Arg::new(alloc, name)
        .long(name)
        .num_args(0)
        .action(ArgAction::Set)
}

fn with_places<'a>(
    alloc: Global,
    mut command: Command<'a>,
    names: &'static [&'static str],
) -> Result<Command<'a>, AllocError>
    ensures { IfOk result (λ c. app_of c
        ≡ with_rules (app_of command.entry) (map place_rule (texts names.now))) }
{
    for name in names {
        command = command.arg(place(alloc, name))?;
    }
    Ok(command)
}

fn place<'a>(alloc: Global, name: &'a str) -> Arg<'a>
    ensures rule { rule_of result ≡ place_rule name.now }
    ensures local { result.global ≡ false }
{
    Arg::new(alloc, name).action(ArgAction::Set)
}
