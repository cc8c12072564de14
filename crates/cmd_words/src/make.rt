//! The commands, made of what is given.
ghost use Rattle.std.specs.Prelude.{◌≡◌, IfSome, Some, option_map, string_bytes};
ghost use Rattle.kdf_hmac.specs.Pbkdf2.{IsPim};
ghost use Rattle.cmd_words.specs.Line.{cat_of, drill_of, expand_of, format, hide, info_of, made_of, passwd_of};
ghost use Rattle.cmd_words.specs.Line.{path_in, protect_of, protected, restore_of, serve_of};
ghost use Rattle.cmd_words.specs.Line.{served, tried, tried_backup, tried_by_serve};
ghost use Rattle.cmd_words.specs.Meaning.{meaning};
ghost use Rattle.cmd_words.specs.Ranges.{IsInRange};
ghost use Rattle.cmd_words.specs.Laws.{uses_found};

use crate::choice::{Choice, kind_of};
use crate::command::Command;
use crate::given::{
    algorithm_of, choice_of, drill_number_of, has_handshake, helpers_of, is_backup, new_prf_of,
    no_hidden_of, number_of, password_of, pim_of, prf_of, protect_password_of, protect_pim_of,
    random_of, sector_of, workers_of,
};
use clap::ArgMatches;
use kdf_hmac::Password;
use vc_layout::Kind;

// ---- which headers are tried

fn tried(matches: &ArgMatches<'_>) -> Option<Kind>
    ensures { result ≡ tried (uses_found matches.now) }
{
    let choice = choice_of(matches)?;
    Some(kind_of(choice, is_backup(matches)))
}

fn tried_backup(matches: &ArgMatches<'_>) -> Option<Kind>
    ensures { result ≡ tried_backup (uses_found matches.now) }
{
    let choice = choice_of(matches)?;
    Some(kind_of(choice, true))
}

fn tried_by_serve(matches: &ArgMatches<'_>, protect: &Option<(Password, u32)>) -> Option<Kind>
    requires { protect_of (uses_found matches.now) ≡ Some protect.now }
    ensures { result ≡ tried_by_serve (uses_found matches.now) }
{
    let choice = served(choice_of(matches)?, protect)?;
    Some(kind_of(choice, is_backup(matches)))
}

// ---- the protecting password

fn protect_of(matches: &ArgMatches<'_>) -> Option<Option<(Password, u32)>>
    ensures value { result ≡ protect_of (uses_found matches.now) }
    ensures limit { IfSome result (λ p. IfSome p (λ q. IsPim q.1)) }
{
    let password = protect_password_of(matches)?;
    let pim = protect_pim_of(matches)?;
    protected(password, pim)
}

// The protecting password with its PIM, which may not be there alone.
fn protected(password: Option<Password>, pim: Option<u32>) -> Option<Option<(Password, u32)>>
    requires { IfSome pim IsPim }
    ensures value { result ≡ protected password pim }
    ensures limit { IfSome result (λ p. IfSome p (λ q. IsPim q.1)) }
{
    match (password, pim) {
        (Some(password), Some(pim)) => Some(Some((password, pim))),
        (Some(password), None) => Some(Some((password, 0))),
        (None, Some(_)) => None,
        (None, None) => Some(None),
    }
}

// What a password opens beside a protecting one, which opens the hidden volume.
fn served(choice: Choice, protect: &Option<(Password, u32)>) -> Option<Choice>
    ensures { result ≡ served choice protect.now }
{
    match (choice, protect) {
        (choice, None) => Some(choice),
        (Choice::Hidden, Some(_)) => None,
        (_, Some(_)) => Some(Choice::Standard),
    }
}

// ---- the commands

/// `format`.
pub(crate) fn make_format(matches: &ArgMatches<'_>, path: Option<String>) -> Option<Command>
    requires { option_map string_bytes path ≡ path_in (uses_found matches.now) }
    ensures command { option_map meaning result ≡ made_of format (uses_found matches.now) }
    ensures in_range { IfSome result (λ c. IsInRange (meaning c)) }
{
    let path = path?;
    let size = number_of(matches, "size")?;
    let password = password_of(matches, "password")?;
    let random = random_of(matches)?;
    let pim = pim_of(matches, "pim")?;
    let prf = prf_of(matches)?;
    let algorithm = algorithm_of(matches)?;
    let sector = sector_of(matches)?;
    Some(Command::Format {
        path,
        size,
        password,
        random,
        pim,
        prf,
        algorithm,
        sector,
    })
}

/// `hide`.
pub(crate) fn make_hide(matches: &ArgMatches<'_>, path: Option<String>) -> Option<Command>
    requires { option_map string_bytes path ≡ path_in (uses_found matches.now) }
    ensures command { option_map meaning result ≡ made_of hide (uses_found matches.now) }
    ensures in_range { IfSome result (λ c. IsInRange (meaning c)) }
{
    let path = path?;
    let size = number_of(matches, "size")?;
    let password = password_of(matches, "password")?;
    let random = random_of(matches)?;
    let pim = pim_of(matches, "pim")?;
    let prf = prf_of(matches)?;
    let algorithm = algorithm_of(matches)?;
    let sector = sector_of(matches)?;
    Some(Command::Hide {
        path,
        size,
        password,
        random,
        pim,
        prf,
        algorithm,
        sector,
    })
}

/// `info`.
pub(crate) fn make_info(matches: &ArgMatches<'_>, path: Option<String>) -> Option<Command>
    requires { option_map string_bytes path ≡ path_in (uses_found matches.now) }
    ensures command { option_map meaning result ≡ info_of (uses_found matches.now) }
    ensures in_range { IfSome result (λ c. IsInRange (meaning c)) }
{
    let path = path?;
    let password = password_of(matches, "password")?;
    let pim = pim_of(matches, "pim")?;
    let kind = tried(matches)?;
    Some(Command::Info {
        path,
        password,
        pim,
        kind,
    })
}

/// `cat`.
pub(crate) fn make_cat(matches: &ArgMatches<'_>, path: Option<String>) -> Option<Command>
    requires { option_map string_bytes path ≡ path_in (uses_found matches.now) }
    ensures command { option_map meaning result ≡ cat_of (uses_found matches.now) }
    ensures in_range { IfSome result (λ c. IsInRange (meaning c)) }
{
    let path = path?;
    let first = number_of(matches, "FIRST")?;
    let count = number_of(matches, "COUNT")?;
    let password = password_of(matches, "password")?;
    let pim = pim_of(matches, "pim")?;
    let kind = tried(matches)?;
    Some(Command::Cat {
        path,
        first,
        count,
        password,
        pim,
        kind,
    })
}

/// `passwd`.
pub(crate) fn make_passwd(matches: &ArgMatches<'_>, path: Option<String>) -> Option<Command>
    requires { option_map string_bytes path ≡ path_in (uses_found matches.now) }
    ensures command { option_map meaning result ≡ passwd_of (uses_found matches.now) }
    ensures in_range { IfSome result (λ c. IsInRange (meaning c)) }
{
    let path = path?;
    let password = password_of(matches, "password")?;
    let new_password = password_of(matches, "new")?;
    let random = random_of(matches)?;
    let pim = pim_of(matches, "pim")?;
    let new_pim = pim_of(matches, "new-pim")?;
    let new_prf = new_prf_of(matches)?;
    let kind = tried(matches)?;
    Some(Command::Passwd {
        path,
        password,
        new_password,
        random,
        pim,
        new_pim,
        new_prf,
        kind,
    })
}

/// `restore`.
pub(crate) fn make_restore(matches: &ArgMatches<'_>, path: Option<String>) -> Option<Command>
    requires { option_map string_bytes path ≡ path_in (uses_found matches.now) }
    ensures command { option_map meaning result ≡ restore_of (uses_found matches.now) }
    ensures in_range { IfSome result (λ c. IsInRange (meaning c)) }
{
    let path = path?;
    let password = password_of(matches, "password")?;
    let random = random_of(matches)?;
    let pim = pim_of(matches, "pim")?;
    let kind = tried_backup(matches)?;
    Some(Command::Restore {
        path,
        password,
        random,
        pim,
        kind,
    })
}

/// `expand`.
pub(crate) fn make_expand(matches: &ArgMatches<'_>, path: Option<String>) -> Option<Command>
    requires { option_map string_bytes path ≡ path_in (uses_found matches.now) }
    ensures command { option_map meaning result ≡ expand_of (uses_found matches.now) }
    ensures in_range { IfSome result (λ c. IsInRange (meaning c)) }
{
    let path = path?;
    let size = number_of(matches, "size")?;
    let password = password_of(matches, "password")?;
    let random = random_of(matches)?;
    let pim = pim_of(matches, "pim")?;
    let no_hidden = no_hidden_of(matches)?;
    Some(Command::Expand {
        path,
        size,
        password,
        random,
        pim,
        no_hidden,
    })
}

/// `serve`.
pub(crate) fn make_serve(matches: &ArgMatches<'_>, path: Option<String>) -> Option<Command>
    requires { option_map string_bytes path ≡ path_in (uses_found matches.now) }
    ensures command { option_map meaning result ≡ serve_of (uses_found matches.now) }
    ensures in_range { IfSome result (λ c. IsInRange (meaning c)) }
{
    let path = path?;
    let password = password_of(matches, "password")?;
    let pim = pim_of(matches, "pim")?;
    let protect = protect_of(matches)?;
    let kind = tried_by_serve(matches, &protect)?;
    let helpers = helpers_of(matches)?;
    let workers = workers_of(matches)?;
    let handshake = has_handshake(matches);
    Some(Command::Serve {
        path,
        password,
        pim,
        kind,
        protect,
        helpers,
        workers,
        handshake,
    })
}

/// `drill`.
pub(crate) fn make_drill(matches: &ArgMatches<'_>) -> Option<Command>
    ensures command { option_map meaning result ≡ drill_of (uses_found matches.now) }
    ensures in_range { IfSome result (λ c. IsInRange (meaning c)) }
{
    let n = drill_number_of(matches)?;
    Some(Command::Drill { n })
}
