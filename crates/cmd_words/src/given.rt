//! What is given: the value of each position and option, and the flags.
ghost use Rattle.std.specs.Prelude.{◌≡◌, ◌≤◌, ◌<◌, ◌^◌, IfSome, codes, option_map};
ghost use Rattle.kdf_hmac.specs.Pbkdf2.{IsPim};
ghost use Rattle.cmd_words.specs.Line.{algorithm_of, choice_of, drill_number_of, has_handshake, helpers_of};
ghost use Rattle.cmd_words.specs.Line.{is_backup, new_prf_of, no_hidden_of, number_of, password_of, perhaps};
ghost use Rattle.cmd_words.specs.Line.{password_in, pim_in, pim_of, prf_of, random_of, value_of};
ghost use Rattle.cmd_words.specs.Line.{sector_of, workers_of};
ghost use Rattle.vc_layout.specs.Layout.{IsSectorSize};
ghost use Rattle.cmd_words.specs.Laws.{uses_found};

use crate::choice::Choice;
use crate::values::{
    choice_in, number_in, number_within, password_in, pim_in, random_in, sector_in, small_within,
};
use algorithm_names::Algorithm;
use clap::ArgMatches;
use kdf_hmac::{Password, Prf};

/// What is given under a name. A flag has the empty value.
pub(crate) fn value<'a>(matches: &ArgMatches<'a>, name: &str) -> Option<&'a str>
    ensures { option_map (λ s. s.now) result ≡ value_of name.now (uses_found matches.now) }
{
    match matches.get_str(name) {
        Some(text) => Some(text),
        None if matches.contains_id(name) => Some(""),
        None => None,
    }
}

pub(crate) fn is_backup(matches: &ArgMatches<'_>) -> bool
    ensures { result ≡ is_backup (uses_found matches.now) }
{
    value(matches, "backup").is_some()
}

pub(crate) fn has_handshake(matches: &ArgMatches<'_>) -> bool
    ensures { result ≡ has_handshake (uses_found matches.now) }
{
    value(matches, "handshake").is_some()
}

pub(crate) fn no_hidden_of(matches: &ArgMatches<'_>) -> Option<bool>
    ensures { result ≡ no_hidden_of (uses_found matches.now) }
{
    if value(matches, "no-hidden").is_some() {
        Some(true)
    } else {
        None
    }
}

pub(crate) fn number_of(matches: &ArgMatches<'_>, name: &str) -> Option<u64>
    ensures { result ≡ number_of name.now (uses_found matches.now) }
{
    number_in(value(matches, name)?)
}

pub(crate) fn drill_number_of(matches: &ArgMatches<'_>) -> Option<u64>
    ensures value { result ≡ drill_number_of (uses_found matches.now) }
    ensures limit { IfSome result (λ n. n < 2 ^ 32) }
{
    number_within(0, 0xffff_ffff, value(matches, "N")?)
}

pub(crate) fn password_of(matches: &ArgMatches<'_>, name: &str) -> Option<Password>
    ensures { result ≡ password_of name.now (uses_found matches.now) }
{
    password_in(value(matches, name)?)
}

pub(crate) fn random_of(matches: &ArgMatches<'_>) -> Option<[u8; 32]>
    ensures { result ≡ random_of (uses_found matches.now) }
{
    random_in(value(matches, "random")?)
}

pub(crate) fn pim_of(matches: &ArgMatches<'_>, name: &str) -> Option<u32>
    ensures value { result ≡ pim_of name.now (uses_found matches.now) }
    ensures limit { IfSome result IsPim }
{
    match value(matches, name) {
        Some(text) => pim_in(text),
        None => Some(0),
    }
}

pub(crate) fn choice_of(matches: &ArgMatches<'_>) -> Option<Choice>
    ensures { result ≡ choice_of (uses_found matches.now) }
{
    match value(matches, "kind") {
        Some(text) => choice_in(text),
        None => Some(Choice::Any),
    }
}

pub(crate) fn prf_of(matches: &ArgMatches<'_>) -> Option<Prf>
    ensures { result ≡ prf_of (uses_found matches.now) }
{
    match value(matches, "prf") {
        Some(text) => Prf::from_name(text),
        None => Some(Prf::Sha512),
    }
}

pub(crate) fn new_prf_of(matches: &ArgMatches<'_>) -> Option<Option<Prf>>
    ensures { result ≡ new_prf_of (uses_found matches.now) }
{
    match value(matches, "new-prf") {
        Some(text) => Some(Some(Prf::from_name(text)?)),
        None => Some(None),
    }
}

pub(crate) fn algorithm_of(matches: &ArgMatches<'_>) -> Option<Algorithm>
    ensures { result ≡ algorithm_of (uses_found matches.now) }
{
    match value(matches, "algorithm") {
        Some(text) => Algorithm::from_name(text),
        None => Some(Algorithm::Aes),
    }
}

pub(crate) fn sector_of(matches: &ArgMatches<'_>) -> Option<u32>
    ensures value { result ≡ sector_of (uses_found matches.now) }
    ensures sizes { IfSome result IsSectorSize }
{
    match value(matches, "sector") {
        Some(text) => sector_in(text),
        None => Some(512),
    }
}

pub(crate) fn helpers_of(matches: &ArgMatches<'_>) -> Option<u32>
    ensures value { result ≡ helpers_of (uses_found matches.now) }
    ensures limit { IfSome result (λ n. n ≤ 8) }
{
    match value(matches, "helpers") {
        Some(text) => small_within(0, 8, text),
        None => Some(2),
    }
}

pub(crate) fn workers_of(matches: &ArgMatches<'_>) -> Option<u32>
    ensures value { result ≡ workers_of (uses_found matches.now) }
    ensures least { IfSome result (λ n. 1 ≤ n) }
    ensures limit { IfSome result (λ n. n ≤ 8) }
{
    match value(matches, "workers") {
        Some(text) => small_within(1, 8, text),
        None => Some(4),
    }
}

pub(crate) fn protect_password_of(matches: &ArgMatches<'_>) -> Option<Option<Password>>
    ensures { result ≡ perhaps password_in (value_of (codes "protect") (uses_found matches.now)) }
{
    match value(matches, "protect") {
        Some(text) => Some(Some(password_in(text)?)),
        None => Some(None),
    }
}

pub(crate) fn protect_pim_of(matches: &ArgMatches<'_>) -> Option<Option<u32>>
    ensures value { result ≡ perhaps pim_in (value_of (codes "protect-pim") (uses_found matches.now)) }
    ensures limit { IfSome result (λ pim. IfSome pim IsPim) }
{
    match value(matches, "protect-pim") {
        Some(text) => Some(Some(pim_in(text)?)),
        None => Some(None),
    }
}
