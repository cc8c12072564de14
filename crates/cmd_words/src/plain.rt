//! Arguments that `clap` would read in a way of its own.
ghost use Rattle.std.specs.Prelude.{◌≡◌, map, string_bytes};
ghost use Rattle.std.specs.List.{list_all};
ghost use Rattle.cmd_words.specs.Laws.{is_long_or_plain};

/// Whether each argument that begins with a hyphen begins with two and has more after them. A
/// parser of options takes `-` for a value, `--` for the end of all options, and `-x` for a bundle
/// of flags.
pub(crate) fn has_long_words(words: &[String]) -> bool
    ensures { result ≡ list_all is_long_or_plain (map string_bytes words.now) }
{
    words.iter().all(|word| is_long_or_plain(word.as_str()))
}

fn is_long_or_plain(word: &str) -> bool
    ensures { result ≡ is_long_or_plain word.now }
{
    match word.as_bytes() {
        [b'-', b'-', _, ..] => true,
        [b'-', ..] => false,
        _ => true,
    }
}
