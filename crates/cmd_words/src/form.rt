//! The commands, and what each may have: the table of the definition, as code.
ghost use Rattle.std.specs.Prelude.{◌≡◌, ◌≤◌, length, option_map, true};
ghost use Rattle.cmd_words.specs.Line.{row_named};
ghost use Rattle.cmd_words.specs.Laws.{form_of, is_apart, row_by};

/// A command.
#[derive(Clone, Copy, Debug, PartialEq, Eq)]
pub(crate) enum Name {
    Format,
    Hide,
    Info,
    Cat,
    Passwd,
    Restore,
    Expand,
    Serve,
    Drill,
}

/// What a command may have: positional arguments, options and flags, by their names.
#[derive(Clone, Copy)]
pub(crate) struct Form {
    pub positions: &'static [&'static str],
    pub options: &'static [&'static str],
    pub flags: &'static [&'static str],
}

/// The command of a first argument.
pub(crate) fn command_named(name: &str) -> Option<Name>
    ensures { option_map row_by result ≡ row_named name.now }
{
    let name = match name {
        "format" => Name::Format,
        "hide" => Name::Hide,
        "info" => Name::Info,
        "cat" => Name::Cat,
        "passwd" => Name::Passwd,
        "restore" => Name::Restore,
        "expand" => Name::Expand,
        "serve" => Name::Serve,
        "drill" => Name::Drill,
        _ => return None,
    };
    Some(name)
}

/// What a command may have.
pub(crate) fn form_of(name: Name) -> Form
    ensures form { form_of result ≡ (row_by name).form }
    ensures apart { is_apart (form_of result) ≡ true }
    ensures few { length result.positions.now ≤ 3 }
{
    match name {
        Name::Format | Name::Hide => Form {
            positions: &["PATH"],
            options: &[
                "size",
                "password",
                "random",
                "pim",
                "prf",
                "algorithm",
                "sector",
            ],
            flags: &[],
        },
        Name::Info => Form {
            positions: &["PATH"],
            options: &["password", "pim", "kind"],
            flags: &["backup"],
        },
        Name::Cat => Form {
            positions: &["PATH", "FIRST", "COUNT"],
            options: &["password", "pim", "kind"],
            flags: &["backup"],
        },
        Name::Passwd => Form {
            positions: &["PATH"],
            options: &[
                "password", "new", "random", "pim", "new-pim", "new-prf", "kind",
            ],
            flags: &["backup"],
        },
        Name::Restore => Form {
            positions: &["PATH"],
            options: &["password", "random", "pim", "kind"],
            flags: &[],
        },
        Name::Expand => Form {
            positions: &["PATH"],
            options: &["size", "password", "random", "pim"],
            flags: &["no-hidden"],
        },
        Name::Serve => Form {
            positions: &["PATH"],
            options: &[
                "password",
                "pim",
                "kind",
                "protect",
                "protect-pim",
                "helpers",
                "workers",
            ],
            flags: &["backup", "handshake"],
        },
        Name::Drill => Form {
            positions: &["N"],
            options: &[],
            flags: &[],
        },
    }
}
