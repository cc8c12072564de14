//! Which headers a user wants tried.
ghost use Rattle.std.specs.Prelude.{◌≡◌, ◌<◌};
ghost use Rattle.cmd_words.specs.Line.{kind_of};

use vc_layout::Kind;

/// The value of `--kind`.
#[derive(Clone, Copy, Debug, PartialEq, Eq)]
pub enum Choice {
    Any,
    Standard,
    Hidden,
}

/// The kind of a choice, at the backup headers if `backup` is set.
pub fn kind_of(choice: Choice, backup: bool) -> Kind
    ensures { result ≡ kind_of choice backup }
{
    match choice {
        Choice::Any if backup => Kind::AnyBackup,
        Choice::Any => Kind::Any,
        Choice::Standard if backup => Kind::StandardBackup,
        Choice::Standard => Kind::StandardOnly,
        Choice::Hidden if backup => Kind::HiddenBackup,
        Choice::Hidden => Kind::HiddenOnly,
    }
}
