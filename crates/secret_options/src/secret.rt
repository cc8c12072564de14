//! The secrets that a file can hold, and the options that they stand for.
ghost use Rattle.std.specs.Prelude.{◌≡◌, IfOk, Some, string_bytes};
ghost use Rattle.secret_options.specs.Arguments.{option_of, secret_named};

use std::alloc::{AllocError, Global};

/// A secret, named for the option that it is the value of.
#[derive(Clone, Copy, Debug, PartialEq, Eq)]
pub enum Secret {
    Password,
    New,
    Protect,
    Random,
}

/// The secret whose file this option names.
pub(crate) fn secret_named(name: &str) -> Option<Secret>
    ensures { result ≡ secret_named name.now }
{
    match name {
        "--password-file" => Some(Secret::Password),
        "--new-file" => Some(Secret::New),
        "--protect-file" => Some(Secret::Protect),
        "--random-file" => Some(Secret::Random),
        _ => None,
    }
}

impl Secret {
    /// The option that names a file with this secret.
    pub fn file_option(self) -> &'static str
        ensures { secret_named result.now ≡ Some self }
    {
        match self {
            Secret::Password => "--password-file",
            Secret::New => "--new-file",
            Secret::Protect => "--protect-file",
            Secret::Random => "--random-file",
        }
    }
}

/// The option that has this secret as its value, as one argument: a secret may begin with a hyphen.
pub(crate) fn option_of(alloc: Global, secret: Secret, text: &str) -> Result<String, AllocError>
    ensures { IfOk result (λ s. string_bytes s ≡ option_of secret text.now) }
{
    let start = match secret {
        Secret::Password => "--password=",
        Secret::New => "--new=",
        Secret::Protect => "--protect=",
        Secret::Random => "--random=",
    };
    let mut option = String::from_str(alloc, start)?;
    option.push_str(text)?;
    Ok(option)
}
