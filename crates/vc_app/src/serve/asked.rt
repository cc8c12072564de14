//! What `serve` is asked.
ghost use Rattle.std.specs.Prelude.{◌≡◌, ◌≤◌, IfSome, option_map};
ghost use Rattle.cmd_words.specs.Meaning.{meaning};
ghost use Rattle.cmd_words.specs.Ranges.{IsInRange};
ghost use Rattle.kdf_hmac.specs.Pbkdf2.{IsPim};
ghost use Rattle.vc_app.specs.Serve.{asked_by, hidden_kind, most_clients, protecting};

use crate::access::Access;
use cmd_words::Command;
use header_try::Kind;
use kdf_hmac::Password;

/// How many clients are served at most.
const MOST_CLIENTS: usize = 16;

/// What `serve` is asked: the header to open, the hidden one to protect, how many helpers take fragments, how many
/// workers derive the keys of headers, and whether clients begin with a handshake.
#[derive(Drop)]
pub struct Asked {
    pub access: Access,
    pub protect: Option<Access>,
    pub helpers: u32,
    pub workers: u32,
    pub handshake: bool,
}

impl Asked {
    // What a command asks of a call with so many clients, if it is one to serve them.
    pub(crate) fn of(command: Command, clients: usize) -> Option<Asked>
        requires { IsInRange (meaning command) }
        ensures asked { result ≡ asked_by clients (meaning command) }
        ensures some { IfSome result (λ a. 1 ≤ clients) }
        ensures few { IfSome result (λ a. clients ≤ most_clients) }
        ensures pim { IfSome result (λ a. IsPim a.access.pim) }
        ensures protect_pim { IfSome result (λ a. IfSome a.protect (λ p. IsPim p.pim)) }
        ensures helpers { IfSome result (λ a. a.helpers ≤ 8) }
        ensures workers { IfSome result (λ a. (1 ≤ a.workers) × (a.workers ≤ 8)) }
    {
        if clients < 1 || clients > MOST_CLIENTS {
            return None;
        }
        match command {
            Command::Serve {
                path: _path,
                password,
                pim,
                kind,
                protect,
                helpers,
                workers,
                handshake,
            } => {
                let access = Access {
                    password,
                    pim,
                    kind,
                };
                Some(Asked {
                    access,
                    protect: protecting(kind, protect),
                    helpers,
                    workers,
                    handshake,
                })
            }
            _ => None,
        }
    }
}

// What the protecting password opens: the hidden header beside the one that the kind opens.
fn protecting(kind: Kind, protect: Option<(Password, u32)>) -> Option<Access>
    ensures { result ≡ protecting kind protect }
{
    match protect {
        Some((password, pim)) => Some(Access {
            password,
            pim,
            kind: hidden_kind(kind),
        }),
        None => None,
    }
}

// The hidden header beside the one that the kind opens.
fn hidden_kind(kind: Kind) -> Kind
    ensures { result ≡ hidden_kind kind }
{
    match kind {
        Kind::Any | Kind::StandardOnly | Kind::HiddenOnly => Kind::HiddenOnly,
        Kind::AnyBackup | Kind::StandardBackup | Kind::HiddenBackup => Kind::HiddenBackup,
    }
}
