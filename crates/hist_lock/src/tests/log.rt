//! A value that is its own history: a list of lines, to which each act adds one.
ghost use Rattle.std.specs.Prelude.{◌≡◌, ℕ, List, [], ◌∷◌, ◌++◌, if◌then◌else◌};

use crate::Act;
use hist_standing::Standing;
use std::alloc::Global;

/// One line: who wrote it, and its text.
#[derive(Clone, Copy, Drop)]
pub struct Line {
    pub caller: u64,
    pub text: u64,
}

#[derive(Drop)]
pub struct Log {
    pub lines: Vec<Line>,
}

impl Log {
    pub fn new(alloc: Global) -> Log
        ensures { result.lines.items ≡ [] }
    {
        Log {
            lines: Vec::new(alloc),
        }
    }
}

impl Standing for Log {
    type Entry = Line;

    ghost stands = { λ base log x. x.lines.items ≡ base.lines.items ++ log };

    ghost number = { λ e. e.caller };
}

/// Adds a line. Out of memory it adds none.
pub struct Write {
    pub text: u64,
    pub written: bool,
}

impl Act<Log> for Write {
    ghost may = { λ _ _ _. Unit {0} };

    ghost allows = { λ old new caller es. es ≡ if new.written then record { caller = caller; text = old.text } ∷ [] else [] };

    ghost adds = { λ old _ new _ caller. if new.written then record { caller = caller; text = old.text } ∷ [] else [] };

    fn act(&mut self, value: &mut Log, caller: u64) {
        let line = Line {
            caller,
            text: self.text,
        };
        self.written = value.lines.push(line).is_ok();
    }
}
