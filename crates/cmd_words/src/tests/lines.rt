//! Lines and their commands, worked out by hand from the definition of a line. `|` stands between
//! arguments, `@` for a key in lower case, `^` for the same in upper case, `#` for 127 letters
//! x and `$` for 62 zeros. What a command is shown as has the command's name and its values, in the
//! order of `Command`.

pub(crate) use cat::CAT;
pub(crate) use drill::DRILL;
pub(crate) use expand::EXPAND;
pub(crate) use format::{FORMAT_1, FORMAT_2};
pub(crate) use info::{INFO_1, INFO_2, INFO_3};
pub(crate) use names::NAMES;
pub(crate) use passwd::PASSWD;
pub(crate) use restore::RESTORE;
pub(crate) use sector::SECTOR;
pub(crate) use serve::SERVE;

mod cat;
mod drill;
mod expand;
mod format;
mod info;
mod names;
mod passwd;
mod restore;
mod sector;
mod serve;
