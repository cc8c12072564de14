//! The commands, a file each.

pub mod cat;
pub mod expand;
pub mod format;
pub mod hide;
pub mod info;
pub mod passwd;
pub mod restore;
