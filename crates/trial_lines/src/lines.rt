//! Command lines, and the rows of tables.
//!
//! A command line is written with `|` between its arguments, `@` for the random key 00 to 1f and `#` for 20 to 3f. A
//! table is a text with a row a line and `;` between its columns.
use std::alloc::{AllocError, Global};

static KEY: &str = "000102030405060708090a0b0c0d0e0f101112131415161718191a1b1c1d1e1f";

static HIDDEN_KEY: &str = "202122232425262728292a2b2c2d2e2f303132333435363738393a3b3c3d3e3f";

/// Makes the smallest container, whose volume has one sector.
pub static FORMAT: &str = "format|c1.vc|--size|262656|--password|correct horse|--random|@|--pim|1";

/// What `info` says of the smallest container.
pub static SMALL_TEXT: &str =
    "slot standard\nprf sha512\nalgorithm aes\nstart 131072\nsize 512\nsector 512\n";

/// Makes a container of 1 MiB, whose volume has 1536 sectors.
pub static MIB: &str = "format|c1.vc|--size|1048576|--password|correct horse|--random|@|--pim|1";

/// Gives that container a hidden volume of 512 sectors.
pub static HIDE: &str = "hide|c1.vc|--size|262144|--password|hidden horse|--random|#|--pim|1";

/// Shows the header.
pub static INFO: &str = "info|c1.vc|--password|correct horse|--pim|1";

/// Writes the first sector.
pub static CAT: &str = "cat|c1.vc|0|1|--password|correct horse|--pim|1";

/// Writes all sectors of the outer volume of the container of 1 MiB.
pub static CAT_OUTER: &str = "cat|c1.vc|0|1536|--password|correct horse|--pim|1|--kind|standard";

/// Writes all sectors of its hidden volume.
pub static CAT_HIDDEN: &str = "cat|c1.vc|0|512|--password|hidden horse|--pim|1|--kind|hidden";

/// Serves the outer volume.
pub static SERVE: &str = "serve|c1.vc|--password|correct horse|--pim|1|--kind|standard";

/// The arguments that a command line stands for.
pub fn arguments_of(alloc: Global, line: &str) -> Result<Vec<String>, AllocError> {
    let mut arguments = Vec::new(alloc);
    for argument in line.split('|') {
        let argument = match argument {
            "@" => KEY,
            "#" => HIDDEN_KEY,
            _ => argument,
        };
        arguments.push(String::from_str(alloc, argument)?)?;
    }
    Ok(arguments)
}

/// A column of a row, from 0, or an empty text if the row has fewer.
pub fn column(row: &str, k: usize) -> &str {
    for (i, text) in row.split(';').enumerate() {
        if i == k {
            return text;
        }
    }
    ""
}

/// A column that is a number, or the greatest number if it is none.
pub fn number(row: &str, k: usize) -> u64 {
    column(row, k).parse::<u64>().unwrap_or(u64::MAX)
}
