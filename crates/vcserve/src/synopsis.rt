//! How each command is written.

/// The synopsis of a command, if there is such a command.
pub(crate) fn synopsis_of(name: &str) -> Option<&'static str> {
    let text = match name {
        "format" => {
            "vcserve format PATH --size N --password P --random HEX [--pim N] [--prf NAME] [--algorithm NAME] [--sector N]"
        }
        "hide" => {
            "vcserve hide PATH --size N --password P --random HEX [--pim N] [--prf NAME] [--algorithm NAME] [--sector N]"
        }
        "info" => "vcserve info PATH --password P [--pim N] [--kind KIND] [--backup]",
        "cat" => "vcserve cat PATH FIRST COUNT --password P [--pim N] [--kind KIND] [--backup]",
        "passwd" => {
            "vcserve passwd PATH --password P --new P --random HEX [--pim N] [--new-pim N] [--new-prf NAME] [--kind KIND] [--backup]"
        }
        "restore" => { "vcserve restore PATH --password P --random HEX [--pim N] [--kind KIND]" }
        "expand" => {
            "vcserve expand PATH --size N --password P --random HEX --no-hidden [--pim N]"
        }
        "serve" => {
            "vcserve serve PATH --password P [--pim N] [--kind KIND] [--backup] [--protect P] [--protect-pim N] [--helpers N] [--workers N] [--handshake] -- INPUT OUTPUT [INPUT OUTPUT ..]"
        }
        "drill" => "vcserve drill N",
        _ => return None,
    };
    Some(text)
}

/// All commands.
pub(crate) const COMMANDS: [&str; 9] = [
    "format", "hide", "info", "cat", "passwd", "restore", "expand", "serve", "drill",
];
