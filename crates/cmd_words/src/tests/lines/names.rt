//! First arguments.

pub(crate) static NAMES: [(&str, &str); 14] = [
    ("", "usage"),
    ("frob|C1", "usage"),
    ("Info|C1|--password=x", "usage"),
    ("info ", "usage"),
    ("inf|C1|--password=x", "usage"),
    ("infos|C1|--password=x", "usage"),
    ("--password=x|info|C1", "usage"),
    ("-", "usage"),
    ("--", "usage"),
    ("help", "usage"),
    ("--help", "usage"),
    ("--version", "usage"),
    ("-h", "usage"),
    ("|info|C1|--password=x", "usage"),
];
