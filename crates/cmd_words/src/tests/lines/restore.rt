//! Lines of `restore`.

pub(crate) static RESTORE: [(&str, &str); 9] = [
    (
        "restore|C1|--password=x|--random=@",
        "restore|C1|x|@|0|AnyBackup",
    ),
    (
        "restore|--random|@|C1|--password|x",
        "restore|C1|x|@|0|AnyBackup",
    ),
    ("restore|C1|--password=x", "usage"),
    ("restore|C1|--random=@", "usage"),
    ("restore|--password=x|--random=@", "usage"),
    (
        "restore|C1|--password=x|--random=@|--kind=standard",
        "restore|C1|x|@|0|StandardBackup",
    ),
    (
        "restore|C1|--password=x|--random=@|--kind=hidden|--pim=5",
        "restore|C1|x|@|5|HiddenBackup",
    ),
    ("restore|C1|--password=x|--random=@|--backup", "usage"),
    ("restore|C1|--password=x|--random=@|--kind=none", "usage"),
];
