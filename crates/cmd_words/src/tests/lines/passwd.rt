//! Lines of `passwd`.

pub(crate) static PASSWD: [(&str, &str); 26] = [
    (
        "passwd|C1|--password=x|--new=y|--random=@",
        "passwd|C1|x|y|@|0|0|-|Any",
    ),
    (
        "passwd|C1|--new|y|--random|@|--password|x",
        "passwd|C1|x|y|@|0|0|-|Any",
    ),
    ("passwd|C1|--new=y|--random=@", "usage"),
    ("passwd|C1|--password=x|--random=@", "usage"),
    ("passwd|C1|--password=x|--new=y", "usage"),
    ("passwd|--password=x|--new=y|--random=@", "usage"),
    ("passwd|C1|--password=x|--new=|--random=@", "usage"),
    ("passwd|C1|--password=x|--new|--random=@", "usage"),
    ("passwd|C1|--password=x|--new=y|--new=y|--random=@", "usage"),
    (
        "passwd|C1|--password=x|--new=#x|--random=@",
        "passwd|C1|x|#x|@|0|0|-|Any",
    ),
    ("passwd|C1|--password=x|--new=#xx|--random=@", "usage"),
    (
        "passwd|C1|--password=x|--new=y|--random=@|--pim=3",
        "passwd|C1|x|y|@|3|0|-|Any",
    ),
    (
        "passwd|C1|--password=x|--new=y|--random=@|--new-pim=4",
        "passwd|C1|x|y|@|0|4|-|Any",
    ),
    (
        "passwd|C1|--password=x|--new=y|--random=@|--pim=3|--new-pim=4",
        "passwd|C1|x|y|@|3|4|-|Any",
    ),
    (
        "passwd|C1|--password=x|--new=y|--random=@|--new-pim=2147468",
        "passwd|C1|x|y|@|0|2147468|-|Any",
    ),
    (
        "passwd|C1|--password=x|--new=y|--random=@|--new-pim=2147469",
        "usage",
    ),
    (
        "passwd|C1|--password=x|--new=y|--random=@|--new-pim=",
        "usage",
    ),
    (
        "passwd|C1|--password=x|--new=y|--random=@|--new-pim=1|--new-pim=1",
        "usage",
    ),
    (
        "passwd|C1|--password=x|--new=y|--random=@|--new-p=1",
        "usage",
    ),
    (
        "passwd|C1|--password=x|--new=y|--random=@|--new-prf=sha256",
        "passwd|C1|x|y|@|0|0|sha256|Any",
    ),
    (
        "passwd|C1|--password=x|--new=y|--random=@|--new-prf|sha512",
        "passwd|C1|x|y|@|0|0|sha512|Any",
    ),
    (
        "passwd|C1|--password=x|--new=y|--random=@|--new-prf=",
        "usage",
    ),
    (
        "passwd|C1|--password=x|--new=y|--random=@|--new-prf=md5",
        "usage",
    ),
    (
        "passwd|C1|--password=x|--new=y|--random=@|--prf=sha256",
        "usage",
    ),
    (
        "passwd|C1|--password=x|--new=y|--random=@|--kind=hidden|--backup",
        "passwd|C1|x|y|@|0|0|-|HiddenBackup",
    ),
    (
        "passwd|C1|--password=x|--new=y|--random=@|--algorithm=aes",
        "usage",
    ),
];
