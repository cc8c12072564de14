//! Lines of `serve`.

pub(crate) static SERVE: [(&str, &str); 49] = [
    ("serve|C1|--password=x", "serve|C1|x|0|Any|-|2|4|false"),
    ("serve|C1", "usage"),
    ("serve|--password=x", "usage"),
    ("serve|C1|C2|--password=x", "usage"),
    (
        "serve|C1|--password=x|--protect=y",
        "serve|C1|x|0|StandardOnly|y 0|2|4|false",
    ),
    (
        "serve|C1|--password=x|--protect|y",
        "serve|C1|x|0|StandardOnly|y 0|2|4|false",
    ),
    (
        "serve|C1|--password=x|--protect=y|--protect-pim=9",
        "serve|C1|x|0|StandardOnly|y 9|2|4|false",
    ),
    (
        "serve|C1|--protect-pim|9|--pim|8|--password=x|--protect=y",
        "serve|C1|x|8|StandardOnly|y 9|2|4|false",
    ),
    (
        "serve|C1|--password=x|--pim=7|--protect=y",
        "serve|C1|x|7|StandardOnly|y 0|2|4|false",
    ),
    ("serve|C1|--password=x|--protect-pim=9", "usage"),
    ("serve|C1|--password=x|--protect-pim=0", "usage"),
    ("serve|C1|--password=x|--protect=", "usage"),
    ("serve|C1|--password=x|--protect", "usage"),
    ("serve|C1|--password=x|--protect=y|--protect=y", "usage"),
    (
        "serve|C1|--password=x|--protect=y|--protect-pim=2147469",
        "usage",
    ),
    (
        "serve|C1|--password=x|--protect=y|--protect-pim=2147468",
        "serve|C1|x|0|StandardOnly|y 2147468|2|4|false",
    ),
    (
        "serve|C1|--password=x|--protect=#x",
        "serve|C1|x|0|StandardOnly|#x 0|2|4|false",
    ),
    ("serve|C1|--password=x|--protect=#xx", "usage"),
    (
        "serve|C1|--password=x|--protect=y|--kind=any",
        "serve|C1|x|0|StandardOnly|y 0|2|4|false",
    ),
    (
        "serve|C1|--password=x|--protect=y|--kind=standard",
        "serve|C1|x|0|StandardOnly|y 0|2|4|false",
    ),
    ("serve|C1|--password=x|--protect=y|--kind=hidden", "usage"),
    (
        "serve|C1|--password=x|--protect=y|--backup",
        "serve|C1|x|0|StandardBackup|y 0|2|4|false",
    ),
    (
        "serve|C1|--password=x|--kind=hidden",
        "serve|C1|x|0|HiddenOnly|-|2|4|false",
    ),
    (
        "serve|C1|--password=x|--kind=hidden|--backup",
        "serve|C1|x|0|HiddenBackup|-|2|4|false",
    ),
    (
        "serve|C1|--password=x|--helpers=0",
        "serve|C1|x|0|Any|-|0|4|false",
    ),
    (
        "serve|C1|--password=x|--helpers=8",
        "serve|C1|x|0|Any|-|8|4|false",
    ),
    ("serve|C1|--password=x|--helpers=9", "usage"),
    ("serve|C1|--password=x|--helpers=", "usage"),
    ("serve|C1|--password=x|--helpers|-1", "usage"),
    (
        "serve|C1|--password=x|--helpers|1",
        "serve|C1|x|0|Any|-|1|4|false",
    ),
    ("serve|C1|--password=x|--helpers=1|--helpers=1", "usage"),
    ("serve|C1|--password=x|--workers=0", "usage"),
    (
        "serve|C1|--password=x|--workers=1",
        "serve|C1|x|0|Any|-|2|1|false",
    ),
    (
        "serve|C1|--password=x|--workers=8",
        "serve|C1|x|0|Any|-|2|8|false",
    ),
    ("serve|C1|--password=x|--workers=9", "usage"),
    (
        "serve|C1|--password=x|--workers=00000000000000000008",
        "serve|C1|x|0|Any|-|2|8|false",
    ),
    ("serve|C1|--password=x|--workers=4294967297", "usage"),
    ("serve|C1|--password=x|--helpers=4294967296", "usage"),
    ("serve|C1|--password=x|--workers=2|--workers=2", "usage"),
    ("serve|C1|--password=x|--port=10809", "usage"),
    (
        "serve|C1|--password=x|--handshake",
        "serve|C1|x|0|Any|-|2|4|true",
    ),
    (
        "serve|--handshake|C1|--password|x|--backup",
        "serve|C1|x|0|AnyBackup|-|2|4|true",
    ),
    (
        "serve|--protect|y|--handshake|--helpers|3|C1|--password=x",
        "serve|C1|x|0|StandardOnly|y 0|3|4|true",
    ),
    ("serve|C1|--password=x|--handshake|--handshake", "usage"),
    ("serve|C1|--password=x|--handshake=", "usage"),
    ("serve|C1|--password=x|--handshake=true", "usage"),
    ("serve|C1|--password=x|--handshake|true", "usage"),
    ("serve|C1|--password=x|--hand", "usage"),
    ("serve|C1|--password|--handshake", "usage"),
];
