//! Lines of `format` and `hide`.

pub(crate) static FORMAT_1: [(&str, &str); 50] = [
    (
        "format|C1|--size=1048576|--password=x|--random=@",
        "format|C1|1048576|x|@|0|sha512|aes|512",
    ),
    (
        "hide|C1|--size=1048576|--password=x|--random=@",
        "hide|C1|1048576|x|@|0|sha512|aes|512",
    ),
    (
        "format|--size|1048576|--password|x|--random|@|C1",
        "format|C1|1048576|x|@|0|sha512|aes|512",
    ),
    (
        "format|--random=@|--password=x|--size=1|C1",
        "format|C1|1|x|@|0|sha512|aes|512",
    ),
    ("format|C1|--password=x|--random=@", "usage"),
    ("format|C1|--size=1|--random=@", "usage"),
    ("format|C1|--size=1|--password=x", "usage"),
    ("format|--size=1|--password=x|--random=@", "usage"),
    ("hide|C1|--password=x|--random=@", "usage"),
    ("hide|C1|--size=1|--random=@", "usage"),
    ("hide|C1|--size=1|--password=x", "usage"),
    ("hide|--size=1|--password=x|--random=@", "usage"),
    ("format|C1|C2|--size=1|--password=x|--random=@", "usage"),
    (
        "format|C1|--size=1|--size=1|--password=x|--random=@",
        "usage",
    ),
    (
        "format|C1|--size=1|--password=x|--random=@|--random=@",
        "usage",
    ),
    (
        "format|C1|--size=1|--password=x|--random=@|--backup",
        "usage",
    ),
    (
        "format|C1|--size=1|--password=x|--random=@|--kind=any",
        "usage",
    ),
    (
        "format|C1|--size=0|--password=x|--random=@",
        "format|C1|0|x|@|0|sha512|aes|512",
    ),
    (
        "format|C1|--size=18446744073709551615|--password=x|--random=@",
        "format|C1|18446744073709551615|x|@|0|sha512|aes|512",
    ),
    (
        "format|C1|--size=18446744073709551616|--password=x|--random=@",
        "usage",
    ),
    ("format|C1|--size=1M|--password=x|--random=@", "usage"),
    ("format|C1|--size=|--password=x|--random=@", "usage"),
    ("format|C1|--size=-1|--password=x|--random=@", "usage"),
    ("format|C1|--size|--password=x|--random=@", "usage"),
    ("format|C1|--size=1|--password=x|--random", "usage"),
    (
        "format|C1|--size=1|--password=x|--random=^",
        "format|C1|1|x|@|0|sha512|aes|512",
    ),
    (
        "format|C1|--size=1|--password=x|--random|^",
        "format|C1|1|x|@|0|sha512|aes|512",
    ),
    ("format|C1|--size=1|--password=x|--random=@0", "usage"),
    ("format|C1|--size=1|--password=x|--random=0@", "usage"),
    ("format|C1|--size=1|--password=x|--random=", "usage"),
    ("format|C1|--size=1|--password=x|--random=00", "usage"),
    ("format|C1|--size=1|--password=x|--random= @", "usage"),
    ("format|C1|--size=1|--password=x|--random=$0", "usage"),
    (
        "format|C1|--size=1|--password=x|--random=$00",
        "format|C1|1|x|$00|0|sha512|aes|512",
    ),
    (
        "format|C1|--size=1|--password=x|--random=$fF",
        "format|C1|1|x|$ff|0|sha512|aes|512",
    ),
    ("format|C1|--size=1|--password=x|--random=g$0", "usage"),
    ("format|C1|--size=1|--password=x|--random=$0G", "usage"),
    ("format|C1|--size=1|--password=x|--random=0x$", "usage"),
    ("format|C1|--size=1|--password=x|--random=+$0", "usage"),
    (
        "format|C1|--size=1|--password=x|--random=@|--algorithm=aes",
        "format|C1|1|x|@|0|sha512|aes|512",
    ),
    (
        "format|C1|--size=1|--password=x|--random=@|--algorithm=serpent",
        "format|C1|1|x|@|0|sha512|serpent|512",
    ),
    (
        "format|C1|--size=1|--password=x|--random=@|--algorithm=twofish",
        "format|C1|1|x|@|0|sha512|twofish|512",
    ),
    (
        "format|C1|--size=1|--password=x|--random=@|--algorithm=aes-twofish",
        "format|C1|1|x|@|0|sha512|aes-twofish|512",
    ),
    (
        "format|C1|--size=1|--password=x|--random=@|--algorithm=aes-twofish-serpent",
        "format|C1|1|x|@|0|sha512|aes-twofish-serpent|512",
    ),
    (
        "format|C1|--size=1|--password=x|--random=@|--algorithm=serpent-aes",
        "format|C1|1|x|@|0|sha512|serpent-aes|512",
    ),
    (
        "format|C1|--size=1|--password=x|--random=@|--algorithm=serpent-twofish-aes",
        "format|C1|1|x|@|0|sha512|serpent-twofish-aes|512",
    ),
    (
        "format|C1|--size=1|--password=x|--random=@|--algorithm=twofish-serpent",
        "format|C1|1|x|@|0|sha512|twofish-serpent|512",
    ),
    (
        "format|C1|--size=1|--password=x|--random=@|--algorithm|serpent",
        "format|C1|1|x|@|0|sha512|serpent|512",
    ),
    (
        "format|C1|--size=1|--password=x|--random=@|--algorithm=AES",
        "usage",
    ),
    (
        "format|C1|--size=1|--password=x|--random=@|--algorithm=",
        "usage",
    ),
];

pub(crate) static FORMAT_2: [(&str, &str); 13] = [
    (
        "format|C1|--size=1|--password=x|--random=@|--algorithm=serpent-twofish",
        "usage",
    ),
    (
        "format|C1|--size=1|--password=x|--random=@|--algorithm=aes|--algorithm=aes",
        "usage",
    ),
    (
        "format|C1|--size=1|--password=x|--random=@|--algorithm",
        "usage",
    ),
    (
        "format|C1|--size=1|--password=x|--random=@|--prf=sha512",
        "format|C1|1|x|@|0|sha512|aes|512",
    ),
    (
        "format|C1|--size=1|--password=x|--random=@|--prf=sha256",
        "format|C1|1|x|@|0|sha256|aes|512",
    ),
    (
        "hide|C1|--size=1|--password=x|--random=@|--prf|sha256|--algorithm=twofish|--pim=7",
        "hide|C1|1|x|@|7|sha256|twofish|512",
    ),
    (
        "format|C1|--size=1|--password=x|--random=@|--prf=sha1",
        "usage",
    ),
    ("format|C1|--size=1|--password=x|--random=@|--prf=", "usage"),
    (
        "format|C1|--size=1|--password=x|--random=@|--prf=SHA512",
        "usage",
    ),
    (
        "format|C1|--size=1|--password=x|--random=@|--prf=sha-512",
        "usage",
    ),
    (
        "format|C1|--size=1|--password=x|--random=@|--prf=sha256|--prf=sha256",
        "usage",
    ),
    (
        "format|C1|--size=1|--password=x|--random=@|--pim=2147468",
        "format|C1|1|x|@|2147468|sha512|aes|512",
    ),
    (
        "format|C1|--size=1|--password=x|--random=@|--pim=2147469",
        "usage",
    ),
];
