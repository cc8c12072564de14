//! Lines of `expand`.

pub(crate) static EXPAND: [(&str, &str); 12] = [
    (
        "expand|C1|--size=2097152|--password=x|--random=@|--no-hidden",
        "expand|C1|2097152|x|@|0|true",
    ),
    (
        "expand|--no-hidden|--pim|2147468|--random|@|--size|0|C1|--password|x",
        "expand|C1|0|x|@|2147468|true",
    ),
    ("expand|C1|--size=1|--password=x|--random=@", "usage"),
    (
        "expand|C1|--size=1|--password=x|--random=@|--no-hidden=",
        "usage",
    ),
    (
        "expand|C1|--size=1|--password=x|--random=@|--no-hidden|--no-hidden",
        "usage",
    ),
    ("expand|C1|--password=x|--random=@|--no-hidden", "usage"),
    ("expand|C1|--size=1|--random=@|--no-hidden", "usage"),
    ("expand|C1|--size=1|--password=x|--no-hidden", "usage"),
    (
        "expand|--size=1|--password=x|--random=@|--no-hidden",
        "usage",
    ),
    (
        "expand|C1|--size=1|--password=x|--random=@|--no-hidden|--pim=2147469",
        "usage",
    ),
    (
        "expand|C1|--size=1|--password=x|--random=@|--no-hidden|--kind=any",
        "usage",
    ),
    (
        "expand|C1|--size=1k|--password=x|--random=@|--no-hidden",
        "usage",
    ),
];
