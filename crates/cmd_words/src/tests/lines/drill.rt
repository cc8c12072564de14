//! Lines of `drill`.

pub(crate) static DRILL: [(&str, &str); 17] = [
    ("drill", "usage"),
    ("drill|0", "drill|0"),
    ("drill|7", "drill|7"),
    ("drill|007", "drill|7"),
    ("drill|4294967294", "drill|4294967294"),
    ("drill|4294967295", "drill|4294967295"),
    ("drill|4294967296", "usage"),
    ("drill|18446744073709551616", "usage"),
    ("drill|1|2", "usage"),
    ("drill||", "usage"),
    ("drill|", "usage"),
    ("drill|-1", "usage"),
    ("drill|+1", "usage"),
    ("drill|x", "usage"),
    ("drill|1|--password=x", "usage"),
    ("drill|--n=1", "usage"),
    ("drill|--N=1", "usage"),
];
