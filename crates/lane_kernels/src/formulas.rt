//! Serpent's boxes and its linear transformation, each as a formula of bitwise operations.
//!
//! A formula takes the four words of a state and gives the four words of the new one. It is a macro,
//! so that one text serves a single state, in words of 32 bits, and eight states side by side, in
//! vectors of eight words. Each line of a box's formula changes one word by the others, so the four
//! words always determine the nibbles that the box was given. Of the shortest formulas of this form
//! that a search found, these are among those of the least depth.

/// S-box 0.
macro_rules! s0 {
    ($state:expr) => {{
        let [mut a, mut b, mut c, mut d] = $state;
        b ^= a | d;
        a ^= d;
        d ^= b & a;
        a ^= c;
        c ^= b;
        b ^= a & d;
        a ^= d;
        d = !d;
        d ^= a & c;
        a ^= d;
        [d, a, b, c]
    }};
}

/// S-box 1.
macro_rules! s1 {
    ($state:expr) => {{
        let [mut a, mut b, mut c, mut d] = $state;
        c ^= a | b;
        b ^= a;
        a ^= c;
        c ^= b & d;
        b ^= c | a;
        a = !a;
        d ^= a;
        b ^= d;
        a ^= b & c;
        c ^= b;
        [a, c, d, b]
    }};
}

/// S-box 2.
macro_rules! s2 {
    ($state:expr) => {{
        let [mut a, mut b, mut c, mut d] = $state;
        c ^= b;
        b ^= a | d;
        d ^= c & a;
        c ^= b & a;
        a ^= d;
        a ^= c;
        c ^= b | d;
        d ^= b | a;
        b ^= c;
        c ^= d;
        b = !b;
        [a, d, c, b]
    }};
}

/// S-box 3.
macro_rules! s3 {
    ($state:expr) => {{
        let [mut a, mut b, mut c, mut d] = $state;
        d ^= b;
        b ^= d | a;
        d ^= c;
        c ^= a & d;
        a ^= b | d;
        d ^= c | b;
        b ^= a & d;
        a ^= d;
        c ^= b | (d & a);
        [b, d, a, c]
    }};
}

/// S-box 4.
macro_rules! s4 {
    ($state:expr) => {{
        let [mut a, mut b, mut c, mut d] = $state;
        c ^= a & d;
        d ^= a;
        a ^= d | b;
        d ^= c | a;
        c = !c;
        c ^= a;
        a ^= b;
        b ^= d;
        d ^= a & c;
        a ^= c & (b | d);
        [c, a, b, d]
    }};
}

/// S-box 5.
macro_rules! s5 {
    ($state:expr) => {{
        let [mut a, mut b, mut c, mut d] = $state;
        c ^= a | b;
        b ^= a;
        a ^= b & d;
        d = !d;
        c ^= d;
        a ^= c;
        b ^= d & a;
        d ^= c & a;
        c ^= d & (b & a);
        d ^= b;
        [a, b, d, c]
    }};
}

/// S-box 6.
macro_rules! s6 {
    ($state:expr) => {{
        let [mut a, mut b, mut c, mut d] = $state;
        a ^= d;
        c ^= b;
        d ^= c & a;
        c ^= a & d;
        b ^= d;
        d = !d;
        a ^= d;
        d ^= c;
        a ^= b | c;
        c ^= b & a;
        b ^= a;
        [a, d, b, c]
    }};
}

/// S-box 7.
macro_rules! s7 {
    ($state:expr) => {{
        let [mut a, mut b, mut c, mut d] = $state;
        b ^= c;
        d ^= b & c;
        c ^= d | (b & a);
        b ^= a & d;
        a ^= c;
        c ^= b;
        b = !b;
        b ^= a | d;
        a ^= c;
        d ^= a | b;
        b ^= d;
        [d, c, b, a]
    }};
}

/// The inverse of S-box 0.
macro_rules! i0 {
    ($state:expr) => {{
        let [mut a, mut b, mut c, mut d] = $state;
        c ^= b & a;
        b ^= a;
        a ^= b & d;
        d ^= c;
        c ^= b;
        c ^= a & d;
        a ^= d;
        d = !d;
        b ^= d;
        d ^= a & c;
        a ^= d;
        [a, c, b, d]
    }};
}

/// The inverse of S-box 1.
macro_rules! i1 {
    ($state:expr) => {{
        let [mut a, mut b, mut c, mut d] = $state;
        c ^= d & b;
        d ^= b;
        a ^= b;
        b ^= a & d;
        a ^= c;
        b = !b;
        d ^= a;
        c ^= a & b;
        b ^= d;
        a ^= c | b;
        c ^= d;
        b ^= c;
        [b, c, a, d]
    }};
}

/// The inverse of S-box 2.
macro_rules! i2 {
    ($state:expr) => {{
        let [mut a, mut b, mut c, mut d] = $state;
        d ^= b;
        b ^= c & d;
        a ^= d;
        d ^= c;
        c ^= b | a;
        d = !d;
        a ^= d | b;
        c ^= a;
        b ^= a & c;
        a = !a;
        d ^= a | c;
        [a, d, b, c]
    }};
}

/// The inverse of S-box 3.
macro_rules! i3 {
    ($state:expr) => {{
        let [mut a, mut b, mut c, mut d] = $state;
        d ^= a & c;
        c ^= b;
        a ^= c & b;
        b ^= a | (d & c);
        b ^= d;
        c ^= a | d;
        a ^= b | c;
        d ^= b & a;
        b ^= a;
        [c, a, d, b]
    }};
}

/// The inverse of S-box 4.
macro_rules! i4 {
    ($state:expr) => {{
        let [mut a, mut b, mut c, mut d] = $state;
        b ^= a & (c | d);
        a = !a;
        c ^= d;
        c ^= b;
        d ^= a | c;
        c ^= a & b;
        a ^= c;
        a ^= d & b;
        b ^= d & c;
        d ^= b;
        [d, c, a, b]
    }};
}

/// The inverse of S-box 5.
macro_rules! i5 {
    ($state:expr) => {{
        let [mut a, mut b, mut c, mut d] = $state;
        c ^= d | a;
        d ^= c & (b & a);
        b = !b;
        c ^= b;
        a ^= c;
        d ^= a;
        a = !a;
        c ^= b & d;
        b ^= a | d;
        a ^= b | c;
        b ^= c & d;
        [c, b, a, d]
    }};
}

/// The inverse of S-box 6.
macro_rules! i6 {
    ($state:expr) => {{
        let [mut a, mut b, mut c, mut d] = $state;
        a ^= c;
        c ^= d;
        d ^= a | c;
        a ^= b;
        c ^= d | a;
        b = !b;
        a ^= d | b;
        b ^= c;
        d ^= c;
        c ^= a;
        a ^= d & b;
        d = !d;
        [b, c, a, d]
    }};
}

/// The inverse of S-box 7.
macro_rules! i7 {
    ($state:expr) => {{
        let [mut a, mut b, mut c, mut d] = $state;
        c ^= a;
        a ^= d | c;
        c ^= b | a;
        b ^= c & (a | d);
        c = !c;
        d ^= c;
        d ^= c & a;
        c ^= d & a;
        a ^= d & b;
        d ^= b;
        [c, d, b, a]
    }};
}

/// The linear transformation.
macro_rules! linear {
    ($state:expr) => {{
        let [mut a, mut b, mut c, mut d] = $state;
        a = (a << 13) | (a >> 19);
        c = (c << 3) | (c >> 29);
        b = b ^ a ^ c;
        d = d ^ c ^ (a << 3);
        b = (b << 1) | (b >> 31);
        d = (d << 7) | (d >> 25);
        a = a ^ b ^ d;
        c = c ^ d ^ (b << 7);
        a = (a << 5) | (a >> 27);
        c = (c << 22) | (c >> 10);
        [a, b, c, d]
    }};
}

/// The inverse of the linear transformation.
macro_rules! inverse_linear {
    ($state:expr) => {{
        let [mut a, mut b, mut c, mut d] = $state;
        c = (c >> 22) | (c << 10);
        a = (a >> 5) | (a << 27);
        c = c ^ d ^ (b << 7);
        a = a ^ b ^ d;
        d = (d >> 7) | (d << 25);
        b = (b >> 1) | (b << 31);
        d = d ^ c ^ (a << 3);
        b = b ^ a ^ c;
        c = (c >> 3) | (c << 29);
        a = (a >> 13) | (a << 19);
        [a, b, c, d]
    }};
}

pub(crate) use i0;
pub(crate) use i1;
pub(crate) use i2;
pub(crate) use i3;
pub(crate) use i4;
pub(crate) use i5;
pub(crate) use i6;
pub(crate) use i7;
pub(crate) use inverse_linear;
pub(crate) use linear;
pub(crate) use s0;
pub(crate) use s1;
pub(crate) use s2;
pub(crate) use s3;
pub(crate) use s4;
pub(crate) use s5;
pub(crate) use s6;
pub(crate) use s7;
