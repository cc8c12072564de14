//! The ranges of a volume that writes have reserved.
//!
//! A write reserves its range when it is admitted and releases it when it is closed. Meanwhile no
//! other request may have a unit or sector in common with it. A `Book` keeps the ranges in the order
//! of their first numbers. No two overlap, so their ends are in order too, and a binary search finds
//! the one that a new range meets:
//!
//! ```text
//!                 asked for
//!              |-------------|
//!   |--a--| |--b--|    |--c--|   |--d--|
//!     over    meets, and is the first that ends past the start
//! ```
//!
//! A book counts whatever its caller counts, units or sectors. Only `new` takes memory: it makes
//! room for all ranges that the book will have at one time.
#![tactic(auto)]

pub use book::{Book, NoMemory};
pub use reserved::Reserved;

pub mod book;
pub mod reserved;
