//! The steps on the table, each with what it tells.
ghost use Rattle.race_word.specs.Laws.Steps.{looked, offered, spent};

use crate::names::Names;
use crate::view::View;
use atomic_table::{Join, Play, Split};

/// A load of the word.
pub(crate) struct Look;

impl<R: Names> Play<(), View<R>> for Look {
    ghost then = { looked R.names };
}

/// The word becomes the lesser of itself and a number.
pub(crate) struct Offer;

impl<R: Names> Play<(), View<R>> for Offer {
    ghost then = { offered R.names };
}

/// A runner and a new one that knows the same.
pub(crate) struct Copied;

impl<R> Split<View<R>> for Copied {
    ghost left = { λ v. v };

    ghost right = { λ v. v };
}

/// A runner that ends another.
pub(crate) struct Ended;

impl<R> Join<View<R>> for Ended {
    ghost both = { λ v _. v };

    ghost spent = { spent };
}
