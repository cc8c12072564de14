//! The steps on the table, each with what it tells.
ghost use Rattle.hist_lock.specs.Laws.Steps.{drew, looked, passed, gave, met, closing};
ghost use Rattle.hist_lock.specs.Laws.Steps.{kept_half, new_half, both, spent};
ghost use Rattle.hist_lock.specs.Known.{closed};
ghost use Rattle.std.specs.Prelude.{List, []};

use crate::view::View;
use atomic_table::{Join, Play, Split};
use hist_standing::Standing;
use std::marker::{Brand, PhantomData};

/// The draw of a ticket.
pub(crate) struct Draw;

impl<T, E> Play<Option<T>, View<T, E>> for Draw {
    ghost then = { drew };
}

/// A look at the ticket that is served. At its own the pass takes the value.
pub(crate) struct Look;

impl<T: Standing> Play<Option<T>, View<T, T::Entry>> for Look {
    ghost then = { looked T.stands T.number };
}

/// The entries that a turn adds. Each call that passes a turn on picks them.
pub(crate) trait Added<E> {
    ghost added: { List E };
}

impl<E> Added<E> for Brand {
    ghost added = { [] };
}

/// The turn is passed on, with the value home.
pub(crate) struct PassOn<W> {
    added: PhantomData<W>,
}

impl<T, E, W: Added<E>> Play<Option<T>, View<T, E>> for PassOn<W> {
    ghost then = { passed W.added };
}

/// A number is given to the pass that splits.
pub(crate) struct Name;

impl<T: Standing> Play<Option<T>, View<T, T::Entry>> for Name {
    ghost then = { gave T.number };
}

/// The load after a join.
pub(crate) struct Meet;

impl<T: Standing> Play<Option<T>, View<T, T::Entry>> for Meet {
    ghost then = { met T.number };
}

/// The load that decides whether the lock can be closed.
pub(crate) struct Closing;

impl<T, E> Play<Option<T>, View<T, E>> for Closing {
    ghost then = { closing };
}

/// The pass and a new one with half of its share.
pub(crate) struct Halve;

impl<T, E> Split<View<T, E>> for Halve {
    ghost left = { kept_half };

    ghost right = { new_half };
}

/// The pass, and what it knew for after the close.
pub(crate) struct Remember;

impl<T, E> Split<View<T, E>> for Remember {
    ghost left = { λ v. v };

    ghost right = { closed };
}

/// Two passes as one.
pub(crate) struct Unite;

impl<T, E> Join<View<T, E>> for Unite {
    ghost both = { both };

    ghost spent = { spent };
}
