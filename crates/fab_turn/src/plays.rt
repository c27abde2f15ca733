//! The kinds of step of the lock. These types are for the proofs alone.
ghost use Rattle.fab_turn.specs.Steps.{Draws, Looks, Ends, Compares, gave, worker, joined, spent};

use crate::rule::Chronicle;
use crate::view::View;
use atomic_table::{Join, Play, Split};
use std::marker::{Brand, PhantomData};

/// fetch_add on word 0: the ticket is the number whose remainder was found.
pub(crate) struct Draw;

impl<V, E> Play<Option<V>, View<V, E>> for Draw {
    ghost then = { Draws };
}

/// Load of word 1: where it is the ticket, the slot goes to the seat.
pub(crate) struct Look<V> {
    of: PhantomData<V>,
}

impl<V: Chronicle> Play<Option<V>, View<V, V::Entry>> for Look<V> {
    ghost then = { Looks V.entries V.grown };
}

/// fetch_add on word 1: the slot goes home, and the history goes on by what the value in it has
/// more.
pub(crate) struct Finish<V> {
    of: PhantomData<V>,
}

impl<V: Chronicle> Play<Option<V>, View<V, V::Entry>> for Finish<V> {
    ghost then = { Ends V.entries };
}

/// Names a port. Each call of `split` picks it.
pub(crate) trait Naming {
    ghost use Rattle.std.specs.Prelude.{ℕ};

    ghost port: { ℕ };
}

impl Naming for Brand {
    ghost port = { 0 };
}

/// Load of word 0: the root gives out a port.
pub(crate) struct Give<N: Naming> {
    of: PhantomData<N>,
}

impl<V, E, N: Naming> Split<View<V, E>> for Give<N> {
    ghost left = { gave N.port };

    ghost right = { worker N.port };
}

/// Load of word 0: the root takes in a pass, and keeps its list.
pub(crate) struct TakeIn;

impl<V, E> Join<View<V, E>> for TakeIn {
    ghost both = { joined };

    ghost spent = { spent };
}

/// Load of a word: nothing changes, and the root learns that, of the two lists of its last join,
/// the shorter begins the longer.
pub(crate) struct Compare;

impl<V, E> Play<Option<V>, View<V, E>> for Compare {
    ghost then = { Compares };
}
