//! The rule of the lock. Word 0 counts the tickets, word 1 is the serving number, and the one slot
//! keeps the value.
use crate::view::View;
use atomic_table::TableRule;
use std::marker::PhantomData;
use std::snapshot::Snapshot;

/// A value that knows its history, and how it has grown from another.
pub trait Chronicle {
    ghost use Rattle.std.specs.Prelude.{ℕ, List};

    type Entry;

    /// The history.
    ghost entries: { Self → List Self.Entry };

    /// The port of an entry.
    ghost port_of: { Self.Entry → ℕ };

    /// `grown first value`: the value has grown from the contents `first`.
    ghost grown: { Self → Self → Type 0 };

    /// Each value has grown from its own contents.
    ghost grown_of_itself: { (value : Self) → grown value value };
}

/// The rule, over what the value was when the lock was opened.
pub struct Turns<V> {
    of: PhantomData<V>,
}

impl<V: Chronicle> TableRule<Option<V>, View<V, V::Entry>, Snapshot<V>> for Turns<V> {
    ghost use Rattle.fab_turn.specs.Views.{root_view};
    ghost use Rattle.fab_turn.specs.Rule.{IsOneHistory};

    ghost holds = { λ key. IsOneHistory V.entries V.port_of V.grown key.value };

    ghost first = { λ key. root_view key.value (V.entries key.value) };
}
