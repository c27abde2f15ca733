//! The lock and its passes. A file of their own, since the contracts speak of these types.
ghost use Rattle.std.specs.Prelude.{◌≡◌};

use crate::rule::{Chronicle, Turns};
use crate::view::View;
use atomic_table::{Seat, Table};
use fab_base::PortNo;
use std::alloc::Global;
use std::snapshot::Snapshot;

/// A value for many threads, which take turns with it by their passes.
#[derive(Drop)]
pub struct TurnLock<V: Chronicle> {
    pub(crate) table: Table<Option<V>, View<V, V::Entry>, Snapshot<V>, Turns<V>, Global>,
    ghost sized: { (table.shared.table_id.words ≡ 2) × (table.shared.table_id.slots ≡ 1) },
}

/// The right to take turns, for one port or, of the root, for none.
#[derive(Drop)]
pub struct Pass<V: Chronicle> {
    pub(crate) seat: Seat<Option<V>, View<V, V::Entry>>,
    pub(crate) port: Option<PortNo>,
}
