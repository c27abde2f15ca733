//! The N_Ports that an asker may see.
ghost use Rattle.std.specs.Prelude.{◌≡◌, ℕ, ◌<◌, ◌/◌, ◌||◌, [], ◌∷◌, ◌++◌, length, slice_get, IfOk, OnOk, OnErr};
ghost use Rattle.std.specs.List.{All};
ghost use Rattle.sorted_lists.specs.Row.{has};
ghost use Rattle.name_server.specs.Registry.{SeenAscend};
ghost use Rattle.name_server.specs.Views.{is_at};

use fab_base::{FcId, HasAddress, NoMemory, Wwn};
use sorted_lists::{Row, place_at, put_bit};
use std::alloc::Global;
use std::marker::Model;

/// An N_Port that an asker may see.
#[derive(Clone, Copy, Debug, PartialEq, Eq)]
pub struct SeenPort {
    pub address: FcId,
    /// Its port name.
    pub name: Wwn,
    /// The name of the port of the forwarder that it is behind.
    pub fabric_port: Wwn,
}

impl HasAddress for SeenPort {
    ghost address_of = { λ s. s.address };

    fn address(&self) -> FcId {
        self.address
    }
}

/// N_Ports in ascending order of their addresses.
#[derive(Debug, Drop)]
pub struct Seen {
    ports: Vec<SeenPort>,
}

impl Model for Seen {
    ghost use Rattle.std.specs.Prelude.{List};
    ghost use Rattle.name_server.specs.declared.seen.SeenPort.{SeenPort as Port};
    ghost use Rattle.name_server.specs.Registry.{SeenAscend};

    ghost Value = { List Port };

    ghost view = { λ s. s.ports.items };

    ghost invariant = { λ s. SeenAscend 0 s.ports.items };
}

impl Seen {
    /// No N_Port.
    pub fn new(alloc: Global) -> Result<Seen, NoMemory>
        ensures { IfOk result (λ s. s ≡ []) }
    {
        Ok(Seen {
            ports: Vec::new(alloc),
        })
    }

    /// Adds an N_Port above all others. Where memory is refused the list stays.
    pub fn push(&mut self, _alloc: Global, port: SeenPort) -> Result<(), NoMemory>
        requires above { All (λ s. s.address < port.address) self.old }
        ensures ok { OnOk result (self.new ≡ self.old ++ port ∷ []) }
        ensures err { OnErr result (self.new ≡ self.old) }
        ensures ascending { SeenAscend 0 self.new }
    {
        self.ports.push(port)?;
        Ok(())
    }

    pub(crate) fn ports(&self) -> &[SeenPort]
        ensures ports { result.now ≡ self.now }
        ensures ascending { SeenAscend 0 result.now }
    {
        self.ports.as_slice()
    }
}

/// Sets the bit of the seen N_Port with this address, where there is one.
pub(crate) fn mark(row: &mut Row, seen: &[SeenPort], address: FcId)
    requires ascending { SeenAscend 0 seen.now }
    requires wide { length seen.now / 64 < length row.old.items }
    ensures bits { (i : ℕ) → has row.new.items i
        ≡ (is_at address (slice_get seen.now i) || has row.old.items i) }
    ensures words { length row.new.items ≡ length row.old.items }
{
    if let Some(index) = place_at(seen, address) {
        put_bit(row, index);
    }
}
