//! Lists of seen N_Ports.
ghost use Rattle.std.specs.Prelude.{◌≡◌, IfOk};
ghost use Rattle.ct_messages.specs.Server.{addresses, named, of_type};
ghost use Rattle.name_server.specs.Registry.{known};
ghost use Rattle.name_server.specs.Views.{AreSeen, as_known, name_of};

use crate::ports::{Known, with_entry};
use crate::{Registry, SeenPort};
use ct_messages::{Named, NamedList};
use fab_base::{IdList, NoMemory, Wwn};
use sorted_lists::next_bit;
use std::alloc::Global;

/// Which name of an N_Port is listed.
#[derive(Clone, Copy)]
pub(crate) enum NameOf {
    Port,
    Node,
}

impl NameOf {
    fn of(self, known: &Known<'_>) -> Wwn
        ensures { result ≡ name_of self (as_known known.now) }
    {
        match self {
            NameOf::Port => known.port.name,
            NameOf::Node => known.entry.node_name(),
        }
    }

    /// The N_Port with that name.
    fn entry(self, known: &Known<'_>) -> Named
        ensures { result ≡ record {
          address = (as_known known.now).address;
          name = name_of self (as_known known.now);
        } }
    {
        Named {
            address: known.port.address,
            name: self.of(known),
        }
    }
}

/// The addresses that have an FC-4 type.
pub(crate) fn addresses_of_type(
    alloc: Global,
    registry: &Registry,
    seen: &[SeenPort],
    kind: u8,
) -> Result<IdList, NoMemory>
    requires { AreSeen registry.now.entries seen.now }
    ensures { IfOk result (λ list. list
        ≡ addresses (of_type kind (known registry.now.entries seen.now))) }
{
    let typed = registry.of_type(alloc, seen, kind)?;
    let mut list = IdList::new(alloc)?;
    let mut from = 0;
    while let Some(index) = next_bit(&typed, from) {
        list.push(alloc, seen[index].address)?;
        from = index + 1;
    }
    Ok(list)
}

/// Those that have an FC-4 type, each with one of its names.
pub(crate) fn names_of_type(
    alloc: Global,
    registry: &Registry,
    seen: &[SeenPort],
    kind: u8,
    name: NameOf,
) -> Result<NamedList, NoMemory>
    requires { AreSeen registry.now.entries seen.now }
    ensures { IfOk result (λ list. list ≡ named (name_of name)
        (of_type kind (known registry.now.entries seen.now))) }
{
    let typed = registry.of_type(alloc, seen, kind)?;
    let mut list = NamedList::new(alloc)?;
    let mut from = 0;
    while let Some(index) = next_bit(&typed, from) {
        let Some(known) = with_entry(registry, &seen[index]) else {
            unreachable!()
        };
        list.push(alloc, name.entry(&known))?;
        from = index + 1;
    }
    Ok(list)
}

/// All addresses.
pub(crate) fn all_addresses(
    alloc: Global,
    registry: &Registry,
    seen: &[SeenPort],
) -> Result<IdList, NoMemory>
    ensures { IfOk result (λ list. list ≡ addresses (known registry.now.entries seen.now)) }
{
    let mut list = IdList::new(alloc)?;
    for port in seen {
        if let Some(known) = with_entry(registry, port) {
            list.push(alloc, known.port.address)?;
        }
    }
    Ok(list)
}
