//! A seen N_Port with what is registered of it.
ghost use Rattle.std.specs.Prelude.{◌≡◌, ◌==◌, find, nat_lt, option_copied, option_map, slice_get};
ghost use Rattle.ct_messages.specs.Server.{first_of, known_at, known_by_name, next_port};
ghost use Rattle.name_server.specs.Registry.{SeenAscend, known, known_port};
ghost use Rattle.name_server.specs.Views.{AreSeen, as_known};

use crate::entry::Entry;
use crate::{Registry, SeenPort};
use fab_base::{FcId, Wwn};
use sorted_lists::{find_at, place_above};

/// An N_Port that the asker may see.
#[derive(Clone, Copy)]
pub(crate) struct Known<'a> {
    pub(crate) port: &'a SeenPort,
    pub(crate) entry: &'a Entry,
}

// The port with its entry, if it has one.
pub(crate) fn with_entry<'a>(registry: &'a Registry, port: &'a SeenPort) -> Option<Known<'a>>
    ensures { option_map as_known result ≡ known_port registry.now.entries port.now }
{
    match registry.find(port.address) {
        Some(entry) => Some(Known { port, entry }),
        None => None,
    }
}

fn first_named(seen: &[SeenPort], name: Wwn) -> Option<&SeenPort>
    ensures { option_copied result ≡ find (λ s. s.name == name) seen.now }
{
    seen.iter().find(|port| port.name == name)
}

fn at(seen: &[SeenPort], index: usize) -> Option<&SeenPort>
    ensures { option_copied result ≡ slice_get seen.now index }
{
    seen.get(index)
}

fn first_above(seen: &[SeenPort], address: FcId) -> Option<&SeenPort>
    requires { SeenAscend 0 seen.now }
    ensures { option_copied result ≡ find (λ s. nat_lt address s.address) seen.now }
{
    at(seen, place_above(seen, address))
}

pub(crate) fn by_address<'a>(
    registry: &'a Registry,
    seen: &'a [SeenPort],
    address: FcId,
) -> Option<Known<'a>>
    requires { AreSeen registry.now.entries seen.now }
    ensures { option_map as_known result ≡ known_at address (known registry.now.entries seen.now) }
{
    match find_at(seen, address) {
        Some(port) => with_entry(registry, port),
        None => None,
    }
}

pub(crate) fn by_name<'a>(
    registry: &'a Registry,
    seen: &'a [SeenPort],
    name: Wwn,
) -> Option<Known<'a>>
    requires { AreSeen registry.now.entries seen.now }
    ensures { option_map as_known result
        ≡ known_by_name name (known registry.now.entries seen.now) }
{
    match first_named(seen, name) {
        Some(port) => with_entry(registry, port),
        None => None,
    }
}

fn least<'a>(registry: &'a Registry, seen: &'a [SeenPort]) -> Option<Known<'a>>
    requires { AreSeen registry.now.entries seen.now }
    ensures { option_map as_known result ≡ first_of (known registry.now.entries seen.now) }
{
    match seen.first() {
        Some(port) => with_entry(registry, port),
        None => None,
    }
}

/// The N_Port above the address, or else the least.
pub(crate) fn next_to<'a>(
    registry: &'a Registry,
    seen: &'a [SeenPort],
    address: FcId,
) -> Option<Known<'a>>
    requires { AreSeen registry.now.entries seen.now }
    ensures { option_map as_known result ≡ next_port address (known registry.now.entries seen.now) }
{
    match first_above(seen, address) {
        Some(port) => with_entry(registry, port),
        None => least(registry, seen),
    }
}
