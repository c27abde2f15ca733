//! The configuration.
ghost use Rattle.std.specs.Prelude.{◌≡◌, IsTrue, length, vec_len, IfOk};
ghost use Rattle.fabric_tool.specs.Reading.{ConfigRead, TextRead, misread_by};

use crate::outcome::Outcome;
use fab_base::{Depot, fill};
use fab_config::{Config, ConfigError, read_config};
use std::alloc::{AllocError, Global};

/// One byte more than a configuration text may have.
const ROOM: usize = 1_048_577;

/// The configuration in a file.
pub(crate) fn config_of<D: Depot>(
    alloc: Global,
    depot: &mut D,
    name: &str,
) -> Result<Config, Outcome>
    requires { IsTrue ((D.seen depot.old).knows name.now) }
    ensures reads { ConfigRead name.now (D.seen depot.old) (D.seen depot.new) result }
{
    let Ok(slot) = depot.open_in(name) else {
        return Err(Outcome::ReadFault);
    };
    config_from(alloc, depot, slot)
}

fn config_from<D: Depot>(alloc: Global, depot: &mut D, slot: u32) -> Result<Config, Outcome>
    requires { IsTrue ((D.seen depot.old).input slot) }
    ensures reads { TextRead slot (D.seen depot.old) (D.seen depot.new) result }
{
    match zeros(alloc, ROOM) {
        Ok(mut room) => config_in(alloc, depot, slot, &mut room),
        Err(_) => Err(Outcome::Memory),
    }
}

// A text that fills the whole room is too long, whatever comes behind it.
fn config_in<D: Depot>(
    alloc: Global,
    depot: &mut D,
    slot: u32,
    room: &mut [u8],
) -> Result<Config, Outcome>
    requires slot { IsTrue ((D.seen depot.old).input slot) }
    requires room { length room.old ≡ 1048577 }
    ensures reads { TextRead slot (D.seen depot.old) (D.seen depot.new) result }
{
    let got = match fill(depot, slot, room) {
        Ok(got) => got,
        Err(_) => return Err(Outcome::ReadFault),
    };
    match read_config(alloc, &room[..got]) {
        Ok(config) => Ok(config),
        Err(error) => Err(misread(error)),
    }
}

// What an error of its reading ends the command with.
fn misread(error: ConfigError) -> Outcome
    ensures { result ≡ misread_by error }
{
    match error {
        ConfigError::Fault(fault) => Outcome::Config { fault },
        ConfigError::Memory => Outcome::Memory,
    }
}

// So many bytes to read into.
fn zeros(alloc: Global, count: usize) -> Result<Vec<u8>, AllocError>
    ensures { IfOk result (λ v. vec_len v ≡ count) }
{
    Vec::from_elem(alloc, 0, count)
}
