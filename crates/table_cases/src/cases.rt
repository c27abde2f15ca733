//! What is open, and which table a line is about.
ghost use Rattle.case_lines.specs.Printing.{Grows};
ghost use Rattle.table_cases.specs.Tables.{ChangesOne};

use crate::logins::{Logins, login_call};
use crate::pool::pool_call;
use crate::registry::{codes_call, registry_call};
use crate::voices::{Voices, voice_call};
use crate::words::{CaseFault, name_at};
use crate::zoning::{Watched, Zoning, watcher_call, zone_call};
use fc_addresses::Pool;
use name_server::Registry;
use std::alloc::Global;

/// One table of each kind, where it was opened.
pub struct Tables {
    pool: Option<Pool>,
    logins: Option<Logins>,
    voices: Option<Voices>,
    registry: Option<Registry>,
    zoning: Option<Zoning>,
    watched: Option<Watched>,
}

impl Drop for Tables {
    // By hand, so that it is dropped by one call.
    fn drop(self) {
        let Tables {
            pool: _pool,
            logins: _logins,
            voices: _voices,
            registry: _registry,
            zoning: _zoning,
            watched: _watched,
        } = self;
    }
}

impl Tables {
    /// Nothing is open.
    pub fn new() -> Tables {
        Tables {
            pool: None,
            logins: None,
            voices: None,
            registry: None,
            zoning: None,
            watched: None,
        }
    }
}

/// Appends the answer of a call of a table. After a refusal that table may have taken the call, and
/// no other.
pub fn answer(
    alloc: Global,
    tables: &mut Tables,
    line: &[u8],
    out: &mut Vec<u8>,
) -> Result<(), CaseFault>
    ensures grows { Grows out.old.items out.new.items }
    ensures others { ChangesOne tables.old tables.new }
{
    match name_at(line, 0) {
        "pool" => pool_call(alloc, &mut tables.pool, line, out),
        "logins" => login_call(alloc, &mut tables.logins, line, out),
        "voices" => voice_call(alloc, &mut tables.voices, line, out),
        "registry" => registry_call(alloc, &mut tables.registry, line, out),
        "codes" => codes_call(alloc, line, out),
        "zones" => zone_call(alloc, &mut tables.zoning, line, out),
        "watchers" => watcher_call(alloc, &mut tables.watched, &tables.zoning, line, out),
        _ => Err(CaseFault::Words),
    }
}
