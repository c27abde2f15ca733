//! Journals that are there already: read line by line, and written in another format.
#![tactic(auto)]

mod migrating;
mod old;
mod old_laws;
mod whole;

pub use migrating::migrate;
pub use old::{MigrateError, OldError, OldWhy};
pub use old_laws::{an_old_journal_has_one_reading, journals_are_migrated};
pub use whole::read_whole;
