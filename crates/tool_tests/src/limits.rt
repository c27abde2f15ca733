//! A limit that is too large for a case, tried small.
use crate::inputs::{CONFIG, REQUEST, depot_of, words_in};
use fab_base::word_at;
use fab_migrate::{MigrateError, OldError, migrate};
use std::test::Fail;

#[test]
fn a_journal_past_its_limit_is_not_migrated(rt: HostRuntime) -> Result<(), Fail> {
    let alloc = rt.alloc();
    let mut depot = depot_of(alloc, &CONFIG, &REQUEST, &REQUEST)?;
    let words = words_in(alloc, &["IN", "OUT"])?;
    assert!(rt; depot.depot.knows_all(&words));
    assert_eq!(rt; words.len(), 2);
    let (from, to) = (word_at(&words, 0), word_at(&words, 1));
    let ended = migrate(alloc, &mut depot, from, to, REQUEST.len() as u64 - 1);
    assert!(rt; matches!(ended, Err(MigrateError::Input(OldError::Bytes))));
    Ok(())
}
