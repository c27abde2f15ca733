//! A file that is read whole.
ghost use Rattle.std.specs.Prelude.{◌≡◌, ◌≤◌, length, IsTrue, IfOk};
ghost use Rattle.fab_migrate.specs.OldWords.{WholeRead, old_error_of};

use crate::old::OldError;
use fab_base::{Depot, WholeError};
use std::alloc::Global;

/// All that an open input has left, within a limit of bytes, as fab_base reads it.
pub fn read_whole<D: Depot>(
    alloc: Global,
    depot: &mut D,
    slot: u32,
    limit: u64,
) -> Result<Vec<u8>, OldError>
    requires input { IsTrue ((D.seen depot.old).input slot) }
    ensures reads { WholeRead slot limit (D.seen depot.old) (D.seen depot.new) result }
    ensures within { IfOk result (λ v. length v.items ≤ limit) }
{
    match fab_base::read_whole(alloc, depot, slot, limit) {
        Ok(whole) => Ok(whole),
        Err(error) => Err(old_error_of(error)),
    }
}

// Why a file that isn't read whole isn't migrated.
fn old_error_of(error: WholeError) -> OldError
    ensures { result ≡ old_error_of error }
{
    match error {
        WholeError::Bytes => OldError::Bytes,
        WholeError::Read(failed) => OldError::Read(failed),
        WholeError::Memory => OldError::Memory,
    }
}
