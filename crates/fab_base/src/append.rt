//! How writers append: to a list with room, and at the end what was made apart.
ghost use Rattle.std.specs.Prelude.{◌≡◌, ◌≤◌, ◌+◌, ◌++◌, length, IfOk, OnOk, OnErr, IsErr};
ghost use Rattle.std.specs.Prelude.{vec_len, vec_capacity};
ghost use Rattle.arrayvec.specs.ArrayVec.{array_vec_len};

use crate::NoMemory;
use arrayvec::ArrayVec;
use std::alloc::{AllocError, Global};

/// Appends bytes to a list of at most `N`.
pub fn put<const N: usize>(list: &mut ArrayVec<u8, N>, bytes: &[u8])
    requires { array_vec_len list.old + length bytes.now ≤ N }
    ensures bytes { list.new.items ≡ list.old.items ++ bytes.now }
    ensures size { array_vec_len list.new ≡ array_vec_len list.old + length bytes.now }
{
    list.try_extend_from_slice(bytes).unwrap();
}

/// Appends bytes for which room was reserved.
pub fn append_reserved(out: &mut Vec<u8>, bytes: &[u8])
    requires { vec_len out.old + length bytes.now ≤ vec_capacity out.old }
    ensures bytes { out.new.items ≡ out.old.items ++ bytes.now }
    ensures size { vec_len out.new ≡ vec_len out.old + length bytes.now }
    ensures room { vec_capacity out.old ≤ vec_capacity out.new }
{
    out.extend_from_slice(bytes).unwrap();
}

/// Appends bytes that were made for it. Where memory was refused, for these bytes or here, `out`
/// stays as it was.
pub fn append_made(
    _alloc: Global,
    made: Result<Vec<u8>, AllocError>,
    out: &mut Vec<u8>,
) -> Result<(), NoMemory>
    ensures ok { OnOk result (IfOk made (λ bytes. out.new.items ≡ out.old.items ++ bytes.items)) }
    ensures err { OnErr result (out.new.items ≡ out.old.items) }
    ensures refused { OnErr made (IsErr result) }
{
    let bytes = made?;
    out.extend_from_slice(&bytes)?;
    Ok(())
}
