//! A number for each ENode.
ghost use Rattle.std.specs.Prelude.{◌≡◌, ◌<◌, ◌^◌, ℕ, length, slice_index};
ghost use Rattle.fab_base.specs.Layout.{big_endian};
ghost use Rattle.sorted_lists.specs.Enodes as enodes;

use fab_base::{Enode, Mac};

/// A number that no other ENode has.
pub fn enode_number(enode: &Enode) -> u64
    ensures value { result ≡ enodes.enode_number enode.now }
    ensures whole { enodes.IsWhole enode.now }
{
    enode.port.value() as u64 * (1 << 48) + mac_number(&enode.mac)
}

/// A number of 48 bits that no other MAC has.
pub fn mac_number(mac: &Mac) -> u64
    ensures value { result ≡ big_endian mac.now }
    ensures range { result < 2 ^ 48 }
    ensures length { length mac.now ≡ 6 }
    ensures bytes { (i : ℕ) → slice_index mac.now i < 256 }
{
    let [a, b, c, d, e, f] = mac.0;
    u64::from_be_bytes([0, 0, a, b, c, d, e, f])
}
