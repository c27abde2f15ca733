//! A test that tables of rules over frames share.
ghost use Rattle.std.specs.Prelude.{◌≡◌};
ghost use Rattle.eth_frames.specs.Ethernet.{view as eth_view};
ghost use Rattle.heard_frames.specs.Rows as rows;

use eth_frames::EthFrame;

/// Whether a frame isn't on a VLAN, nor untagged (or of VLAN 0) where it may be.
pub fn is_wrong_vlan(vlan: u16, eth: &EthFrame<'_>, may_be_untagged: bool) -> bool
    ensures { result ≡ rows.is_wrong_vlan vlan (eth_view eth.now) may_be_untagged }
{
    let found = eth.vlan();
    let right = found == vlan || (may_be_untagged && found == 0);
    !right
}
