//! The orders in which bindings are kept.
ghost use Rattle.std.specs.Prelude.{◌≡◌, ◌≢◌, ◌<◌, ◌≤◌, ◌^◌, IfSome, None};
ghost use Rattle.std.specs.List.{list_any};
ghost use Rattle.fab_base.specs.Keyed.{item_at};
ghost use Rattle.fip_snoop.specs.Maps as maps;

use crate::Binding;
use fab_base::Mac;
use sorted_lists::{HasRank, SortedTree, mac_number};

impl HasRank for Binding {
    ghost use Rattle.std.specs.Prelude.{◌≡◌, ◌<◌, ◌^◌};
    ghost use Rattle.fip_snoop.specs.Maps as maps;

    ghost rank_of = { λ b. maps.mac_number b };

    fn rank(&self) -> u128
        ensures value { result ≡ maps.mac_number self.now }
    {
        mac_rank(&self.mac)
    }
}

/// A binding that is kept by its ENode, then by its port, then by its MAC.
#[derive(Clone, Copy, Debug)]
pub(crate) struct ByEnode {
    pub(crate) binding: Binding,
}

impl HasRank for ByEnode {
    ghost use Rattle.std.specs.Prelude.{◌≡◌, ◌<◌, ◌^◌};
    ghost use Rattle.fip_snoop.specs.Maps as maps;

    ghost rank_of = { λ k. maps.enode_number k.binding };

    fn rank(&self) -> u128
        ensures value { result ≡ maps.enode_number self.now.binding }
        ensures range { result < 2 ^ 112 }
    {
        enode_rank(&self.binding)
    }
}

/// The number of a binding by its ENode, then by its port, then by its MAC.
pub(crate) fn enode_rank(binding: &Binding) -> u128
    ensures value { result ≡ maps.enode_number binding.now }
    ensures range { result < 2 ^ 112 }
    ensures whole { maps.IsWhole binding.now }
{
    number_from(&binding.enode, binding.port.value()) + mac_number(&binding.mac) as u128
}

/// The number of the binding of a MAC.
pub(crate) fn mac_rank(mac: &Mac) -> u128
    ensures value { result ≡ maps.number_of mac.now }
    ensures mac { maps.IsMac mac.now }
{
    mac_number(mac) as u128
}

/// The least number of the bindings of an ENode from a port on.
pub(crate) fn number_from(enode: &Mac, port: u32) -> u128
    requires { port ≤ 2 ^ 16 }
    ensures value { result ≡ maps.number_from enode.now port }
    ensures range { result ≤ 2 ^ 112 }
    ensures mac { maps.IsMac enode.now }
{
    (mac_number(enode) as u128 * (1 << 16) + port as u128) * (1 << 48)
}

/// Whether the number of some binding is in a range, over the bindings by ENode.
pub(crate) fn has_between(by_enode: &SortedTree<ByEnode>, from: u128, to: u128) -> bool
    ensures { result ≡ list_any (maps.is_between from to) (maps.bindings_of by_enode.now) }
{
    match by_enode.next(from) {
        Some(kept) => kept.rank() < to,
        None => false,
    }
}

/// The first binding from a number on, if it is of an ENode.
pub(crate) fn first_of(by_enode: &SortedTree<ByEnode>, enode: &Mac, from: u128) -> Option<Binding>
    ensures { result ≡ maps.first_of enode.now from (maps.bindings_of by_enode.now) }
{
    match by_enode.next(from) {
        Some(kept) => {
            let found = kept.binding;
            if *enode == found.enode {
                Some(found)
            } else {
                None
            }
        }
        None => None,
    }
}

/// Puts back what was kept by a MAC before a binding was put.
pub(crate) fn restore(by_mac: &mut SortedTree<Binding>, rank: u128, old: Option<Binding>)
    requires { IfSome old (λ b. item_at maps.mac_number (maps.mac_number b) by_mac.old ≢ None) }
    ensures { by_mac.new ≡ maps.restored rank old by_mac.old }
{
    match old {
        Some(old) => {
            let Ok(_) = by_mac.put(old) else {
                unreachable!()
            };
        }
        None => {
            by_mac.take(rank);
        }
    }
}

/// Takes the binding out that another one replaced.
pub(crate) fn forget(by_enode: &mut SortedTree<ByEnode>, binding: &Binding, old: &Option<Binding>)
    ensures { maps.bindings_of by_enode.new
        ≡ maps.forgotten binding.now old.now (maps.bindings_of by_enode.old) }
{
    if let Some(old) = old {
        let rank = enode_rank(old);
        if rank != enode_rank(binding) {
            by_enode.take(rank);
        }
    }
}
