//! Which MACs are bound to which ports: the bindings by MAC, and the same by ENode.
ghost use Rattle.std.specs.Prelude.{◌≡◌, ◌≢◌, true, false};
ghost use Rattle.fip_snoop.specs.Snoop as kept;

use crate::forwarder::Forwarder;
use crate::grant::{Ending, Grant, grant_in, is_ended, may_end, released_in};
use crate::orders::{
    ByEnode, enode_rank, first_of, forget, has_between, mac_rank, number_from, restore,
};
use fab_base::{FcId, Mac, NoMemory, PortNo, fpma};
use fip_codec::FipMessage;
use sorted_lists::SortedTree;
use std::alloc::Global;
use std::marker::Model;

/// A granted MAC is bound to a port, its ENode and its address.
#[derive(Clone, Copy, Debug, PartialEq, Eq)]
pub struct Binding {
    pub mac: Mac,
    pub port: PortNo,
    pub enode: Mac,
    pub address: FcId,
}

/// The bindings. No MAC is bound twice.
#[derive(Debug, Drop)]
pub(crate) struct Bindings {
    by_mac: SortedTree<Binding>,
    by_enode: SortedTree<ByEnode>,
}

impl Model for Bindings {
    ghost use Rattle.std.specs.Prelude.{List};
    ghost use Rattle.fip_snoop.specs.declared.bindings.Binding.{Binding};
    ghost use Rattle.fip_snoop.specs.Maps.{AreKept, bindings_of};

    ghost Value = { List Binding };

    ghost view = { λ t. t.by_mac };

    ghost invariant = { λ t. AreKept t.by_mac (bindings_of t.by_enode) };
}

impl Bindings {
    ghost use Rattle.std.specs.Prelude.{◌≡◌, ◌≢◌, ◌≤◌, [], true, false, not};
    ghost use Rattle.std.specs.Prelude.{OnOk, OnErr, IsOk, IfSome, IfNone, Some};
    ghost use Rattle.std.specs.List.{filter};
    ghost use Rattle.fip_codec.specs.Message.{view as fip_view};
    ghost use Rattle.fip_snoop.specs.Snoop as kept;
    ghost use Rattle.fip_snoop.specs.Maps as maps;

    pub(crate) fn new(alloc: Global) -> Bindings
        ensures { result ≡ [] }
    {
        Bindings {
            by_mac: SortedTree::new(alloc),
            by_enode: SortedTree::new(alloc),
        }
    }

    // The binding of a MAC.
    pub(crate) fn at(&self, mac: &Mac) -> Option<Binding>
        ensures { result ≡ kept.binding_in self.now mac.now }
    {
        match self.by_mac.find(mac_rank(mac)) {
            Some(binding) => Some(*binding),
            None => None,
        }
    }

    // Whether an ENode has a binding on another port. In their order by ENode its bindings stand by
    // port, so that one would be among those below this port or among those above it.
    pub(crate) fn is_elsewhere(&self, port: PortNo, enode: &Mac) -> bool
        ensures { result ≡ kept.is_moved_in self.now port enode.now }
    {
        let own = port.value();
        let first = number_from(enode, 0);
        let before = number_from(enode, own);
        let behind = number_from(enode, own + 1);
        let last = number_from(enode, 1 << 16);
        has_between(&self.by_enode, first, before) || has_between(&self.by_enode, behind, last)
    }

    // Keeps what stands behind a message that goes down to a port.
    pub(crate) fn deliver(
        &mut self,
        forwarder: &Forwarder,
        port: PortNo,
        enode: &Mac,
        message: &FipMessage<'_>,
    ) -> Result<(), NoMemory>
        ensures ok { OnOk result (maps.SameBindings self.new (kept.behind forwarder.now
            (kept.delivery_to port enode.now (fip_view message.now)) self.old)) }
        ensures err { OnErr result (self.new ≡ self.old) }
        ensures known { maps.IsBoundAlready forwarder.now (kept.delivery_to port enode.now
            (fip_view message.now)) self.old → IsOk result }
    {
        match grant_in(forwarder, message) {
            None => {
                let released = released_in(message);
                if may_end(message, &released) {
                    let message = &*message;
                    self.end(enode, &Ending::Told { message, released });
                }
                Ok(())
            }
            Some(grant) => {
                let binding = bound_by(forwarder, port, enode, &grant);
                let own = binding.mac;
                self.put(binding)?;
                if grant.first {
                    self.end(enode, &Ending::Others { own });
                }
                Ok(())
            }
        }
    }

    // Takes out what a message to an ENode ends.
    fn end(&mut self, enode: &Mac, ending: &Ending<'_, '_>)
        ensures { self.new ≡ filter (λ b. not (maps.is_ended_by enode.now ending.now b)) self.old }
    {
        let mut from = number_from(enode, 0);
        while let Some(binding) = self.next_of(enode, from) {
            from = enode_rank(&binding) + 1;
            self.end_one(&binding, enode, ending);
        }
    }

    // Takes a binding out, if a message ends it.
    fn end_one(&mut self, binding: &Binding, enode: &Mac, ending: &Ending<'_, '_>)
        ensures ended { maps.is_ended_by enode.now ending.now binding.now ≡ true
            → self.new ≡ kept.without_binding binding.now.mac self.old }
        ensures stays { maps.is_ended_by enode.now ending.now binding.now ≡ false
            → self.new ≡ self.old }
    {
        if is_ended(binding, enode, ending) {
            self.take(&binding.mac);
        }
    }

    // The first binding of an ENode whose number isn't below a bound.
    fn next_of(&self, enode: &Mac, from: u128) -> Option<Binding>
        requires enode { maps.IsMac enode.now }
        requires from { maps.number_from enode.now 0 ≤ from }
        ensures some { IfSome result (λ x. maps.IsFirst enode.now from self.now x) }
        ensures none { IfNone result (maps.AreBelow enode.now from self.now) }
    {
        first_of(&self.by_enode, enode, from)
    }

    // Whether a binding is there.
    fn is_bound(&self, binding: &Binding) -> bool
        ensures bound { result ≡ true → maps.IsBound binding.now self.now }
        ensures other { result ≡ false
            → kept.binding_in self.now binding.now.mac ≢ Some binding.now }
    {
        match self.by_mac.find(mac_rank(&binding.mac)) {
            Some(found) => are_same(found, binding),
            None => false,
        }
    }

    // Keeps a binding in place of the one of its MAC. One that is there is never refused memory.
    fn put(&mut self, binding: Binding) -> Result<(), NoMemory>
        ensures ok { OnOk result (maps.SameBindings self.new (kept.with_one binding self.old)) }
        ensures err { OnErr result (self.new ≡ self.old) }
        ensures known { kept.binding_in self.old binding.mac ≡ Some binding → IsOk result }
    {
        if self.is_bound(&binding) {
            return Ok(());
        }
        enode_rank(&binding);
        let old = self.by_mac.put(binding)?;
        match self.by_enode.put(ByEnode { binding }) {
            Ok(_) => {
                forget(&mut self.by_enode, &binding, &old);
                Ok(())
            }
            Err(refused) => {
                restore(&mut self.by_mac, mac_rank(&binding.mac), old);
                Err(refused)
            }
        }
    }

    // Takes out the binding of a MAC.
    fn take(&mut self, mac: &Mac)
        ensures { self.new ≡ kept.without_binding mac.now self.old }
    {
        match self.by_mac.take(mac_rank(mac)) {
            Some(binding) => {
                self.by_enode.take(enode_rank(&binding));
            }
            None => {}
        }
    }
}

fn are_same(one: &Binding, other: &Binding) -> bool
    ensures same { result ≡ true → one.now ≡ other.now }
    ensures other { result ≡ false → one.now ≢ other.now }
{
    *one == *other
}

// The binding that a grant makes which goes down to a port.
fn bound_by(forwarder: &Forwarder, port: PortNo, enode: &Mac, grant: &Grant) -> Binding
    ensures { result ≡ kept.binding_by forwarder.now port enode.now grant.now }
{
    Binding {
        mac: fpma(forwarder.fc_map, grant.address),
        port,
        enode: *enode,
        address: grant.address,
    }
}
