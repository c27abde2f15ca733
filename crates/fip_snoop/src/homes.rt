//! On which ports ENodes are, in the order of their MACs.
use crate::home::Home;
use fab_base::{Mac, NoMemory, PortNo};
use sorted_lists::{HasRank, SortedTree, mac_number};
use std::alloc::Global;
use std::marker::Model;

/// The homes of ENodes.
#[derive(Debug, Drop)]
pub(crate) struct Homes {
    by_mac: SortedTree<Home>,
}

impl Model for Homes {
    ghost use Rattle.std.specs.Prelude.{List};
    ghost use Rattle.std.specs.List.{All};
    ghost use Rattle.fip_snoop.specs.declared.home.Home.{Home};
    ghost use Rattle.fip_snoop.specs.Maps.{IsWholeHome};

    ghost Value = { List Home };

    ghost view = { λ h. h.by_mac };

    ghost invariant = { λ h. All IsWholeHome h.by_mac };
}

impl Homes {
    ghost use Rattle.std.specs.Prelude.{◌≡◌, [], Some, OnOk, OnErr, IsOk};
    ghost use Rattle.fip_snoop.specs.Snoop as kept;
    ghost use Rattle.fip_snoop.specs.Maps.{SameHomes};

    pub(crate) fn new(alloc: Global) -> Homes
        ensures { result ≡ [] }
    {
        Homes {
            by_mac: SortedTree::new(alloc),
        }
    }

    // The port of an ENode.
    pub(crate) fn at(&self, mac: &Mac) -> Option<PortNo>
        ensures { result ≡ kept.home_in self.now mac.now }
    {
        match self.by_mac.find(mac_number(mac) as u128) {
            Some(home) => Some(home.port),
            None => None,
        }
    }

    // Keeps a home in place of the one of its MAC. A known one is never refused memory.
    pub(crate) fn put(&mut self, home: Home) -> Result<(), NoMemory>
        ensures ok { OnOk result (SameHomes self.new (kept.with_home home self.old)) }
        ensures err { OnErr result (self.new ≡ self.old) }
        ensures known { kept.home_in self.old home.mac ≡ Some home.port → IsOk result }
    {
        home.rank();
        self.by_mac.put(home)?;
        Ok(())
    }
}
