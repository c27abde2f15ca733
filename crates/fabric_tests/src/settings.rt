//! A configuration without zones.
use fab_base::{Mac, Wwn};
use fab_config::{ActivationList, Config, SetList, ZoneList};
use std::alloc::Global;

pub(crate) fn settings(alloc: Global) -> Config {
    Config {
        switch: Wwn(0x1000_0005_1e00_0002),
        fcf_mac: Mac([0x00, 0x05, 0x1e, 0x00, 0x00, 0x02]),
        fc_map: 0x0efc00,
        vlan: 100,
        domain: 1,
        pool: 8192,
        priority: 128,
        period: 8000,
        window: 100,
        limit: 256,
        zones: ZoneList::empty(alloc),
        sets: SetList::empty(alloc),
        activations: ActivationList::empty(alloc),
    }
}
