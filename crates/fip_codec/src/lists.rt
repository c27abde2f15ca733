//! The lists of a message, which stay in the body and are cut out as they are asked for.

use crate::descriptor::{VLAN, VX_PORT, count_of, nth_of, vlan_number, vx_port};
use crate::message::VxPort;
use std::marker::{Model, PhantomData};

/// What a descriptor of a list says: a Vx_Port, or a VLAN number.
pub trait Item: Copy {
    ghost use Rattle.std.specs.Prelude.{◌≡◌, ◌≤◌, ℕ, List, length};
    ghost use Rattle.fip_codec.specs.Walk.{room};

    /// The type of its descriptors.
    ghost kind: { ℕ };

    /// What the content of a descriptor says.
    ghost value: { List ℕ → Self };

    /// The type of its descriptors, in the code.
    fn kind() -> u8
        ensures { result ≡ kind };

    /// Reads the content of a descriptor.
    fn read(content: &[u8]) -> Self
        requires { room kind ≤ length content.now }
        ensures { result ≡ value content.now };
}

impl Item for VxPort {
    ghost use Rattle.fip_codec.specs.Fip.{vx_port};

    ghost kind = { 11 };

    ghost value = { vx_port };

    fn kind() -> u8 {
        VX_PORT
    }

    fn read(content: &[u8]) -> VxPort {
        vx_port(content)
    }
}

/// A VLAN number.
impl Item for u16 {
    ghost use Rattle.fip_codec.specs.Fip.{vlan_number};

    ghost kind = { 14 };

    ghost value = { vlan_number };

    fn kind() -> u8 {
        VLAN
    }

    fn read(content: &[u8]) -> u16 {
        vlan_number(content)
    }
}

/// The descriptors of one type in a list.
#[derive(Debug, Drop)]
pub struct ItemList<'a, T: Item> {
    list: &'a [u8],
    item: PhantomData<T>,
}

/// The Vx_Port descriptors of a list.
pub type VxList<'a> = ItemList<'a, VxPort>;

/// The VLAN numbers of a list.
pub type VlanList<'a> = ItemList<'a, u16>;

impl<'a, T: Item> Model for ItemList<'a, T> {
    ghost use Rattle.std.specs.Prelude.{List, ◌≡◌, true};

    ghost Value = { List T };

    ghost use Rattle.fip_codec.specs.Fip.{items};
    ghost use Rattle.fip_codec.specs.Walk.{are_sound};

    ghost view = { λ l. items T.kind T.value l.list.now };

    ghost invariant = { λ l. are_sound l.list.now ≡ true };
}

impl<'a, T: Item> ItemList<'a, T> {
    ghost use Rattle.std.specs.Prelude.{◌≡◌, length, slice_get, true};
    ghost use Rattle.fip_codec.specs.Fip.{items};
    ghost use Rattle.fip_codec.specs.Walk.{are_sound};

    /// The items of a list in which nothing is wrong.
    pub(crate) fn of(list: &'a [u8]) -> ItemList<'a, T>
        requires { are_sound list.now ≡ true }
        ensures { result ≡ items T.kind T.value list.now }
    {
        ItemList {
            list,
            item: PhantomData,
        }
    }

    /// How many there are. This walks over the list.
    pub fn len(&self) -> usize
        ensures { result ≡ length self.now }
    {
        count_of(self.list, T::kind())
    }

    /// The one at a place, or none past the end. This walks over the list.
    pub fn at(&self, index: usize) -> Option<T>
        ensures { result ≡ slice_get self.now index }
    {
        match nth_of(self.list, T::kind(), index) {
            Some(found) => Some(T::read(found.content)),
            None => None,
        }
    }
}
