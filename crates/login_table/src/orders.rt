//! The orders in which the logins are kept.
ghost use Rattle.std.specs.Prelude.{◌≡◌, None, IfSome, IfNone, IsSome, option_copied, option_map, find, nat_le};
ghost use Rattle.fab_base.specs.Keyed.{item_at};
ghost use Rattle.slab.specs.Slab.{get};
ghost use Rattle.sorted_lists.specs.Orders.{seen, AreSorted};
ghost use Rattle.login_table.specs.Logins.{address_of, login_at};
ghost use Rattle.login_table.specs.Sound as kept;

use crate::Login;
use fab_base::{Enode, FcId};
use slab::Slab;
use sorted_lists::{Order, enode_number, order_find, order_next};

/// By address.
#[derive(Clone, Copy, Debug)]
pub(crate) struct ByAddress;

/// By port name.
#[derive(Clone, Copy, Debug)]
pub(crate) struct ByName;

/// By ENode, and then by address.
#[derive(Clone, Copy, Debug)]
pub(crate) struct ByEnode;

impl Order<Login> for ByAddress {
    ghost use Rattle.login_table.specs.Logins.{address_of};

    ghost number_of = { λ _ l. address_of l };

    fn number(&self, login: &Login) -> u128 {
        login.address.value() as u128
    }
}

impl Order<Login> for ByName {
    ghost use Rattle.login_table.specs.Logins.{name_of};

    ghost number_of = { λ _ l. name_of l };

    fn number(&self, login: &Login) -> u128 {
        login.name.0 as u128
    }
}

impl Order<Login> for ByEnode {
    ghost use Rattle.std.specs.Prelude.{◌≡◌};
    ghost use Rattle.login_table.specs.Sound.{behind_number, FitsLogin};

    ghost number_of = { λ _ l. behind_number l };

    fn number(&self, login: &Login) -> u128
        ensures value { result ≡ behind_number login.now }
        ensures fits { FitsLogin login.now }
    {
        enode_number(&login.enode) as u128 * (1 << 24) + login.address.value() as u128
    }
}

/// Does nothing; a caller learns that the ENode and the address are in their ranges.
pub(crate) fn known(login: &Login)
    ensures { kept.FitsLogin login.now }
{
    ByEnode.number(login);
}

/// The place of the login of an address, over the places by address.
pub(crate) fn place_of(logins: &Slab<Login>, places: &[usize], address: FcId) -> Option<usize>
    requires { AreSorted address_of logins.now places.now }
    ensures some { IfSome result (λ place. get logins.now place
        ≡ login_at address (seen logins.now places.now)) }
    ensures there { IfSome result (λ place. IsSome (get logins.now place)) }
    ensures none { IfNone result (login_at address (seen logins.now places.now) ≡ None) }
{
    order_find(&ByAddress, logins, places, address.value() as u128)
}

/// The login that has a number.
pub(crate) fn login_by<'a, O: Order<Login>>(
    order: &O,
    logins: &'a Slab<Login>,
    places: &[usize],
    number: u128,
) -> Option<&'a Login>
    requires { AreSorted (O.number_of order.now) logins.now places.now }
    ensures { option_copied result
        ≡ item_at (O.number_of order.now) number (seen logins.now places.now) }
{
    match order_find(order, logins, places, number) {
        Some(place) => logins.get(place),
        None => None,
    }
}

/// The first address of the ENode that isn't below `from`, over the places by ENode.
pub(crate) fn first_behind(
    logins: &Slab<Login>,
    places: &[usize],
    enode: &Enode,
    from: u32,
) -> Option<FcId>
    requires { AreSorted kept.behind_number logins.now places.now }
    ensures value { result ≡ kept.first_behind enode.now from (seen logins.now places.now) }
    ensures whole { kept.IsWholeEnode enode.now }
{
    let number = enode_number(enode);
    if from >= 1 << 24 {
        return None;
    }
    let bound = number as u128 * (1 << 24) + from as u128;
    match order_next(&ByEnode, logins, places, bound) {
        Some(login) => {
            if login.enode == *enode {
                Some(login.address)
            } else {
                None
            }
        }
        None => None,
    }
}

/// The first address that isn't below `from`, over the places by address.
pub(crate) fn first_from(logins: &Slab<Login>, places: &[usize], from: u32) -> Option<FcId>
    requires { AreSorted address_of logins.now places.now }
    ensures { result ≡ option_map (λ l. l.address)
        (find (λ l. nat_le from l.address) (seen logins.now places.now)) }
{
    match order_next(&ByAddress, logins, places, from as u128) {
        Some(login) => Some(login.address),
        None => None,
    }
}
