//! The entry of one N_Port.
ghost use Rattle.std.specs.Prelude.{◌≡◌, true};
ghost use Rattle.ct_messages.specs.Ask.{view};
ghost use Rattle.ct_messages.specs.CanWrite.{CanWrite, IsSymbol};
ghost use Rattle.ct_messages.specs.Server.{after, has_changed, is_registration, feature_words};
ghost use Rattle.name_server.specs.Registry.{entered, revalued, IsKept};

use crate::Values;
use ct_messages::{CtAsk, FeatureMap, TypeMap};
use fab_base::{FcId, HasAddress, Wwn};
use std::marker::Model;

/// An N_Port, the node name of its login, and what it registered.
#[derive(Debug, Drop)]
pub(crate) struct Entry {
    address: FcId,
    node: Wwn,
    values: Values,
}

impl Model for Entry {
    ghost use Rattle.name_server.specs.Registry.{Entry as Registered, IsKept};

    ghost Value = { Registered };

    ghost view = { λ e. record { address = e.address; node = e.node; values = e.values } };

    ghost invariant = { λ e. IsKept e.values };
}

impl HasAddress for Entry {
    ghost address_of = { λ e. e.address };

    fn address(&self) -> FcId {
        self.address
    }
}

impl Entry {
    /// What the login gave.
    pub(crate) fn new(address: FcId, node: Wwn) -> Entry
        ensures value { result ≡ entered address node }
        ensures kept { IsKept result.values }
    {
        Entry {
            address,
            node,
            values: Values::new(node),
        }
    }

    pub(crate) fn values(&self) -> &Values
        ensures { result.now ≡ self.now.values }
    {
        &self.values
    }

    pub(crate) fn node_name(&self) -> Wwn
        ensures { result ≡ self.now.values.node_name }
    {
        self.values.node_name()
    }

    pub(crate) fn types(&self) -> TypeMap
        ensures { result ≡ self.now.values.types }
    {
        self.values.types()
    }

    pub(crate) fn symbol(&self) -> &[u8]
        ensures value { result.now ≡ self.now.values.symbol }
        ensures size { IsSymbol self.now.values.symbol }
    {
        self.values.symbol()
    }

    pub(crate) fn node_symbol(&self) -> &[u8]
        ensures value { result.now ≡ self.now.values.node_symbol }
        ensures size { IsSymbol self.now.values.node_symbol }
    {
        self.values.node_symbol()
    }

    /// The features of all types in their words.
    pub(crate) fn features(&self) -> FeatureMap
        ensures { result ≡ feature_words self.now.values.features }
    {
        self.values.feature_words()
    }

    /// Whether a registration would change the types or a feature.
    pub(crate) fn is_changed_by(&self, ask: &CtAsk<'_>) -> bool
        requires registration { is_registration (view ask.now) ≡ true }
        ensures { result ≡ has_changed self.now.values
            (after self.now.node (view ask.now) self.now.values) }
    {
        self.values.is_changed_by(self.node, ask)
    }

    /// Takes a registration over. True where it changes the types or a feature.
    pub(crate) fn register(&mut self, ask: &CtAsk<'_>) -> bool
        requires registration { is_registration (view ask.now) ≡ true }
        requires size { CanWrite (view ask.now) }
        ensures entry { self.new ≡ record self.old {
          values = after self.old.node
              (view ask.now) self.old.values;
        } }
        ensures noticed { result ≡ has_changed self.old.values self.new.values }
        ensures kept { IsKept self.new.values }
    {
        self.values.register(self.node, ask)
    }

    /// These values, in the place of those that it had.
    pub(crate) fn set_values(&mut self, values: &Values)
        ensures entry { self.new ≡ revalued values.now self.old }
        ensures kept { IsKept self.new.values }
    {
        self.values.copy_from(values);
    }
}
