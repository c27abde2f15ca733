//! What is registered of an N_Port.
ghost use Rattle.std.specs.Prelude.{◌≡◌, ◌<◌, ◌==◌, true, length, set};
ghost use Rattle.std.specs.List.{All};
ghost use Rattle.ct_messages.specs.Ask.{view};
ghost use Rattle.ct_messages.specs.CanWrite.{CanWrite, IsSymbol};
ghost use Rattle.ct_messages.specs.Server.{after, first_values, has_changed, is_registration, feature_words};
ghost use Rattle.name_server.specs.Registry.{IsKept};

use crate::features::{feature_map, no_features};
use arrayvec::ArrayVec;
use ct_messages::{CtAsk, FeatureMap, TypeMap};
use fab_base::Wwn;
use std::marker::Model;

/// The longest symbolic name, in bytes.
const SYMBOL: usize = 255;

/// The node name, the FC-4 types, a feature of four bits for each type, and two symbolic names.
#[derive(Debug, Drop)]
pub struct Values {
    node_name: Wwn,
    types: TypeMap,
    features: [u8; 256],
    symbol: ArrayVec<u8, SYMBOL>,
    node_symbol: ArrayVec<u8, SYMBOL>,
}

impl Model for Values {
    ghost use Rattle.ct_messages.specs.Server as server;
    ghost use Rattle.name_server.specs.Registry.{IsKept};

    ghost Value = { server.Values };

    ghost view = { λ v. record {
      node_name = v.node_name;
      types = v.types;
      features = v.features;
      symbol = v.symbol.items;
      node_symbol = v.node_symbol.items;
    } };

    ghost invariant = { λ v. IsKept (record {
      node_name = v.node_name;
      types = v.types;
      features = v.features;
      symbol = v.symbol.items;
      node_symbol = v.node_symbol.items;
    }) };
}

impl Values {
    /// What a login gave: its node name, and nothing else.
    pub fn new(node: Wwn) -> Values
        ensures value { result ≡ first_values node }
        ensures kept { IsKept result }
    {
        Values {
            node_name: node,
            types: TypeMap([0; 8]),
            features: no_features(),
            symbol: ArrayVec::new(),
            node_symbol: ArrayVec::new(),
        }
    }

    pub fn node_name(&self) -> Wwn
        ensures { result ≡ self.now.node_name }
    {
        self.node_name
    }

    pub fn types(&self) -> TypeMap
        ensures { result ≡ self.now.types }
    {
        self.types
    }

    /// The feature of each type.
    pub fn features(&self) -> &[u8]
        ensures value { result.now ≡ self.now.features }
        ensures range { All (λ feature. feature < 16) result.now }
        ensures count { length result.now ≡ 256 }
    {
        &self.features
    }

    pub fn symbol(&self) -> &[u8]
        ensures value { result.now ≡ self.now.symbol }
        ensures size { IsSymbol self.now.symbol }
    {
        self.symbol.as_slice()
    }

    pub fn node_symbol(&self) -> &[u8]
        ensures value { result.now ≡ self.now.node_symbol }
        ensures size { IsSymbol self.now.node_symbol }
    {
        self.node_symbol.as_slice()
    }

    /// The features of all types in their words.
    pub(crate) fn feature_words(&self) -> FeatureMap
        ensures { result ≡ feature_words self.now.features }
    {
        feature_map(&self.features)
    }

    pub fn set_node_name(&mut self, name: Wwn)
        ensures value { self.new ≡ record self.old { node_name = name } }
        ensures kept { IsKept self.new }
    {
        self.node_name = name;
    }

    pub fn set_types(&mut self, types: TypeMap)
        ensures value { self.new ≡ record self.old { types = types } }
        ensures kept { IsKept self.new }
    {
        self.types = types;
    }

    pub fn set_feature(&mut self, kind: u8, feature: u8)
        requires { feature < 16 }
        ensures value { self.new ≡ record self.old { features = set self.old.features kind feature } }
        ensures kept { IsKept self.new }
    {
        self.features[kind as usize] = feature;
    }

    pub fn set_symbol(&mut self, symbol: &[u8])
        requires { IsSymbol symbol.now }
        ensures value { self.new ≡ record self.old { symbol = symbol.now } }
        ensures kept { IsKept self.new }
    {
        put_symbol(&mut self.symbol, symbol);
    }

    pub fn set_node_symbol(&mut self, symbol: &[u8])
        requires { IsSymbol symbol.now }
        ensures value { self.new ≡ record self.old { node_symbol = symbol.now } }
        ensures kept { IsKept self.new }
    {
        put_symbol(&mut self.node_symbol, symbol);
    }

    /// The same values as another's.
    pub(crate) fn copy_from(&mut self, other: &Values)
        ensures value { self.new ≡ other.now }
        ensures kept { IsKept self.new }
    {
        self.node_name = other.node_name;
        self.types = other.types;
        self.features = other.features;
        put_symbol(&mut self.symbol, other.symbol());
        put_symbol(&mut self.node_symbol, other.node_symbol());
    }

    /// Whether a registration would change the types or a feature, by the node name of the login.
    pub(crate) fn is_changed_by(&self, _node: Wwn, ask: &CtAsk<'_>) -> bool
        requires registration { is_registration (view ask.now) ≡ true }
        ensures { result ≡ has_changed self.now (after _node (view ask.now) self.now) }
    {
        match ask {
            CtAsk::SetTypes(_, types) => self.types != *types,
            CtAsk::SetFeature { feature, kind, .. } => {
                let mut features = self.features;
                features[*kind as usize] = *feature;
                self.features != features
            }
            CtAsk::Erase(_) => self.types != TypeMap([0; 8]) || self.features != no_features(),
            _ => false,
        }
    }

    /// Takes a registration over, by the node name of the login. True where it changes the types or
    /// a feature.
    pub(crate) fn register(&mut self, node: Wwn, ask: &CtAsk<'_>) -> bool
        requires registration { is_registration (view ask.now) ≡ true }
        requires size { CanWrite (view ask.now) }
        ensures values { self.new ≡ after node (view ask.now) self.old }
        ensures noticed { result ≡ has_changed self.old self.new }
        ensures kept { IsKept self.new }
    {
        let types = self.types;
        let features = self.features;
        self.set(node, ask);
        types != self.types || features != self.features
    }

    fn set(&mut self, node: Wwn, ask: &CtAsk<'_>)
        requires registration { is_registration (view ask.now) ≡ true }
        requires size { CanWrite (view ask.now) }
        ensures values { self.new ≡ after node (view ask.now) self.old }
        ensures kept { IsKept self.new }
    {
        match ask {
            CtAsk::SetNode(_, name) => self.node_name = *name,
            CtAsk::SetTypes(_, types) => self.types = *types,
            CtAsk::SetSymbol(_, symbol) => put_symbol(&mut self.symbol, symbol),
            CtAsk::SetFeature { feature, kind, .. } => self.features[*kind as usize] = *feature,
            CtAsk::SetNodeSymbol(_, symbol) => put_symbol(&mut self.node_symbol, symbol),
            CtAsk::Erase(_) => *self = Values::new(node),
            _ => unreachable!(),
        }
    }
}

fn put_symbol(symbol: &mut ArrayVec<u8, SYMBOL>, text: &[u8])
    requires { IsSymbol text.now }
    ensures { symbol.new.items ≡ text.now }
{
    symbol.clear();
    let Ok(()) = symbol.try_extend_from_slice(text) else {
        unreachable!()
    };
}
