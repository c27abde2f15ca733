//! What an N_Port registered, as the name server keeps it.
ghost use Rattle.std.specs.Prelude.{◌≡◌, length};
ghost use Rattle.fab_pieces.specs.Seam.{AreBelow};
ghost use Rattle.fab_state.specs.Fit.{IsKept};

use fab_state::Values;
use name_server::Values as KeptValues;

/// The values of an N_Port of a seam.
pub(crate) fn kept_values(values: &Values) -> KeptValues
    requires { IsKept values.now }
    ensures { result ≡ values.now }
{
    let mut kept = KeptValues::new(values.node_name);
    kept.set_types(values.types);
    set_features(&mut kept, values.features.view());
    kept.set_symbol(values.symbol.view());
    kept.set_node_symbol(values.node_symbol.view());
    kept
}

// The features of all types become these.
fn set_features(values: &mut KeptValues, features: &[u8])
    requires there { length values.old.features ≡ 256 }
    requires count { length features.now ≡ 256 }
    requires low { AreBelow 16 features.now }
    ensures { values.new ≡ record values.old { features = features.now } }
{
    for kind in 0..256usize {
        values.set_feature(kind as u8, features[kind]);
    }
}
