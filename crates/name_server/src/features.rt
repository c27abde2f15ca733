//! The features of the types in the words of GFF_ID.
ghost use Rattle.std.specs.Prelude.{◌≡◌, ◌+◌, ◌*◌, ◌<◌, ◌≤◌, slice_index};
ghost use Rattle.std.specs.List.{All};
ghost use Rattle.ct_messages.specs.Server.{NO_FEATURES, feature_word, feature_words};

use ct_messages::FeatureMap;

/// No feature of any type.
#[tactic(auto, unfolding(ct_messages::specs::Server::NO_FEATURES))]
pub(crate) fn no_features() -> [u8; 256]
    ensures { result ≡ NO_FEATURES }
{
    [0; 256]
}

// The features of two types in a byte, the lower type in the lower bits.
fn pair_at(features: &[u8; 256], at: usize) -> u8
    requires range { All (λ feature. feature < 16) features.now }
    requires within { at + 2 ≤ 256 }
    ensures { result ≡ slice_index features.now at + slice_index features.now (at + 1) * 16 }
{
    features[at] + 16 * features[at + 1]
}

// The features of eight types.
#[tactic(auto, unfolding(ct_messages::specs::Server::feature_word))]
fn word_at(features: &[u8; 256], at: usize) -> u32
    requires range { All (λ feature. feature < 16) features.now }
    requires within { at + 8 ≤ 256 }
    ensures { result ≡ feature_word features.now at }
{
    u32::from_le_bytes([
        pair_at(features, at),
        pair_at(features, at + 2),
        pair_at(features, at + 4),
        pair_at(features, at + 6),
    ])
}

/// The features of all types.
pub(crate) fn feature_map(features: &[u8; 256]) -> FeatureMap
    requires range { All (λ feature. feature < 16) features.now }
    ensures { result ≡ feature_words features.now }
{
    let mut words = [0; 32];
    for word in 0..32 {
        words[word] = word_at(features, 8 * word);
    }
    FeatureMap(words)
}
