//! The keys of a configuration text.
ghost use Rattle.std.specs.Prelude.{◌≡◌};
ghost use Rattle.fab_config.specs.Text as spec;
ghost use Rattle.fab_config.specs.Settings.{same_bytes};

/// The key of a line.
#[derive(Clone, Copy)]
pub(crate) enum Keyword {
    FcfMac,
    Switch,
    FcMap,
    Number(NumberKey),
    Zones,
    Sets,
    Activations,
}

/// A key that takes a decimal number; `Logins` is the key `limit`.
#[derive(Clone, Copy)]
pub(crate) enum NumberKey {
    Vlan,
    Domain,
    Pool,
    Priority,
    Period,
    Window,
    Logins,
}

/// The keys in the order in which they are written.
static KEYWORDS: [Keyword; 13] = [
    Keyword::FcfMac,
    Keyword::Number(NumberKey::Vlan),
    Keyword::Switch,
    Keyword::FcMap,
    Keyword::Number(NumberKey::Domain),
    Keyword::Number(NumberKey::Pool),
    Keyword::Number(NumberKey::Priority),
    Keyword::Number(NumberKey::Period),
    Keyword::Number(NumberKey::Window),
    Keyword::Number(NumberKey::Logins),
    Keyword::Zones,
    Keyword::Sets,
    Keyword::Activations,
];

impl Keyword {
    /// How it is spelled.
    pub(crate) fn text(self) -> &'static [u8]
        ensures { result.now ≡ spec.keyword_text self }
    {
        match self {
            Keyword::FcfMac => b"fcf-mac",
            Keyword::Switch => b"switch",
            Keyword::FcMap => b"fc-map",
            Keyword::Number(key) => key.text(),
            Keyword::Zones => b"zone",
            Keyword::Sets => b"zoneset",
            Keyword::Activations => b"activate",
        }
    }
}

impl NumberKey {
    /// How it is spelled.
    fn text(self) -> &'static [u8]
        ensures { result.now ≡ spec.number_text self }
    {
        match self {
            NumberKey::Vlan => b"vlan",
            NumberKey::Domain => b"domain",
            NumberKey::Pool => b"pool",
            NumberKey::Priority => b"priority",
            NumberKey::Period => b"period",
            NumberKey::Window => b"window",
            NumberKey::Logins => b"limit",
        }
    }

    /// The least and the most value.
    pub(crate) fn range(self) -> (u32, u32)
        ensures least { result.0 ≡ (spec.range_of self).0 }
        ensures most { result.1 ≡ (spec.range_of self).1 }
    {
        match self {
            NumberKey::Vlan => (1, 4094),
            NumberKey::Domain => (1, 239),
            NumberKey::Pool => (1, 60000),
            NumberKey::Priority => (0, 255),
            NumberKey::Period => (250, 90000),
            NumberKey::Window => (10, 1000),
            NumberKey::Logins => (1, 1000),
        }
    }
}

/// The key that a word is.
#[tactic(auto, unfolding(crate::specs::Text::keyword_of))]
pub(crate) fn keyword_of(word: &[u8]) -> Option<Keyword>
    ensures { result ≡ spec.keyword_of word.now }
{
    keyword_in(&KEYWORDS, word)
}

// The first of these that is spelled so.
fn keyword_in(keywords: &[Keyword], word: &[u8]) -> Option<Keyword>
    ensures { result ≡ spec.keyword_in keywords.now word.now }
{
    for keyword in keywords {
        if is_same(word, keyword.text()) {
            return Some(*keyword);
        }
    }
    None
}

fn is_same(word: &[u8], text: &[u8]) -> bool
    ensures { result ≡ same_bytes word.now text.now }
{
    word == text
}
