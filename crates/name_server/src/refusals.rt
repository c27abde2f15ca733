//! Why a request is refused: reason and explanation codes (FC-GS-6, "Reject reason codes").
ghost use Rattle.std.specs.Prelude.{◌≡◌, option_map};
ghost use Rattle.ct_messages.specs.Ask.{view};
ghost use Rattle.ct_messages.specs.Server.{refused_if, registration_refusal};
ghost use Rattle.ct_messages.specs.declared.CtTell.TheVariants.{Reject};
ghost use Rattle.name_server.specs.Registry.{codes};

use ct_messages::reject::{NODE_NAME_NOT_REGISTERED, PORT_ID_NOT_REGISTERED, UNABLE_TO_PERFORM};
use ct_messages::{CtAsk, CtTell};
use fab_base::{FcId, Wwn};
use thiserror::Error;

/// Why a registration is not done.
#[derive(Clone, Copy, Debug, PartialEq, Eq, Error)]
pub enum RegFault {
    /// It is refused with these codes.
    #[error("refused with reason {reason:02x}, explanation {explanation:02x}")]
    Refused { reason: u8, explanation: u8 },
}

pub(crate) fn reject(reason: u8, explanation: u8) -> CtTell
    ensures { result ≡ Reject reason explanation }
{
    CtTell::Reject {
        reason,
        explanation,
    }
}

fn unable_if(test: bool, explanation: u8) -> Option<RegFault>
    ensures { option_map codes result ≡ refused_if test 9 explanation }
{
    test.then_some(RegFault::Refused {
        reason: UNABLE_TO_PERFORM,
        explanation,
    })
}

// Why a registration is refused, by the asker's address and its registered node name.
pub(crate) fn refusal_of(address: FcId, node_name: Wwn, ask: &CtAsk<'_>) -> Option<RegFault>
    ensures { option_map codes result ≡ registration_refusal address node_name (view ask.now) }
{
    match ask {
        CtAsk::SetNode(asked, _)
        | CtAsk::SetTypes(asked, _)
        | CtAsk::SetSymbol(asked, _)
        | CtAsk::SetFeature { address: asked, .. }
        | CtAsk::Erase(asked) => unable_if(*asked != address, PORT_ID_NOT_REGISTERED),
        CtAsk::SetNodeSymbol(name, _) => unable_if(*name != node_name, NODE_NAME_NOT_REGISTERED),
        _ => None,
    }
}
