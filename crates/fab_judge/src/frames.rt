//! What an FCoE frame is by its delimiters and its header.
ghost use Rattle.std.specs.Prelude.{◌≡◌, ◌==◌};
ghost use Rattle.fab_policy.specs.Logins.{granted_mac as mac_granted};
ghost use Rattle.fab_policy.specs.Rules as rules;
ghost use Rattle.fc_frames.specs.Frame.{view as fc_view};
ghost use Rattle.fcoe_codec.specs.Fcoe.{view as fcoe_view};

use fab_base::{FcId, Mac, fpma};
use fab_config::Config;
use fc_frames::{CONTROLLER, FcFrame, Kind, NAME_SERVER};
use fcoe_codec::FcoeFrame;

// The MAC that comes with an address by a configuration.
pub(crate) fn granted_mac(config: &Config, address: FcId) -> Mac
    ensures { result ≡ mac_granted config.now address }
{
    fpma(config.fc_map, address)
}

// Whether an address is that of a service.
pub(crate) fn is_service(address: FcId) -> bool
    ensures { result ≡ rules.is_service address }
{
    address.value() == NAME_SERVER || address.value() == CONTROLLER
}

pub(crate) fn is_els_request(frame: &FcFrame<'_>) -> bool
    ensures { result ≡ rules.is_els_request (fc_view frame.now) }
{
    Kind::ElsRequest.is_of(&frame.head)
}

pub(crate) fn is_els_reply(frame: &FcFrame<'_>) -> bool
    ensures { result ≡ rules.is_els_reply (fc_view frame.now) }
{
    Kind::ElsReply.is_of(&frame.head)
}

fn is_ct_request(frame: &FcFrame<'_>) -> bool
    ensures { result ≡ rules.is_ct_request (fc_view frame.now) }
{
    Kind::CtRequest.is_of(&frame.head)
}

// Whether the frame is to the name server.
pub(crate) fn is_to_names(frame: &FcFrame<'_>) -> bool
    ensures { result ≡ (frame.now.head.d_id == rules.NAME_SERVER) }
{
    frame.head.d_id.value() == NAME_SERVER
}

// Whether a service takes the frame, which is to it.
pub(crate) fn is_for_service(body: &FcoeFrame<'_>) -> bool
    ensures { result ≡ rules.is_for_service (fcoe_view body.now) }
{
    let frame = &body.frame;
    body.is_sequence()
        && (is_els_request(frame)
            || is_els_reply(frame)
            || (is_to_names(frame) && is_ct_request(frame)))
}
