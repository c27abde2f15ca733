//! The parts of what is sent: tags, MACs, names, headers and link services.
ghost use Rattle.std.specs.Prelude.{◌≡◌, ◌+◌, ◌<◌, ◌≤◌, IfOk, vec_len};
ghost use Rattle.els_messages.specs.Els as els;
ghost use Rattle.fab_policy.specs.Replies as spec;
ghost use Rattle.fc_frames.specs.Frame.{IsPayload};
ghost use Rattle.fc_frames.specs.Kind.{r_ctl_of, type_of};
ghost use Rattle.fab_sending.specs.Message.{els_of};

use crate::Answer;
use els_messages::{CLASS_3, Els, Feature, LoginParms, els_bytes};
use fab_base::{FcId, NoMemory, PortNo};
use fab_config::Config;
use fab_policy::port_name;
use fc_frames::{FcHeader, Kind, MOST_PAYLOAD, UNASSIGNED};
use std::alloc::Global;

// The tag of the forwarder's frames.
pub(crate) fn own_tag(config: &Config) -> u16
    ensures { result ≡ 0x6000 + config.now.vlan }
{
    0x6000 + config.vlan
}

// A header with what an answer and a state change have in common.
pub(crate) fn header(
    kind: Kind,
    d_id: FcId,
    s_id: FcId,
    f_ctl: u32,
    seq_cnt: u16,
    ox_id: u16,
) -> FcHeader
    ensures { result ≡ spec.header (r_ctl_of kind) d_id s_id (type_of kind) f_ctl seq_cnt ox_id }
{
    FcHeader {
        r_ctl: kind.r_ctl(),
        d_id,
        cs_ctl: 0,
        s_id,
        kind: kind.type_code(),
        f_ctl,
        seq_id: 0,
        df_ctl: 0,
        seq_cnt,
        ox_id,
        rx_id: UNASSIGNED,
        parameter: 0,
    }
}

// What the accept of a FLOGI or FDISC says.
pub(crate) fn fabric_parms(config: &Config, port: PortNo, several: bool) -> LoginParms
    ensures { result ≡ spec.fabric_parms config.now port several }
{
    let granted = if several {
        Feature::MultipleNPortIdsGranted.bit()
    } else {
        0
    };
    LoginParms {
        features: Feature::FPort.bit() + granted,
        size: MOST_PAYLOAD,
        ra_tov: 0x2710,
        ed_tov: 0x7d0,
        port_name: port_name(config, port.value()),
        node_name: config.switch,
        class3: [0x88, 0, 0, 0, 0, 0, 0, 0, 0, 0, 0, 0, 0, 0, 0, 0],
    }
}

// What the accept of a login to the name server says.
fn server_parms(config: &Config) -> LoginParms
    ensures { result ≡ spec.server_parms config.now }
{
    LoginParms {
        features: 0,
        size: MOST_PAYLOAD,
        ra_tov: 0xff_0000,
        ed_tov: 0x7d0,
        port_name: port_name(config, 0),
        node_name: config.switch,
        class3: [
            CLASS_3, 0, 0, 0, 0, 0, 0x08, 0x40, 0, 0xff, 0, 0, 0, 1, 0, 0,
        ],
    }
}

// The payload of an answer.
pub(crate) fn answer_bytes(
    alloc: Global,
    config: &Config,
    answer: Answer,
) -> Result<Vec<u8>, NoMemory>
    ensures bytes { IfOk result (λ v. v.items ≡ els.written (els_of config.now answer)) }
    ensures payload { IfOk result (λ v. IsPayload v.items) }
    ensures size { IfOk result (λ v. vec_len v ≤ 116) }
{
    match answer {
        Answer::Accept => els_bytes(alloc, &Els::Accept),
        Answer::Reject(reason, explanation) => els_bytes(
            alloc,
            &Els::Reject {
                reason,
                explanation,
            },
        ),
        Answer::ServerLogin => els_bytes(alloc, &Els::LoginAccept(server_parms(config))),
    }
}
