//! Answers to N_Ports that are logged in, answers of the name server, and state changes.
ghost use Rattle.std.specs.Prelude.{◌≡◌, ◌++◌, ◌≤◌, IsTrue, length, OnOk, OnErr};
ghost use Rattle.fab_policy.specs.Replies as spec;
ghost use Rattle.fab_sending.specs.Message.{els_of, is_payload};

use crate::Answer;
use crate::carried::write_carried;
use crate::parts::{answer_bytes, header};
use els_messages::{Els, els_bytes};
use fab_base::{FcId, NoMemory, fpma};
use fab_config::Config;
use fab_policy::Asker;
use fc_frames::{CONTROLLER, F_CTL_EARLIER, F_CTL_LAST, F_CTL_REQUEST, FcFrame, Kind, NAME_SERVER};
use fcoe_codec::{EOF_N, EOF_T, FcoeFrame, SOF_I3, SOF_N3};
use std::alloc::Global;

// The address of the name server.
fn name_server() -> FcId
    ensures { result ≡ 0xfffffc }
{
    FcId::new(NAME_SERVER).unwrap()
}

// The address of the fabric controller.
fn controller() -> FcId
    ensures { result ≡ 0xfffffd }
{
    FcId::new(CONTROLLER).unwrap()
}

// Appends an answer to an N_Port that is logged in.
pub(crate) fn write_service_reply(
    alloc: Global,
    config: &Config,
    to: Asker,
    answer: Answer,
    into: &mut Vec<u8>,
) -> Result<(), NoMemory>
    ensures ok { OnOk result (into.new.items ≡ into.old.items
        ++ spec.service_reply_to config.now to (els_of config.now answer)) }
    ensures size { OnOk result (length
        (spec.service_reply_to config.now to (els_of config.now answer)) ≤ 65535) }
    ensures err { OnErr result (into.new.items ≡ into.old.items) }
{
    let payload = answer_bytes(alloc, config, answer)?;
    let frame = FcoeFrame {
        sof: SOF_I3,
        eof: EOF_T,
        frame: FcFrame {
            head: header(Kind::ElsReply, to.s_id, to.d_id, F_CTL_LAST, 0, to.ox_id),
            payload: &payload,
        },
    };
    write_carried(alloc, config, to.mac, &frame, into)
}

// Appends a frame of an answer of the name server.
pub(crate) fn write_ct(
    alloc: Global,
    config: &Config,
    to: Asker,
    count: u16,
    last: bool,
    payload: &[u8],
    into: &mut Vec<u8>,
) -> Result<(), NoMemory>
    requires { IsTrue (is_payload payload.now) }
    ensures ok { OnOk result (into.new.items ≡ into.old.items
        ++ spec.ct_frame config.now to count last payload.now) }
    ensures size { OnOk result (length (spec.ct_frame config.now to count last payload.now)
        ≤ 65535) }
    ensures err { OnErr result (into.new.items ≡ into.old.items) }
{
    let sof = if count == 0 { SOF_I3 } else { SOF_N3 };
    let eof = if last { EOF_T } else { EOF_N };
    let f_ctl = if last { F_CTL_LAST } else { F_CTL_EARLIER };
    let frame = FcoeFrame {
        sof,
        eof,
        frame: FcFrame {
            head: header(
                Kind::CtReply,
                to.s_id,
                name_server(),
                f_ctl,
                count,
                to.ox_id,
            ),
            payload,
        },
    };
    write_carried(alloc, config, to.mac, &frame, into)
}

// Appends a state change of an address, to a watcher.
pub(crate) fn write_state_change(
    alloc: Global,
    config: &Config,
    watcher: FcId,
    affected: FcId,
    ox_id: u16,
    into: &mut Vec<u8>,
) -> Result<(), NoMemory>
    ensures ok { OnOk result (into.new.items ≡ into.old.items
        ++ spec.rscn config.now watcher affected ox_id) }
    ensures size { OnOk result (length (spec.rscn config.now watcher affected ox_id) ≤ 65535) }
    ensures err { OnErr result (into.new.items ≡ into.old.items) }
{
    let [_, high, mid, low] = affected.value().to_be_bytes();
    let pages = [0, high, mid, low];
    let payload = els_bytes(alloc, &Els::Rscn { pages: &pages })?;
    let frame = FcoeFrame {
        sof: SOF_I3,
        eof: EOF_T,
        frame: FcFrame {
            head: header(
                Kind::ElsRequest,
                watcher,
                controller(),
                F_CTL_REQUEST,
                0,
                ox_id,
            ),
            payload: &payload,
        },
    };
    write_carried(alloc, config, fpma(config.fc_map, watcher), &frame, into)
}
