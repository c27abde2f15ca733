//! Headers and payloads of requests.
ghost use Rattle.std.specs.Prelude.{◌≡◌};
ghost use Rattle.fc_frames.specs.Kind.{r_ctl_of, type_of};
ghost use Rattle.fab_vectors.specs.Frames as spec;

use crate::names::{node_name, port_name};
use els_messages::{CLASS_3, LoginParms};
use fab_base::{FcId, PortNo};
use fc_frames::{F_CTL_REQUEST, FcHeader, Kind, MOST_PAYLOAD, UNASSIGNED};

/// The header of a request.
pub(crate) fn header(kind: Kind, d_id: FcId, s_id: FcId, ox_id: u16) -> FcHeader
    ensures { result ≡ spec.header (r_ctl_of kind) d_id s_id (type_of kind) ox_id }
{
    FcHeader {
        r_ctl: kind.r_ctl(),
        d_id,
        cs_ctl: 0,
        s_id,
        kind: kind.type_code(),
        f_ctl: F_CTL_REQUEST,
        seq_id: 0,
        df_ctl: 0,
        seq_cnt: 0,
        ox_id,
        rx_id: UNASSIGNED,
        parameter: 0,
    }
}

/// The parameters of a login.
pub(crate) fn parms(features: u16, port: PortNo, login: u8) -> LoginParms
    ensures { result ≡ spec.parms features port login }
{
    LoginParms {
        features,
        size: MOST_PAYLOAD,
        ra_tov: 0,
        ed_tov: 0,
        port_name: port_name(port, login),
        node_name: node_name(port),
        class3: [CLASS_3, 0, 0, 0, 0, 0, 0, 0, 0, 0, 0, 0, 0, 0, 0, 0],
    }
}
