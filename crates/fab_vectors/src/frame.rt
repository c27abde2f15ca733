//! The frames of a load, and when each stands in its capture.
ghost use Rattle.std.specs.Prelude.{◌≡◌, ◌<◌, ◌^◌};
ghost use Rattle.fab_vectors.specs.Load as spec;

use crate::names::login_number;
use fab_base::{Moment, PortNo};

/// The frames of a login, in their order.
#[derive(Clone, Copy, Debug, PartialEq, Eq)]
pub(crate) enum Step {
    /// FLOGI or FDISC.
    Fabric,
    /// PLOGI to the name server.
    Server,
    /// SCR.
    Watch,
    /// RFT_ID.
    Register,
    /// GID_FT.
    Query,
}

/// A frame of a port.
#[derive(Clone, Copy, Debug, PartialEq, Eq)]
pub(crate) enum LoadFrame {
    VlanRequest,
    Solicitation,
    /// A frame of the login of this number, counted from 0.
    Login(Step, u8),
    /// The keep alive of the ENode, counted from 1.
    KeepAlive(u8),
    /// A data frame, counted by its OX_ID from 1 on, and the 32 bits that were drawn for it.
    Data(u16, u32),
}

impl LoadFrame {
    /// When it stands in the capture of a port.
    pub(crate) fn moment(self, port: PortNo) -> Moment
        ensures value { result ≡ spec.moment port self }
        ensures range { result < 2 ^ 53 }
    {
        let port_number = u64::from(port.value());
        Moment(match self {
            LoadFrame::VlanRequest => 100 * port_number,
            LoadFrame::Solicitation => 100 * port_number + 10,
            LoadFrame::Login(step, login) => login_moment(step, port, login),
            LoadFrame::KeepAlive(turn) => 8000 * u64::from(turn),
            LoadFrame::Data(ox_id, _) => 9990 + 10 * u64::from(ox_id),
        })
    }
}

// When a frame of a login stands there.
fn login_moment(step: Step, port: PortNo, login: u8) -> u64
    ensures value { result ≡ spec.login_moment port step login }
    ensures range { result < 2 ^ 53 }
{
    let later = 10 * u64::from(login);
    match step {
        Step::Fabric => 1000 + 10 * u64::from(login_number(port, login)),
        Step::Server => 4000 + later,
        Step::Watch => 5000 + later,
        Step::Register => 6000 + later,
        Step::Query => 7000 + later,
    }
}
