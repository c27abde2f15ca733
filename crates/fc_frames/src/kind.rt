//! What a frame carries, by R_CTL and TYPE.
ghost use Rattle.std.specs.Prelude.{◌≡◌};
ghost use Rattle.fc_frames.specs.Kind as spec;

use crate::FcHeader;

/// TYPE of SCSI over Fibre Channel, FCP.
pub const FCP: u8 = 0x08;

/// What a frame carries: its R_CTL and its TYPE (FC-FS-3, "R_CTL" and "TYPE").
#[derive(Clone, Copy, Debug, PartialEq, Eq)]
pub enum Kind {
    /// 22 and 01: a request of extended link services.
    ElsRequest,
    /// 23 and 01: a reply of extended link services.
    ElsReply,
    /// 02 and 20: a request of the common transport, which is unsolicited control.
    CtRequest,
    /// 03 and 20: a reply of the common transport, which is solicited control.
    CtReply,
    /// 01 and 08: solicited data of SCSI over Fibre Channel.
    FcpData,
}

impl Kind {
    /// Its R_CTL.
    pub fn r_ctl(self) -> u8
        ensures { result ≡ spec.r_ctl_of self }
    {
        match self {
            Kind::ElsRequest => 0x22,
            Kind::ElsReply => 0x23,
            Kind::CtRequest => 0x02,
            Kind::CtReply => 0x03,
            Kind::FcpData => 0x01,
        }
    }

    /// Its TYPE.
    pub fn type_code(self) -> u8
        ensures { result ≡ spec.type_of self }
    {
        match self {
            Kind::ElsRequest | Kind::ElsReply => 0x01,
            Kind::CtRequest | Kind::CtReply => 0x20,
            Kind::FcpData => FCP,
        }
    }

    /// Whether a header is of this kind.
    pub fn is_of(self, head: &FcHeader) -> bool
        ensures { result ≡ spec.has_kind self head.now }
    {
        head.r_ctl == self.r_ctl() && head.kind == self.type_code()
    }
}
