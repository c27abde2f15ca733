//! Names and addresses of a load.
ghost use Rattle.std.specs.Prelude.{◌≡◌, ◌+◌, ◌*◌, ◌-◌, ◌<◌, ◌^◌};
ghost use Rattle.fab_vectors.specs.Names as spec;

use crate::LOGINS;
use fab_base::{FcId, Mac, PortNo, Wwn, fpma};

/// The MAC of the forwarder.
pub(crate) const FORWARDER: Mac = Mac([0x00, 0x05, 0x1e, 0x00, 0x00, 0x02]);

/// The tag of VLAN 100.
pub(crate) const TAG: u16 = 100;

/// The FC-MAP of the fabric.
const FC_MAP: u32 = 0x0e_fc00;

/// The address of the first login of the first port.
const FIRST_ADDRESS: u32 = 0x01_0100;

/// The MAC of the ENode of a port.
pub(crate) fn node_mac(port: PortNo) -> Mac
    ensures { result ≡ spec.node_mac port }
{
    Mac([0x00, 0x1b, 0x21, 0x00, 0x01, port.value() as u8])
}

/// Its node name.
pub(crate) fn node_name(port: PortNo) -> Wwn
    ensures { result ≡ spec.node_name port }
{
    Wwn(0x1000_001b_2100_0000 + 256 * u64::from(port.value()))
}

/// The port name of a login.
pub(crate) fn port_name(port: PortNo, login: u8) -> Wwn
    ensures { result ≡ spec.port_name port login }
{
    Wwn(0x2000_001b_2100_0000 + 256 * u64::from(port.value()) + u64::from(login))
}

/// The number of a login among those of all ports.
pub(crate) fn login_number(port: PortNo, login: u8) -> u32
    ensures value { result ≡ spec.login_number port login }
    ensures range { result < 2 ^ 12 }
{
    u32::from(LOGINS) * (port.value() - 1) + u32::from(login)
}

/// The address of a login.
pub(crate) fn address(port: PortNo, login: u8) -> FcId
    ensures { result ≡ spec.address port login }
{
    FcId::new(FIRST_ADDRESS + login_number(port, login)).unwrap()
}

/// The MAC that comes with an address.
pub(crate) fn granted_mac(s_id: FcId) -> Mac
    ensures { result ≡ spec.granted_mac s_id }
{
    fpma(FC_MAP, s_id)
}

/// An address of a service of the fabric.
pub(crate) fn well_known(number: u32) -> FcId
    requires { number < 2 ^ 24 }
    ensures { result ≡ number }
{
    FcId::new(number).unwrap()
}
