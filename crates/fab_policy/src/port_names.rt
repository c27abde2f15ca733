//! The names of the forwarder's own ports.
ghost use Rattle.std.specs.Prelude.{◌≡◌, ◌≤◌};
ghost use Rattle.fab_policy.specs.Queries.{fport};

use fab_base::Wwn;
use fab_config::Config;

/// The worldwide name of a port of the forwarder, by its number: 2000 (hexadecimal) plus the
/// number, and the low 48 bits of the switch name. Number 0 is the name server.
pub fn port_name(config: &Config, port: u32) -> Wwn
    requires { port ≤ 64 }
    ensures { result ≡ fport config.now port }
{
    let space = 1 << 48;
    Wwn((0x2000 + u64::from(port)) * space + config.switch.0 % space)
}
