//! What a seam says, as a value.
use ct_messages::TypeMap;
use fab_base::{Bytes, Enode, FcId, Moment, OwnedList, Wwn};
use std::marker::Model;

/// What an N_Port registered with the name server. `features` has a byte for each of 256 types.
#[derive(Debug, Drop)]
pub struct Values {
    pub node_name: Wwn,
    pub types: TypeMap,
    pub features: Bytes,
    pub symbol: Bytes,
    pub node_symbol: Bytes,
}

impl Model for Values {
    ghost use Rattle.ct_messages.specs.Server as server;

    ghost Value = { server.Values };

    ghost view = { λ v. record {
      node_name = v.node_name;
      types = v.types;
      features = v.features;
      symbol = v.symbol;
      node_symbol = v.node_symbol;
    } };
}

/// A live N_Port: its login, its receive size at the name server, when its ENode and itself were
/// last heard, the state changes that it asked for, and what it registered.
#[derive(Debug, Drop)]
pub struct LivePort {
    pub address: FcId,
    pub name: Wwn,
    pub node: Wwn,
    pub enode: Enode,
    /// None while there is no login to the name server.
    pub server: Option<u16>,
    pub node_heard: Moment,
    pub port_heard: Moment,
    pub watch: u8,
    pub values: Values,
}

impl Model for LivePort {
    ghost use Rattle.fab_policy.specs.State as state;

    ghost Value = { state.LivePort };

    ghost view = { λ p. record {
      address = p.address;
      name = p.name;
      node = p.node;
      enode = p.enode;
      server = p.server;
      node_heard = p.node_heard;
      port_heard = p.port_heard;
      watch = p.watch;
      values = p.values;
    } };
}

/// Live N_Ports.
pub type PortList = OwnedList<LivePort>;

/// The past of an address of the pool: the port name that had it last, and when that login ended.
/// An address that nobody had has no name, and one that a login holds has a name and no end.
#[derive(Debug, Drop)]
pub struct Past {
    pub address: FcId,
    pub name: Option<Wwn>,
    pub ended: Option<Moment>,
}

impl Model for Past {
    ghost use Rattle.fab_base.specs.Fabric as fabric;

    ghost Value = { fabric.Past };

    ghost view = { λ q. record { address = q.address; name = q.name; ended = q.ended } };
}

/// The addresses of a pool.
pub type PastList = OwnedList<Past>;

/// The clock, who is logged in, and the past of each address of the pool.
#[derive(Debug, Drop)]
pub struct Tables {
    pub clock: Option<Moment>,
    pub ports: PortList,
    pub past: PastList,
}

impl Model for Tables {
    ghost use Rattle.fab_policy.specs.State as state;

    ghost Value = { state.Tables };

    ghost view = { λ t. record { clock = t.clock; ports = t.ports; past = t.past } };
}

/// What a fabric keeps: its tables, the moment from which the period of advertisements counts, and
/// how many state changes were sent, modulo 65535.
#[derive(Debug, Drop)]
pub struct State {
    pub tables: Tables,
    pub advertised: Option<Moment>,
    pub rscns: u64,
}

impl Model for State {
    ghost use Rattle.fab_policy.specs.Outputs as outputs;

    ghost Value = { outputs.State };

    ghost view = { λ s. record { tables = s.tables; advertised = s.advertised; rscns = s.rscns } };
}

/// How many frames each port had.
pub type NextList = OwnedList<u64>;

/// What stands between two pieces of a session: what the fabric keeps, how many frames each port
/// had, and the greatest moment of a frame so far.
#[derive(Debug, Drop)]
pub struct Seam {
    pub state: State,
    pub nexts: NextList,
    pub greatest: Moment,
}

impl Model for Seam {
    ghost use Rattle.fab_pieces.specs.Seam as spec;

    ghost Value = { spec.Seam };

    ghost view = { λ s. record { state = s.state; nexts = s.nexts; greatest = s.greatest } };
}
