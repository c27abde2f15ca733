//! Payloads of FC-CT for the name server (FC-GS-6): requests are read and written, answers are
//! written.
#![tactic(auto)]

mod bytes;
mod command;
mod fields;
mod laws;
mod maps;
pub mod ports;
mod reading;
pub mod reject;
mod telling;
mod writing;

use fab_base::{Bytes, FcId, IdList, OwnedList, Wwn};
pub use laws::{
    a_query_is_no_reject, a_written_request_is_read_back, the_table_is_what_is_decoded,
};
pub use reading::read_ask;
pub use telling::write_tell;
use thiserror::Error;
pub use writing::write_ask;

/// The FC-4 types of a port, a bit each: type t is bit t mod 32 of word t / 32.
#[derive(Clone, Copy, Debug, PartialEq, Eq)]
pub struct TypeMap(pub [u32; 8]);

/// The FC-4 features of a port, four bits a type: type t has the bits from 4 * (t mod 8) on of word
/// t / 8.
#[derive(Clone, Copy, Debug, PartialEq, Eq)]
pub struct FeatureMap(pub [u32; 32]);

/// A port's address with its port name or its node name.
#[derive(Clone, Copy, Debug, PartialEq, Eq)]
pub struct Named {
    pub address: FcId,
    pub name: Wwn,
}

/// Addresses with names.
pub type NamedList = OwnedList<Named>;

/// A request, one variant for each command.
#[derive(Clone, Copy, Debug, PartialEq, Eq)]
pub enum CtAsk<'a> {
    /// GA_NXT: all that is known of the next port.
    NextOf(FcId),
    /// GPN_ID: the port name of an address.
    PortNameOf(FcId),
    /// GNN_ID: the node name of an address.
    NodeNameOf(FcId),
    /// GFT_ID: the FC-4 types of an address.
    TypesOf(FcId),
    /// GFF_ID: the FC-4 features of an address.
    FeaturesOf(FcId),
    /// GID_PN: the address of a port name.
    ByPortName(Wwn),
    /// GID_FT: the addresses that have an FC-4 type.
    AddressesOfType(u8),
    /// GPN_FT: the same with their port names.
    PortNamesOfType(u8),
    /// GNN_FT: the same with their node names.
    NodeNamesOfType(u8),
    /// GID_PT: the addresses that have a port type.
    AddressesOfPortType(u8),
    /// RNN_ID: registers a node name.
    SetNode(FcId, Wwn),
    /// RFT_ID: registers FC-4 types.
    SetTypes(FcId, TypeMap),
    /// RSPN_ID: registers a symbolic port name.
    SetSymbol(FcId, &'a [u8]),
    /// RFF_ID: registers the FC-4 feature of a type.
    SetFeature {
        address: FcId,
        feature: u8,
        kind: u8,
    },
    /// RSNN_NN: registers the symbolic name of a node.
    SetNodeSymbol(Wwn, &'a [u8]),
    /// DA_ID: takes back all that an address registered.
    Erase(FcId),
    /// A command that isn't in the table, by its code.
    Unknown(u16),
}

/// Why a payload is no request. The variants stand in the order of the tests.
#[derive(Clone, Copy, Debug, PartialEq, Eq, Error)]
pub enum CtFault {
    /// Fewer bytes than the preamble.
    #[error("the payload is shorter than its preamble")]
    Short,
    /// Type and subtype aren't those of the name server.
    #[error("the payload isn't for the name server")]
    NotNameServer,
    /// Fewer bytes than the command needs.
    #[error("the request is shorter than its command needs")]
    Size,
}

/// What GA_NXT answers of a port. A symbol has at most 255 bytes.
#[derive(Debug, Drop)]
pub struct NextPort {
    pub address: FcId,
    pub port_name: Wwn,
    pub symbol: Bytes,
    pub node_name: Wwn,
    pub node_symbol: Bytes,
    pub types: TypeMap,
    pub fabric_port: Wwn,
}

/// An answer: an accept with what was asked for, or a reject.
#[derive(Debug, Drop)]
pub enum CtTell {
    /// To a registration.
    Done,
    /// To GID_PN.
    Port(FcId),
    /// To GPN_ID and GNN_ID.
    Name(Wwn),
    /// To GFT_ID.
    Types(TypeMap),
    /// To GFF_ID.
    Features(FeatureMap),
    /// To GID_FT and GID_PT.
    Addresses(IdList),
    /// To GPN_FT and GNN_FT.
    Names(NamedList),
    /// To GA_NXT.
    Next(NextPort),
    /// A refusal with its reason and explanation codes.
    Reject { reason: u8, explanation: u8 },
}

/// The bytes of the preamble.
pub const PREAMBLE: usize = 16;

/// The type of a directory service.
const DIRECTORY: u8 = 0xfc;

/// The subtype of the name server.
const NAME_SERVER: u8 = 2;
