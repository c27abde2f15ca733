//! The commands of the name server (FC-GS-6, "Name Server").
ghost use Rattle.std.specs.Prelude.{◌≡◌, ◌+◌, ◌≤◌, length};
ghost use Rattle.ct_messages.specs.Ask.{view};
ghost use Rattle.ct_messages.specs.Server as server;
ghost use Rattle.ct_messages.specs.Table.{row_of, command_with};

use crate::fields::{address_of, byte_or_zero, text_at, types_at};
use crate::{CtAsk, PREAMBLE};
use fab_base::fields::name_at;

/// A row of the table, by the standard's mnemonic, with its code.
#[derive(Clone, Copy, Debug, PartialEq, Eq)]
pub(crate) enum Command {
    GaNxt = 0x0100,
    GpnId = 0x0112,
    GnnId = 0x0113,
    GftId = 0x0117,
    GffId = 0x011f,
    GidPn = 0x0121,
    GidFt = 0x0171,
    GpnFt = 0x0172,
    GnnFt = 0x0173,
    GidPt = 0x01a1,
    RnnId = 0x0213,
    RftId = 0x0217,
    RspnId = 0x0218,
    RffId = 0x021f,
    RsnnNn = 0x0239,
    DaId = 0x0300,
}

/// The rows in their order.
const COMMANDS: [Command; 16] = [
    Command::GaNxt,
    Command::GpnId,
    Command::GnnId,
    Command::GftId,
    Command::GffId,
    Command::GidPn,
    Command::GidFt,
    Command::GpnFt,
    Command::GnnFt,
    Command::GidPt,
    Command::RnnId,
    Command::RftId,
    Command::RspnId,
    Command::RffId,
    Command::RsnnNn,
    Command::DaId,
];

impl Command {
    /// The command of a code.
    #[tactic(auto, unfolding(crate::specs::Table::command_with))]
    pub(crate) fn of(code: u16) -> Option<Command>
        ensures { result ≡ command_with code }
    {
        COMMANDS
            .iter()
            .copied()
            .find(|command| command.code() == code)
    }

    /// Its code.
    pub(crate) fn code(self) -> u16
        ensures { result ≡ (row_of self).code }
    {
        self as u16
    }

    /// How many bytes its request has after the preamble.
    pub(crate) fn needs(self, payload: &[u8]) -> usize
        ensures { result ≡ (row_of self).needs payload.now }
    {
        match self {
            Command::GaNxt
            | Command::GpnId
            | Command::GnnId
            | Command::GftId
            | Command::GffId
            | Command::GidFt
            | Command::GpnFt
            | Command::GnnFt
            | Command::GidPt
            | Command::DaId => 4,
            Command::GidPn | Command::RffId => 8,
            Command::RnnId => 12,
            Command::RftId => 36,
            Command::RspnId => 5 + byte_or_zero(payload, PREAMBLE + 4) as usize,
            Command::RsnnNn => 9 + byte_or_zero(payload, PREAMBLE + 8) as usize,
        }
    }

    /// What its request asks.
    pub(crate) fn asks(self, payload: &[u8]) -> CtAsk<'_>
        requires { 16 + (row_of self).needs payload.now ≤ length payload.now }
        ensures { view result ≡ (row_of self).asks payload.now }
    {
        match self {
            Command::GaNxt => CtAsk::NextOf(address_of(payload)),
            Command::GpnId => CtAsk::PortNameOf(address_of(payload)),
            Command::GnnId => CtAsk::NodeNameOf(address_of(payload)),
            Command::GftId => CtAsk::TypesOf(address_of(payload)),
            Command::GffId => CtAsk::FeaturesOf(address_of(payload)),
            Command::GidPn => CtAsk::ByPortName(name_at(payload, 16)),
            Command::GidFt => CtAsk::AddressesOfType(payload[19]),
            Command::GpnFt => CtAsk::PortNamesOfType(payload[19]),
            Command::GnnFt => CtAsk::NodeNamesOfType(payload[19]),
            Command::GidPt => CtAsk::AddressesOfPortType(payload[16]),
            Command::RnnId => CtAsk::SetNode(address_of(payload), name_at(payload, 20)),
            Command::RftId => CtAsk::SetTypes(address_of(payload), types_at(payload)),
            Command::RspnId => CtAsk::SetSymbol(address_of(payload), text_at(payload, 20)),
            Command::RffId => CtAsk::SetFeature {
                address: address_of(payload),
                feature: payload[22] % 16,
                kind: payload[23],
            },
            Command::RsnnNn => CtAsk::SetNodeSymbol(name_at(payload, 16), text_at(payload, 24)),
            Command::DaId => CtAsk::Erase(address_of(payload)),
        }
    }
}

impl CtAsk<'_> {
    /// Whether it registers something or takes it back; any other request is a query.
    pub fn is_registration(&self) -> bool
        ensures { result ≡ server.is_registration (view self.now) }
    {
        match self {
            CtAsk::SetNode(..)
            | CtAsk::SetTypes(..)
            | CtAsk::SetSymbol(..)
            | CtAsk::SetFeature { .. }
            | CtAsk::SetNodeSymbol(..)
            | CtAsk::Erase(_) => true,
            _ => false,
        }
    }
}
