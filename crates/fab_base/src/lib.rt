//! Values that the whole forwarder speaks of, and the outside world as traits.
#![tactic(auto)]

mod addressed;
mod append;
mod depot;
mod desk;
mod fabric;
pub mod fields;
mod gate;
mod lists;
mod mem_depot;
mod mem_sink;
mod sink;
mod texts;
mod values;
mod whole;

pub use addressed::HasAddress;
pub use append::{append_made, append_reserved, put};
pub use depot::Depot;
pub use desk::{Desk, DeskSlot, word_at};
pub use fabric::{earlier, fpma};
pub use gate::{Gate, OpenGate};
pub use lists::{Bytes, IdList, OwnedList};
pub use mem_depot::MemDepot;
pub use mem_sink::MemSink;
pub use sink::Sink;
pub use texts::{address_text, mac_text, wwn_text};
pub use values::{Caught, Enode, Failed, FcId, MOST_PORTS, Mac, Moment, NoMemory, PortNo, Wwn};
pub use whole::{WholeError, fill, put_all, read_whole, say_all};
