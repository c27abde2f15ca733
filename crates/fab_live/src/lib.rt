//! A forwarder that runs: each packet of a stream is handled and written before the next is read.
#![tactic(auto)]

mod begin;
mod fault;
mod files;
mod from;
mod handling;
mod live;
mod run;

pub use fab_windows::Done;
pub use fault::LiveFault;
pub use files::LiveFiles;
pub use from::packets_go_on;
pub use pcapng_file::NgWhy;
pub use run::run_live;
pub use window_records::LimitKind;
