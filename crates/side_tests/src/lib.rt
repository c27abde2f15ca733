//! Tests of codecs, configurations, the bridge and the node, over public calls: what no case shows.
#![tactic(auto)]

#[cfg(test)]
mod bridge_frames;
#[cfg(test)]
mod bridge_limits;
#[cfg(test)]
mod bridge_queue;
#[cfg(test)]
mod bridge_ways;
#[cfg(test)]
mod configs;
mod faults;
#[cfg(test)]
mod node_calls;
#[cfg(test)]
mod node_files;
#[cfg(test)]
mod node_frames;
#[cfg(test)]
mod pcapng;
#[cfg(test)]
mod values;

pub use faults::TextFault;
