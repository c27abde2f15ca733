//! Tests of the commands, over the public call: what no case of tool_cases can say.
#![tactic(auto)]

#[cfg(test)]
mod counter;
#[cfg(test)]
mod gate;
#[cfg(test)]
mod inputs;
#[cfg(test)]
mod limits;
#[cfg(test)]
mod quiet;
#[cfg(test)]
mod stores;
#[cfg(test)]
mod watch;
#[cfg(test)]
mod workers;
