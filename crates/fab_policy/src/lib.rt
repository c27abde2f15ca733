//! Events, verdicts and rules of the forwarder, and what a journal of them means.
#![tactic(auto)]

mod asker;
mod cause;
mod classes;
mod event;
mod frame_rules;
mod growing;
mod laws;
mod line;
mod lines;
mod named;
mod periods;
mod port_names;
mod ranged;
mod reading;
mod verdict;
mod verdict_words;
mod words;

pub use asker::Asker;
pub use classes::{Replied, Settled};
pub use event::Event;
pub use frame_rules::frame_rule;
pub use growing::{entries_add_to_files, entries_come_in_parts, records_come_later};
pub use laws::{
    fabric_steps, forwarding_rule, frames_are_carried, journal_steps, legal_journals, lookups,
    registrations_fit, requests_are_answered, solicitations_are_answered, tables_change,
    ticks_are_due, verdicts_are_one,
};
pub use line::{Format, Line};
pub use lines::{write_frame_line, write_head_line, write_line, write_line1, write_tick_line};
pub use named::journal_is_named;
pub use periods::PORT_PERIOD;
pub use port_names::port_name;
pub use ranged::{known, known_verdict};
pub use reading::{LineError, read_line};
pub use verdict::{Dropped, Rule, Verdict};
