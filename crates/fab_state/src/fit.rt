//! Whether a fabric can go on from a seam: what the parts of a state keep of each other.
ghost use Rattle.std.specs.Prelude.{◌≡◌, ◌<◌, ◌≤◌, ◌+◌, ◌^◌, Some, IsOk, OnOk, IfErr};
ghost use Rattle.fab_policy.specs.State as state;
ghost use Rattle.fab_state.specs.Fit.{IsFit};
ghost use Rattle.fab_state.specs.Fitting as fitting;

use crate::logins::logins_fault;
use crate::pasts::{are_places, are_unused, named_count, pasts_fault};
use crate::{Seam, State, Tables};
use fab_base::Moment;
use fab_config::Config;
use thiserror::Error;

/// Why no fabric can go on from a seam. The variants stand in the order of the tests.
#[derive(Clone, Copy, Debug, PartialEq, Eq, Error)]
pub enum FitWhy {
    /// Before the first tick somebody is logged in or was, or state changes were sent.
    #[error("there is no clock, and the state is not the first one")]
    Begun,
    /// The clock is no multiple of the window.
    #[error("the clock is no multiple of the window")]
    Window,
    /// The clock is at 2^43 or above.
    #[error("the clock is too late for any capture")]
    Clock,
    /// There is a moment of the last advertisements without a clock, or a clock without it.
    #[error("clock and advertisements do not stand together")]
    Alone,
    /// The advertisements are after the clock.
    #[error("the advertisements are after the clock")]
    Advertised,
    /// The next advertisements should have been sent by the clock.
    #[error("advertisements are missing")]
    Period,
    /// State changes are counted modulo 65535.
    #[error("the number of state changes is 65535 or above")]
    Changes,
    /// The greatest moment is before the clock.
    #[error("the greatest moment is before the clock")]
    Greatest,
    /// There are more or fewer ports.
    #[error("the forwarder has another number of ports")]
    Ports,
    /// The addresses are another pool's.
    #[error("the addresses are not those of the pool")]
    Pool,
    /// A login ended after the clock.
    #[error("the login ended after the clock")]
    Ended,
    /// An address is held, and nobody is logged in with it.
    #[error("the address is held by nobody")]
    Unheld,
    /// There are more logins than the configuration allows.
    #[error("there is one login too many")]
    Limit,
    /// The address isn't above that of the login before.
    #[error("the address is not above the one before")]
    Order,
    /// The address isn't of the pool, or isn't held by this port name.
    #[error("the address is not held by this port name")]
    Holder,
    /// A later login has the same port name.
    #[error("a later login has the same port name")]
    Name,
    /// A later login of the same ENode says that it was heard at another moment.
    #[error("a later login of the ENode was heard at another moment")]
    Voice,
    /// The forwarder has no such port.
    #[error("the forwarder has no such port")]
    Port,
    /// The ENode or the N_Port was heard after the clock.
    #[error("the ENode or the N_Port was heard after the clock")]
    Heard,
    /// The ENode or the N_Port was silent for too long at the clock.
    #[error("the login is overdue at the clock")]
    Overdue,
    /// The receive size is none that the name server takes.
    #[error("the receive size is not 256 to 2112 or no multiple of 4")]
    Size,
    /// The function that is watched is none of 0 to 3.
    #[error("the function that is watched is above 3")]
    Watch,
    /// There aren't 256 types, or the features of one are above 15.
    #[error("the features are not those of 256 types, four bits each")]
    Features,
    /// A symbolic name has more than 255 bytes.
    #[error("a symbolic name has more than 255 bytes")]
    Symbol,
}

/// The first fault of a seam, with its line in the text of the seam.
#[derive(Clone, Copy, Debug, PartialEq, Eq, Error)]
#[error("line {line}: {why}")]
pub struct FitFault {
    pub line: u64,
    pub why: FitWhy,
}

/// Where clocks end: no moment of a capture is so late.
const CLOCK_END: u64 = 1 << 43;

/// Where the number of state changes begins again.
const CHANGES_END: u64 = 65535;

/// Tests whether a fabric of so many ports can go on from a seam under a configuration. The tests
/// stand in the order of the lines: the head, the ports, the addresses, the number of logins, and
/// the logins.
pub fn check_fit(config: &Config, ports: u32, seam: &Seam) -> Result<(), FitFault>
    requires few { ports ≤ 64 }
    ensures ok { OnOk result (IsFit config.now ports seam.now) }
    ensures only { IsFit config.now ports seam.now → IsOk result }
    ensures first { IfErr result (λ f. fitting.fault_of config.now ports seam.now ≡ Some f) }
{
    match fault_of(config, ports, seam) {
        Some(fault) => Err(fault),
        None => Ok(()),
    }
}

pub(crate) fn at_line(line: u64, why: FitWhy) -> Option<FitFault>
    ensures { result ≡ fitting.at_line line why }
{
    Some(FitFault { line, why })
}

// The first fault.
fn fault_of(config: &Config, ports: u32, seam: &Seam) -> Option<FitFault>
    requires { ports ≤ 64 }
    ensures { result ≡ fitting.fault_of config.now ports seam.now }
{
    if let Some(fault) = head_fault(config, seam) {
        return Some(fault);
    }
    behind_head(config, ports, seam)
}

fn behind_head(config: &Config, ports: u32, seam: &Seam) -> Option<FitFault>
    requires { ports ≤ 64 }
    ensures { result ≡ fitting.behind_head config.now ports seam.now }
{
    if seam.nexts.len() != ports as usize {
        return at_line(6, FitWhy::Ports);
    }
    tables_fault(config, ports, 6 + u64::from(ports), &seam.state.tables)
}

// ---- the head

fn head_fault(config: &Config, seam: &Seam) -> Option<FitFault>
    ensures { result ≡ fitting.head_fault config.now seam.now }
{
    if let Some(fault) = clock_fault(config, &seam.state) {
        return Some(fault);
    }
    counts_fault(seam)
}

fn clock_fault(config: &Config, state: &State) -> Option<FitFault>
    ensures { result ≡ fitting.clock_fault config.now state.now state.now.tables.clock }
{
    match state.tables.clock {
        None => start_fault(state),
        Some(clock) => started_fault(config, clock, state.advertised),
    }
}

// The fault of a state without a clock.
fn start_fault(state: &State) -> Option<FitFault>
    ensures { result ≡ fitting.start_fault state.now }
{
    if state.advertised.is_some() {
        return at_line(3, FitWhy::Alone);
    }
    if is_first(state) {
        None
    } else {
        at_line(2, FitWhy::Begun)
    }
}

// Whether nobody is logged in or was, and no state changes were sent.
fn is_first(state: &State) -> bool
    ensures { result ≡ fitting.is_first state.now }
{
    state.tables.ports.len() == 0 && state.rscns == 0 && are_unused(&state.tables.past)
}

fn started_fault(config: &Config, clock: Moment, advertised: Option<Moment>) -> Option<FitFault>
    ensures { result ≡ fitting.started_fault config.now clock advertised }
{
    if !is_start(config, clock) {
        return at_line(2, FitWhy::Window);
    }
    if clock.0 >= CLOCK_END {
        return at_line(2, FitWhy::Clock);
    }
    match advertised {
        None => at_line(3, FitWhy::Alone),
        Some(last) => advertised_fault(config, clock, last),
    }
}

// Whether a moment is a multiple of the window.
fn is_start(config: &Config, clock: Moment) -> bool
    ensures { result ≡ fitting.is_start config.now clock }
{
    let rest = clock.0 % u64::from(config.window);
    rest == 0
}

fn advertised_fault(config: &Config, clock: Moment, last: Moment) -> Option<FitFault>
    ensures { result ≡ fitting.advertised_fault config.now clock last }
{
    if clock.0 < last.0 {
        return at_line(3, FitWhy::Advertised);
    }
    if u64::from(config.period) <= clock.0 - last.0 {
        return at_line(3, FitWhy::Period);
    }
    None
}

fn counts_fault(seam: &Seam) -> Option<FitFault>
    ensures { result ≡ fitting.counts_fault seam.now }
{
    if seam.state.rscns >= CHANGES_END {
        return at_line(4, FitWhy::Changes);
    }
    if seam.greatest.0 < now_of(&seam.state.tables).0 {
        return at_line(5, FitWhy::Greatest);
    }
    None
}

// The clock, 0 before the first tick.
pub(crate) fn now_of(tables: &Tables) -> Moment
    ensures { result ≡ state.now_of tables.now }
{
    match tables.clock {
        Some(clock) => clock,
        None => Moment(0),
    }
}

// ---- the tables

// The first fault of addresses and logins, the lines of the addresses beginning with this one.
fn tables_fault(config: &Config, ports: u32, line: u64, tables: &Tables) -> Option<FitFault>
    requires { line < 2 ^ 32 }
    ensures { result ≡ fitting.tables_fault config.now ports line tables.now }
{
    if !are_places(config, &tables.past) {
        return at_line(line, FitWhy::Pool);
    }
    if let Some(fault) = pasts_fault(now_of(tables), &tables.ports, line, &tables.past) {
        return Some(fault);
    }
    all_logins_fault(
        config,
        ports,
        line + named_count(&tables.past) as u64,
        tables,
    )
}

// The first fault of logins, of which the first stands in this line.
fn all_logins_fault(config: &Config, ports: u32, line: u64, tables: &Tables) -> Option<FitFault>
    requires { line < 2 ^ 33 }
    ensures { result ≡ fitting.all_logins_fault config.now ports tables.now line }
{
    if tables.ports.len() > config.limit as usize {
        return at_line(line + u64::from(config.limit), FitWhy::Limit);
    }
    logins_fault(config, ports, tables, line)
}
