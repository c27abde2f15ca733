//! Who is live in a fabric, and what the addresses of its pool were used for: the five tables and
//! the clock as one value.
#![tactic(auto)]

mod asking;
mod ending;
mod granting;
mod hearing;
mod listing;
mod reaching;
mod reading;
mod restoring;
mod roster;
mod serving;

use fab_base::OwnedList;
pub use fc_addresses::Past;
pub use granting::Request;
pub use login_table::Login;
pub use name_server::{RegFault, Values};
pub use roster::Roster;

/// Logins.
pub type LoginList = OwnedList<Login>;
