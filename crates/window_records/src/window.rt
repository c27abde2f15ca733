//! The windows of records.
ghost use Rattle.std.specs.Prelude.{◌≡◌, ◌%◌, IfSome};
ghost use Rattle.fab_policy.specs.Legal.{window_start as window_of};
ghost use Rattle.window_records.specs.First.{IsNextWindow};

use crate::Shelf;
use fab_base::Moment;
use fab_config::Config;

/// The start of the window of a moment, in milliseconds.
pub fn window_start(config: &Config, moment: Moment) -> u64
    ensures value { result ≡ window_of config.now moment }
    ensures start { result % config.now.window ≡ 0 }
{
    moment.0 - moment.0 % u64::from(config.window)
}

/// The window that comes next: the least one of the records that were looked at. None at the end of
/// all captures.
pub fn next_window(config: &Config, shelves: &[Shelf]) -> Option<u64>
    ensures least { IsNextWindow config.now shelves.now result }
    ensures start { IfSome result (λ w. w % config.now.window ≡ 0) }
{
    let mut least: Option<u64> = None;
    for shelf in shelves {
        if let Some(found) = &shelf.next {
            let window = window_start(config, found.moment);
            least = Some(least.unwrap_or(window).min(window));
        }
    }
    least
}
