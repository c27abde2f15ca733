//! The standard streams, where the process was started without one of them.

use std::fs;
use std::os::fd::AsRawFd;
use std::rt::Files;

/// Those of the descriptors 0, 1 and 2 that were closed, held by /dev/null, which is opened to be
/// read: so no file gets the number of the standard output, and what is printed there fails.
#[derive(Drop)]
pub(crate) struct Held<F> {
    _first: Option<F>,
    _second: Option<F>,
    _third: Option<F>,
}

/// Holds what is closed. A descriptor gets the lowest number that is free.
pub(crate) fn hold_closed<R: Files>(rt: &R) -> Held<R::File>
where
    R::File: AsRawFd,
{
    Held {
        _first: low_descriptor(rt),
        _second: low_descriptor(rt),
        _third: low_descriptor(rt),
    }
}

// The lowest of the three that is closed, or none.
fn low_descriptor<R: Files>(rt: &R) -> Option<R::File>
where
    R::File: AsRawFd,
{
    let Ok(file) = fs::open(rt, "/dev/null") else {
        return None;
    };
    if file.as_raw_fd() > 2 {
        return None;
    }
    Some(file)
}
