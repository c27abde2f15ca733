//! Where workers pass.
use crate::{FcId, PortNo};

/// Called by a worker round each of its frames. It promises nothing, and may wait.
pub trait Gate {
    /// Whether a worker may be held here, or learns anything that matters.
    const HOLDS: bool = true;

    /// Before the frame of that index is submitted.
    fn pass(&self, port: PortNo, index: u64);

    /// After the frame of that index got its verdict; with the address where it was granted one.
    fn done(&self, port: PortNo, index: u64, granted: Option<FcId>);
}

/// A gate that does nothing.
#[derive(Clone, Copy, Debug)]
pub struct OpenGate;

impl Gate for OpenGate {
    const HOLDS: bool = false;

    fn pass(&self, _port: PortNo, _index: u64) {}

    fn done(&self, _port: PortNo, _index: u64, _granted: Option<FcId>) {}
}
