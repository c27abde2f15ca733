//! A frame that came on a port.

use fab_base::PortNo;
use heard_frames::Heard;

/// A frame of a port with its index, as it was heard.
#[derive(Drop)]
pub(crate) struct Arrived<'a> {
    pub(crate) port: PortNo,
    pub(crate) index: u64,
    pub(crate) heard: &'a Heard<'a>,
}
