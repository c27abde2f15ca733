//! What the delimiters say of a frame: its class, and its place in its sequence (FC-FS-3, "Frame
//! delimiters").
ghost use Rattle.std.specs.Prelude.{◌≡◌};
ghost use Rattle.fcoe_codec.specs.Fcoe as spec;

use crate::FcoeFrame;
use crate::delimiters::{EOF_N, EOF_T, SOF_I3, SOF_N3};

impl FcoeFrame<'_> {
    /// Whether both delimiters are of class 3.
    pub fn is_class3(&self) -> bool
        ensures { result ≡ spec.is_class3 (spec.view self.now) }
    {
        (self.sof == SOF_I3 || self.sof == SOF_N3) && (self.eof == EOF_N || self.eof == EOF_T)
    }

    /// Whether the frame is a whole sequence of class 3: SOFi3 and EOFt.
    pub fn is_sequence(&self) -> bool
        ensures { result ≡ spec.is_sequence (spec.view self.now) }
    {
        self.sof == SOF_I3 && self.eof == EOF_T
    }
}
