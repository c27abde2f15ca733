//! What reading and writing have to do with each other. These functions do nothing: their contracts
//! are the laws.
ghost use Rattle.std.specs.Prelude.{◌≡◌, List, ℕ, Ok};
ghost use Rattle.fcoe_codec.specs.Fcoe as spec;
ghost use Rattle.fcoe_codec.specs.Fcoe.{Fcoe, IsFcoe, MayBeWritten, decoded, written};

use crate::delimiters::{EOF_A, EOF_N, EOF_NI, EOF_T, SOF_F, SOF_I2, SOF_I3, SOF_N2, SOF_N3};

/// Each delimiter has the code of its name.
pub fn delimiters_have_their_codes()
    ensures sof_i3 { SOF_I3 ≡ spec.SOF_I3 }
    ensures sof_n3 { SOF_N3 ≡ spec.SOF_N3 }
    ensures sof_i2 { SOF_I2 ≡ spec.SOF_I2 }
    ensures sof_n2 { SOF_N2 ≡ spec.SOF_N2 }
    ensures sof_f { SOF_F ≡ spec.SOF_F }
    ensures eof_n { EOF_N ≡ spec.EOF_N }
    ensures eof_t { EOF_T ≡ spec.EOF_T }
    ensures eof_ni { EOF_NI ≡ spec.EOF_NI }
    ensures eof_a { EOF_A ≡ spec.EOF_A }
{}

/// What is written for a frame is read back.
pub fn fcoe_reads_back()
    ensures { (f : Fcoe) → MayBeWritten f → decoded (written f) ≡ Ok f }
{}

/// What is written for a frame is that frame, by the layout.
pub fn fcoe_is_written()
    ensures { (f : Fcoe) → MayBeWritten f → IsFcoe f (written f) }
{}

/// The layout relates a body to one frame at most, and that is the one that reading gives.
pub fn fcoe_stands_once()
    ensures read { (f : Fcoe) (l : List ℕ) → IsFcoe f l → decoded l ≡ Ok f }
    ensures once { (f g : Fcoe) (l : List ℕ) → IsFcoe f l → IsFcoe g l → f ≡ g }
{}
