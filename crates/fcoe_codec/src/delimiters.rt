//! The codes of the delimiters (FC-BB-5, by FC-FS-3).
ghost use Rattle.std.specs.Prelude.{◌≡◌};
ghost use Rattle.fcoe_codec.specs.Fcoe as spec;

/// SOFi3, the first frame of a sequence in class 3.
pub const SOF_I3: u8 = 0x2e;
/// SOFn3, a later frame of it.
pub const SOF_N3: u8 = 0x36;
/// SOFi2.
pub const SOF_I2: u8 = 0x2d;
/// SOFn2.
pub const SOF_N2: u8 = 0x35;
/// SOFf.
pub const SOF_F: u8 = 0x28;
/// EOFn, a frame that doesn't end its sequence.
pub const EOF_N: u8 = 0x41;
/// EOFt, the last frame of a sequence.
pub const EOF_T: u8 = 0x42;
/// EOFni.
pub const EOF_NI: u8 = 0x49;
/// EOFa.
pub const EOF_A: u8 = 0x50;

/// Whether a start has this code.
pub(crate) fn is_sof(code: u8) -> bool
    ensures { result ≡ spec.is_sof code }
{
    SOF_I3 == code || SOF_N3 == code || SOF_I2 == code || SOF_N2 == code || SOF_F == code
}

/// Whether an end has this code.
pub(crate) fn is_eof(code: u8) -> bool
    ensures { result ≡ spec.is_eof code }
{
    EOF_N == code || EOF_T == code || EOF_NI == code || EOF_A == code
}
