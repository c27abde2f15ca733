//! Periods that a standard sets.

/// After how many milliseconds an N_Port sends its keep alive again (FC-BB-5, "FKA_VN_Period").
pub const PORT_PERIOD: u32 = 90_000;
