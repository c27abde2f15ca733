//! Names and numbers of the field, and one captured frame.
ghost use Rattle.std.specs.Prelude.{◌≡◌, ℕ, ◌+◌, ◌<◌, ◌≤◌, ◌^◌, ◌↔◌, IsTrue, IfSome, IsSome, List};

use crate::Bytes;
use std::alloc::{AllocError, AllocFailed};
use std::marker::Model;

/// A call of the outside world failed.
#[derive(Clone, Copy, Debug, PartialEq, Eq)]
pub struct Failed;

/// Memory was refused.
#[derive(Clone, Copy, Debug, PartialEq, Eq)]
pub struct NoMemory;

impl From<AllocError> for NoMemory {
    fn from(_refused: AllocError) -> NoMemory {
        NoMemory
    }
}

/// The value that wasn't stored is dropped.
impl<T: Drop> From<AllocFailed<T>> for NoMemory {
    fn from(_refused: AllocFailed<T>) -> NoMemory {
        NoMemory
    }
}

/// A MAC address (IEEE 802), its six bytes in the order of the wire.
#[derive(Clone, Copy, Debug, PartialEq, Eq, PartialOrd, Ord)]
pub struct Mac(pub [u8; 6]);

impl Model for Mac {
    ghost Value = { List ℕ };

    ghost view = { λ m. m.0 };

    ghost inverse = { λ m. record { 0 = m } };
}

/// A worldwide name of a port, a node or a switch (FC-FS-3, "Name_Identifier formats").
#[derive(Clone, Copy, Debug, PartialEq, Eq, PartialOrd, Ord)]
pub struct Wwn(pub u64);

impl Model for Wwn {
    ghost Value = { ℕ };

    ghost view = { λ m. m.0 };

    ghost inverse = { λ m. record { 0 = m } };
}

/// A moment in milliseconds.
#[derive(Clone, Copy, Debug, PartialEq, Eq, PartialOrd, Ord)]
pub struct Moment(pub u64);

impl Model for Moment {
    ghost Value = { ℕ };

    ghost view = { λ m. m.0 };

    ghost inverse = { λ m. record { 0 = m } };
}

/// A Fibre Channel address (N_Port_ID), a number of 24 bits.
#[derive(Clone, Copy, Debug, PartialEq, Eq, PartialOrd, Ord)]
pub struct FcId {
    number: u32,
}

impl Model for FcId {
    ghost Value = { ℕ };

    ghost view = { λ a. a.number };

    ghost invariant = { λ a. a.number < 2 ^ 24 };

    ghost inverse = { λ n. record { number = n } };
}

impl FcId {
    /// The address of this number, or none at 2^24 and above.
    pub fn new(value: u32) -> Option<FcId>
        ensures value { IfSome result (λ a. a ≡ value) }
        ensures some { IsSome result ↔ (value < 2 ^ 24) }
    {
        if value < 1 << 24 {
            Some(FcId { number: value })
        } else {
            None
        }
    }

    /// Its number.
    pub fn value(&self) -> u32
        ensures value { result ≡ self.now }
        ensures range { result < 2 ^ 24 }
    {
        self.number
    }
}

/// The ports of a forwarder or of a bridge, at the most.
pub const MOST_PORTS: usize = 64;

/// The number of an Ethernet port of the forwarder, 1 to 64.
#[derive(Clone, Copy, Debug, PartialEq, Eq, PartialOrd, Ord)]
pub struct PortNo {
    number: u32,
}

impl Model for PortNo {
    ghost Value = { ℕ };

    ghost view = { λ p. p.number };

    ghost invariant = { λ p. (1 ≤ p.number) × (p.number ≤ 64) };

    ghost inverse = { λ n. record { number = n } };
}

impl PortNo {
    /// The port of this number, or none at 0 and above 64.
    pub fn new(value: u32) -> Option<PortNo>
        ensures value { IfSome result (λ p. p ≡ value) }
        ensures some { IsSome result ↔ ((1 ≤ value) × (value ≤ 64)) }
    {
        if value >= 1 && value as usize <= MOST_PORTS {
            Some(PortNo { number: value })
        } else {
            None
        }
    }

    /// Its number.
    pub fn value(&self) -> u32
        ensures value { result ≡ self.now }
        ensures range { (1 ≤ result) × (result ≤ 64) }
    {
        self.number
    }

    /// Its place among the ports, counted from 0.
    pub fn index(&self) -> usize
        ensures value { result + 1 ≡ self.now }
        ensures range { result < 64 }
    {
        (self.value() - 1) as usize
    }

    /// The port at that place.
    pub fn at(index: usize) -> PortNo
        requires { index < 64 }
        ensures { result ≡ index + 1 }
    {
        PortNo::new(index as u32 + 1).unwrap()
    }
}

/// An ENode: the MAC of a node behind one port. The same MAC on two ports is two ENodes.
#[derive(Clone, Copy, Debug, PartialEq, Eq, PartialOrd, Ord)]
pub struct Enode {
    pub port: PortNo,
    pub mac: Mac,
}

/// One captured frame. It is whole where its stored length isn't below its original length.
#[derive(Debug, Drop)]
pub struct Caught {
    pub bytes: Bytes,
    pub whole: bool,
}
