//! What data frames are drawn from: a linear congruence; each port takes every eighth value.
ghost use Rattle.std.specs.Prelude.{◌≡◌, ◌+◌, ◌*◌, ◌<◌, ℕ};
ghost use Rattle.fab_vectors.specs.Load as spec;

use crate::frame::LoadFrame;

const MULTIPLIER: u64 = 6_364_136_223_846_793_005;

const INCREMENT: u64 = 1_442_695_040_888_963_407;

/// The draws of a port: the value for the data frame of this turn, counted from 0.
#[derive(Clone, Copy, Debug)]
pub(crate) struct Draws {
    pub(crate) number: u64,
    pub(crate) port: u32,
    pub(crate) turn: u16,
    x: u64,
    ghost drawn: { x ≡ spec.value number (8 * turn + port) },
}

impl Draws {
    /// The draws of a port before its first data frame.
    pub(crate) fn new(number: u64, port: u32) -> Draws
        ensures number { result.number ≡ number }
        ensures port { result.port ≡ port }
        ensures turn { result.turn ≡ 0 }
    {
        let x = value_at(number, port);
        Draws {
            number,
            port,
            turn: 0,
            x,
        }
    }

    /// The next data frame.
    pub(crate) fn draw(&mut self) -> LoadFrame
        requires { self.old.turn + 1 < 65536 }
        ensures frame { result ≡ spec.data_frame self.old.number self.old.port self.old.turn }
        ensures number { self.new.number ≡ self.old.number }
        ensures port { self.new.port ≡ self.old.port }
        ensures turn { self.new.turn ≡ self.old.turn + 1 }
    {
        let turn = self.turn + 1;
        let frame = LoadFrame::Data(turn, (self.x >> 32) as u32);
        let x = next_of_port(self.x);
        *self = Draws {
            number: self.number,
            port: self.port,
            turn,
            x,
        };
        frame
    }
}

// The value at a place.
fn value_at(number: u64, place: u32) -> u64
    ensures { result ≡ spec.value number place }
{
    let mut x = number;
    for _ in 0..place {
        x = next(x);
    }
    x
}

// The value as many places later as there are ports.
fn next_of_port(x: u64) -> u64
    ensures { (number n : ℕ) → x ≡ spec.value number n → result ≡ spec.value number (n + 8) }
{
    next(next(next(next(next(next(next(next(x))))))))
}

// The value after this one.
#[tactic(auto, unfolding(crate::specs::Load::next))]
fn next(x: u64) -> u64
    ensures { result ≡ spec.next x }
{
    x.wrapping_mul(MULTIPLIER).wrapping_add(INCREMENT)
}
