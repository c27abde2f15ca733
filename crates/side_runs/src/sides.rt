//! The names of the ports' inputs and outputs.
ghost use Rattle.std.specs.Prelude.{◌≡◌, ◌<◌, ◌≤◌, length};
ghost use Rattle.side_runs.specs.Sides as spec;

use fab_base::word_at;

/// How many ports there are.
pub(crate) fn side_count(sides: &[String]) -> usize
    ensures value { result ≡ spec.side_count sides.now }
{
    sides.len() / 2
}

/// The input of a port, which is counted from 0.
pub(crate) fn input_at(sides: &[String], port: usize) -> &str
    requires { port < spec.side_count sides.now }
    ensures { result.now ≡ spec.input_at sides.now port }
{
    word_at(sides, 2 * port)
}

/// The output of a port, which is counted from 0.
pub(crate) fn output_at(sides: &[String], port: usize) -> &str
    requires { port < spec.side_count sides.now }
    ensures { result.now ≡ spec.output_at sides.now port }
{
    word_at(sides, 2 * port + 1)
}
