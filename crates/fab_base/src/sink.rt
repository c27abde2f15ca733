//! Where text is printed.
ghost use Rattle.std.specs.Prelude.{◌<◌, length};
ghost use Rattle.fab_base.specs.Sunk.{Sunk, Sinks};

use crate::Failed;

/// Where text is appended. `sunk` says what contracts know of it at a moment.
pub trait Sink {
    ghost sunk: { Self → Sunk };

    /// Appends the first of these bytes, and answers how many.
    fn put(&mut self, from: &[u8]) -> Result<usize, Failed>
        requires { 0 < length from.now }
        ensures sinks { Sinks from.now (sunk self.old) (sunk self.new) result };
}
