//! Files under names, opened as inputs and outputs, and read and written in pieces.
ghost use Rattle.std.specs.Prelude.{◌<◌, IsTrue, length};
ghost use Rattle.fab_base.specs.Seen.{Seen, OpensIn, OpensOut, Fetches, Puts};

use crate::Failed;

/// Files under names. `seen` says what contracts know of them at a moment.
///
/// A slot is a number that an opening call gave. It stays an open input, or an open output, at
/// every later call. A failed call opens no slot, changes no file and takes nothing.
pub trait Depot {
    ghost seen: { Self → Seen };

    /// Opens the file of a known name for reading, from its first byte.
    fn open_in(&mut self, name: &str) -> Result<u32, Failed>
        requires { IsTrue ((seen self.old).knows name.now) }
        ensures opens { OpensIn name.now (seen self.old) (seen self.new) result };

    /// Opens the file of a known name for writing. It is empty then, whether it was there or not.
    fn open_out(&mut self, name: &str) -> Result<u32, Failed>
        requires { IsTrue ((seen self.old).knows name.now) }
        ensures opens { OpensOut name.now (seen self.old) (seen self.new) result };

    /// Takes the next bytes of an open input, and answers how many; 0 at the end. After an error
    /// the buffer may hold any bytes.
    fn fetch(&mut self, slot: u32, into: &mut [u8]) -> Result<usize, Failed>
        requires input { IsTrue ((seen self.old).input slot) }
        requires room { 0 < length into.old }
        ensures fetches { Fetches slot into.new (seen self.old) (seen self.new) result };

    /// Appends the first of these bytes to the file of an open output, and answers how many.
    fn put(&mut self, slot: u32, from: &[u8]) -> Result<usize, Failed>
        requires output { IsTrue ((seen self.old).output slot) }
        requires some { 0 < length from.now }
        ensures puts { Puts slot from.now (seen self.old) (seen self.new) result };
}
