//! A division by a multiple of the polynomial that has six powers alone: that of 288 bytes of
//! zeros, and those of 14, 25, 33, 89 and 107. A byte of its quotient waits for none of the last
//! 180, so that many are made at once.
ghost use Rattle.std.specs.Prelude.{◌≡◌, ℕ, ◌+◌, ◌<◌, ◌≤◌, length, slice_index};
ghost use Rattle.fc_check.specs.Division.{taken, begun};

/// Zeros.
pub(crate) fn zeros() -> [u8; 2048]
    ensures { (i : ℕ) → slice_index result i ≡ 0 }
{
    [0; 2048]
}

/// Puts four bytes in front of the quotient that fill an empty register.
pub(crate) fn begin(room: &mut [u8; 2048])
    requires { (i : ℕ) → slice_index room.old i ≡ 0 }
    ensures { (i : ℕ) → slice_index room.new i ≡ begun i }
{
    room[284] = 0x62;
    room[285] = 0xf5;
    room[286] = 0x26;
    room[287] = 0x92;
}

/// Puts the quotient of the first bytes behind 288 bytes.
pub(crate) fn divide(room: &mut [u8; 2048], bytes: &[u8], count: usize)
    requires few { count ≤ 1648 }
    requires within { count ≤ length bytes.now }
    ensures others { (i : ℕ) → (288 ≤ i → i < 288 + count → ⊥)
        → slice_index room.new i ≡ slice_index room.old i }
    ensures quotient { (i : ℕ) → i < count → slice_index room.new (288 + i)
        ≡ taken room.new i (slice_index bytes.now i) }
{
    for at in 0..count {
        room[288 + at] = less(room, at, bytes[at]);
    }
}

/// What is left of the 288 bytes behind the first ones.
pub(crate) fn rest_of(room: &[u8; 2048], bytes: &[u8], count: usize) -> [u8; 288]
    requires few { count ≤ 1648 }
    requires within { count + 288 ≤ length bytes.now }
    ensures size { length result ≡ 288 }
    ensures left { (i : ℕ) → i < 288 → slice_index result i
        ≡ taken room.now (count + i) (slice_index bytes.now (count + i)) }
    ensures fits { (i : ℕ) → slice_index room.now i < 256 }
{
    // For the proof: what stands in the room are bytes.
    known(room);
    let mut rest = fresh();
    for at in 0..288 {
        rest[at] = less(room, count + at, bytes[count + at]);
    }
    rest
}

// A byte without what the quotient takes from it.
fn less(room: &[u8; 2048], at: usize, byte: u8) -> u8
    requires { at + 107 < 2048 }
    ensures { result ≡ taken room.now at byte }
{
    byte ^ room[at + 14] ^ room[at + 25] ^ room[at + 33] ^ room[at + 89] ^ room[at + 107]
}

// Does nothing; a caller learns that each of these is a byte.
fn known(bytes: &[u8])
    ensures { (i : ℕ) → slice_index bytes.now i < 256 }
{
    let _ = bytes.len();
}

// Bytes that are all written before one is read.
fn fresh() -> [u8; 288]
    ensures { length result ≡ 288 }
{
    [0; 288]
}
