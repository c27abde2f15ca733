//! Laws of the definitions, which no code computes.
ghost use Rattle.std.specs.Prelude.{◌≡◌, ◌↔◌, ℕ, List, ◌++◌, Ok};
ghost use Rattle.fip_codec.specs.CanWrite.{CanWrite, IsTyped};
ghost use Rattle.fip_codec.specs.Message.{Fip, written};
ghost use Rattle.fip_codec.specs.Reading.{decoded, IsFip};

/// A body is decoded as a message exactly where the grammar has the two related, so it has one
/// message at most.
pub fn the_grammar_is_what_is_decoded()
    ensures read { (m : Fip) (l : List ℕ) → (decoded l ≡ Ok m) ↔ IsFip m l }
    ensures unique { (m n : Fip) (l : List ℕ) → IsFip m l → IsFip n l → m ≡ n }
{}

/// A written message is read back, whatever bytes stand behind it.
pub fn a_written_message_is_read_back()
    ensures { (m : Fip) → CanWrite m → IsTyped m → (more : List ℕ)
        → decoded (written m ++ more) ≡ Ok m }
{}
