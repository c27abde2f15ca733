//! A law of the definitions, which no code computes.
ghost use Rattle.std.specs.Prelude.{◌≡◌, ℕ, List, IsTrue, Ok};
ghost use Rattle.fab_config.specs.Settings.{Settings, is_in_range};
ghost use Rattle.fab_config.specs.Text.{decoded};
ghost use Rattle.fab_config.specs.Typed.{IsTyped};
ghost use Rattle.fab_config.specs.Written.{written};

/// A written configuration is read back as itself. What a `Config` holds is in range by its
/// invariant, and typed by the types of its fields; what a text says is both, so writing and
/// reading it again changes nothing.
pub fn a_written_configuration_is_read_back()
    ensures of_value { (c : Settings) → IsTrue (is_in_range c) → IsTyped c
        → decoded (written c) ≡ Ok c }
    ensures of_text { (text : List ℕ) (c : Settings) → decoded text ≡ Ok c
        → decoded (written c) ≡ Ok c }
{}
