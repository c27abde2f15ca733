//! What follows from the definitions.
ghost use Rattle.std.specs.Prelude.{◌≡◌, ℕ, length};
ghost use Rattle.fab_vectors.specs.Load.{frames};

/// So the captures of 8 ports have 20,000 frames.
pub fn each_capture_has_2500_frames()
    ensures { (number port : ℕ) → length (frames number port) ≡ 2500 }
{}
