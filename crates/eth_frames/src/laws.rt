//! What reading and writing have to do with each other. These functions do nothing: their contracts
//! are the laws.
ghost use Rattle.std.specs.Prelude.{◌≡◌, List, ℕ, Ok};
ghost use Rattle.eth_frames.specs.Ethernet.{Eth, Fits, IsEth, decoded, written, with_pad};

/// What is written for a frame is read back, its body with the pad.
pub fn eth_reads_back()
    ensures { (f : Eth) → Fits f → decoded (written f) ≡ Ok (with_pad f) }
{}

/// What is written for a frame is that frame with its pad, by the layout.
pub fn eth_is_written()
    ensures { (f : Eth) → Fits f → IsEth (with_pad f) (written f) }
{}

/// The layout relates bytes to one frame at most, and that is the one that reading gives.
pub fn eth_stands_once()
    ensures read { (f : Eth) (l : List ℕ) → IsEth f l → decoded l ≡ Ok f }
    ensures once { (f g : Eth) (l : List ℕ) → IsEth f l → IsEth g l → f ≡ g }
{}
