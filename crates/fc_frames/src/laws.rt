//! What reading and writing have to do with each other. These functions do nothing: their contracts
//! are the laws.
ghost use Rattle.std.specs.Prelude.{◌≡◌, ◌↔◌, ◌++◌, ◌∷◌, [], true, List, ℕ, Ok, length, map};
ghost use Rattle.fc_frames.specs.Pieces.{Cuts, piece_of, pieces};
ghost use Rattle.fc_frames.specs.declared.Piece.{Piece};
ghost use Rattle.fc_frames.specs.Frame.{Fits, Frame, IsFrame, IsPayload, decoded, frame_bytes};

/// What is written for a frame is read back.
pub fn frame_reads_back()
    ensures { (f : Frame) → Fits f.head → IsPayload f.payload → decoded (frame_bytes f) ≡ Ok f }
{}

/// What is written for a frame is that frame, by the layout.
pub fn frame_is_written()
    ensures { (f : Frame) → Fits f.head → IsPayload f.payload → IsFrame f (frame_bytes f) }
{}

/// Ranges that cut a payload have its pieces in their order.
pub fn ranges_have_the_pieces()
    ensures { (l : List ℕ) (size : ℕ) (ranges : List Piece) → Cuts (length l) size 0 ranges
        → map (piece_of l) ranges ≡ pieces (length l) size l }
{}

/// Of the ranges that cut a length, the one behind which there is no other is marked, and it alone.
pub fn the_last_range_is_marked()
    ensures { (whole size : ℕ) (before after : List Piece) (p : Piece)
        → Cuts whole size 0 (before ++ p ∷ after) → (p.last ≡ true) ↔ (after ≡ []) }
{}

/// The layout relates bytes to one frame at most, and that is the one that reading gives.
pub fn frame_stands_once()
    ensures read { (f : Frame) (l : List ℕ) → IsFrame f l → decoded l ≡ Ok f }
    ensures once { (f g : Frame) (l : List ℕ) → IsFrame f l → IsFrame g l → f ≡ g }
{}
