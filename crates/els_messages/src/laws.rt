//! What reading and writing have to do with each other. These functions do nothing: their contracts
//! are the laws.
ghost use Rattle.std.specs.Prelude.{◌≡◌, ◌↔◌, ◌≤◌, ◌++◌, List, ℕ, None, Ok, length};
ghost use Rattle.fab_base.specs.Layout.{byte};
ghost use Rattle.els_messages.specs.Table.{command_of};
ghost use Rattle.els_messages.specs.Els.{Accept, CanWrite, Els, IsEls, IsTyped, LoginAccept};
ghost use Rattle.els_messages.specs.Els.{MayFollow, Other, decoded, parms_of, written};
ghost use Rattle.els_messages.specs.Els.{written_length};

/// What is written for a payload is read back, whatever bytes stand behind it. A short accept alone
/// isn't, where 112 bytes or more stand behind it: it is then read as the accept of a login.
pub fn els_reads_back()
    ensures back { (v : Els) (more : List ℕ) → CanWrite v → IsTyped v → MayFollow v more
        → decoded (written v ++ more) ≡ Ok v }
    ensures accept { (more : List ℕ) → 112 ≤ length more
        → decoded (written Accept ++ more) ≡ Ok (LoginAccept (parms_of (written Accept ++ more))) }
{}

/// What is written for a payload is that payload, by the layouts, and has so many bytes.
pub fn els_is_written()
    ensures size { (v : Els) → IsTyped v → length (written v) ≡ written_length v }
    ensures layout { (v : Els) → CanWrite v → IsTyped v → IsEls v (written v) }
{}

/// Bytes are read as a payload exactly where the layouts relate the two, so they are one payload at
/// most. `Other` is read exactly of commands outside the table.
pub fn els_stands_once()
    ensures read { (v : Els) (l : List ℕ) → (decoded l ≡ Ok v) ↔ IsEls v l }
    ensures other { (command : ℕ) (l : List ℕ) → (decoded l ≡ Ok (Other command))
        ↔ ((byte l 0 ≡ command) × (command_of command ≡ None) × (4 ≤ length l)) }
    ensures once { (v w : Els) (l : List ℕ) → IsEls v l → IsEls w l → v ≡ w }
{}
