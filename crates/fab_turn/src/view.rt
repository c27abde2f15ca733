//! What a pass knows. No value of these types is made.
use fab_base::PortNo;
use std::collections::LinkedList;

pub enum Role {
    Root,
    Of(PortNo),
    /// The pass was joined.
    Spent,
}

/// What the pass of a role knows of a lock that was opened with the value `first`, a `V`. Its
/// entries are `E`s.
pub struct View<V, E> {
    pub role: Role,
    /// The number of its ticket, counted from 0 and not modulo 2^64.
    pub ticket: Option<u64>,
    pub served: bool,
    /// The history when its turn began.
    pub taken: LinkedList<E>,
    pub seen: LinkedList<E>,
    pub own: LinkedList<E>,
    /// The root's: of the two `seen` lists of its last join, the shorter. Empty once it took a
    /// turn.
    pub met: LinkedList<E>,
    /// None in a spent view alone.
    pub first: Option<V>,
    /// The ports that the root gave out, the last first.
    pub given: LinkedList<PortNo>,
    /// The own lists of the passes that came back to the root, the last first.
    pub kept: LinkedList<(PortNo, LinkedList<E>)>,
}
