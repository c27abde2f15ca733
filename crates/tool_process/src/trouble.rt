//! What went wrong with a file, for whoever sits at a terminal: a line on standard error.
ghost use Rattle.std.specs.Prelude.{◌≡◌};
ghost use Rattle.tool_process.specs.Line.{why_text};

use std::io::ErrorKind;

/// Why a file wasn't taken.
#[derive(Clone, Copy, Debug, PartialEq, Eq)]
pub(crate) enum Why {
    Missing,
    Denied,
    Folder,
    Unopened,
    Unread,
    Unwritten,
}

/// What went wrong with the file of the name at a place.
#[derive(Clone, Copy, Debug, PartialEq, Eq)]
pub(crate) struct Trouble {
    pub(crate) place: usize,
    pub(crate) why: Why,
}

/// The trouble that came first.
pub(crate) fn first_of(before: Option<Trouble>, place: usize, why: Why) -> Option<Trouble> {
    before.or(Some(Trouble { place, why }))
}

/// Why a file wasn't opened.
pub(crate) fn why_of(kind: ErrorKind) -> Why {
    match kind {
        ErrorKind::NotFound => Why::Missing,
        ErrorKind::PermissionDenied => Why::Denied,
        ErrorKind::IsADirectory | ErrorKind::NotADirectory => Why::Folder,
        _ => Why::Unopened,
    }
}

impl Why {
    /// The reason in words.
    pub(crate) fn text(self) -> &'static str
        ensures { result.now ≡ why_text self }
    {
        match self {
            Why::Missing => "no such file or folder",
            Why::Denied => "permission denied",
            Why::Folder => "a folder stands where a file should, or a file where a folder should",
            Why::Unopened => "it can't be opened",
            Why::Unread => "it can't be read",
            Why::Unwritten => "it can't be written",
        }
    }
}
