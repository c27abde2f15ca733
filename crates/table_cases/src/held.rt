//! What a case opens, and is asked of then.
ghost use Rattle.std.specs.Prelude.{◌≡◌, Some};
ghost use Rattle.case_lines.specs.Printing.{Grows};

use crate::say::end;
use crate::words::CaseFault;

/// Opens something in place of what was open, and says so. Where memory is refused it's open too.
pub fn open<T: Drop>(held: &mut Option<T>, opened: T, out: &mut Vec<u8>) -> Result<(), CaseFault>
    ensures held { held.new ≡ Some opened }
    ensures grows { Grows out.old.items out.new.items }
{
    *held = Some(opened);
    end(out, "open")
}

/// What is open.
pub fn open_in<T>(held: &mut Option<T>) -> Result<&mut T, CaseFault> {
    match held {
        Some(opened) => Ok(opened),
        None => Err(CaseFault::Closed),
    }
}
