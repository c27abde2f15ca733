//! The journal and the outputs, as they are opened.
ghost use Rattle.std.specs.Prelude.{◌≡◌, true};
ghost use Rattle.fabric_tool.specs.Command as spec;
ghost use Rattle.fabric_tool.specs.Opening.{OutputsOpened};

use crate::command::{output_at, port_count};
use arrayvec::ArrayVec;
use fab_base::{Depot, Failed, MOST_PORTS, word_at};
use run_files::add_slot;

/// The slots of the journal and of the outputs, by port.
#[derive(Debug, Drop)]
pub(crate) struct Outputs {
    pub(crate) journal: u32,
    pub(crate) outs: ArrayVec<u32, MOST_PORTS>,
}

/// Opens the journal and the outputs of all ports, in port order; they are empty then. It takes no
/// memory, so that none is emptied where memory is refused.
pub(crate) fn open_outputs<D: Depot>(depot: &mut D, words: &[String]) -> Result<Outputs, Failed>
    requires run { spec.are_pairs words.now ≡ true }
    requires known { spec.AllKnown (D.seen depot.old) words.now }
    ensures opens { OutputsOpened (spec.run_of words.now) (D.seen depot.old) (D.seen depot.new)
        result }
{
    let journal = depot.open_out(word_at(words, 2))?;
    let mut outs = ArrayVec::new();
    for port in 0..port_count(words) {
        let slot = depot.open_out(output_at(words, port))?;
        add_slot(&mut outs, slot);
    }
    Ok(Outputs { journal, outs })
}
