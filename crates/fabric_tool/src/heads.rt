//! The heads of the captures.
ghost use Rattle.std.specs.Prelude.{◌≡◌, IsTrue, true};
ghost use Rattle.fabric_tool.specs.Command as spec;
ghost use Rattle.fabric_tool.specs.Reading.{HeadRead, HeadsRead, unopened_by};

use crate::command::{Width, count_of, input_of};
use crate::outcome::Outcome;
use crate::running::stopped;
use fab_base::{Depot, PortNo};
use pcap_file::{Budget, CapOpen, Reader, open_fault_of};
use run_files::RunFault;
use std::alloc::Global;
use window_records::Input;

/// Opens the captures of all ports, in port order, and reads their heads. Each takes 24 bytes from
/// the budget, and is answered as past it before it is looked at.
pub(crate) fn heads_of<D: Depot>(
    alloc: Global,
    depot: &mut D,
    words: &[String],
    width: Width,
    budget: &mut Budget,
) -> Result<Vec<Input>, Outcome>
    requires ports { spec.are_ports width words.now ≡ true }
    requires known { spec.AllKnown (D.seen depot.old) words.now }
    ensures reads { HeadsRead (spec.ins_of width words.now) (D.seen depot.old) (D.seen depot.new)
        budget.old budget.new result }
{
    let mut ins = Vec::new(alloc);
    for port in 0..count_of(words, width) {
        let name = input_of(words, width, port);
        let input = head_of(depot, PortNo::at(port), name, budget)?;
        match ins.push(input) {
            Ok(()) => {}
            Err(_) => return Err(Outcome::Memory),
        }
    }
    Ok(ins)
}

fn head_of<D: Depot>(
    depot: &mut D,
    port: PortNo,
    name: &str,
    budget: &mut Budget,
) -> Result<Input, Outcome>
    requires known { IsTrue ((D.seen depot.old).knows name.now) }
    ensures reads { HeadRead port name.now (D.seen depot.old) (D.seen depot.new)
        budget.old budget.new result }
{
    let Ok(slot) = depot.open_in(name) else {
        return Err(Outcome::ReadFault);
    };
    match Reader::open(depot, slot, budget) {
        Ok(reader) => Ok(Input { slot, reader }),
        Err(error) => Err(unopened(error, port)),
    }
}

// What an error of opening a port's capture ends a command with.
fn unopened(error: CapOpen, port: PortNo) -> Outcome
    ensures { result ≡ unopened_by error port }
{
    stopped(&RunFault::from(open_fault_of(error, port)))
}
