//! The command over the files of a depot.
ghost use Rattle.std.specs.Prelude.{◌≡◌, ◌≤◌, ◌⊎◌, IsTrue, Some, None};
ghost use Rattle.fab_base.specs.Seen.{Rose};
ghost use Rattle.fabric_tool.specs.Command as spec;
ghost use Rattle.fabric_tool.specs.Ends.{Ends, Holds, KeepsOthers, Prints, TouchesOwn};
ghost use Rattle.fabric_tool.specs.Texts.{IsUntouched};
ghost use Rattle.fabric_tool.specs.Rechecking.{IsRechecked, IsReplayed};
ghost use Rattle.fabric_tool.specs.Statuses.{Done, OfCommand, IsRefused, IsPastLimit};
ghost use Rattle.fabric_tool.specs.Statuses.{HasFront, IsComplete, IsNamed, Printed};

use crate::command::{Form, form_of};
use crate::converting::convert_file;
use crate::live::live;
use crate::making::make;
use crate::migrating::migrate_file;
use crate::node::enode;
use crate::outcome::{Outcome, report};
use crate::replaying::{replay, show};
use crate::running::run;
use crate::snooping::snoop;
use fab_base::{Depot, Gate, Sink};
use std::alloc::Global;
use std::sync::Wait;
use std::thread::Threads;

/// Runs a command over the files of a depot, prints its line, and answers its status.
///
/// `words` are the command line without the program's name. The forms are in the README.
pub fn fabric_tool<R: Threads + Wait + Sync, D: Depot, K: Sink, G: Gate + Sync>(
    rt: &R,
    alloc: Global,
    words: &[String],
    depot: &mut D,
    say: &mut K,
    gate: &G,
) -> u8
    requires { spec.AllKnown (D.seen depot.old) words.now }
    // The command was done. The headline, of `run`: one journal that is a run over the captures as
    // they were found, legal and safe, stands in the outputs, and its line was printed. Of
    // `convert`: the output is the capture of the input's packets. Of `snoop`: each output has the
    // frames whose way leads to it, data goes up and down exactly where a login allows it, and no
    // ENode gets what another one sent. Of `enode`: the output is what the machine sends, and a
    // forwarder that sent all of the input has granted the address that the node is up with. The
    // two texts were printed.
    ensures done { result ≡ 0 → OfCommand words.now (λ k. Done k (D.seen depot.old)
        (D.seen depot.new) (K.sunk say.old) (K.sunk say.new)) }
    // The configuration has a fault, or an input can't be taken from a place on; of `run`, the
    // outputs hold a run up to there.
    ensures refused { result ≡ 1 → OfCommand words.now (λ k. IsRefused k (D.seen depot.old)
        (D.seen depot.new)) }
    ensures words { result ≡ 2 → (spec.command words.now ≡ None)
        × IsUntouched (D.seen depot.old) (D.seen depot.new) }
    ensures no_command { spec.command words.now ≡ None →
        ¬ Rose (K.sunk say.old).faults (K.sunk say.new).faults → result ≡ 2 }
    // An input couldn't be read: every file is as it was, or the outputs of `run` hold a run up to
    // some window.
    ensures read { result ≡ 3 → OfCommand words.now (λ k. Holds k (D.seen depot.old)
        (D.seen depot.new) Outcome.ReadFault) }
    // What is printed couldn't be, or an output couldn't be written: each output is as it was, or a
    // prefix of what it would hold up to some window.
    ensures write { result ≡ 4 → Rose (K.sunk say.old).faults (K.sunk say.new).faults
        ⊎ OfCommand words.now (λ k. Holds k (D.seen depot.old)
        (D.seen depot.new) Outcome.WriteFault) }
    ensures memory { result ≡ 5 → OfCommand words.now (λ k. Holds k (D.seen depot.old)
        (D.seen depot.new) Outcome.Memory) }
    // The inputs pass a limit; of `run`, the outputs hold a run up to there.
    ensures limit { result ≡ 6 → OfCommand words.now (λ k. IsPastLimit k (D.seen depot.old)
        (D.seen depot.new)) }
    ensures statuses { result ≤ 6 }
    // No file changes but the outputs.
    ensures others { (k : spec.Command) → spec.command words.now ≡ Some k →
        KeepsOthers k (D.seen depot.old) (D.seen depot.new) }
    // No slot that was open is closed or changed, no count of another name rises and none falls,
    // and of slots of other names nothing is read.
    ensures touches { (k : spec.Command) → spec.command words.now ≡ Some k →
        TouchesOwn k (D.seen depot.old) (D.seen depot.new) }
    // The output of `convert` is as it was, or a prefix of the capture of the input's packets; that
    // of `migrate` is as it was, or a prefix of the input's journal in format 2; those of `snoop`
    // and `enode` are as they were, or prefixes of what status 0 leaves.
    ensures front { IsTrue (D.seen depot.old).told → (k : spec.Command) →
        spec.command words.now ≡ Some k → HasFront k (D.seen depot.old) (D.seen depot.new) }
    // Inputs of the right forms are taken, where nothing fails and memory is there.
    ensures complete { IsComplete words.now (D.seen depot.old) (D.seen depot.new) (K.sunk say.old)
        (K.sunk say.new) → (result ≡ 0) ⊎ (result ≡ 5) }
    // What a `run` wrote with status 0 is taken by `replay` and by `show`, where nothing fails and
    // memory is there.
    ensures rechecked { IsRechecked words.now (D.seen depot.old) (D.seen depot.new)
        (K.sunk say.old) (K.sunk say.new) → (result ≡ 0) ⊎ (result ≡ 5) }
    // What a `live` recorded with status 0 is taken by `replay` and by `show`, likewise.
    ensures replayed { IsReplayed words.now (D.seen depot.old) (D.seen depot.new)
        (K.sunk say.old) (K.sunk say.new) → (result ≡ 0) ⊎ (result ≡ 5) }
    // Where nothing fails, a command ends as its inputs say, or memory is refused.
    ensures exact { (outcome : Outcome) → IsNamed words.now outcome (D.seen depot.old)
        (D.seen depot.new) (K.sunk say.old) (K.sunk say.new) →
        Prints outcome (K.sunk say.old) (K.sunk say.new) result ⊎ (result ≡ 5) }
    // What was printed is the line of an outcome, or a prefix of it where the sink failed.
    ensures printed { IsTrue (K.sunk say.old).told → Printed words.now (D.seen depot.old)
        (D.seen depot.new) (K.sunk say.old) (K.sunk say.new) result }
    // The call ended by an outcome whose cause holds, and the line of that outcome was printed.
    ensures ends { Ends words.now (D.seen depot.old) (D.seen depot.new) (K.sunk say.old)
        (K.sunk say.new) result }
{
    // Each clause is proved from how the call ended.
    let status = run_and_report(rt, alloc, words, depot, say, gate);
    status
}

fn run_and_report<R: Threads + Wait + Sync, D: Depot, K: Sink, G: Gate + Sync>(
    rt: &R,
    alloc: Global,
    words: &[String],
    depot: &mut D,
    say: &mut K,
    gate: &G,
) -> u8
    requires { spec.AllKnown (D.seen depot.old) words.now }
    ensures ends { Ends words.now (D.seen depot.old) (D.seen depot.new) (K.sunk say.old)
        (K.sunk say.new) result }
    ensures touches { (k : spec.Command) → spec.command words.now ≡ Some k →
        TouchesOwn k (D.seen depot.old) (D.seen depot.new) }
{
    match form_of(words) {
        Some(form) => report(alloc, outcome_by(rt, alloc, form, words, depot, gate), say),
        None => report(alloc, Outcome::Words, say),
    }
}

// How words of a form end.
fn outcome_by<R: Threads + Wait + Sync, D: Depot, G: Gate + Sync>(
    rt: &R,
    alloc: Global,
    form: Form,
    words: &[String],
    depot: &mut D,
    gate: &G,
) -> Outcome
    requires form { spec.form_of words.now ≡ Some form }
    requires known { spec.AllKnown (D.seen depot.old) words.now }
    ensures holds { Holds (spec.named words.now form) (D.seen depot.old) (D.seen depot.new) result }
    ensures touches { TouchesOwn (spec.named words.now form)
        (D.seen depot.old) (D.seen depot.new) }
{
    match form {
        Form::Run => run(rt, alloc, words, depot, gate),
        Form::Replay => replay(alloc, words, depot),
        Form::Show => show(alloc, words, depot),
        Form::Convert => convert_file(alloc, words, depot),
        Form::Migrate => migrate_file(alloc, words, depot),
        Form::Make { number } => make(alloc, number, words, depot),
        Form::Snoop => snoop(alloc, words, depot),
        Form::Enode { start, own } => enode(alloc, start, own, words, depot),
        Form::Live => live(rt, alloc, words, depot),
        Form::Help => Outcome::Help,
        Form::Version => Outcome::Version,
    }
}
