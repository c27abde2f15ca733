//! The command of a process.
ghost use Rattle.std.specs.Prelude.{◌≡◌, ◌≢◌, ◌≤◌, ◌⊎◌, drop, IfOk, IfErr};
ghost use Rattle.std.specs.declared.io.ErrorKind.TheVariants.{OutOfMemory};
ghost use Rattle.fabric_tool.specs.Ends.{Ends};
ghost use Rattle.tool_process.specs.Edge.{KnowsAll, untold};
ghost use Rattle.tool_process.specs.Same.{IsPrinted};

use crate::edge::{FileDepot, StdSink};
use crate::same::standard_output;
use crate::streams::hold_closed;
use crate::telling::{WRITE_FAULT, tell};
use fab_base::{NoMemory, OpenGate, Sink};
use fabric_tool::{Outcome, fabric_tool, report};
use std::alloc::{AllocGlobal, Global};
use std::io::{Eprint, ErrorKind, Print};
use std::os::fd::AsRawFd;
use std::rt::{Env, Files};
use std::sync::Wait;
use std::thread::Threads;
use std::{env, io};

/// Runs the command that the words of this process are, over real files, prints its line to the
/// standard output, and answers its status. Behind statuses 2, 3 and 4 a line on standard error
/// says which word or file it was, where that is known.
pub fn run_process<R: Threads + Wait + Sync + Files + Env + Print + Eprint + AllocGlobal>(
    rt: &R,
) -> u8
where
    R::File: AsRawFd,
    ensures statuses { result ≤ 6 }
{
    let alloc = rt.alloc();
    let _held = hold_closed(rt);
    let mut say = StdSink::new(io::writer(rt));
    let words = match words_of(rt) {
        Ok(words) => words,
        Err(outcome) => return report(alloc, outcome, &mut say),
    };
    let mut depot = match FileDepot::new(rt, alloc, &words, &standard_output(rt)) {
        Ok(depot) => depot,
        Err(NoMemory) => return report(alloc, Outcome::Memory, &mut say),
    };
    let status = status_of_process(rt, alloc, &words, &mut depot, &mut say);
    tell(rt, &words, &depot, status);
    status
}

/// Runs the command that words are over real files, prints its line, and answers its status. Where a
/// name leads to the file that is the standard output nothing is done, and the status is 4: the line
/// would be printed into it. No test holds a worker.
pub fn status_of_process<R: Threads + Wait + Sync + Files, K: Sink>(
    rt: &R,
    alloc: Global,
    words: &[String],
    depot: &mut FileDepot<'_, R>,
    say: &mut K,
) -> u8
    requires { KnowsAll depot.old.desk words.now }
    ensures printed { IsPrinted depot.old.mix → (result ≡ 4) × (depot.new ≡ depot.old)
        × (K.sunk say.new ≡ K.sunk say.old) }
    ensures ends { ¬ IsPrinted depot.old.mix → Ends words.now (untold depot.old.desk)
        (untold depot.new.desk) (K.sunk say.old) (K.sunk say.new) result }
{
    if depot.mix().is_printed() {
        return WRITE_FAULT;
    }
    fabric_tool(rt, alloc, words, depot, say, &OpenGate)
}

/// The words behind the program's name. A command line that isn't UTF-8 is no command, and memory
/// for it may be refused.
pub fn words_of<R: Env + AllocGlobal>(rt: &R) -> Result<Vec<String>, Outcome>
    ensures { IfErr result (λ o. (o ≡ Outcome.Words) ⊎ (o ≡ Outcome.Memory)) }
{
    match env::args(rt) {
        Ok(words) => match words.collect::<Vec<String>>(rt.alloc()) {
            Ok(words) => Ok(behind_the_first(words)),
            Err(_) => Err(Outcome::Memory),
        },
        Err(error) => Err(wordless(error.kind())),
    }
}

// What a process without words ends with: memory for them was refused, or they are no text.
fn wordless(kind: ErrorKind) -> Outcome
    ensures memory { kind ≡ OutOfMemory → result ≡ Outcome.Memory }
    ensures words { kind ≢ OutOfMemory → result ≡ Outcome.Words }
{
    match kind {
        ErrorKind::OutOfMemory => Outcome::Memory,
        _ => Outcome::Words,
    }
}

// All words but the first, which is the program's name.
fn behind_the_first(words: Vec<String>) -> Vec<String>
    ensures { result.items ≡ drop 1 words.items }
{
    let mut words = words;
    if !words.is_empty() {
        words.remove(0);
    }
    words
}
